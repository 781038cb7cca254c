ghost use Rattle.std.specs.Prelude.{◌≤◌};
ghost use Rattle.ptp_base.specs.declared.limits.TheConstants.{DELAYS_MAX};

use crate::*;
use ptp_base::{ClockId, DELAYS_MAX, PortId, Scaled};
use std::alloc::Global;
use std::test::Fail;

const OWN: PortId = PortId {
    clock: ClockId {
        id: 0x0200_00ff_fe00_0001,
    },
    port: 1,
};

const OTHER: PortId = PortId {
    clock: ClockId {
        id: 0x0200_00ff_fe00_0001,
    },
    port: 2,
};

/// The greatest time, in ns.
const LAST: i64 = 9_223_372_036_854_775_807;

/// No delays of the own port.
fn delays(alloc: Global, length: u8) -> Result<Delays, Fail>
    requires some { 1 ≤ length }
    requires few { length ≤ DELAYS_MAX }
{
    match Delays::new(alloc, OWN, length) {
        Ok(delays) => Ok(delays),
        Err(_) => Err("new".into()),
    }
}

/// Counts the delay that the times t1 to t4 show, in ns, with the corrections of the Sync and of the
/// Delay_Resp.
fn measure(delays: &mut Delays, times: (i64, i64, i64, i64), corrections: (i64, i64)) {
    delays.triple(Triple {
        origin: times.0,
        arrived: times.1,
        correction: i128::from(corrections.0),
    });
    delays.request(1, times.2);
    delays.response(1, OWN, times.3, corrections.1);
}

/// Counts a delay so many times.
fn repeat(delays: &mut Delays, times: u8, delay: i32) {
    let correction = -i64::from(delay);
    for _ in 0..times {
        measure(delays, (0, 0, 0, 0), (correction, correction));
    }
}

#[test]
fn a_response_answers_one_request(rt: HostRuntime) -> Result<(), Fail> {
    let mut delays = delays(rt.alloc(), 1)?;
    delays.request(5, 200);
    for (name, seq, requesting, response) in [
        ("another sequence", 4, OWN, Response::Unmatched),
        ("another port", 5, OTHER, Response::Unmatched),
        ("own", 5, OWN, Response::Matched),
        ("again", 5, OWN, Response::Unmatched),
    ] {
        assert_eq!(rt;
            delays.response(seq, requesting, 193, 0),
            response,
            "{name}"
        );
    }
    Ok(())
}

#[test]
fn delays_are_exact_and_rounded_down(rt: HostRuntime) -> Result<(), Fail> {
    for (times, corrections, delay) in [
        ((100, 110, 200, 193), (-1, 0), 98_304),
        ((100, 110, 200, 193), (-1, 3), 98_303),
        ((0, 0, 0, 0), (1, 0), -1),
        ((0, LAST, 0, LAST), (0, 0), 604_462_909_807_314_587_287_552),
        ((LAST, 0, LAST, 0), (0, 0), -604_462_909_807_314_587_287_552),
    ] {
        let mut delays = delays(rt.alloc(), 1)?;
        assert_eq!(rt; delays.mean(), None);
        measure(&mut delays, times, corrections);
        let delay: Scaled = delay;
        assert_eq!(rt; delays.mean(), Some(delay));
    }
    Ok(())
}

#[test]
fn the_mean_is_the_median(rt: HostRuntime) -> Result<(), Fail> {
    for (first, second, mean) in [
        ((1, 7), (0, 0), 7),
        ((1, 1), (1, 4), 2),
        ((1, -4), (1, -1), -3),
        ((1, 5), (1, 5), 5),
        ((16, -3), (15, 8), -3),
        ((15, -3), (16, 8), 8),
        ((16, -3), (16, 8), 2),
        ((17, 8), (15, -3), 8),
    ] {
        let mut delays = delays(rt.alloc(), DELAYS_MAX)?;
        repeat(&mut delays, first.0, first.1);
        repeat(&mut delays, second.0, second.1);
        let mean: Scaled = mean;
        assert_eq!(rt; delays.mean(), Some(mean));
    }
    Ok(())
}

#[test]
fn only_the_last_delays_count(rt: HostRuntime) -> Result<(), Fail> {
    let mut delays = delays(rt.alloc(), 2)?;
    repeat(&mut delays, 1, 9);
    repeat(&mut delays, 1, 1);
    repeat(&mut delays, 1, 4);
    assert_eq!(rt; delays.mean(), Some(2));
    Ok(())
}

#[test]
fn a_flush_keeps_the_delays_alone(rt: HostRuntime) -> Result<(), Fail> {
    let mut delays = delays(rt.alloc(), 2)?;
    repeat(&mut delays, 1, 9);
    delays.request(5, 200);
    delays.flush();
    assert_eq!(rt; delays.response(5, OWN, 193, 0), Response::Unmatched);
    delays.request(6, 200);
    assert_eq!(rt; delays.response(6, OWN, 193, 0), Response::Matched);
    assert_eq!(rt; delays.mean(), Some(9));
    delays.clear();
    assert_eq!(rt; delays.mean(), None);
    Ok(())
}
