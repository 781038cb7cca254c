ghost use Rattle.model_clock.specs.Clock.{IsClock};

use crate::*;
use ptp_base::{FREQ_MAX, TICK_MAX, TIME_MAX};

const SECOND: u64 = 1_000_000_000;

// The ppb of a frequency or a drift.
const PPB: i64 = 65_536;

// A clock that reads 0 at tick 0.
fn clock(drift: i64) -> ClockState
    ensures { IsClock result }
{
    ClockState {
        tick: 0,
        time: 0,
        freq: 0,
        drift,
    }
}

#[test]
fn a_clock_drifts_and_is_changed(rt: HostRuntime) {
    let fast = clock(65_536_000);
    assert_eq!(rt; fast.read(0), 0);
    assert_eq!(rt; fast.read(SECOND), 1_000_001_000);
    let tuned = fast.change(SECOND, -1000, -65_536_000);
    assert_eq!(rt; tuned.read(SECOND), 1_000_000_000);
    assert_eq!(rt; tuned.read(SECOND / 2), 1_000_000_000);
    assert_eq!(rt; tuned.read(2 * SECOND), 2_000_000_000);
    assert_eq!(rt;
        tuned,
        ClockState {
            tick: SECOND,
            time: 1_000_000_000,
            freq: -65_536_000,
            drift: 65_536_000,
        }
    );
    assert_eq!(rt; fast.change(SECOND, -TIME_MAX, 0).time, 0);
    assert_eq!(rt; fast.change(SECOND, TIME_MAX, 0).time, TIME_MAX);
}

#[test]
fn the_greatest_drifts_at_the_last_tick(rt: HostRuntime) {
    assert_eq!(rt; clock(-10_000_000 * PPB).read(TICK_MAX), 99_000_000_000_000);
    assert_eq!(rt; clock(10_000_000 * PPB).read(TICK_MAX), 101_000_000_000_000);
    assert_eq!(rt;
        clock(0).change(0, 0, -FREQ_MAX).read(TICK_MAX),
        10_000_000_000_000
    );
    assert_eq!(rt;
        clock(0).change(0, 0, FREQ_MAX).read(TICK_MAX),
        190_000_000_000_000
    );
}

#[test]
fn a_change_is_no_earlier_than_the_last(rt: HostRuntime) {
    // What is less than a nanosecond is rounded down on both sides of 0.
    assert_eq!(rt; clock(-1).read(1), 0);
    assert_eq!(rt; clock(1).read(SECOND), 1_000_000_000);
    let first = clock(0).change(2 * SECOND, 5, 100_000_000 * PPB);
    let second = first.change(SECOND, 7, 50_000_000 * PPB);
    assert_eq!(rt;
        second,
        ClockState {
            tick: 2 * SECOND,
            time: 2_000_000_012,
            freq: 50_000_000 * PPB,
            drift: 0,
        }
    );
    assert_eq!(rt; second.read(3 * SECOND), 3_050_000_012);
}
