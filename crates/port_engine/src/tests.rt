ghost use Rattle.std.specs.Prelude.{◌≤◌};
ghost use Rattle.ptp_base.specs.declared.time.TheConstants.{TICK_MAX};

use crate::*;
use data_sets::DataSets;
use port_fsm::{PortEvent, Timer, next};
use ptp_base::{
    Announcement, ClockId, Code, Items, Octets, PortId, PortState, Quality, TICK_MAX, TimeProps,
};
use ptp_wire::{Body, Message};
use std::alloc::Global;
use std::test::Fail;

/// Announces each 2 s, Syncs each second, Delay_Reqs each 4 s; three Announces are waited for.
const CONF: PortConf = PortConf {
    clock: 0,
    log_announce: 1,
    log_sync: 0,
    log_delay: 2,
    receipt: 3,
};

const OWN: PortId = PortId {
    clock: ClockId {
        id: 0x0200_00ff_fe00_0001,
    },
    port: 1,
};

const PARENT: PortId = PortId {
    clock: ClockId {
        id: 0x000a_00ff_fe00_0001,
    },
    port: 3,
};

const SECOND: u64 = 1_000_000_000;

/// What its clock shows at 7 s.
const SEEN: i64 = 7_000_000_000;

const TIMERS: [Timer; 5] = [
    Timer::AnnounceReceipt,
    Timer::Qualification,
    Timer::AnnounceSend,
    Timer::SyncSend,
    Timer::DelayRequest,
];

/// The first Sync of a master, sent at 7 s.
#[rattlefmt::skip]
const SYNC: [u8; 44] = [
    0x00, 0x12, 0x00, 0x2c, 0x00, 0x00, 0x02, 0x00, 0x00, 0x00, 0x00, 0x00, 0x00, 0x00, 0x00, 0x00,
    0x00, 0x00, 0x00, 0x00, 0x02, 0x00, 0x00, 0xff, 0xfe, 0x00, 0x00, 0x01, 0x00, 0x01, 0x00, 0x00,
    0x00, 0x00, 0x00, 0x00, 0x00, 0x00, 0x00, 0x00, 0x00, 0x00, 0x00, 0x00,
];

/// Its Follow_Up.
#[rattlefmt::skip]
const FOLLOW_UP: [u8; 44] = [
    0x08, 0x12, 0x00, 0x2c, 0x00, 0x00, 0x00, 0x00, 0x00, 0x00, 0x00, 0x00, 0x00, 0x00, 0x00, 0x00,
    0x00, 0x00, 0x00, 0x00, 0x02, 0x00, 0x00, 0xff, 0xfe, 0x00, 0x00, 0x01, 0x00, 0x01, 0x00, 0x00,
    0x02, 0x00, 0x00, 0x00, 0x00, 0x00, 0x00, 0x07, 0x00, 0x00, 0x00, 0x00,
];

/// Its Announce.
#[rattlefmt::skip]
const ANNOUNCE: [u8; 64] = [
    0x0b, 0x12, 0x00, 0x40, 0x00, 0x00, 0x00, 0x08, 0x00, 0x00, 0x00, 0x00, 0x00, 0x00, 0x00, 0x00,
    0x00, 0x00, 0x00, 0x00, 0x02, 0x00, 0x00, 0xff, 0xfe, 0x00, 0x00, 0x01, 0x00, 0x01, 0x00, 0x00,
    0x05, 0x01, 0x00, 0x00, 0x00, 0x00, 0x00, 0x00, 0x00, 0x00, 0x00, 0x00, 0x00, 0x25, 0x00, 0x80,
    0xf8, 0xfe, 0xff, 0xff, 0x80, 0x02, 0x00, 0x00, 0xff, 0xfe, 0x00, 0x00, 0x01, 0x00, 0x00, 0xa0,
];

/// The first Delay_Req of a port that follows.
#[rattlefmt::skip]
const REQUEST: [u8; 44] = [
    0x01, 0x12, 0x00, 0x2c, 0x00, 0x00, 0x00, 0x00, 0x00, 0x00, 0x00, 0x00, 0x00, 0x00, 0x00, 0x00,
    0x00, 0x00, 0x00, 0x00, 0x02, 0x00, 0x00, 0xff, 0xfe, 0x00, 0x00, 0x01, 0x00, 0x01, 0x00, 0x00,
    0x01, 0x7f, 0x00, 0x00, 0x00, 0x00, 0x00, 0x00, 0x00, 0x00, 0x00, 0x00,
];

/// The answer of a master to a Delay_Req with sequence 9 and a correction of 1 ns.
#[rattlefmt::skip]
const RESPONSE: [u8; 54] = [
    0x09, 0x12, 0x00, 0x36, 0x00, 0x00, 0x00, 0x00, 0x00, 0x00, 0x00, 0x00, 0x00, 0x01, 0x00, 0x00,
    0x00, 0x00, 0x00, 0x00, 0x02, 0x00, 0x00, 0xff, 0xfe, 0x00, 0x00, 0x01, 0x00, 0x01, 0x00, 0x09,
    0x03, 0x02, 0x00, 0x00, 0x00, 0x00, 0x00, 0x07, 0x00, 0x00, 0x00, 0x00, 0x00, 0x0a, 0x00, 0xff,
    0xfe, 0x00, 0x00, 0x01, 0x00, 0x03,
];

const UNC: PortState = PortState::Uncalibrated;

/// Events one after another, each at a moment in seconds and with whether there is a new parent, the
/// state that it leads to, and what the timers are then set for, in seconds; 0 means that one is not
/// set.
#[rattlefmt::skip]
const EVENTS: [(PortEvent, bool, u8, PortState, [u8; 5]); 16] = [
    (PortEvent::Decided(Code::S1), true, 10, UNC, [16, 0, 0, 0, 14]),
    (PortEvent::Decided(Code::S1), true, 11, UNC, [17, 0, 0, 0, 14]),
    (PortEvent::MasterClockSelected, false, 12, PortState::Slave, [17, 0, 0, 0, 14]),
    (PortEvent::SynchronizationFault, false, 13, UNC, [17, 0, 0, 0, 14]),
    (PortEvent::MasterClockSelected, false, 14, PortState::Slave, [17, 0, 0, 0, 14]),
    (PortEvent::Decided(Code::S1), true, 15, UNC, [21, 0, 0, 0, 14]),
    (PortEvent::Decided(Code::P1), false, 20, PortState::Passive, [26, 0, 0, 0, 0]),
    (PortEvent::Decided(Code::M3), false, 21, PortState::PreMaster, [0, 27, 0, 0, 0]),
    (PortEvent::QualificationTimeout, false, 27, PortState::Master, [0, 0, 29, 28, 0]),
    (PortEvent::Decided(Code::M2), false, 28, PortState::Master, [0, 0, 29, 28, 0]),
    (PortEvent::FaultDetected, false, 30, PortState::Faulty, [0, 0, 0, 0, 0]),
    (PortEvent::FaultCleared, false, 31, PortState::Listening, [37, 0, 0, 0, 0]),
    (PortEvent::Decided(Code::M1), false, 32, PortState::PreMaster, [0, 32, 0, 0, 0]),
    (PortEvent::Decided(Code::P2), false, 33, PortState::Passive, [39, 0, 0, 0, 0]),
    (PortEvent::Decided(Code::M2), false, 34, PortState::PreMaster, [0, 34, 0, 0, 0]),
    (PortEvent::Decided(Code::S1), false, 35, UNC, [41, 0, 0, 0, 39]),
];

/// The tick of a second.
fn tick(second: u8) -> u64
    ensures { result ≤ TICK_MAX }
{
    u64::from(second) * SECOND
}

fn engine(alloc: Global) -> Result<PortEngine, Fail> {
    match PortEngine::new(alloc, &CONF, OWN, 10) {
        Ok(engine) => Ok(engine),
        Err(_) => Err("new".into()),
    }
}

/// The data sets of a clock that follows nobody.
fn own_sets(alloc: Global) -> DataSets {
    let time = TimeProps {
        utc_offset: 37,
        flags: 8,
        source: 0xa0,
    };
    let own = Announcement {
        grandmaster: OWN.clock,
        quality: Quality {
            priority1: 128,
            class: 248,
            accuracy: 0xfe,
            variance: 0xffff,
            priority2: 128,
        },
        steps: 0,
        sender: OWN,
        receiver: OWN,
        time,
        alternate: false,
    };
    DataSets::new(own, 0, time, Items::new(alloc))
}

/// An event of the port, with two steps to the grandmaster.
fn happen(engine: &mut PortEngine, cause: PortEvent, new_parent: bool, moment: u64)
    requires { moment ≤ TICK_MAX }
{
    let new = next(engine.state(), cause, new_parent);
    engine.enter(new, cause, new_parent, moment, 2);
}

/// Fires a timer that is set, with the reading of 7 s.
fn fire(engine: &mut PortEngine, t: Timer, d: &DataSets, frames: &mut Frames) -> Result<(), Fail> {
    match engine.at(t) {
        Some(tick) if tick <= TICK_MAX => match engine.fire(t, SEEN, d, frames) {
            Ok(()) => Ok(()),
            Err(_) => Err("fire".into()),
        },
        _ => Err("not set".into()),
    }
}

/// The first timer that is not set as these seconds say, where 0 means that it is not set.
fn otherwise_set(engine: &PortEngine, set: &[u8; 5]) -> Option<Timer> {
    for (t, second) in TIMERS.iter().zip(set.iter()) {
        let want = if *second == 0 {
            None
        } else {
            Some(tick(*second))
        };
        if engine.at(*t) != want {
            return Some(*t);
        }
    }
    None
}

/// A message of the parent.
fn from_parent(seq: u16, flags: u16, body: Body) -> Message {
    Message {
        domain: 0,
        flags,
        correction: 65_536,
        sender: PARENT,
        seq,
        log_interval: 0,
        body,
    }
}

fn hear(
    engine: &mut PortEngine,
    m: &Message,
    frames: &mut Frames,
) -> Result<(Fate, Option<Measure>), Fail> {
    match engine.heard(m, SEEN, PARENT, frames) {
        Ok(heard) => Ok(heard),
        Err(_) => Err("heard".into()),
    }
}

#[test]
fn states_set_timers(rt: HostRuntime) -> Result<(), Fail> {
    let mut engine = engine(rt.alloc())?;
    for (cause, new_parent, moment, state, set) in EVENTS {
        happen(&mut engine, cause, new_parent, tick(moment));
        assert_eq!(rt; engine.state(), state, "{cause:?} at {moment}");
        assert_eq!(rt; otherwise_set(&engine, &set), None, "{cause:?} at {moment}");
    }
    assert_eq!(rt; engine.due(), Some((39 * SECOND, Timer::DelayRequest)));
    Ok(())
}

#[test]
fn two_timers_send_nothing(rt: HostRuntime) -> Result<(), Fail> {
    let mut engine = engine(rt.alloc())?;
    let d = own_sets(rt.alloc());
    let mut frames = Frames::new(rt.alloc());
    fire(&mut engine, Timer::AnnounceReceipt, &d, &mut frames)?;
    assert_eq!(rt; engine.due(), None);
    happen(&mut engine, PortEvent::Decided(Code::M1), false, 6 * SECOND);
    fire(&mut engine, Timer::Qualification, &d, &mut frames)?;
    assert_eq!(rt; engine.due(), None);
    happen(&mut engine, PortEvent::Decided(Code::S1), true, 7 * SECOND);
    fire(&mut engine, Timer::DelayRequest, &d, &mut frames)?;
    let sent = frames.items();
    assert_eq!(rt; sent.len(), 1);
    assert_eq!(rt; sent[0].items(), REQUEST.as_slice());
    Ok(())
}

#[test]
fn a_master_sends_octet_by_octet(rt: HostRuntime) -> Result<(), Fail> {
    let mut engine = engine(rt.alloc())?;
    let d = own_sets(rt.alloc());
    let mut frames = Frames::new(rt.alloc());
    frames.reserve().map_err(|_| "reserve")?;
    happen(&mut engine, PortEvent::AnnounceTimeout, false, 6 * SECOND);
    fire(&mut engine, Timer::SyncSend, &d, &mut frames)?;
    assert_eq!(rt; engine.at(Timer::SyncSend), Some(8 * SECOND));
    fire(&mut engine, Timer::AnnounceSend, &d, &mut frames)?;
    assert_eq!(rt; engine.at(Timer::AnnounceSend), Some(10 * SECOND));
    fire(&mut engine, Timer::SyncSend, &d, &mut frames)?;
    let sent = frames.into_items();
    let sent = sent.items();
    assert_eq!(rt; sent.len(), 5);
    assert_eq!(rt; sent[0].items(), SYNC.as_slice());
    assert_eq!(rt; sent[1].items(), FOLLOW_UP.as_slice());
    assert_eq!(rt; sent[2].items(), ANNOUNCE.as_slice());
    assert_eq!(rt; sent[3].items().get(31), Some(&1));
    Ok(())
}

#[test]
fn a_frame_is_added_as_it_stands(rt: HostRuntime) -> Result<(), Fail> {
    let mut engine = engine(rt.alloc())?;
    let d = own_sets(rt.alloc());
    let mut frames = Frames::new(rt.alloc());
    happen(&mut engine, PortEvent::AnnounceTimeout, false, 6 * SECOND);
    fire(&mut engine, Timer::AnnounceSend, &d, &mut frames)?;
    let own = Octets::from_vec(vec![in rt.alloc(); 1, 2, 3]?);
    frames.push(own).map_err(|_| "push")?;
    fire(&mut engine, Timer::SyncSend, &d, &mut frames)?;
    let sent = frames.items();
    assert_eq!(rt; sent.len(), 4);
    assert_eq!(rt; sent[0].items(), ANNOUNCE.as_slice());
    assert_eq!(rt; sent[1].items(), [1, 2, 3].as_slice());
    assert_eq!(rt; sent[2].items(), SYNC.as_slice());
    assert_eq!(rt; sent[3].items(), FOLLOW_UP.as_slice());
    Ok(())
}

#[test]
fn only_a_master_answers(rt: HostRuntime) -> Result<(), Fail> {
    let mut engine = engine(rt.alloc())?;
    let mut frames = Frames::new(rt.alloc());
    let request = from_parent(9, 0, Body::DelayReq { origin: 0 });
    let passed = hear(&mut engine, &request, &mut frames)?;
    assert_eq!(rt; passed, (Fate::Ignored, None));
    happen(&mut engine, PortEvent::AnnounceTimeout, false, 6 * SECOND);
    let answered = hear(&mut engine, &request, &mut frames)?;
    assert_eq!(rt; answered, (Fate::Answered, None));
    let sent = frames.items();
    assert_eq!(rt; sent.len(), 1);
    assert_eq!(rt; sent[0].items(), RESPONSE.as_slice());
    Ok(())
}

#[test]
fn a_slave_measures(rt: HostRuntime) -> Result<(), Fail> {
    let mut engine = engine(rt.alloc())?;
    let d = own_sets(rt.alloc());
    let mut frames = Frames::new(rt.alloc());
    happen(&mut engine, PortEvent::Decided(Code::S1), true, SECOND);
    let sync = from_parent(5, 0x0200, Body::Sync { origin: 0 });
    let follow_up = from_parent(
        5,
        0,
        Body::FollowUp {
            precise: SEEN - 100,
        },
    );
    let response = from_parent(
        0,
        0,
        Body::DelayResp {
            receive: SEEN + 105,
            requesting: OWN,
        },
    );
    let waiting = hear(&mut engine, &sync, &mut frames)?;
    assert_eq!(rt; waiting, (Fate::Waiting, None));
    let paired = hear(&mut engine, &follow_up, &mut frames)?;
    assert_eq!(rt; paired, (Fate::Paired, None));
    fire(&mut engine, Timer::DelayRequest, &d, &mut frames)?;
    assert_eq!(rt; engine.at(Timer::DelayRequest), Some(9 * SECOND));
    let matched = hear(&mut engine, &response, &mut frames)?;
    assert_eq!(rt; matched, (Fate::Matched, None));
    let unmatched = hear(&mut engine, &response, &mut frames)?;
    assert_eq!(rt; unmatched, (Fate::Unmatched, None));
    let waiting = hear(&mut engine, &sync, &mut frames)?;
    assert_eq!(rt; waiting, (Fate::Waiting, None));
    // The delay is (100 + 105 - 3) / 2 = 101 ns, the offset 100 - 101 - 2 = -3 ns.
    let measured = hear(&mut engine, &follow_up, &mut frames)?;
    assert_eq!(rt;
        measured,
        (
            Fate::Paired,
            Some(Measure {
                offset: -196_608,
                delay: 6_619_136,
                local: SEEN,
            })
        )
    );
    engine.jumped();
    engine.renew(8 * SECOND);
    assert_eq!(rt; engine.at(Timer::AnnounceReceipt), Some(14 * SECOND));
    Ok(())
}

#[test]
fn sequences_count_modulo_65536(rt: HostRuntime) -> Result<(), Fail> {
    let often = PortConf {
        log_sync: -7,
        ..CONF
    };
    let mut engine = PortEngine::new(rt.alloc(), &often, OWN, 1).map_err(|_| "new")?;
    let d = own_sets(rt.alloc());
    happen(&mut engine, PortEvent::AnnounceTimeout, false, 0);
    for _ in 0..65_535 {
        let mut frames = Frames::new(rt.alloc());
        fire(&mut engine, Timer::SyncSend, &d, &mut frames)?;
    }
    let mut frames = Frames::new(rt.alloc());
    fire(&mut engine, Timer::SyncSend, &d, &mut frames)?;
    fire(&mut engine, Timer::SyncSend, &d, &mut frames)?;
    for (frame, seq) in [(0, [255, 255]), (1, [255, 255]), (2, [0, 0]), (3, [0, 0])] {
        let sent = frames.items().get(frame).ok_or("sent")?;
        assert_eq!(rt; sent.items().get(30..32), Some(seq.as_slice()));
    }
    Ok(())
}
