use crate::*;
use ptp_base::{Code, PortState};

const INI: PortState = PortState::Initializing;

const FLT: PortState = PortState::Faulty;

const DIS: PortState = PortState::Disabled;

const LIS: PortState = PortState::Listening;

const PRE: PortState = PortState::PreMaster;

const MAS: PortState = PortState::Master;

const PAS: PortState = PortState::Passive;

const UNC: PortState = PortState::Uncalibrated;

const SLA: PortState = PortState::Slave;

/// The events in the order of the columns below: the last column but one is S1 with the old
/// parent, and the last S1 with a new one.
const EVENTS: [PortEvent; 14] = [
    PortEvent::FaultDetected,
    PortEvent::FaultCleared,
    PortEvent::AnnounceTimeout,
    PortEvent::QualificationTimeout,
    PortEvent::MasterClockSelected,
    PortEvent::SynchronizationFault,
    PortEvent::Decided(Code::Stay),
    PortEvent::Decided(Code::M1),
    PortEvent::Decided(Code::M2),
    PortEvent::Decided(Code::M3),
    PortEvent::Decided(Code::P1),
    PortEvent::Decided(Code::P2),
    PortEvent::Decided(Code::S1),
    PortEvent::Decided(Code::S1),
];

/// IEEE 1588-2019, figure 30: each state with the states that the events lead to.
#[rattlefmt::skip]
const TABLE: [(PortState, [PortState; 14]); 9] = [
    (INI, [INI, INI, INI, INI, INI, INI, INI, INI, INI, INI, INI, INI, INI, INI]),
    (FLT, [FLT, LIS, FLT, FLT, FLT, FLT, FLT, FLT, FLT, FLT, FLT, FLT, FLT, FLT]),
    (DIS, [DIS, DIS, DIS, DIS, DIS, DIS, DIS, DIS, DIS, DIS, DIS, DIS, DIS, DIS]),
    (LIS, [FLT, LIS, MAS, LIS, LIS, LIS, LIS, PRE, PRE, PRE, PAS, PAS, UNC, UNC]),
    (PRE, [FLT, PRE, PRE, MAS, PRE, PRE, PRE, PRE, PRE, PRE, PAS, PAS, UNC, UNC]),
    (MAS, [FLT, MAS, MAS, MAS, MAS, MAS, MAS, MAS, MAS, MAS, PAS, PAS, UNC, UNC]),
    (PAS, [FLT, PAS, MAS, PAS, PAS, PAS, PAS, PRE, PRE, PRE, PAS, PAS, UNC, UNC]),
    (UNC, [FLT, UNC, MAS, UNC, SLA, UNC, UNC, PRE, PRE, PRE, PAS, PAS, UNC, UNC]),
    (SLA, [FLT, SLA, MAS, SLA, SLA, UNC, SLA, PRE, PRE, PRE, PAS, PAS, SLA, UNC]),
];

const TIMERS: [Timer; 5] = [
    Timer::AnnounceReceipt,
    Timer::Qualification,
    Timer::AnnounceSend,
    Timer::SyncSend,
    Timer::DelayRequest,
];

#[test]
fn each_cell_of_the_table(rt: HostRuntime) {
    for (state, row) in TABLE {
        for (column, (event, want)) in EVENTS.iter().zip(row.iter()).enumerate() {
            // Only S1 asks for the parent.
            if column != 13 {
                assert_eq!(rt; next(state, *event, false), *want, "{state:?} {event:?}");
            }
            if column != 12 {
                assert_eq!(rt;
                    next(state, *event, true),
                    *want,
                    "{state:?} {event:?}, new parent"
                );
            }
        }
    }
}

#[test]
fn no_timer_is_due(rt: HostRuntime) {
    let timers = Timers::none();
    assert_eq!(rt; timers.due(), None);
    for timer in TIMERS {
        assert_eq!(rt; timers.at(timer), None, "{timer:?}");
    }
}

#[test]
fn the_least_moment_is_due(rt: HostRuntime) {
    // By timer, in their order; 0 means that it is not set.
    for (moments, want) in [
        ([5, 0, 0, 0, 0], (5, Timer::AnnounceReceipt)),
        ([0, 5, 0, 0, 0], (5, Timer::Qualification)),
        ([0, 0, 5, 0, 0], (5, Timer::AnnounceSend)),
        ([0, 0, 0, 5, 0], (5, Timer::SyncSend)),
        ([0, 0, 0, 0, 5], (5, Timer::DelayRequest)),
        ([9, 8, 7, 6, 5], (5, Timer::DelayRequest)),
        ([5, 6, 7, 8, 9], (5, Timer::AnnounceReceipt)),
        ([9, 9, 9, 5, 9], (5, Timer::SyncSend)),
        (
            [u64::MAX, 0, u64::MAX, 0, 0],
            (u64::MAX, Timer::AnnounceReceipt),
        ),
    ] {
        let mut timers = Timers::none();
        for (timer, at) in TIMERS.iter().zip(moments.iter()) {
            if *at != 0 {
                timers.set(*timer, *at);
            }
        }
        assert_eq!(rt; timers.due(), Some(want));
    }
}

#[test]
fn equal_moments_go_in_order(rt: HostRuntime) {
    let mut timers = Timers::none();
    // The first of the order is set last.
    for timer in TIMERS.iter().rev() {
        timers.set(*timer, 7);
    }
    for timer in TIMERS {
        assert_eq!(rt; timers.due(), Some((7, timer)));
        timers.clear(timer);
        assert_eq!(rt; timers.at(timer), None, "{timer:?}");
    }
    assert_eq!(rt; timers, Timers::none());
}

#[test]
fn a_timer_is_set_anew(rt: HostRuntime) {
    for timer in TIMERS {
        let mut timers = Timers::none();
        timers.set(timer, 3);
        timers.set(timer, 8);
        assert_eq!(rt; timers.due(), Some((8, timer)));
        assert_eq!(rt; timers.at(timer), Some(8));
    }
}
