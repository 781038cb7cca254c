ghost use Rattle.std.specs.Prelude.{◌≡◌};

use crate::*;
use ptp_base::{Announcement, ClockId, PortId, PortState, Quality, TimeProps};
use std::alloc::Global;

const OWN: ClockId = ClockId {
    id: 0x0200_00ff_fe00_0001,
};

const GRANDMASTER: ClockId = ClockId {
    id: 0x000c_00ff_fe00_0001,
};

/// Port 3 of a boundary clock.
const SENDER: PortId = PortId {
    clock: ClockId {
        id: 0x000a_00ff_fe00_0001,
    },
    port: 3,
};

const OWN_QUALITY: Quality = Quality {
    priority1: 128,
    class: 248,
    accuracy: 0xfe,
    variance: 0xffff,
    priority2: 128,
};

const BETTER_QUALITY: Quality = Quality {
    priority1: 100,
    class: 6,
    accuracy: 0x21,
    variance: 0x4e5d,
    priority2: 127,
};

const LOCAL_TIME: TimeProps = TimeProps {
    utc_offset: 37,
    flags: 8,
    source: 0xa0,
};

const GPS_TIME: TimeProps = TimeProps {
    utc_offset: 36,
    flags: 0x3c,
    source: 0x20,
};

/// The fields that a decision sets.
type Fields = (PortId, ClockId, Quality, u16, TimeProps);

const OWN_FIELDS: Fields = (
    PortId {
        clock: OWN,
        port: 0,
    },
    OWN,
    OWN_QUALITY,
    0,
    LOCAL_TIME,
);

/// After an Announce of so many steps less one.
fn better_fields(steps: u16) -> Fields {
    (SENDER, GRANDMASTER, BETTER_QUALITY, steps, GPS_TIME)
}

fn fields(d: &DataSets) -> Fields {
    (d.parent, d.grandmaster, d.gm_quality, d.steps, d.time)
}

/// The own announcement, whose time is not asked for.
fn own() -> Announcement {
    Announcement {
        grandmaster: OWN,
        quality: OWN_QUALITY,
        steps: 0,
        sender: PortId {
            clock: OWN,
            port: 0,
        },
        receiver: PortId {
            clock: OWN,
            port: 0,
        },
        time: GPS_TIME,
        alternate: false,
    }
}

/// What another clock says of a better grandmaster.
fn better(steps: u16) -> Announcement
    ensures { result.steps ≡ steps }
{
    Announcement {
        grandmaster: GRANDMASTER,
        quality: BETTER_QUALITY,
        steps,
        sender: SENDER,
        receiver: PortId {
            clock: OWN,
            port: 1,
        },
        time: GPS_TIME,
        alternate: false,
    }
}

/// The data sets of a clock that follows nobody.
fn alone(alloc: Global) -> DataSets {
    DataSets::new(own(), 24, LOCAL_TIME, PortSets::new(alloc))
}

#[test]
fn a_new_clock_follows_nobody(rt: HostRuntime) {
    let mut ports = PortSets::new(rt.alloc());
    let port = PortSet {
        id: PortId {
            clock: OWN,
            port: 1,
        },
        state: PortState::Listening,
        log_announce: 1,
        log_sync: 0,
        log_delay: -3,
        receipt: 3,
    };
    assert!(rt; ports.push(port).is_ok());
    let d = DataSets::new(own(), 24, LOCAL_TIME, ports);
    assert_eq!(rt; fields(&d), OWN_FIELDS);
    assert_eq!(rt; (d.own, d.domain, d.local_time), (own(), 24, LOCAL_TIME));
    assert_eq!(rt; (d.offset, d.delay), (0, 0));
    assert_eq!(rt; d.ports.items(), [port].as_slice());
}

#[test]
fn each_code_is_applied(rt: HostRuntime) {
    let near = better(4);
    let far = better(0);
    // From data sets that follow nobody, and from those that follow the grandmaster at one step.
    for (code, from_own, from_better) in [
        (Code::Stay, OWN_FIELDS, better_fields(1)),
        (Code::M1, OWN_FIELDS, OWN_FIELDS),
        (Code::M2, OWN_FIELDS, OWN_FIELDS),
        (Code::M3, OWN_FIELDS, better_fields(1)),
        (Code::P1, OWN_FIELDS, better_fields(1)),
        (Code::P2, OWN_FIELDS, better_fields(1)),
        (Code::S1, better_fields(5), better_fields(5)),
    ] {
        let mut d = alone(rt.alloc());
        d.apply(code, Some(&near));
        assert_eq!(rt; fields(&d), from_own, "{code:?}");

        let mut d = alone(rt.alloc());
        d.apply(Code::S1, Some(&far));
        d.offset = -65_536;
        d.delay = 131_072;
        d.apply(code, Some(&near));
        assert_eq!(rt; fields(&d), from_better, "{code:?}");
        assert_eq!(rt; (d.offset, d.delay), (-65_536, 131_072), "{code:?}");
        assert_eq!(rt;
            (d.own, d.domain, d.local_time),
            (own(), 24, LOCAL_TIME),
            "{code:?}"
        );
    }
}

#[test]
fn steps_go_to_255(rt: HostRuntime) {
    let mut d = alone(rt.alloc());
    let farthest = better(254);
    d.apply(Code::S1, Some(&farthest));
    assert_eq!(rt; d.steps, 255);
    d.apply(Code::S1, None);
    assert_eq!(rt; d.steps, 255);
    d.apply(Code::M2, None);
    assert_eq!(rt; fields(&d), OWN_FIELDS);
}
