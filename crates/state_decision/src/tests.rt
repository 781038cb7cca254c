ghost use Rattle.std.specs.Prelude.{◌≡◌, ◌<◌, ◌≤◌, ◌+◌, length, replicate, slice_set};
ghost use Rattle.state_decision.specs.DeciderView.{unset};
ghost use Rattle.state_decision.specs.declared.tests.TheConstants.{FIRST};

use crate::*;
use ds_compare::Steps;
use ptp_base::{Announcement, ClockId, PortId, PortState, Quality, TimeProps};
use std::alloc::Global;
use std::marker::Brand;
use std::sync::ledger::{Blank, Ledger};
use std::test::Fail;

const OWN: u64 = 0x0200_00ff_fe00_0001;

const MASTER: u64 = 0x000a_00ff_fe00_0001;

/// The port of a clock.
fn port(id: u64, port: u16) -> PortId {
    PortId {
        clock: ClockId { id },
        port,
    }
}

/// The own announcement of a clock of this class.
fn own(class: u8) -> Announcement {
    Announcement {
        grandmaster: ClockId { id: OWN },
        quality: Quality {
            priority1: 128,
            class,
            accuracy: 0xfe,
            variance: 0xffff,
            priority2: 128,
        },
        steps: 0,
        sender: port(OWN, 0),
        receiver: port(OWN, 0),
        time: TimeProps {
            utc_offset: 37,
            flags: 8,
            source: 0xa0,
        },
        alternate: false,
    }
}

/// A port that hears a grandmaster of this priority1 in so many steps, from this sender.
fn hears(number: u16, priority1: u8, steps: u16, sender: PortId) -> PortBest {
    let best = Announcement {
        grandmaster: ClockId {
            id: 0x000c_00ff_fe00_0001,
        },
        quality: Quality {
            priority1,
            class: 6,
            accuracy: 0x21,
            variance: 0x4e5d,
            priority2: 128,
        },
        steps,
        sender,
        receiver: port(OWN, number),
        ..own(248)
    };
    PortBest {
        state: PortState::Listening,
        best: Some(best),
    }
}

/// A port that hears nothing.
fn silent(state: PortState) -> PortBest {
    PortBest { state, best: None }
}

/// The codes of two ports, decided for all at once.
fn at_once<L: Ledger>(own: &Announcement, ports: &[PortBest; 2], blank: Blank) -> [Code; 2]
    requires name { blank.name ≡ L.name }
    requires parts { blank.parts ≡ L.parts }
    requires some { 0 < blank.parts }
{
    let mut out = [Code::Stay; 2];
    decide_all(own, ports, &mut out, &mut Steps::<L>::start(blank));
    out
}

/// The codes of two ports, set one after another to what they heard before, and then to these.
fn one_by_one<L: Ledger>(
    alloc: Global,
    own: &Announcement,
    ports: &[PortBest; 2],
    blank: Blank,
) -> Result<[Code; 2], Fail>
    requires name { blank.name ≡ L.name }
    requires parts { blank.parts ≡ L.parts }
    requires some { 0 < blank.parts }
{
    let mut steps = Steps::<L>::start(blank);
    let mut decider = match Decider::new(alloc, *own, 2) {
        Ok(decider) => decider,
        Err(_) => return Err("new".into()),
    };
    let sets = [
        (1, silent(PortState::Master)),
        (2, ports[0]),
        (2, ports[1]),
        (1, ports[0]),
    ];
    let mut out = [Code::Stay; 2];
    decider.run(&sets, &mut out, &mut steps);
    Ok(out)
}

#[test]
fn each_port_has_its_code(rt: HostRuntime) -> Result<(), Fail> {
    let first = hears(1, 128, 1, port(MASTER, 1));
    let better = hears(1, 100, 0, port(MASTER, 1));
    let silent_master = silent(PortState::Master);
    let slave = silent(PortState::Slave);
    for (name, class, ports, codes) in [
        (
            "one sender",
            248,
            [first, hears(2, 128, 1, port(MASTER, 2))],
            [Code::S1, Code::P2],
        ),
        (
            "a sender below the own identity",
            248,
            [first, hears(2, 128, 2, port(0x000a_00ff_fe00_0009, 1))],
            [Code::S1, Code::P2],
        ),
        (
            "a sender above the own identity",
            248,
            [first, hears(2, 128, 2, port(0xff00_00ff_fe00_0009, 1))],
            [Code::S1, Code::M3],
        ),
        ("none", 248, [first, silent_master], [Code::S1, Code::M3]),
        (
            "none yet",
            248,
            [first, silent(PortState::Listening)],
            [Code::S1, Code::Stay],
        ),
        ("nothing", 248, [slave, slave], [Code::M2, Code::M2]),
        (
            "class 127",
            127,
            [better, silent_master],
            [Code::P1, Code::M1],
        ),
        (
            "class 128",
            128,
            [better, silent_master],
            [Code::S1, Code::M3],
        ),
    ] {
        let own = own(class);
        assert_eq!(rt;
            at_once::<Brand>(&own, &ports, Blank::new(1)),
            codes,
            "{name}"
        );
        let kept = one_by_one::<Brand>(rt.alloc(), &own, &ports, Blank::new(1))?;
        assert_eq!(rt; kept, codes, "{name}, one by one");
    }
    Ok(())
}

/// What port 1 of the clock hears of a grandmaster, which announces itself.
const FIRST: PortBest = PortBest {
    state: PortState::Listening,
    best: Some(Announcement {
        grandmaster: ClockId { id: MASTER },
        quality: Quality {
            priority1: 128,
            class: 6,
            accuracy: 0x21,
            variance: 0x4e5d,
            priority2: 128,
        },
        steps: 0,
        sender: PortId {
            clock: ClockId { id: MASTER },
            port: 1,
        },
        receiver: PortId {
            clock: ClockId { id: OWN },
            port: 1,
        },
        time: TimeProps {
            utc_offset: 37,
            flags: 8,
            source: 0x20,
        },
        alternate: false,
    }),
};

/// What port 2 hears of it, by the grandmaster's port 2.
const SECOND: PortBest = PortBest {
    state: PortState::Listening,
    best: Some(Announcement {
        grandmaster: ClockId { id: MASTER },
        quality: Quality {
            priority1: 128,
            class: 6,
            accuracy: 0x21,
            variance: 0x4e5d,
            priority2: 128,
        },
        steps: 0,
        sender: PortId {
            clock: ClockId { id: MASTER },
            port: 2,
        },
        receiver: PortId {
            clock: ClockId { id: OWN },
            port: 2,
        },
        time: TimeProps {
            utc_offset: 37,
            flags: 8,
            source: 0x20,
        },
        alternate: false,
    }),
};

/// Where port 1 of 32 hears a grandmaster, port 2 hears it too, which costs three comparisons, and
/// port 1 hears it again, which costs none.
fn hear_again<L: Ledger>(decider: &mut Decider, steps: &mut Steps<L>)
    requires { decider.old.bests ≡ slice_set (replicate 32 unset) 0 FIRST }
    ensures counted { steps.new ≤ steps.old + 3 }
    ensures length { length decider.new.bests ≡ 32 }
{
    decider.set(2, SECOND, steps);
    decider.set(1, FIRST, steps);
}

/// The codes of 32 ports after that.
fn heard_by_two<L: Ledger>(alloc: Global, blank: Blank) -> Result<[Code; 32], Fail>
    requires name { blank.name ≡ L.name }
    requires parts { blank.parts ≡ L.parts }
    requires some { 0 < blank.parts }
{
    let mut steps = Steps::<L>::start(blank);
    let mut decider = match Decider::new(alloc, own(248), 32) {
        Ok(decider) => decider,
        Err(_) => return Err("new".into()),
    };
    decider.set(1, FIRST, &mut steps);
    hear_again(&mut decider, &mut steps);
    let mut out = [Code::M1; 32];
    decider.codes(&mut out, &mut steps);
    Ok(out)
}

#[test]
fn a_second_path_is_passive(rt: HostRuntime) -> Result<(), Fail> {
    let codes = heard_by_two::<Brand>(rt.alloc(), Blank::new(1))?;
    assert_eq!(rt; codes[0], Code::S1);
    assert_eq!(rt; codes[1], Code::P2);
    for code in &codes[2..] {
        assert_eq!(rt; *code, Code::Stay);
    }
    Ok(())
}
