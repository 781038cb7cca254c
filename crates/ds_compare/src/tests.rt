ghost use Rattle.std.specs.Prelude.{◌≡◌, ◌<◌};

use crate::*;
use ptp_base::{Announcement, ClockId, PortId, Quality, TimeProps};
use std::marker::Brand;
use std::sync::ledger::{Blank, Ledger};

/// The port of a clock.
fn port(id: u64, port: u16) -> PortId {
    PortId {
        clock: ClockId { id },
        port,
    }
}

/// What a grandmaster says in so many steps, by this sender to this receiver. Its attributes are
/// priority1, class, accuracy, variance and priority2.
fn said(
    grandmaster: u64,
    attributes: (u8, u8, u8, u16, u8),
    steps: u16,
    ends: (PortId, PortId),
) -> Announcement {
    let (priority1, class, accuracy, variance, priority2) = attributes;
    let (sender, receiver) = ends;
    Announcement {
        grandmaster: ClockId { id: grandmaster },
        quality: Quality {
            priority1,
            class,
            accuracy,
            variance,
            priority2,
        },
        steps,
        sender,
        receiver,
        time: TimeProps {
            utc_offset: 37,
            flags: 8,
            source: 0x20,
        },
        alternate: false,
    }
}

/// The better of two, with a count of its own.
fn best_counted<L: Ledger>(
    former: Option<Announcement>,
    later: &Announcement,
    blank: Blank,
) -> Option<Announcement>
    requires name { blank.name ≡ L.name }
    requires parts { blank.parts ≡ L.parts }
    requires some { 0 < blank.parts }
{
    better(former, later, &mut Steps::<L>::start(blank))
}

/// The better of two, where nobody counts.
fn best(former: Option<Announcement>, later: &Announcement) -> Option<Announcement> {
    best_counted::<Brand>(former, later, Blank::new(1))
}

#[test]
fn the_first_attribute_that_differs_decides(rt: HostRuntime) {
    let ends = (port(1, 1), port(5, 1));
    for (name, better, id, worse, worse_id) in [
        ("priority1", (1, 9, 9, 9, 9), 9, (2, 1, 1, 1, 1), 1),
        ("class", (5, 1, 9, 9, 9), 9, (5, 2, 1, 1, 1), 1),
        ("accuracy", (5, 5, 1, 9, 9), 9, (5, 5, 2, 1, 1), 1),
        ("variance", (5, 5, 5, 256, 9), 9, (5, 5, 5, 257, 1), 1),
        ("priority2", (5, 5, 5, 5, 1), 9, (5, 5, 5, 5, 2), 1),
        ("identity", (5, 5, 5, 5, 5), 1, (5, 5, 5, 5, 5), 2),
    ] {
        let a = said(id, better, 9, ends);
        let b = said(worse_id, worse, 0, ends);
        assert_eq!(rt; compare(&a, &b), Order::ABetter, "{name}");
        assert_eq!(rt;
            compare(&b, &a),
            Order::BBetter,
            "{name}, the other way round"
        );
    }
}

/// A path of so many steps to one grandmaster, with attributes that favour the longer path.
fn path(steps: u16, sender: PortId, receiver: PortId) -> Announcement {
    let worse_when_near = if steps < 4 { 9 } else { 1 };
    said(
        7,
        (worse_when_near, 6, 0x21, 0x4e5d, 128),
        steps,
        (sender, receiver),
    )
}

#[test]
fn the_nearer_path_is_better(rt: HostRuntime) {
    let here = port(5, 1);
    let low = port(1, 1);
    let high = port(9, 1);
    for (name, a, b) in [
        ("two steps", path(3, high, here), path(5, low, here)),
        ("all steps", path(0, high, here), path(65535, low, here)),
        ("below", path(3, low, here), path(4, high, here)),
        (
            "below by port",
            path(3, low, here),
            path(4, port(5, 2), here),
        ),
    ] {
        assert_eq!(rt; compare(&a, &b), Order::ABetter, "{name}");
        assert_eq!(rt;
            compare(&b, &a),
            Order::BBetter,
            "{name}, the other way round"
        );
    }
}

#[test]
fn topology_decides_between_paths(rt: HostRuntime) {
    let here = port(5, 1);
    let low = port(1, 1);
    let high = port(9, 1);
    for (name, a, b) in [
        ("above", path(3, high, here), path(4, low, here)),
        (
            "sender",
            path(3, port(1, 9), port(5, 2)),
            path(3, port(2, 1), here),
        ),
        (
            "its port",
            path(3, low, port(5, 2)),
            path(3, port(1, 2), here),
        ),
        ("receiver", path(3, low, here), path(3, low, port(4, 2))),
    ] {
        assert_eq!(rt; compare(&a, &b), Order::ATopo, "{name}");
        assert_eq!(rt;
            compare(&b, &a),
            Order::BTopo,
            "{name}, the other way round"
        );
    }
    for (name, a, b) in [
        ("from itself", path(3, low, here), path(4, here, here)),
        ("one clock", path(3, low, here), path(3, low, port(4, 1))),
    ] {
        assert_eq!(rt; compare(&a, &b), Order::Same, "{name}");
        assert_eq!(rt; compare(&b, &a), Order::Same, "{name}, the other way round");
    }
}

#[test]
fn three_may_win_in_a_circle(rt: HostRuntime) {
    let ends = (port(1, 1), port(5, 1));
    let a = said(1, (10, 6, 0x21, 0x4e5d, 128), 5, ends);
    let b = said(2, (20, 6, 0x21, 0x4e5d, 128), 0, ends);
    let c = said(1, (30, 6, 0x21, 0x4e5d, 128), 0, ends);
    assert_eq!(rt; compare(&a, &b), Order::ABetter);
    assert_eq!(rt; compare(&b, &c), Order::ABetter);
    assert_eq!(rt; compare(&a, &c), Order::BBetter);
    // So the winner of a pass depends on its order.
    assert_eq!(rt; best(best(best(None, &a), &b), &c), Some(c));
    assert_eq!(rt; best(best(best(None, &c), &b), &a), Some(a));
}

#[test]
fn the_former_stays_unless_the_later_wins(rt: HostRuntime) {
    let here = port(5, 1);
    let low = path(3, port(1, 1), here);
    let high = path(3, port(2, 1), here);
    assert_eq!(rt; best(Some(high), &low), Some(low));
    assert_eq!(rt; best(Some(low), &high), Some(low));
    // They are the same by all that is compared, and differ in the clock that hears.
    let elsewhere = path(3, port(1, 1), port(4, 1));
    assert_eq!(rt; best(Some(low), &elsewhere), Some(low));
}
