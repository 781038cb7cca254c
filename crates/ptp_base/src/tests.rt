use crate::*;
use std::test::Fail;

#[test]
fn division_rounds_down(rt: HostRuntime) {
    for (a, b, floor) in [
        (7, 2, 3),
        (-7, 2, -4),
        (-1, 65536, -1),
        (-65536, 65536, -1),
        (0, 9, 0),
    ] {
        assert_eq!(rt; floor_div(a, b), floor, "{a} / {b}");
    }
}

#[test]
fn times_are_held(rt: HostRuntime) {
    let most = TIME_MAX as i128 * 65536;
    for (scaled, ns) in [
        (557_057, 8),
        (-1, -1),
        (65535, 0),
        (most, TIME_MAX),
        (most + 65536, TIME_MAX),
        (-most, -TIME_MAX),
        (-most - 1, -TIME_MAX),
        (i128::MIN, -TIME_MAX),
    ] {
        assert_eq!(rt; to_ns(scaled), ns, "{scaled}");
    }
}

#[test]
fn times_between_are_exact(rt: HostRuntime) {
    for (from, to, between) in [
        (3, 5, 131_072),
        (5, 3, -131_072),
        (i64::MIN, i64::MAX, 1_208_925_819_614_629_174_640_640),
    ] {
        let between: Scaled = between;
        assert_eq!(rt; time_between(from, to), between, "{from} to {to}");
    }
}

#[test]
fn intervals_double(rt: HostRuntime) {
    for (log, ns) in [
        (-7, 7_812_500),
        (-1, 500_000_000),
        (0, 1_000_000_000),
        (1, 2_000_000_000),
        (10, 1_024_000_000_000),
    ] {
        assert_eq!(rt; interval(log), ns, "{log}");
    }
}

#[test]
fn ports_are_ordered_by_clock(rt: HostRuntime) {
    let first = PortId {
        clock: ClockId { id: 1 },
        port: 2,
    };
    let same_clock = PortId { port: 3, ..first };
    let next_clock = PortId {
        clock: ClockId { id: 2 },
        port: 1,
    };
    assert!(rt; first < same_clock && same_clock < next_clock);
    assert_eq!(rt; PortState::Initializing as u8, 1);
    assert_eq!(rt; PortState::Slave as u8, 9);
}

#[test]
fn a_header_stands_field_by_field(rt: HostRuntime) {
    let head = Head {
        kind: 0xb,
        length: 64,
        domain: 5,
        flags: 0x0208,
        correction: -2,
        sender: PortId {
            clock: ClockId {
                id: 0x000a_00ff_fe00_0001,
            },
            port: 0x0102,
        },
        seq: 0x0304,
        control: 5,
        log_interval: -3,
    };
    let mut out = [7; 35];
    head_put(&head, &mut out);
    assert_eq!(rt;
        out,
        [
            0x0b, 0x12, 0x00, 0x40, 0x05, 0x00, 0x02, 0x08, 0xff, 0xff, 0xff, 0xff, 0xff, 0xff,
            0xff, 0xfe, 0, 0, 0, 0, 0x00, 0x0a, 0x00, 0xff, 0xfe, 0x00, 0x00, 0x01, 0x01, 0x02,
            0x03, 0x04, 0x05, 0xfd, 7
        ]
    );
}

#[test]
fn lists_grow_at_their_end(rt: HostRuntime) -> Result<(), Fail> {
    let mut octets = Octets::from_vec(vec![in rt.alloc(); 1, 2]?);
    octets.reserve(2).ok().ok_or("reserve")?;
    octets.append(&[3, 4]).ok().ok_or("append")?;
    let copy = octets.copy(rt.alloc()).ok().ok_or("copy")?;
    assert_eq!(rt; copy.items(), [1, 2, 3, 4].as_slice());
    assert_eq!(rt; copy.into_vec().len(), 4);
    assert_eq!(rt; Octets::new(rt.alloc()).items().len(), 0);
    let mut items: Items<Code> = Items::new(rt.alloc());
    items.push(Code::Stay).ok().ok_or("push")?;
    items.push(Code::M1).ok().ok_or("push")?;
    items.set(0, Code::S1);
    assert_eq!(rt; items.items(), [Code::S1, Code::M1].as_slice());
    assert_eq!(rt; items.into_vec().len(), 2);
    let mut emptied = Items::from_vec(vec![in rt.alloc(); 1u8]?);
    emptied.clear();
    assert_eq!(rt; emptied.len(), 0);
    Ok(())
}

#[test]
fn a_room_takes_what_was_reserved(rt: HostRuntime) -> Result<(), Fail> {
    let mut room = Room::with(rt.alloc(), 3).ok().ok_or("with")?;
    room.push(9u8);
    room.append(&[8, 7]);
    room.set(1, 6);
    assert_eq!(rt; room.items(), [9, 6, 7].as_slice());
    room.clear();
    room.push(5);
    assert_eq!(rt; room.done().items(), [5].as_slice());
    Ok(())
}
