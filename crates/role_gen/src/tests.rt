use crate::*;
use ptp_base::{ClockId, NoMemory, PortId, PortState};

/// Port 1 of a master.
fn master(id: u64) -> PortId {
    PortId {
        clock: ClockId { id },
        port: 1,
    }
}

fn port(port: u8, parent: PortId) -> Option<Edge> {
    Some(Edge::Port { port, parent })
}

fn follow(source: u8) -> Option<Edge> {
    Some(Edge::Follow { source })
}

fn order(clock: u8, gener: u32, ctrl: u8) -> RoleOrder {
    RoleOrder { clock, gener, ctrl }
}

// Two clocks with a port each. Port 2 drives clock 1, which clock 0 copies. Then port 1 follows
// another master in its place, and locks.
#[test]
fn two_masters_change_sides(rt: HostRuntime) {
    let (a, b) = (master(0x000a_00ff_fe00_0001), master(0x000b_00ff_fe00_0001));
    let none = order(9, 9, 9);
    let mut second = [None, None];
    edges(
        &[PortState::Master, PortState::Slave],
        &[0, 1],
        a,
        &mut second,
    );
    assert_eq!(rt; second, [follow(1), port(2, a)]);
    let mut third = [None, None];
    edges(
        &[PortState::Uncalibrated, PortState::PreMaster],
        &[0, 1],
        b,
        &mut third,
    );
    assert_eq!(rt; third, [port(1, b), None]);
    let mut out = [none; 4];
    assert_eq!(rt; orders(3, &second, &third, &mut out), 3);
    assert_eq!(rt; out, [order(0, 3, 0), order(1, 3, 0), order(0, 3, 1), none]);
    let mut fourth = [None, None];
    edges(
        &[PortState::Slave, PortState::PreMaster],
        &[0, 1],
        b,
        &mut fourth,
    );
    assert_eq!(rt; fourth, [port(1, b), follow(0)]);
    let mut out = [none; 4];
    assert_eq!(rt; orders(4, &third, &fourth, &mut out), 1);
    assert_eq!(rt; out, [order(1, 4, 128), none, none, none]);
}

// Two ports on one clock: the clock has no other to copy.
#[test]
fn one_clock_is_driven(rt: HostRuntime) {
    let a = master(0x000a_00ff_fe00_0001);
    let mut out = [follow(0)];
    edges(&[PortState::Master, PortState::Slave], &[0, 0], a, &mut out);
    assert_eq!(rt; out, [port(2, a)]);
    edges(
        &[PortState::Master, PortState::Passive],
        &[0, 0],
        a,
        &mut out,
    );
    assert_eq!(rt; out, [None]);
}

fn generations(alloc: std::alloc::Global) -> Result<[Option<u32>; 4], NoMemory> {
    let (a, b) = (master(0x000a_00ff_fe00_0001), master(0x000b_00ff_fe00_0001));
    let mut generations = Generations::new(alloc, 2)?;
    Ok([
        generations.advance(&[None, None]),
        generations.advance(&[port(1, a), None]),
        generations.advance(&[port(1, a), None]),
        generations.advance(&[port(1, b), None]),
    ])
}

#[test]
fn generations_are_counted_from_one(rt: HostRuntime) {
    assert_eq!(rt;
        generations(rt.alloc()).ok(),
        Some([None, Some(1), None, Some(2)])
    );
}
