ghost use Rattle.std.specs.Prelude.{◌≡◌, ◌+◌, ◌<◌, ◌≤◌, length, IfOk};

use crate::*;
use model_clock::ClockState;
use ptp_base::{ClockId, Items, NoMemory, PortId, PortState, Room};
use ptp_profile::{Held, Lead, LogEntry, Logs, Notice, Reading, Receipt, Refused, RoleOrder};
use std::alloc::Global;

const REST: ClockState = ClockState {
    tick: 0,
    time: 0,
    freq: 0,
    drift: 0,
};

/// Two clocks, which nothing drives.
fn two(alloc: Global) -> Result<Roles, NoMemory>
    ensures clocks { IfOk result (λ roles. length roles.stamps ≡ 2) }
    ensures gener { IfOk result (λ roles. roles.generation.gener ≡ 0) }
{
    Roles::new(alloc, &[REST, REST], 100)
}

/// The orders that come where the only port, on clock 1, is in this state.
fn told(alloc: Global, roles: &mut Roles, state: PortState) -> Result<Items<RoleOrder>, NoMemory>
    requires clocks { length roles.old.stamps ≡ 2 }
    requires below { roles.old.generation.gener < 100 }
    ensures clocks { length roles.new.stamps ≡ 2 }
    ensures gener { roles.new.generation.gener ≤ roles.old.generation.gener + 1 }
{
    let parent = PortId {
        clock: ClockId {
            id: 0x000a_00ff_fe00_0001,
        },
        port: 1,
    };
    roles.reserve()?;
    let out = Room::with(alloc, 4)?;
    Ok(roles.advance(&[state], &[1], parent, out))
}

/// What the followers of both clocks are told while the port is locked, and the generation.
fn notices(alloc: Global) -> Result<(Notice, Notice, u32), NoMemory> {
    let mut roles = two(alloc)?;
    let _orders = told(alloc, &mut roles, PortState::Slave)?;
    Ok((roles.notice(0, 1), roles.notice(1, 1), roles.generation()))
}

#[test]
fn a_follower_copies_the_clock_of_the_port(rt: HostRuntime) {
    let notice = |lead| Notice {
        gener: 1,
        slave: 1,
        lead,
    };
    let lead = Lead {
        gener: 1,
        source: 1,
    };
    assert_eq!(rt;
        notices(rt.alloc()).ok(),
        Some((notice(Some(lead)), notice(None), 1))
    );
}

/// What is told as the port begins to follow, locks, and loses its lock, what clock 0 then reads,
/// and the logs.
fn turns(
    alloc: Global,
) -> Result<
    (
        Items<RoleOrder>,
        Items<RoleOrder>,
        Items<RoleOrder>,
        Reading,
        Logs,
    ),
    NoMemory,
> {
    let mut roles = two(alloc)?;
    let first = told(alloc, &mut roles, PortState::Uncalibrated)?;
    let second = told(alloc, &mut roles, PortState::Slave)?;
    let third = told(alloc, &mut roles, PortState::Uncalibrated)?;
    let reading = roles.read(0);
    Ok((first, second, third, reading, roles.part()))
}

fn order(clock: u8, gener: u32, ctrl: u8) -> RoleOrder {
    RoleOrder { clock, gener, ctrl }
}

#[test]
fn a_port_drives_both_clocks_while_it_is_locked(rt: HostRuntime) -> Result<(), NoMemory> {
    let (first, second, third, reading, logs) = turns(rt.alloc())?;
    assert_eq!(rt; first.items(), [order(1, 1, 1)].as_slice());
    assert_eq!(rt; second.items(), [order(0, 2, 129)].as_slice());
    assert_eq!(rt; third.items(), [order(0, 3, 0)].as_slice());
    let free = Reading {
        number: 2,
        gener: 3,
        ctrl: 0,
        state: REST,
    };
    assert_eq!(rt; reading, free);
    assert_eq!(rt; logs.len(), 2);
    let entries = [
        LogEntry::Order {
            gener: 2,
            ctrl: 129,
        },
        LogEntry::Order { gener: 3, ctrl: 0 },
    ];
    assert_eq!(rt; logs.items()[0].entries.items(), entries.as_slice());
    Ok(())
}

/// What a change of clock 1 by who holds it is answered, if anybody does.
fn answered(roles: &mut Roles) -> Result<Option<Result<Receipt, Refused>>, NoMemory>
    requires clocks { length roles.old.stamps ≡ 2 }
    ensures stamps { roles.new.stamps ≡ roles.old.stamps }
    ensures generation { roles.new.generation ≡ roles.old.generation }
{
    roles.reserve()?;
    let held = roles.held(1);
    if held.ctrl == 0 {
        return Ok(None);
    }
    Ok(Some(roles.adjust(held, 5_000_000_000, 50_000, 0)))
}

/// Who holds the clocks once the port follows, and what the holder of clock 1 is answered before
/// and then.
fn holders(
    alloc: Global,
) -> Result<
    (
        Option<Result<Receipt, Refused>>,
        Held,
        Held,
        Option<Result<Receipt, Refused>>,
    ),
    NoMemory,
> {
    let mut roles = two(alloc)?;
    let before = answered(&mut roles)?;
    let orders = told(alloc, &mut roles, PortState::Uncalibrated)?;
    let (first, second) = (roles.held(0), roles.held(1));
    Ok((before, first, second, answered(&mut roles)?))
}

#[test]
fn a_port_steps_its_clock(rt: HostRuntime) {
    let nobody = Held {
        clock: 0,
        gener: 0,
        ctrl: 0,
    };
    let port = Held {
        clock: 1,
        gener: 1,
        ctrl: 1,
    };
    let taken = Some(Ok(Receipt { number: 2 }));
    assert_eq!(rt; holders(rt.alloc()).ok(), Some((None, nobody, port, taken)));
}
