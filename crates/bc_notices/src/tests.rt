ghost use Rattle.std.specs.Prelude.{◌≡◌, length, IfOk};
ghost use Rattle.bc_notices.specs.NoticesView.{most_put};

use crate::*;
use ptp_base::NoMemory;
use std::alloc::Global;

/// A notice of a generation, which tells to copy clock 1.
fn notice(gener: u32) -> Notice {
    Notice {
        gener,
        slave: 2,
        lead: Some(Lead { gener, source: 1 }),
    }
}

/// What a turn is told once the last notice was that of a generation.
fn told(gener: u32) -> Told {
    Told {
        lead: Some(Lead { gener, source: 1 }),
        missed: 0,
    }
}

/// Two followers, whose subscriptions last 30 ns and are renewed after 20.
fn two(alloc: Global) -> Result<Notices, NoMemory>
    ensures count { IfOk result (λ n. length n.followers ≡ 2) }
    ensures put { IfOk result (λ n. most_put n.followers ≡ 0) }
{
    let terms = Terms {
        duration: 30,
        renew: 20,
    };
    Notices::with(alloc, terms, 2)
}

/// What the turns of the followers are told, and how many followers there are.
fn turns(alloc: Global) -> Result<([Told; 4], usize), NoMemory> {
    let mut notices = two(alloc)?;
    notices.post(5, &[notice(1), notice(1)]);
    let first = notices.turn(0, 10, 10, notice(1));
    notices.post(40, &[notice(2), notice(2)]);
    notices.post(41, &[notice(3), notice(3)]);
    let second = notices.turn(0, 29, 41, notice(3));
    let third = notices.turn(0, 30, 41, notice(3));
    let other = notices.turn(1, 10, 41, notice(3));
    Ok(([first, second, third, other], notices.count()))
}

#[test]
fn a_follower_is_told_the_last_notice_of_its_subscription(rt: HostRuntime) -> Result<(), NoMemory> {
    let (answers, count) = turns(rt.alloc())?;
    assert_eq!(rt; answers, [told(1), told(2), told(3), told(3)]);
    assert_eq!(rt; count, 2);
    Ok(())
}
