ghost use Rattle.std.specs.Prelude.{◌≡◌, IfOk};

use crate::*;
use ptp_base::NoMemory;
use std::alloc::Global;
use std::test::Fail;

/// A notice of a generation, with clock 0 to copy.
fn notice(gener: u32) -> Notice {
    Notice {
        gener,
        slave: 1,
        lead: Some(Lead { gener, source: 0 }),
    }
}

/// What is taken once the last notice was that of a generation.
fn taken(gener: u32, count: u32, missed: u32) -> Answer {
    Answer::Took(Taken {
        last: Some(notice(gener)),
        count,
        missed,
    })
}

/// What is taken where nothing was put.
const NOTHING: Answer = Answer::Took(Taken {
    last: None,
    count: 0,
    missed: 0,
});

/// A ring into which nothing was put.
fn ring(alloc: Global) -> Result<Ring, Fail>
    ensures { IfOk result (λ r. r.put ≡ 0) }
{
    match Ring::new(alloc) {
        Ok(ring) => Ok(ring),
        Err(NoMemory) => Err("new".into()),
    }
}

#[test]
fn a_subscription_ends_with_its_last_moment(rt: HostRuntime) -> Result<(), Fail> {
    let mut ring = ring(rt.alloc())?;
    let calls = [
        Call::Post(0, notice(1)),
        Call::Subscribe(3),
        Call::Post(3, notice(2)),
        Call::Post(4, notice(3)),
        Call::Take,
        Call::Take,
        Call::Subscribe(4),
        Call::Post(4, notice(4)),
        Call::Post(4, notice(5)),
        Call::Take,
    ];
    let mut answers = [Answer::Subscribed; 10];
    ring.run(&calls, &mut answers);
    assert_eq!(rt;
        answers,
        [
            Answer::Posted(false),
            Answer::Subscribed,
            Answer::Posted(true),
            Answer::Posted(false),
            taken(2, 1, 0),
            NOTHING,
            Answer::Subscribed,
            Answer::Posted(true),
            Answer::Posted(true),
            taken(5, 2, 0),
        ]
    );
    Ok(())
}

#[test]
fn a_full_ring_loses_its_oldest(rt: HostRuntime) -> Result<(), Fail> {
    let mut ring = ring(rt.alloc())?;
    let mut posts = [Call::Post(9, notice(7)); 67];
    posts[0] = Call::Subscribe(9);
    posts[65] = Call::Post(9, notice(8));
    posts[66] = Call::Take;
    let mut answers = [Answer::Subscribed; 67];
    ring.run(&posts, &mut answers);
    assert_eq!(rt; answers[66], taken(8, 64, 1));
    Ok(())
}
