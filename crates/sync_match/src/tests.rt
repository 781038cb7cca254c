use crate::*;
use std::test::Fail;

/// A piece of a pair: the sequenceId.
#[derive(Clone, Copy)]
enum Piece {
    Sync(u16),
    FollowUp(u16),
}

/// Whether a Pairing gives the times at this piece. The times do not count here.
fn is_paired(pairing: &mut Pairing, piece: Piece) -> bool {
    match piece {
        Piece::Sync(seq) => pairing.sync(seq, true, 0, 110, -1).is_some(),
        Piece::FollowUp(seq) => pairing.follow_up(seq, 100, 0).is_some(),
    }
}

#[test]
fn only_the_sequence_counts(rt: HostRuntime) -> Result<(), Fail> {
    let mut pairing = Pairing::new();
    for (at, piece, paired) in [
        (0, Piece::FollowUp(7), false),
        (1, Piece::Sync(7), true),
        (2, Piece::Sync(8), false),
        (3, Piece::Sync(9), false),
        (4, Piece::FollowUp(8), false),
    ] {
        assert_eq!(rt; is_paired(&mut pairing, piece), paired, "piece {at}");
    }
    Ok(())
}

#[test]
fn a_pair_is_given_once(rt: HostRuntime) -> Result<(), Fail> {
    let mut pairing = Pairing::new();
    assert_eq!(rt; pairing.sync(10, true, 0, 110, -1), None);
    assert_eq!(rt;
        pairing.follow_up(10, 100, 3),
        Some(Triple {
            origin: 100,
            arrived: 110,
            correction: 2,
        })
    );
    assert_eq!(rt; pairing.follow_up(10, 100, 3), None);
    Ok(())
}

#[test]
fn a_one_step_sync_is_given_at_once(rt: HostRuntime) -> Result<(), Fail> {
    let mut pairing = Pairing::new();
    assert_eq!(rt;
        pairing.sync(11, false, 100, 110, -1),
        Some(Triple {
            origin: 100,
            arrived: 110,
            correction: -1,
        })
    );
    Ok(())
}

#[test]
fn nothing_is_kept_after_a_clear(rt: HostRuntime) -> Result<(), Fail> {
    let mut pairing = Pairing::new();
    assert!(rt; !is_paired(&mut pairing, Piece::Sync(12)));
    pairing.clear();
    assert!(rt; !is_paired(&mut pairing, Piece::FollowUp(12)));
    Ok(())
}
