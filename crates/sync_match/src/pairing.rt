ghost use Rattle.std.specs.Prelude.{◌≡◌, pos, ◌^◌, ◌+ℤ◌, List, [], ◌∷◌, IfSome};
ghost use Rattle.ptp_base.specs.Floor.{IsWithin};
ghost use Rattle.ptp_profile.specs.Timing.OffsetAndDelay.{Piece, Follow_up, triple_after, triple_from};
ghost use Rattle.sync_match.specs.PairingView.{PairingRepresents, sync_of};

use crate::piece;
use ptp_base::Triple;
use std::marker::Model;

/// The times of a Sync and its Follow_Up, and the corrections of both (IEEE 1588-2019, 11.2).
fn triple_of_pieces(precise: i64, arrived: i64, correction: i64, added: i64) -> Triple
    ensures exact { result ≡ triple_from precise arrived (correction +ℤ added) }
    ensures small { IsWithin (pos (2 ^ 64)) result.correction }
{
    Triple {
        origin: precise,
        arrived,
        correction: i128::from(correction) + i128::from(added),
    }
}

/// The message of one master that waits for its partner: nothing, one Sync or one Follow_Up
/// (IEEE 1588-2019, 9.5.4 and 9.5.5; that it is one alone is the project's).
#[derive(Drop)]
pub struct Pairing {
    kept: Option<piece::Piece>,
}

impl Model for Pairing {
    ghost use Rattle.std.specs.Prelude.{Option};
    ghost use Rattle.sync_match.specs.declared.piece.Piece.{Piece};

    ghost Value = { Option Piece };

    ghost view = { λ p. p.kept };
}

impl Pairing {
    /// A pairing that keeps nothing.
    pub fn new() -> Pairing
        ensures { PairingRepresents result [] }
    {
        Pairing { kept: None }
    }

    /// Keeps nothing.
    pub fn clear(&mut self)
        ensures { PairingRepresents self.new [] }
    {
        *self = Pairing::new();
    }

    /// Takes a Sync with the sequenceId `seq` (IEEE 1588-2019, 9.5.4 and 11.2). `origin` is in ns of the
    /// master's time, `arrived` in ns of the receiver's clock, `correction` in ns times 65,536.
    ///
    /// A one-step Sync, where `two_step` is false, gives its times at once. Another one, whose `origin`
    /// does not count, gives them with the Follow_Up of its sequence, if that is kept. In both cases
    /// nothing is kept then. Else the Sync is kept, in place of what was, and the answer is None. The
    /// correction of the answer is from -2^64 to 2^64.
    pub fn sync(
        &mut self,
        seq: u16,
        two_step: bool,
        origin: i64,
        arrived: i64,
        correction: i64,
    ) -> Option<Triple>
        ensures answer { (before : List Piece) → PairingRepresents self.old before
            → result ≡ triple_after (sync_of seq two_step origin arrived correction) before }
        ensures kept { (before : List Piece) → PairingRepresents self.old before
            → PairingRepresents self.new (sync_of seq two_step origin arrived correction ∷ before) }
        ensures small { IfSome result (λ t. IsWithin (pos (2 ^ 64)) t.correction) }
    {
        if !two_step {
            self.kept = None;
            return Some(Triple {
                origin,
                arrived,
                correction: i128::from(correction),
            });
        }
        match self.kept {
            Some(
                piece::Piece::FollowUp {
                    seq: follow_up_seq,
                    precise,
                    correction: added,
                },
            ) if follow_up_seq == seq => {
                self.kept = None;
                Some(triple_of_pieces(precise, arrived, correction, added))
            }
            _ => {
                self.kept = Some(piece::Piece::Sync {
                    seq,
                    arrived,
                    correction,
                });
                None
            }
        }
    }

    /// Takes a Follow_Up with the sequenceId `seq` (IEEE 1588-2019, 9.5.5 and 11.2). `precise` is when
    /// its Sync was sent, in ns of the master's time, `correction` is in ns times 65,536.
    ///
    /// It gives the times of the Sync of its sequence, if that is kept, and nothing is kept then. Else
    /// the Follow_Up is kept, in place of what was, and the answer is None. The correction of the answer
    /// is from -2^64 to 2^64.
    pub fn follow_up(&mut self, seq: u16, precise: i64, correction: i64) -> Option<Triple>
        ensures answer { (before : List Piece) → PairingRepresents self.old before
            → result ≡ triple_after (Follow_up seq precise correction) before }
        ensures kept { (before : List Piece) → PairingRepresents self.old before
            → PairingRepresents self.new (Follow_up seq precise correction ∷ before) }
        ensures small { IfSome result (λ t. IsWithin (pos (2 ^ 64)) t.correction) }
    {
        match self.kept {
            Some(
                piece::Piece::Sync {
                    seq: sync_seq,
                    arrived,
                    correction: added,
                },
            ) if sync_seq == seq => {
                self.kept = None;
                Some(triple_of_pieces(precise, arrived, added, correction))
            }
            _ => {
                self.kept = Some(piece::Piece::FollowUp {
                    seq,
                    precise,
                    correction,
                });
                None
            }
        }
    }
}
