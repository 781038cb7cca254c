/// Comes before and after each turn of each actor, and may delay it. It promises nothing. A turn is
/// one call for the actor's next step; turns are counted from 1. Actors are numbered: ports from 1,
/// then followers, then the queries.
pub trait Gate {
    /// Just before a turn.
    fn before(&self, actor: u8, turn: u64);

    /// Just after a turn. `entry` is the index, from 1, of the entry that the turn added to the
    /// history, and 0 where it added none.
    fn after(&self, actor: u8, turn: u64, entry: u32);
}

/// A gate that delays nobody.
#[derive(Clone, Copy, Debug, PartialEq, Eq)]
pub struct NoGate;

impl Gate for NoGate {
    fn before(&self, _actor: u8, _turn: u64) {}

    fn after(&self, _actor: u8, _turn: u64, _entry: u32) {}
}
