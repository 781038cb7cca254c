/// A piece that waits for its partner of the same sequence (IEEE 1588-2019, 9.5.4 and 9.5.5).
#[derive(Clone, Copy, Debug)]
pub(crate) enum Piece {
    /// A Sync whose origin comes in a Follow_Up.
    Sync {
        /// Its sequenceId.
        seq: u16,
        /// When it arrived, in ns of the receiver's clock.
        arrived: i64,
        /// Its correction, in ns times 65,536.
        correction: i64,
    },
    /// A Follow_Up.
    FollowUp {
        /// Its sequenceId.
        seq: u16,
        /// When its Sync was sent, in ns of the master's time.
        precise: i64,
        /// Its correction, in ns times 65,536.
        correction: i64,
    },
}
