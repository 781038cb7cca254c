/// The two times of a Sync and its correction (IEEE 1588-2019, 11.2).
#[derive(Clone, Copy, Debug, PartialEq, Eq)]
pub struct Triple {
    /// When the master sent it, in ns of the master's time.
    pub origin: i64,
    /// When it arrived, in ns of the receiver's clock.
    pub arrived: i64,
    /// The corrections of the Sync and, where there is one, of its Follow_Up, added up: in ns times
    /// 65,536.
    pub correction: i128,
}
