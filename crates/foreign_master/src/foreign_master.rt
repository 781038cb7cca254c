use ptp_base::Announcement;

/// An entry of foreignMasterDS (IEEE 1588-2019, 9.3.2.4): what is kept of one sender, its latest
/// Announce and its last two moments.
#[derive(Clone, Copy, Debug)]
pub(crate) struct ForeignMaster {
    /// Its latest Announce that was kept.
    pub said: Announcement,
    /// When that came, in ticks (ns).
    pub last: u64,
    /// When the one before it came, in ticks (ns).
    pub before: Option<u64>,
}
