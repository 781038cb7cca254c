use ptp_base::Announcement;

/// What becomes of an Announce that a port hears (IEEE 1588-2019, 9.3.2.5).
#[derive(Clone, Copy, Debug, PartialEq, Eq)]
pub enum Heard {
    /// It counts from now on.
    Kept,
    /// The sender belongs to the receiver's own clock.
    Own,
    /// stepsRemoved is 255 or more.
    Far,
    /// The flag alternateMaster is set.
    Alternate,
    /// The sender has none in the window, and 16 other senders have one.
    Crowded,
}

/// An Announce that was kept, and the moment of its entry in ticks.
#[derive(Clone, Copy, Debug, PartialEq, Eq)]
pub struct KeptAnnounce {
    /// The moment of its entry, in ns of the scenario.
    pub at: u64,
    /// What it announced.
    pub said: Announcement,
}
