use ptp_base::{Announcement, PortState};

/// A port as the state decision sees it: its state, and the best announcement that it hears
/// (Erbest of IEEE 1588-2019, 9.3.2).
#[derive(Clone, Copy, Debug, PartialEq, Eq)]
pub struct PortBest {
    /// portDS.portState (8.2.15.3.1).
    pub state: PortState,
    /// Erbest; none where no Announce qualifies.
    pub best: Option<Announcement>,
}
