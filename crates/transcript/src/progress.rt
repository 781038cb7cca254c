use crate::shown::Shown;
use bc_history::{Entries, Entry};
use ptp_profile::{Log, Logs};

/// What was read of a transcript, by what may stand next.
#[derive(Drop)]
pub(crate) enum Progress {
    /// Nothing.
    Start,
    /// The first line.
    Opened,
    /// The entries before one whose lines are being read, that one, and the lines that still have to
    /// stand behind its last answer.
    InEntry(Entries, Entry, Shown),
    /// All entries, the logs before one whose lines are being read, and that one.
    InLog(Entries, Logs, Log),
    /// All.
    Ended(Entries, Logs),
}
