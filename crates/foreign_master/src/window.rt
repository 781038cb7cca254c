ghost use Rattle.std.specs.Prelude.{◌≡◌, ◌+◌, nat_lt};
ghost use Rattle.foreign_master.specs.ForeignMasterTable.{is_within};

/// Whether a moment is above the lower end of the foreign master window of this length at `at`, in
/// ticks (IEEE 1588-2019, 9.3.2.5; that the end itself is outside is the project's).
pub(crate) fn is_in_window(moment: u64, window: u64, at: u64) -> bool
    ensures { result ≡ nat_lt at (moment + window) }
{
    match moment.checked_add(window) {
        Some(end) => at < end,
        // The end is above all ticks.
        None => true,
    }
}

/// Whether there is a moment, and it is in the window.
pub(crate) fn is_within(moment: Option<u64>, window: u64, at: u64) -> bool
    ensures { result ≡ is_within window at moment }
{
    match moment {
        None => false,
        Some(moment) => is_in_window(moment, window, at),
    }
}
