//! The windows that a hub was given.

ghost use Rattle.std.specs.Prelude.{◌≡◌, []};
ghost use Rattle.bc_windows.specs.Windows.{MayBegin, bound_of};
ghost use Rattle.hub_core.specs.GivenWindows.{windows_of};
ghost use Rattle.hub_core.specs.HubView.{with_window};

use crate::hub::Hub;
use bc_history::Entries;
use std::snapshot::Snapshot;

/// The windows that a hub was given. All but the end of the present one is kept for contracts alone,
/// and takes no memory.
#[derive(Drop)]
pub(crate) enum GivenWindows {
    /// There was none yet.
    None,
    /// There is a present one.
    Given {
        /// Its last tick, in ns of the scenario.
        end: u64,
        /// The history when it was given.
        begun: Snapshot<Entries>,
        /// The windows before it.
        former: Snapshot<GivenWindows>,
    },
}

impl GivenWindows {
    /// No window yet.
    pub fn none() -> GivenWindows
        ensures { windows_of result ≡ [] }
    {
        GivenWindows::None
    }

    /// The last tick of the present window, if there is one.
    fn bound(&self) -> Option<u64>
        ensures { result ≡ bound_of (windows_of self.now) }
    {
        match self {
            GivenWindows::None => None,
            GivenWindows::Given { end, .. } => Some(*end),
        }
    }
}

impl Hub {
    /// Gives the next window: up to the next call of this the hub takes no event of a tick, in ns of the
    /// scenario, above `end`. No actor has a next input up to the end of the window before. Does not
    /// allocate.
    pub fn window(&mut self, end: u64)
        requires begins { MayBegin self.old.scenario self.old.windows self.old.entries }
        ensures { self.new ≡ with_window self.old end }
    {
        self.windows = GivenWindows::Given {
            end,
            begun: Snapshot::of(&self.entries),
            former: Snapshot::of(&self.windows),
        };
    }

    /// The last tick of the present window, in ns of the scenario. None exactly where no window was
    /// given. Does not allocate.
    pub fn bound(&self) -> Option<u64>
        ensures { result ≡ bound_of self.now.windows }
    {
        self.windows.bound()
    }
}
