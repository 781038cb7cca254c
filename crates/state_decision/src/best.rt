ghost use Rattle.std.specs.Prelude.{◌≡◌, ◌≤◌, ◌+◌, if◌then◌else◌, is_some, length};
ghost use Rattle.ptp_profile.specs.Best.StateDecision.{bests_of};
ghost use Rattle.ptp_profile.specs.Best.ForeignMasters.{ebest};

use ds_compare::{Steps, better};
use ptp_base::Announcement;
use ptp_profile::PortBest;
use std::sync::ledger::Ledger;

/// The best announcement that any port hears: Ebest, the winner of one pass over the ports in
/// rising number (IEEE 1588-2019, 9.3.2; the order of the pass is the project's). The first that is
/// heard is compared with none.
pub(crate) fn ebest<L: Ledger>(ports: &[PortBest], steps: &mut Steps<L>) -> Option<Announcement>
    ensures ebest { result ≡ ebest (bests_of ports.now) }
    ensures counted { steps.new + (if is_some result then 1 else 0)
        ≤ steps.old + length ports.now }
{
    let mut best = None;
    for port in ports {
        if let Some(heard) = &port.best {
            best = better(best, heard, steps);
        }
    }
    best
}
