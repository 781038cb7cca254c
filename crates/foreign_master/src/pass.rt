ghost use Rattle.std.specs.Prelude.{◌≡◌, ◌+◌, ◌-◌, ◌<◌, ◌&&◌, if◌then◌else◌, [], ◌∷◌, fold, length, is_some, IfSome};
ghost use Rattle.ptp_base.specs.declared.limits.TheConstants.{STEPS_END};
ghost use Rattle.ptp_base.specs.Least.{lesser};
ghost use Rattle.ptp_profile.specs.Best.ForeignMasters.{better};
ghost use Rattle.foreign_master.specs.ForeignMasterTable.{is_qualified, qualified_of, said_by, befores_of, AreNear};
ghost use Rattle.foreign_master.specs.RecordsView.{IsPassOver};

use crate::foreign_master::ForeignMaster;
use crate::window::is_in_window;
use ds_compare::{Steps, better};
use ptp_base::Announcement;
use std::sync::ledger::Ledger;

/// What one pass over the foreign masters found.
#[derive(Clone, Copy, Debug)]
pub(crate) struct Pass {
    /// The winner of those that qualify.
    pub winner: Option<Announcement>,
    /// Of those that qualify, the one that leaves the window first: when the Announce before its
    /// latest came, in ticks (ns). It leaves the window's length after that.
    pub oldest: Option<u64>,
}

/// The pass over no foreign master.
pub(crate) fn no_pass() -> Pass
    ensures { result ≡ record { winner = None; oldest = None } }
{
    Pass {
        winner: None,
        oldest: None,
    }
}

/// The earlier of two moments, where there is a former one.
fn earlier(former: Option<u64>, moment: u64) -> Option<u64>
    ensures { result ≡ lesser (λ m. m) former moment }
{
    match former {
        None => Some(moment),
        Some(former) => {
            if moment < former {
                Some(moment)
            } else {
                Some(former)
            }
        }
    }
}

/// A pass that goes on with one foreign master: only one that qualifies counts.
fn pass_with<L: Ledger>(
    pass: Pass,
    master: &ForeignMaster,
    window: u64,
    at: u64,
    steps: &mut Steps<L>,
) -> Pass
    ensures winner { result.winner ≡ fold better pass.winner (said_by window at (master.now ∷ [])) }
    ensures oldest { result.oldest
        ≡ fold (lesser (λ m. m)) pass.oldest (befores_of window at (master.now ∷ [])) }
    ensures counted { steps.new ≡ steps.old
        + (if is_qualified window at master.now && is_some pass.winner then 1 else 0) }
{
    match master.before {
        Some(before) if is_in_window(before, window, at) => Pass {
            winner: better(pass.winner, &master.said, steps),
            oldest: earlier(pass.oldest, before),
        },
        _ => pass,
    }
}

/// One pass over the foreign masters that qualify, in rising sender identity, which is their order
/// (IEEE 1588-2019, 9.3.2; the order of the pass is the project's). Each but the first is compared
/// once.
pub(crate) fn pass_over<L: Ledger>(
    masters: &[ForeignMaster],
    window: u64,
    at: u64,
    steps: &mut Steps<L>,
) -> Pass
    requires { AreNear masters.now }
    ensures pass { IsPassOver window at masters.now result }
    ensures near { IfSome result.winner (λ a. a.steps < STEPS_END) }
    ensures counted { steps.new
        ≡ steps.old + (length (qualified_of window at masters.now) - 1) }
{
    let mut pass = no_pass();
    for master in masters {
        pass = pass_with(pass, master, window, at, steps);
    }
    pass
}
