ghost use Rattle.std.specs.Prelude.{◌≡◌, ◌+◌, if◌then◌else◌, is_some};
ghost use Rattle.ptp_profile.specs.Best.Comparison.{order_of, wins};
ghost use Rattle.ptp_profile.specs.Best.ForeignMasters.{better};

use crate::comparison::compare;
use crate::steps::Steps;
use ptp_base::Announcement;
use ptp_profile::Order;
use std::sync::ledger::Ledger;

/// `compare`, counted. Does not allocate.
pub fn compare_counted<L: Ledger>(a: &Announcement, b: &Announcement, steps: &mut Steps<L>) -> Order
    ensures order { result ≡ order_of a.now b.now }
    ensures counted { steps.new ≡ steps.old + 1 }
{
    steps.count();
    compare(a, b)
}

/// Whether the first wins: it is better, by quality or by topology (IEEE 1588-2019, 9.3.4). That is
/// one comparison. Does not allocate.
pub fn wins<L: Ledger>(a: &Announcement, b: &Announcement, steps: &mut Steps<L>) -> bool
    ensures wins { result ≡ wins a.now b.now }
    ensures counted { steps.new ≡ steps.old + 1 }
{
    matches!(compare_counted(a, b, steps), Order::ABetter | Order::ATopo)
}

/// Of two the later one exactly where it wins, by quality or topology; where there is no former one
/// it is the later (IEEE 1588-2019, 9.3.2; that equal ones keep the former is the project's). That
/// is one comparison, or none where there is no former one. Does not allocate.
pub fn better<L: Ledger>(
    former: Option<Announcement>,
    later: &Announcement,
    steps: &mut Steps<L>,
) -> Option<Announcement>
    ensures better { result ≡ better former later.now }
    ensures counted { steps.new ≡ steps.old + (if is_some former then 1 else 0) }
{
    match former {
        None => Some(*later),
        Some(former) => {
            if wins(later, &former, steps) {
                Some(*later)
            } else {
                Some(former)
            }
        }
    }
}
