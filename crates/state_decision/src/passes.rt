ghost use Rattle.std.specs.Prelude.{◌≡◌, ◌↔◌, IsTrue, ◌≤◌, ◌<◌, ◌+◌, ◌*◌, if◌then◌else◌, is_some, length, map, ℕ};
ghost use Rattle.ptp_profile.specs.declared.port_best.PortBest.{PortBest};
ghost use Rattle.ptp_profile.specs.Best.StateDecision.{wins_by_topology};
ghost use Rattle.state_decision.specs.PassWinners.{winner_after, AreWinnersUpTo};

use crate::code::wins_by_topology;
use ds_compare::{Steps, better};
use ptp_base::Announcement;
use ptp_profile::PortBest;
use std::sync::ledger::Ledger;

/// Whether two bests are the same in all that they say, or both none. That is no comparison.
pub(crate) fn is_same(a: &Option<Announcement>, b: &Option<Announcement>) -> bool
    ensures { IsTrue result ↔ (a.now ≡ b.now) }
{
    a == b
}

/// The winner of a pass that goes on with a port of this best, or of none. That is one comparison at
/// most.
pub(crate) fn winner_after<L: Ledger>(
    former: Option<Announcement>,
    best: &Option<Announcement>,
    steps: &mut Steps<L>,
) -> Option<Announcement>
    ensures winner { result ≡ winner_after former best.now }
    ensures counted { steps.new ≤ steps.old + 1 }
{
    match best {
        None => former,
        Some(heard) => better(former, heard, steps),
    }
}

/// Makes anew the winners of the pass up to each port after `port`, of which the others stand: entry
/// `p` is of the pass up to port `p`. That is one comparison at most for each of those ports.
pub(crate) fn renew_winners<L: Ledger>(
    bests: &[PortBest],
    port: usize,
    winners: &mut Vec<Option<Announcement>>,
    steps: &mut Steps<L>,
)
    requires there { port ≤ length bests.now }
    requires length { length winners.old.items ≡ length bests.now + 1 }
    requires standing { AreWinnersUpTo port bests.now winners.old.items }
    ensures length { length winners.new.items ≡ length bests.now + 1 }
    ensures winners { AreWinnersUpTo (length bests.now) bests.now winners.new.items }
    ensures counted { steps.new + port ≤ steps.old + length bests.now }
{
    for p in port..bests.len() {
        winners[p + 1] = winner_after(winners[p], &bests[p].best, steps);
    }
}

/// Makes anew whether Ebest wins by topology against each port's best. That is one comparison at
/// most for each port.
pub(crate) fn renew_topology<L: Ledger>(
    ebest: &Option<Announcement>,
    bests: &[PortBest],
    by_topology: &mut Vec<bool>,
    steps: &mut Steps<L>,
)
    requires same_length { length by_topology.old.items ≡ length bests.now }
    ensures topology { by_topology.new.items
        ≡ map (λ (b : PortBest). wins_by_topology ebest.now b.best) bests.now }
    ensures counted { steps.new ≤ steps.old + length bests.now }
{
    for (i, port) in bests.iter().enumerate() {
        by_topology[i] = wins_by_topology(ebest, &port.best, steps);
    }
}
