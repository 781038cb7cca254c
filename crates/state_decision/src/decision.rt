ghost use Rattle.std.specs.Prelude.{◌≡◌, ◌≤◌, ◌+◌, ◌*◌, length};
ghost use Rattle.ptp_base.specs.declared.limits.TheConstants.{PORTS_MAX};
ghost use Rattle.ptp_profile.specs.Best.StateDecision.{codes_of};

use crate::best::ebest;
use crate::code::{Wins, code_of, wins_against, wins_by_topology};
use ds_compare::Steps;
use ptp_base::{Announcement, Code};
use ptp_profile::PortBest;
use std::sync::ledger::Ledger;

/// Decides the codes of all ports by the own announcement and by what each port hears; entry `i` of
/// `bests` and of `out` is that of port `i + 1` (IEEE 1588-2019, 9.3.3, figure 33). A clock has at
/// most `PORTS_MAX` ports. That is at most three comparisons a port. Does not allocate.
pub fn decide_all<L: Ledger>(
    own: &Announcement,
    bests: &[PortBest],
    out: &mut [Code],
    steps: &mut Steps<L>,
)
    requires same_length { length out.old ≡ length bests.now }
    requires few { length bests.now ≤ PORTS_MAX }
    ensures codes { out.new ≡ codes_of own.now bests.now }
    ensures counted { steps.new ≤ steps.old + 3 * length bests.now }
{
    let best = ebest(bests, steps);
    let own_over_ebest = wins_against(own, &best, steps);
    for (i, port) in bests.iter().enumerate() {
        let wins = Wins {
            own_over_erbest: wins_against(own, &port.best, steps),
            own_over_ebest,
            ebest_by_topology: wins_by_topology(&best, &port.best, steps),
        };
        out[i] = code_of(own, &best, (i + 1) as u16, port, wins);
    }
}
