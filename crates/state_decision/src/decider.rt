ghost use Rattle.std.specs.Prelude.{◌≡◌, ◌≤◌, ◌+◌, ◌-◌, ◌*◌, length, replicate, slice_set, All, IfOk};
ghost use Rattle.ptp_base.specs.declared.limits.TheConstants.{PORTS_MAX};
ghost use Rattle.ptp_profile.specs.Best.ForeignMasters.{ebest};
ghost use Rattle.ptp_profile.specs.Best.StateDecision.{bests_of, codes_of};
ghost use Rattle.state_decision.specs.DeciderView.{DeciderView, HasBest, unset};
ghost use Rattle.state_decision.specs.PassWinners.{winner_up_to};
ghost use Rattle.state_decision.specs.PortSets.{IsOfPorts, ports_after};

use crate::code::{Wins, code_of, wins_against, wins_by_topology};
use crate::passes::{is_same, renew_topology, renew_winners, winner_after};
use ds_compare::Steps;
use ptp_base::{Announcement, Code, NoMemory, PortState};
use ptp_profile::PortBest;
use std::alloc::Global;
use std::marker::Model;
use std::sync::ledger::Ledger;

/// The state decision of a clock whose ports change one at a time. It keeps what the comparisons
/// said, so that a change costs no comparison that was made before. Only `new` allocates.
///
/// Contracts see the own announcement, and the state and best that each port was last set to, the
/// first of port 1.
#[derive(Drop)]
pub struct Decider {
    own: Announcement,
    bests: Vec<PortBest>,
    // Entry p is the winner of the pass up to port p; entry 0 is none, and the last one is Ebest.
    winners: Vec<Option<Announcement>>,
    // Whether the own announcement wins against the best of each port.
    own_over_erbest: Vec<bool>,
    // Whether the own announcement wins against Ebest.
    own_over_ebest: bool,
    // Whether Ebest wins by topology against the best of each port.
    by_topology: Vec<bool>,
}

impl Model for Decider {
    ghost use Rattle.state_decision.specs.DeciderView.{DeciderView, IsDecider};

    ghost Value = { DeciderView };

    ghost view = { λ d. record { own = d.own; bests = d.bests.items } };

    ghost invariant = { λ d. IsDecider d.own d.bests.items d.winners.items d.own_over_erbest.items
        d.own_over_ebest d.by_topology.items };
}

impl Decider {
    /// Of a clock with this announcement of its own and so many ports, at most `PORTS_MAX`, of which
    /// none was set: each counts as LISTENING without a best.
    pub fn new(alloc: Global, own: Announcement, ports: u16) -> Result<Decider, NoMemory>
        requires { ports ≤ PORTS_MAX }
        ensures own { IfOk result (λ d. d.own ≡ own) }
        ensures bests { IfOk result (λ d. d.bests ≡ replicate ports unset) }
    {
        let count = usize::from(ports);
        let unset = PortBest {
            state: PortState::Listening,
            best: None,
        };
        Ok(Decider {
            own,
            bests: vec![in alloc; unset; count]?,
            winners: vec![in alloc; None; count + 1]?,
            own_over_erbest: vec![in alloc; true; count]?,
            own_over_ebest: true,
            by_topology: vec![in alloc; false; count]?,
        })
    }

    /// How many ports the clock has, at most `PORTS_MAX`. Does not allocate.
    pub fn ports(&self) -> u16
        ensures ports { result ≡ length self.now.bests }
        ensures few { length self.now.bests ≤ PORTS_MAX }
    {
        self.bests.len() as u16
    }

    /// The best announcement that any port hears: Ebest (IEEE 1588-2019, 9.3.2). Does not allocate.
    pub fn ebest(&self) -> Option<Announcement>
        ensures { result ≡ ebest (bests_of self.now.bests) }
    {
        self.winners[self.bests.len()]
    }

    /// The best that a port was last set to, by its number, which is there. Does not allocate.
    pub fn best(&self, port: u16) -> Option<Announcement>
        requires some { 1 ≤ port }
        requires there { port ≤ length self.now.bests }
        ensures { HasBest port self.now.bests result }
    {
        self.bests[usize::from(port) - 1].best
    }

    /// Sets the state and the best of a port, by its number, which is there. No comparison is made
    /// where the port has this best already, and three at most where the winner of the pass up to
    /// this port stays as it was. Does not allocate.
    pub fn set<L: Ledger>(&mut self, port: u16, b: PortBest, steps: &mut Steps<L>)
        requires some { 1 ≤ port }
        requires there { port ≤ length self.old.bests }
        ensures set { self.new
            ≡ record self.old { bests = slice_set self.old.bests (port - 1) b } }
        ensures same_best { HasBest port self.old.bests b.best → steps.new ≡ steps.old }
        ensures same_winner { winner_up_to port self.new.bests
            ≡ winner_up_to port self.old.bests → steps.new ≤ steps.old + 3 }
        ensures counted { steps.new ≤ steps.old + (2 * length self.old.bests + 2) }
    {
        let port = usize::from(port);
        let at = port - 1;
        let former = self.bests[at].best;
        self.bests[at] = b;
        if is_same(&former, &b.best) {
            return;
        }
        let winner = winner_after(self.winners[at], &b.best, steps);
        self.own_over_erbest[at] = wins_against(&self.own, &b.best, steps);
        if is_same(&winner, &self.winners[port]) {
            let ebest = self.winners[self.bests.len()];
            self.by_topology[at] = wins_by_topology(&ebest, &b.best, steps);
            return;
        }
        self.winners[port] = winner;
        renew_winners(&self.bests, port, &mut self.winners, steps);
        let ebest = self.winners[self.bests.len()];
        self.own_over_ebest = wins_against(&self.own, &ebest, steps);
        renew_topology(&ebest, &self.bests, &mut self.by_topology, steps);
    }

    /// The codes of all ports, that of port 1 first (IEEE 1588-2019, 9.3.3, figure 33). It compares
    /// nothing. Does not allocate.
    pub fn codes<L: Ledger>(&self, out: &mut [Code], steps: &mut Steps<L>)
        requires same_length { length out.old ≡ length self.now.bests }
        ensures codes { out.new ≡ codes_of self.now.own self.now.bests }
        ensures uncounted { steps.new ≡ steps.old }
    {
        let ebest = self.ebest();
        for (i, port) in self.bests.iter().enumerate() {
            let wins = Wins {
                own_over_erbest: self.own_over_erbest[i],
                own_over_ebest: self.own_over_ebest,
                ebest_by_topology: self.by_topology[i],
            };
            out[i] = code_of(&self.own, &ebest, (i + 1) as u16, port, wins);
        }
    }

    /// Makes these sets, each of a port by its number, one after another, and writes the codes then:
    /// those of the ports as they were last set, whatever was set before. Does not allocate.
    pub fn run<L: Ledger>(
        &mut self,
        sets: &[(u16, PortBest)],
        out: &mut [Code],
        steps: &mut Steps<L>,
    )
        requires there { All (IsOfPorts (length self.old.bests)) sets.now }
        requires same_length { length out.old ≡ length self.old.bests }
        ensures set { self.new
            ≡ record self.old { bests = ports_after sets.now self.old.bests } }
        ensures codes { out.new
            ≡ codes_of self.old.own (ports_after sets.now self.old.bests) }
    {
        for (port, b) in sets {
            self.set(*port, *b, steps);
        }
        self.codes(out, steps);
    }
}
