ghost use Rattle.std.specs.Prelude.{◌≡◌, ◌+◌, ◌*◌, ◌≤◌, All, length, Option, Some, false};
ghost use Rattle.bc_history.specs.declared.scenario.Options.{Options};
ghost use Rattle.bc_history.specs.Phases.OpeningState.{local_announcement};
ghost use Rattle.bc_history.specs.Phases.DecisionPhase.{with_codes, best_among, after_hearing, with_decision};
ghost use Rattle.ptp_profile.specs.declared.port_event.Fate.{Fate};
ghost use Rattle.bc_history.specs.Phases.State.{Core};
ghost use Rattle.bc_history.specs.Phases.Step.{at_moment};
ghost use Rattle.ptp_profile.specs.Best.StateDecision.{bests_of};
ghost use Rattle.bc_ports.specs.DecisionCost.{bests_at, passing, setting_cost};
ghost use Rattle.bc_ports.specs.DecisionScratch.{IsNear, OthersStay, port_bests};
ghost use Rattle.bc_ports.specs.Representation.{CoreRepresents, IsSound};
ghost use Rattle.bc_ports.specs.ClockYield.{CoreYields, IsAmong, IsHeard, IsKeptAt};

use crate::decision::{apply_codes, decide_ports, is_new_parent, push_bests, set_bests};
use crate::hub_port::HubPort;
use crate::hub_port::input::PortOutcome;
use crate::scratch::DecisionScratch;
use bc_history::{EventContext, PortEntry};
use data_sets::DataSets;
use port_engine::Frames;
use ptp_base::PortId;
use state_decision::{Decider, Steps};
use std::sync::ledger::Ledger;

/// What is kept of a boundary clock's history: the moment, the data sets, in which portDS of each
/// port stands, and the ports.
#[derive(Drop)]
pub struct BoundaryClock {
    /// The greatest tick so far, in ns of the scenario.
    pub moment: u64,
    /// The data sets, portDS of each port among them.
    pub sets: DataSets,
    /// By rising number, from port 1 on.
    pub ports: Vec<HubPort>,
    /// What a decision works on.
    pub scratch: DecisionScratch,
    /// The last decision: what each port then heard, and what follows from it.
    pub decider: Decider,
}

impl BoundaryClock {
    /// The port of an entry takes its input.
    pub(crate) fn take<L: Ledger>(
        &mut self,
        entry: &PortEntry,
        frames: &mut Frames,
        steps: &mut Steps<L>,
    ) -> PortOutcome
        requires sound { IsSound self.old }
        requires among { IsAmong self.old.ports.len entry.now }
        requires room { 2 ≤ frames.old.spare }
        ensures sound { IsSound self.new }
        ensures length { self.new.ports.len ≡ self.old.ports.len }
        ensures sets { self.new.sets ≡ self.old.sets }
        ensures decider { self.new.decider ≡ self.old.decider }
        ensures uncounted { result.raises ≡ false → steps.new ≡ steps.old }
        ensures counted { steps.new ≤ steps.old + 15 }
        ensures yields { (o : Options) (c : Core) → CoreRepresents o self.old c →
            CoreYields o entry.now (at_moment entry.now.input.tick c) self.new frames.old.items
            frames.new.items result }
    {
        let input = &entry.input;
        self.moment = self.moment.max(input.tick);
        let context = EventContext {
            moment: self.moment,
            parent: self.sets.parent,
            steps: self.sets.steps,
            held: entry.held,
            reading: entry.reading,
        };
        let port = &mut self.ports[input.number as usize - 1];
        port.take(&context, &self.sets, input, frames, steps)
    }

    /// What each port hears now goes into the decision.
    fn set_bests<L: Ledger>(&mut self, steps: &mut Steps<L>)
        requires sound { IsSound self.old }
        ensures sound { IsSound self.new }
        ensures same { self.new ≡ record self.old {
          scratch = self.new.scratch;
          decider =
              record self.old.decider { bests = self.new.decider.bests };
        } }
        ensures near { All (λ b. IsNear b.best) self.new.decider.bests }
        ensures bests { (o : Options) (c : Core) → CoreRepresents o self.old c →
            self.new.decider.bests ≡ port_bests c.moment c.ports }
        ensures same_bests { (o : Options) (c : Core) → CoreRepresents o self.old c →
            bests_at c.moment c.ports ≡ bests_of self.old.decider.bests →
            steps.new ≤ steps.old + 15 * passing c.moment c.ports }
        ensures counted { (o : Options) (c : Core) → CoreRepresents o self.old c →
            steps.new ≤ steps.old + 15 * passing c.moment c.ports + setting_cost self.old.ports.len }
    {
        self.scratch.bests.clear();
        push_bests(&self.ports, self.moment, &mut self.scratch.bests, steps);
        set_bests(&mut self.decider, self.scratch.bests.items(), steps);
    }

    /// The decision for all ports: the data sets first, then each port (IEEE 1588-2019, 9.3.3 and
    /// 9.3.5).
    fn decide<L: Ledger>(&mut self, steps: &mut Steps<L>)
        requires sound { IsSound self.old }
        ensures sound { IsSound self.new }
        ensures length { self.new.ports.len ≡ self.old.ports.len }
        ensures core { (o : Options) (c : Core) → CoreRepresents o self.old c →
            CoreRepresents o self.new
            (with_codes (local_announcement o) (best_among c.moment c.ports) c) }
        ensures others { OthersStay self.old.sets self.new.sets }
        ensures bests { (o : Options) (c : Core) → CoreRepresents o self.old c →
            self.new.decider.bests ≡ port_bests c.moment c.ports }
        ensures same_bests { (o : Options) (c : Core) → CoreRepresents o self.old c →
            bests_at c.moment c.ports ≡ bests_of self.old.decider.bests →
            steps.new ≤ steps.old + 15 * passing c.moment c.ports }
        ensures counted { (o : Options) (c : Core) → CoreRepresents o self.old c →
            steps.new ≤ steps.old + 15 * passing c.moment c.ports + setting_cost self.old.ports.len }
    {
        self.set_bests(steps);
        let parent = self.sets.parent;
        self.decider.codes(&mut self.scratch.codes, steps);
        let best = self.decider.ebest();
        apply_codes(&mut self.sets, &self.scratch.codes, &best);
        let is_new = is_new_parent(&best, parent);
        decide_ports(
            &mut self.ports,
            &self.scratch.codes,
            is_new,
            self.moment,
            self.sets.steps,
        );
    }

    /// The port that kept an Announce of the sender sets announce receipt anew, where that is its
    /// best by the decision.
    fn renew(&mut self, number: u16, sender: PortId)
        requires sound { IsSound self.old }
        requires some { 1 ≤ number }
        requires there { number ≤ self.old.ports.len }
        ensures sound { IsSound self.new }
        ensures length { self.new.ports.len ≡ self.old.ports.len }
        ensures core { (o : Options) (c : Core) → IsHeard number c.ports sender →
            bests_at c.moment c.ports ≡ bests_of self.old.decider.bests →
            CoreRepresents o self.old c → CoreRepresents o self.new (after_hearing number c) }
        ensures sets { self.new.sets ≡ self.old.sets }
        ensures decider { self.new.decider ≡ self.old.decider }
    {
        let moment = self.moment;
        let best = self.decider.best(number);
        let port = &mut self.ports[number as usize - 1];
        port.renew(moment, sender, &best);
    }

    /// The decision that an entry raises, with the sender of its kept Announce, if it is one.
    pub(crate) fn rule<L: Ledger>(
        &mut self,
        number: u16,
        sender: Option<PortId>,
        steps: &mut Steps<L>,
    )
        requires sound { IsSound self.old }
        requires some { 1 ≤ number }
        requires there { number ≤ self.old.ports.len }
        ensures sound { IsSound self.new }
        ensures length { self.new.ports.len ≡ self.old.ports.len }
        ensures core { (o : Options) (fate : Option Fate) (c : Core) →
            IsKeptAt number fate sender c.ports → CoreRepresents o self.old c →
            CoreRepresents o self.new (with_decision o fate number c) }
        ensures others { OthersStay self.old.sets self.new.sets }
        ensures bests { (o : Options) (c : Core) → CoreRepresents o self.old c →
            self.new.decider.bests ≡ port_bests c.moment c.ports }
        ensures same_bests { (o : Options) (c : Core) → CoreRepresents o self.old c →
            bests_at c.moment c.ports ≡ bests_of self.old.decider.bests →
            steps.new ≤ steps.old + 15 * passing c.moment c.ports }
        ensures counted { (o : Options) (c : Core) → CoreRepresents o self.old c →
            steps.new ≤ steps.old + 15 * passing c.moment c.ports + setting_cost self.old.ports.len }
    {
        self.decide(steps);
        if let Some(sender) = sender {
            self.renew(number, sender);
        }
    }
}
