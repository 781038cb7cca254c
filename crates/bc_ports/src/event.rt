ghost use Rattle.std.specs.Prelude.{◌≡◌, ℕ, ◌+◌, ◌*◌, ◌<◌, ◌≤◌, List, [], ◌++◌, Option, option_map, slice_set, false};
ghost use Rattle.std.specs.Int.{w64, saturate_signed};
ghost use Rattle.ptp_profile.specs.declared.timing.Measure.{Measure as Measured};
ghost use Rattle.bc_history.specs.declared.scenario.Options.{Options};
ghost use Rattle.bc_history.specs.Phases.PortPhase.{after_port};
ghost use Rattle.bc_history.specs.Phases.DecisionPhase.{after_decision};
ghost use Rattle.bc_history.specs.Phases.RolePhase.{states_of};
ghost use Rattle.bc_history.specs.Phases.State.{Core};
ghost use Rattle.bc_history.specs.Phases.EntryEffects.{moves_from};
ghost use Rattle.bc_history.specs.Phases.HubPort.{HubPort as Model};
ghost use Rattle.bc_ports.specs.Representation.{ClockRepresents, CoreRepresents, IsSound, PortsRepresent};
ghost use Rattle.ptp_profile.specs.Best.StateDecision.{bests_of};
ghost use Rattle.bc_ports.specs.ClockYield.{CoreYields, EventYields, IsAmong, core_decided, core_ported, raises_at};
ghost use Rattle.bc_ports.specs.DecisionCost.{IsCounted, bests_at, last_bests, passing, setting_cost};
ghost use Rattle.bc_ports.specs.DecisionScratch.{IsMeasured, OthersStay, states_in, with_states};

use crate::boundary_clock::BoundaryClock;
use crate::hub_port::input::PortOutcome;
use crate::moves::{changed_parent, move_all, move_own};
use bc_history::{Moved, PortEntry};
use data_sets::DataSets;
use port_engine::Frames;
use ptp_base::{Items, PortId, PortState, Room, Scaled};
use ptp_profile::{Fate, Held, Measure};
use state_decision::Steps;
use std::sync::ledger::Ledger;

/// What an entry of a port tells, beside the frames that were sent.
#[derive(Drop)]
pub struct EventOutcome {
    /// What became of a frame.
    pub fate: Option<Fate>,
    /// How the ports moved.
    pub states: Items<Moved>,
    /// The new parent, where it changed.
    pub parent: Option<PortId>,
    /// The measure that a frame gave, under the stamp of the port's clock.
    pub measure: Option<(Measure, Held)>,
}

/// A scaled number, held within 64 bits.
fn within(scaled: Scaled) -> i64
    ensures { result ≡ saturate_signed w64 scaled }
{
    if scaled > i64::MAX as i128 {
        i64::MAX
    } else if scaled < i64::MIN as i128 {
        i64::MIN
    } else {
        scaled as i64
    }
}

/// Takes a measure into the data sets: offsetFromMaster and meanDelay (IEEE 1588-2019, 8.2.2).
fn set_measure(sets: &mut DataSets, measure: &Option<Measure>)
    ensures { IsMeasured sets.old sets.new measure.now }
{
    if let Some(measure) = measure {
        sets.offset = within(measure.offset);
        sets.delay = within(measure.delay);
    }
}

/// A measure under a stamp.
fn under(measure: Option<Measure>, held: Held) -> Option<(Measure, Held)>
    ensures { result ≡ option_map (λ (m : Measured). (m, held)) measure }
{
    match measure {
        None => None,
        Some(measure) => Some((measure, held)),
    }
}

impl BoundaryClock {
    /// The decision that follows what the port of an entry made of it, where one follows.
    fn conclude<L: Ledger>(
        &mut self,
        entry: &PortEntry,
        outcome: &PortOutcome,
        steps: &mut Steps<L>,
    )
        requires sound { IsSound self.old }
        requires among { IsAmong self.old.ports.len entry.now }
        ensures sound { IsSound self.new }
        ensures length { self.new.ports.len ≡ self.old.ports.len }
        ensures core { (o : Options) (c : Core) (before after : List (List ℕ))
            → CoreYields o entry.now c self.old before after outcome.now
            → CoreRepresents o self.new (after_decision o entry.now c (after_port o entry.now c)) }
        ensures others { OthersStay self.old.sets self.new.sets }
        ensures bests { (o : Options) (c : Core) → CoreRepresents o self.old c →
            bests_of self.new.decider.bests ≡ last_bests outcome.now.raises c.moment c.ports
            (bests_of self.old.decider.bests) }
        ensures uncounted { outcome.now.raises ≡ false → steps.new ≡ steps.old }
        ensures same_bests { (o : Options) (c : Core) → CoreRepresents o self.old c →
            bests_at c.moment c.ports ≡ bests_of self.old.decider.bests →
            steps.new ≤ steps.old + 15 * passing c.moment c.ports }
        ensures counted { (o : Options) (c : Core) → CoreRepresents o self.old c →
            steps.new ≤ steps.old + 15 * passing c.moment c.ports + setting_cost self.old.ports.len }
    {
        if outcome.raises {
            self.rule(entry.input.number, outcome.sender, steps);
        }
    }

    /// How the ports moved goes into `out`, and their states into portDS. The port of index `at` was
    /// in the state `between` after its own event; any other moved only where a decision followed.
    fn move_ports(&mut self, at: usize, between: PortState, is_decided: bool, out: &mut Room<Moved>)
        requires sound { IsSound self.old }
        requires there { at < self.old.ports.len }
        requires room { 2 * self.old.ports.len ≤ out.old.spare }
        ensures sound { IsSound self.new }
        ensures same { self.new ≡ record self.old {
          sets = record self.old.sets { ports = self.new.sets.ports };
          scratch = self.new.scratch;
        } }
        ensures moves { (n m : ℕ) (hs : List Model) → PortsRepresent n m self.old.ports.items hs →
            (is_decided ≡ false →
            states_of hs ≡ slice_set (states_in self.old.sets.ports) at between) →
            out.new.items
            ≡ out.old.items
            ++ moves_from 1 (states_in self.old.sets.ports)
            (slice_set (states_in self.old.sets.ports) at between) (states_of hs) }
        ensures sets { (n m : ℕ) (hs : List Model) → PortsRepresent n m self.old.ports.items hs →
            (is_decided ≡ false →
            states_of hs ≡ slice_set (states_in self.old.sets.ports) at between) →
            self.new.sets.ports ≡ with_states self.old.sets.ports (states_of hs) }
    {
        let sets = &mut self.sets.ports;
        if is_decided {
            let states = &mut self.scratch.states;
            move_all(&self.ports, sets, at, between, states, out);
        } else {
            move_own(sets, at, between, out);
        }
    }

    /// All that an entry of a port does to ports and data sets, in rooms that are large enough. It
    /// looks at all ports only where it raises a decision. Does not allocate.
    pub fn serve<L: Ledger>(
        &mut self,
        entry: &PortEntry,
        frames: &mut Frames,
        moves: Room<Moved>,
        steps: &mut Steps<L>,
    ) -> EventOutcome
        requires sound { IsSound self.old }
        requires among { IsAmong self.old.ports.len entry.now }
        requires frames { 2 ≤ frames.old.spare }
        requires empty { moves.items ≡ [] }
        requires moves { 2 * self.old.ports.len ≤ moves.spare }
        ensures sound { IsSound self.new }
        ensures length { self.new.ports.len ≡ self.old.ports.len }
        ensures yields { (o : Options) (c : Core) (measured : Option Measured)
            → ClockRepresents o self.old c measured
            → EventYields o entry.now c measured self.new frames.old.items frames.new.items result }
        ensures bests { (o : Options) (c : Core) (measured : Option Measured)
            → ClockRepresents o self.old c measured
            → bests_of self.new.decider.bests ≡ last_bests (raises_at o entry.now c)
            (core_ported o entry.now c).moment (core_ported o entry.now c).ports
            (bests_of self.old.decider.bests) }
        ensures counted { (o : Options) (c : Core) (measured : Option Measured)
            → ClockRepresents o self.old c measured
            → IsCounted (raises_at o entry.now c) (core_ported o entry.now c).moment
            (core_ported o entry.now c).ports (bests_of self.old.decider.bests)
            steps.old steps.new }
    {
        let parent = self.sets.parent;
        let outcome = self.take(entry, frames, steps);
        let at = entry.input.number as usize - 1;
        let between = self.ports[at].engine.state();
        self.conclude(entry, &outcome, steps);
        let mut moves = moves;
        self.move_ports(at, between, outcome.raises, &mut moves);
        set_measure(&mut self.sets, &outcome.measure);
        EventOutcome {
            fate: outcome.fate,
            states: moves.done(),
            parent: changed_parent(parent, self.sets.parent),
            measure: under(outcome.measure, entry.held),
        }
    }
}
