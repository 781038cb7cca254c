ghost use Rattle.ptp_base.specs.declared.time.TheConstants.{TICK_MAX, TIME_MAX};
ghost use Rattle.std.specs.Prelude.{◌≡◌, pos, ◌+◌, ◌<◌, ◌≤◌, ◌≤ℤ◌, List, ◌∷◌, length, if◌then◌else◌, Some, None};
ghost use Rattle.model_clock.specs.Clock.{clock_at};
ghost use Rattle.ptp_profile.specs.Roles.SeatLogs.{log_at, whole_reading, with_orders};
ghost use Rattle.bc_history.specs.declared.entry.Entry.{Entry};
ghost use Rattle.bc_history.specs.declared.scenario.Scenario.{Scenario};
ghost use Rattle.bc_history.specs.Phases.Inputs.{event_of, history_input, is_read, value_of};
ghost use Rattle.bc_history.specs.Run.NextInputs.{IsDue};
ghost use Rattle.bc_history.specs.Scenario.ScenarioRules.{IsScenario};
ghost use Rattle.bc_history.specs.Phases.Step.{state_of};
ghost use Rattle.bc_history.specs.Run.World.{seen_at};
ghost use Rattle.hub_core.specs.HubParts.{IsAt, PartsRepresent, PartsYield};
ghost use Rattle.ptp_profile.specs.Best.StateDecision.{bests_of};
ghost use Rattle.hub_core.specs.DecisionHistory.{decided_bests};
ghost use Rattle.hub_core.specs.EffectRooms.{AreFew, AreRooms};
ghost use Rattle.hub_core.specs.FollowerInputs.{IsServed};
ghost use Rattle.hub_core.specs.HubCost.{IsCountedAt};

use crate::advance::advance_roles;
use crate::effect_rooms::EffectRooms;
use crate::effects::{effects_with, sends_of};
use crate::own_input::{history_input, is_of_follower, port_input};
use bc_history::{Entry, Input, PortEntry, PortHappening, PortInput, Seen};
use bc_notices::{Notice, Notices};
use bc_ports::{BoundaryClock, Steps};
use bc_roles::Roles;
use ptp_base::{PortState, Room};
use std::alloc::Global;
use std::sync::ledger::Ledger;

/// All that a hub keeps of its history but the entries: ports and data sets, roles and logs, and what
/// waits for followers.
#[derive(Drop)]
pub struct HubParts {
    /// The clock of each port, by rising port.
    pub port_clocks: Vec<u8>,
    /// Ports and data sets.
    pub core: BoundaryClock,
    /// Who drives which clock, and the logs.
    pub roles: Roles,
    /// A place for the state of each port, so that an event does not allocate.
    pub states: Room<PortState>,
    /// What waits for the followers.
    pub notices: Notices,
    /// A place for the notice of each follower.
    pub drafts: Room<Notice>,
}

/// What was read, in ns, or 0 where nothing was.
fn value_of(seen: &Option<Seen>) -> i64
    ensures { result ≡ value_of seen.now }
{
    match seen {
        None => 0,
        Some(seen) => seen.value,
    }
}

impl HubParts {
    /// What a clock reads at the tick of an input that comes with a reading: a frame and a timer do.
    /// Does not allocate.
    fn seen(&self, clock: u8, input: &PortInput) -> Option<Seen>
        requires there { clock < length self.now.roles.stamps }
        requires tick { input.now.tick ≤ TICK_MAX }
        ensures seen { result
            ≡ (if is_read (history_input input.now) then
            Some
            (seen_at input.now.tick
            (whole_reading (clock_at self.now.roles.seats.openings clock)
            (log_at self.now.roles.seats.logs clock)))
            else
            None) }
        ensures early { pos 0 ≤ℤ value_of result }
        ensures late { value_of result ≤ℤ TIME_MAX }
    {
        match input.what {
            PortHappening::Frame(_) | PortHappening::Timed(_) => {
                let reading = self.roles.read(clock);
                Some(Seen {
                    number: reading.number,
                    value: reading.state.read(input.tick),
                    freq: reading.state.freq,
                })
            }
            PortHappening::Down | PortHappening::Up | PortHappening::Report { .. } => None,
        }
    }

    /// All that an input of a port does: the entry that it makes, in rooms that are large enough.
    /// Does not allocate.
    fn serve<L: Ledger>(
        &mut self,
        alloc: Global,
        input: PortInput,
        rooms: EffectRooms,
        steps: &mut Steps<L>,
    ) -> Entry
        requires at { IsAt self.old (history_input input) }
        requires rooms { AreRooms self.old.core.ports.len (length self.old.roles.stamps) rooms }
        ensures served { (s : Scenario) (entries : List Entry) → IsScenario s →
            PartsRepresent s self.old (state_of s entries) →
            IsDue s (state_of s entries) (history_input input) →
            PartsYield s entries self.old.roles.seats.logs (history_input input) self.new result }
        ensures logs { self.new.roles.seats.logs
            ≡ with_orders self.old.roles.seats.logs result.effects.orders }
        ensures gener { self.new.roles.generation.gener ≤ self.old.roles.generation.gener + 1 }
        ensures few { AreFew self.old.core.ports.len (length self.old.roles.stamps) result.effects }
        ensures bests { (s : Scenario) (entries : List Entry) → IsScenario s →
            PartsRepresent s self.old (state_of s entries) →
            IsDue s (state_of s entries) (history_input input) →
            bests_of self.old.core.decider.bests ≡ decided_bests s entries →
            bests_of self.new.core.decider.bests ≡ decided_bests s (result ∷ entries) }
        ensures counted { (s : Scenario) (entries : List Entry) → IsScenario s →
            PartsRepresent s self.old (state_of s entries) →
            IsDue s (state_of s entries) (history_input input) →
            bests_of self.old.core.decider.bests ≡ decided_bests s entries →
            IsCountedAt s entries (event_of result) steps.old steps.new }
    {
        let EffectRooms {
            moves,
            orders,
            frames,
            sends,
        } = rooms;
        let mut frames = frames;
        let number = input.number;
        let clock = self.port_clocks[number as usize - 1];
        let seen = self.seen(clock, &input);
        let entry = PortEntry {
            input,
            held: self.roles.held(clock),
            reading: value_of(&seen),
        };
        let outcome = self.core.serve(&entry, &mut frames, moves, steps);
        let before = self.roles.generation();
        let orders = advance_roles(
            &mut self.roles,
            &outcome,
            &self.core,
            &mut self.states,
            &self.port_clocks,
            orders,
        );
        self.post(before);
        Entry {
            input: history_input(entry.input),
            moment: self.core.moment,
            seen,
            effects: effects_with(alloc, outcome, orders, sends_of(number, frames, sends)),
        }
    }

    /// All that an input of a port or of a follower does: the entry that it makes, in rooms that are
    /// large enough. Does not allocate.
    pub fn take<L: Ledger>(
        &mut self,
        alloc: Global,
        input: Input,
        rooms: EffectRooms,
        steps: &mut Steps<L>,
    ) -> Entry
        requires at { IsAt self.old input }
        requires own { IsServed input }
        requires rooms { AreRooms self.old.core.ports.len (length self.old.roles.stamps) rooms }
        ensures served { (s : Scenario) (entries : List Entry) → IsScenario s →
            PartsRepresent s self.old (state_of s entries) → IsDue s (state_of s entries) input →
            PartsYield s entries self.old.roles.seats.logs input self.new result }
        ensures logs { self.new.roles.seats.logs
            ≡ with_orders self.old.roles.seats.logs result.effects.orders }
        ensures gener { self.new.roles.generation.gener ≤ self.old.roles.generation.gener + 1 }
        ensures few { AreFew self.old.core.ports.len (length self.old.roles.stamps) result.effects }
        ensures bests { (s : Scenario) (entries : List Entry) → IsScenario s →
            PartsRepresent s self.old (state_of s entries) →
            IsDue s (state_of s entries) input →
            bests_of self.old.core.decider.bests ≡ decided_bests s entries →
            bests_of self.new.core.decider.bests ≡ decided_bests s (result ∷ entries) }
        ensures counted { (s : Scenario) (entries : List Entry) → IsScenario s →
            PartsRepresent s self.old (state_of s entries) →
            IsDue s (state_of s entries) input →
            bests_of self.old.core.decider.bests ≡ decided_bests s entries →
            IsCountedAt s entries (event_of result) steps.old steps.new }
    {
        if is_of_follower(&input) {
            self.follow(alloc, input)
        } else {
            self.serve(alloc, port_input(input), rooms, steps)
        }
    }
}
