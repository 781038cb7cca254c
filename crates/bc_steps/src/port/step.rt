ghost use Rattle.std.specs.Prelude.{◌≡◌, ◌↔◌, ℕ, ◌<◌, true, false, length, Err, IfErr, Ok, OnErr, OnOk};
ghost use Rattle.ptp_base.specs.declared.limits.TheConstants.{ENTRIES_MAX};
ghost use Rattle.bc_history.specs.declared.entry.Who.TheVariants.{Port};
ghost use Rattle.bc_history.specs.Run.Actors.{actor_of, is_same_actor};
ghost use Rattle.bc_history.specs.Run.NextInputs.{IsDue};
ghost use Rattle.bc_history.specs.Run.PortPlace.{place_by_entries};
ghost use Rattle.bc_history.specs.Phases.Step.{state_of};
ghost use Rattle.bc_history.specs.Run.World.{World, Event, Free, Of_port, free_steps, is_inside, step_of};
ghost use Rattle.hub_core.specs.HubView.{IsInWindow, entry_by, reading_at, with_entry};
ghost use Rattle.bc_steps.specs.ActorView.{is_ready, world_with, AddsOwn, IsIn, IsLevel, IsSameActor, IsSameHistory};

use crate::exchange::exchange;
use crate::hub_event::take_event;
use crate::newest_entry::{newest_measure, newest_seen};
use crate::port::actor::PortActor;
use crate::port::job::take_measure;
use crate::port::queue::{input_at, is_record_of};
use crate::port::record_queue::take_next;
use crate::ticks::{last_tick, tick_of};
use bc_history::{Input, PortPlace};
use hub_core::{Hub, HubError};
use ptp_base::{ENTRIES_MAX, NoMemory};
use std::snapshot::Snapshot;

impl PortActor {
    /// The hub takes an input of its own, which is due, and where that gives a measure, its servo
    /// takes the sample.
    fn serve(&mut self, hub: &mut Hub, input: Input) -> Result<(), HubError>
        requires level { IsLevel hub.old self.old }
        requires due { IsDue hub.old.scenario
            (state_of hub.old.scenario hub.old.entries) input }
        requires within { IsInWindow hub.old input }
        requires own { is_same_actor self.old.who (actor_of input) ≡ true }
        requires few { length hub.old.entries < ENTRIES_MAX }
        ensures entry { OnOk result (hub.new
            ≡ with_entry hub.old (entry_by hub.old input (reading_at hub.old input))) }
        ensures place { OnOk result ((p : ℕ) → self.old.who ≡ Port p → self.new.place
            ≡ Of_port (place_by_entries hub.old.scenario.options p hub.new.entries)) }
        ensures level { OnOk result (IsLevel hub.new self.new) }
        ensures actor { IsSameActor self.old self.new }
        ensures memory { IfErr result (λ error. error ≡ HubError.NoMemory) }
        ensures same { OnErr result ((hub.new ≡ hub.old) × (self.new ≡ self.old)) }
    {
        let tick = tick_of(&input);
        let is_record = is_record_of(self.number, &input);
        take_event(hub, input)?;
        take_next(&mut self.records, is_record);
        hub.rules();
        self.history = Snapshot::of(hub.entries());
        let seen = newest_seen(hub);
        let measure = newest_measure(hub);
        self.place = take_measure(&mut self.steerer, tick, &seen, &measure);
        Ok(())
    }

    /// Its next step, an event of the hub. Ok(false) exactly where it has none up to `until`, in ns of
    /// the scenario, in the hub's window, and up to the end of the run. Events exactly where it has one, and the hub has
    /// `ENTRIES_MAX` entries. A refusal leaves hub and actor as they were.
    pub fn event(&mut self, hub: &mut Hub, until: u64) -> Result<bool, HubError>
        requires level { IsLevel hub.old self.old }
        requires inside { is_inside self.old.place ≡ true }
        ensures step { (w : World) → result ≡ Ok true → IsIn w hub.old self.old →
            step_of hub.old.scenario w self.old.who ≡ Some (Event (world_with w hub.new self.new)) }
        ensures waits { (result ≡ Ok false) ↔ (is_ready until hub.old self.old ≡ false) }
        ensures events { (result ≡ Err HubError.Events)
            ↔ ((is_ready until hub.old self.old ≡ true) × (length hub.old.entries ≡ ENTRIES_MAX)) }
        ensures entry { result ≡ Ok true → AddsOwn self.old.who hub.old hub.new }
        ensures level { IsLevel hub.new self.new }
        ensures actor { IsSameActor self.old self.new }
        ensures idle { result ≡ Ok false → (hub.new ≡ hub.old) × (self.new ≡ self.old) }
        ensures same { OnErr result ((hub.new ≡ hub.old) × (self.new ≡ self.old)) }
    {
        hub.rules();
        match self.due(hub) {
            Some(tick) if tick <= last_tick(hub, until) => {}
            _ => return Ok(false),
        }
        if hub.entries().len() >= ENTRIES_MAX as usize {
            return Err(HubError::Events);
        }
        let timer = hub.due(self.number);
        let Some(input) = input_at(self.alloc, self.number, self.place, &self.records, timer)?
        else {
            return Ok(false);
        };
        self.serve(hub, input)?;
        Ok(true)
    }

    /// Its next step, the exchange of its servo's action. Want of memory leaves hub and actor as they
    /// were.
    pub fn free(&mut self, hub: &mut Hub) -> Result<(), NoMemory>
        requires level { IsLevel hub.old self.old }
        requires inside { is_inside self.old.place ≡ false }
        ensures step { OnOk result ((w : World) → IsIn w hub.old self.old →
            step_of hub.old.scenario w self.old.who ≡ Some (Free (world_with w hub.new self.new))) }
        ensures hub { OnOk result (IsSameHistory hub.old hub.new) }
        ensures fewer { OnOk result (free_steps self.new.place < free_steps self.old.place) }
        ensures level { IsLevel hub.new self.new }
        ensures actor { IsSameActor self.old self.new }
        ensures same { OnErr result ((hub.new ≡ hub.old) × (self.new ≡ self.old)) }
    {
        let PortPlace::Exchanges { tick, held, action } = self.place else {
            return Ok(());
        };
        hub.rules();
        let outcome = exchange(hub, held, tick, action)?;
        self.place = PortPlace::Reports {
            tick,
            gener: held.gener,
            action,
            outcome,
        };
        Ok(())
    }
}
