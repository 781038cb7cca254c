ghost use Rattle.std.specs.Prelude.{◌≡◌, ◌↔◌, ℕ, ◌<◌, true, false, length, Err, IfErr, Ok, OnErr, OnOk, Some};
ghost use Rattle.ptp_base.specs.declared.limits.TheConstants.{ENTRIES_MAX};
ghost use Rattle.bc_history.specs.declared.entry.Who.TheVariants.{Follower};
ghost use Rattle.bc_history.specs.Phases.Step.{state_of};
ghost use Rattle.bc_history.specs.Run.Actors.{actor_of, is_same_actor};
ghost use Rattle.bc_history.specs.Run.FollowerPlace.{follower_place_by_entries};
ghost use Rattle.bc_history.specs.Run.NextInputs.{IsDue};
ghost use Rattle.bc_history.specs.Run.World.{World, Event, Of_follower, is_inside, step_of};
ghost use Rattle.hub_core.specs.HubView.{IsInWindow, entry_by, reading_at, with_entry};
ghost use Rattle.bc_steps.specs.ActorView.{is_ready, world_with, AddsOwn, IsIn, IsLevel, IsSameActor};
ghost use Rattle.bc_steps.specs.FollowerJob.{IsInputAt};

use crate::follower::actor::FollowerActor;
use crate::follower::place::{input_at, place_told, turn_after, turns_served};
use crate::hub_event::take_event;
use crate::newest_entry::newest_told;
use crate::ticks::{last_tick, tick_of};
use bc_history::Input;
use hub_core::{Hub, HubError};
use ptp_base::ENTRIES_MAX;
use std::snapshot::Snapshot;

impl FollowerActor {
    /// The hub takes an input of its own, which is that of its place, and due.
    fn serve(&mut self, hub: &mut Hub, input: Input) -> Result<(), HubError>
        requires level { IsLevel hub.old self.old }
        requires due { IsDue hub.old.scenario
            (state_of hub.old.scenario hub.old.entries) input }
        requires within { IsInWindow hub.old input }
        requires own { is_same_actor self.old.who (actor_of input) ≡ true }
        requires next { IsInputAt self.old.place input }
        requires few { length hub.old.entries < ENTRIES_MAX }
        ensures entry { OnOk result (hub.new
            ≡ with_entry hub.old (entry_by hub.old input (reading_at hub.old input))) }
        ensures place { OnOk result ((c : ℕ) → self.old.who ≡ Follower c → self.new.place
            ≡ Of_follower (follower_place_by_entries c hub.new.entries)) }
        ensures level { OnOk result (IsLevel hub.new self.new) }
        ensures actor { IsSameActor self.old self.new }
        ensures memory { IfErr result (λ error. error ≡ HubError.NoMemory) }
        ensures same { OnErr result ((hub.new ≡ hub.old) × (self.new ≡ self.old)) }
    {
        let tick = tick_of(&input);
        take_event(hub, input)?;
        hub.rules();
        self.history = Snapshot::of(hub.entries());
        self.turns = turns_served(self.turns, &self.place);
        self.place = place_told(tick, newest_told(hub));
        Ok(())
    }

    /// Its next step, an event of the hub. Ok(false) exactly where it has none up to `until`, in ns of
    /// the scenario, in the hub's window, and up to the end of the run. Events exactly where it has one, and the hub has
    /// `ENTRIES_MAX` entries. A refusal leaves hub and follower as they were.
    pub fn event(&mut self, hub: &mut Hub, until: u64) -> Result<bool, HubError>
        requires level { IsLevel hub.old self.old }
        requires inside { is_inside self.old.place ≡ true }
        ensures step { (w : World) → result ≡ Ok true → IsIn w hub.old self.old →
            step_of hub.old.scenario w self.old.who ≡ Some (Event (world_with w hub.new self.new)) }
        ensures waits { (result ≡ Ok false) ↔ (is_ready until hub.old self.old ≡ false) }
        ensures events { (result ≡ Err HubError.Events)
            ↔ ((is_ready until hub.old self.old ≡ true) × (length hub.old.entries ≡ ENTRIES_MAX)) }
        ensures entry { result ≡ Ok true → AddsOwn self.old.who hub.old hub.new }
        ensures level { IsLevel hub.new self.new }
        ensures actor { IsSameActor self.old self.new }
        ensures idle { result ≡ Ok false → (hub.new ≡ hub.old) × (self.new ≡ self.old) }
        ensures same { OnErr result ((hub.new ≡ hub.old) × (self.new ≡ self.old)) }
    {
        hub.rules();
        match self.due() {
            Some(tick) if tick <= last_tick(hub, until) => {}
            _ => return Ok(false),
        }
        if hub.entries().len() >= ENTRIES_MAX as usize {
            return Err(HubError::Events);
        }
        let turn = turn_after(self.turns, self.interval);
        let Some(input) = input_at(self.clock, turn, self.place) else {
            return Ok(false);
        };
        self.serve(hub, input)?;
        Ok(true)
    }
}
