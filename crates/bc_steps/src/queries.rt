//! The queries of a run, as one who acts.

ghost use Rattle.std.specs.Prelude.{◌≡◌, ◌↔◌, ◌<◌, [], true, false, length, slice_get, option_map, option_and_then, nat_le, if◌then◌else◌, IfErr, IfOk, Ok, Err, OnErr, OnOk, Some, None};
ghost use Rattle.ptp_base.specs.declared.limits.TheConstants.{ENTRIES_MAX};
ghost use Rattle.bc_history.specs.declared.entry.Who.TheVariants.{Queries};
ghost use Rattle.bc_history.specs.declared.scenario.Asked.{Asked};
ghost use Rattle.bc_history.specs.Phases.Step.{state_of};
ghost use Rattle.bc_history.specs.Run.Actors.{actor_of, is_same_actor};
ghost use Rattle.bc_history.specs.Run.NextInputs.{IsDue, query_input};
ghost use Rattle.bc_history.specs.Run.World.{World, Event, Of_queries, is_busy, is_inside, step_of};
ghost use Rattle.hub_core.specs.HubView.{IsInWindow, entry_by, reading_at, with_entry};
ghost use Rattle.bc_steps.specs.ActorView.{due_tick, is_ready, place_at_opening, world_with, AddsOwn, IsIn, IsJobDue, IsLevel, IsPlaceOf, IsSameActor};
ghost use Rattle.bc_steps.specs.QueryActors.{asked_input};

use crate::hub_event::take_event;
use crate::ticks::last_tick;
use bc_history::{Asked, Entries, Input, Scenario};
use hub_core::{Hub, HubError};
use ptp_base::{ENTRIES_MAX, Items, NoMemory};
use std::alloc::Global;
use std::marker::Model;
use std::snapshot::Snapshot;

/// The queries of a run, one by one in their order. Contracts see them as an actor.
#[derive(Drop)]
pub struct QueryActor {
    alloc: Global,
    scenario: Snapshot<Scenario>,
    // The hub's entries up to the last query.
    history: Snapshot<Entries>,
    // The end of the run, in ns of the scenario.
    duration: u64,
    // All queries of the scenario: which one is next, the hub counts.
    queries: Vec<Asked>,
}

impl Model for QueryActor {
    ghost use Rattle.bc_steps.specs.ActorView.{ActorState};
    ghost use Rattle.bc_steps.specs.QueryActors.{query_actor_view, IsQueryActor};

    ghost Value = { ActorState };

    ghost view = { query_actor_view };

    ghost invariant = { IsQueryActor };
}

/// The queries again.
fn copied(alloc: Global, from: &[Asked]) -> Result<Vec<Asked>, NoMemory>
    ensures { IfOk result (λ copy. copy.items ≡ from.now) }
{
    let mut copy = Vec::new(alloc);
    for asked in from {
        copy.push(Asked {
            tick: asked.tick,
            text: asked.text.copy(alloc)?,
        })?;
    }
    Ok(copy)
}

/// The tick of the query at an index, where there is one, up to a tick.
fn tick_at(queries: &[Asked], at: usize, last: u64) -> Option<u64>
    ensures { result ≡ option_and_then (λ tick. if nat_le tick last then Some tick else None)
        (option_map (λ (asked : Asked). asked.tick) (slice_get queries.now at)) }
{
    match queries.get(at) {
        Some(asked) if asked.tick <= last => Some(asked.tick),
        _ => None,
    }
}

/// The query at an index as an input, where there is one.
fn input_at(alloc: Global, queries: &[Asked], at: usize) -> Result<Option<Input>, NoMemory>
    ensures { IfOk result (λ input. input ≡ option_map asked_input (slice_get queries.now at)) }
{
    match queries.get(at) {
        None => Ok(None),
        Some(asked) => Ok(Some(Input::Query {
            tick: asked.tick,
            text: asked.text.copy(alloc)?,
        })),
    }
}

impl QueryActor {
    /// The queries of a scenario before the first entry. They are copied, and the scenario is needed
    /// no more.
    pub fn new(alloc: Global, s: &Scenario) -> Result<QueryActor, NoMemory>
        ensures { IfOk result (λ actor. actor ≡ record {
          scenario = s.now;
          who = Queries;
          entries = [];
          place = place_at_opening Queries;
        }) }
    {
        s.rules();
        let none: Entries = Items::new(alloc);
        Ok(QueryActor {
            alloc,
            scenario: Snapshot::of(s),
            history: Snapshot::of(&none),
            duration: s.options.duration,
            queries: copied(alloc, s.queries.items())?,
        })
    }

    /// The tick of the next query, in ns of the scenario; None exactly where there is none up to the
    /// end of the run. Does not allocate.
    pub fn due(&self, hub: &Hub) -> Option<u64>
        requires level { IsLevel hub.now self.now }
        ensures tick { result ≡ due_tick hub.now self.now }
    {
        tick_at(&self.queries, hub.asked() as usize, self.duration)
    }

    /// Says that nobody is in the middle of a query: it is one event. It does nothing: who calls it is
    /// told so.
    pub fn kind(&self)
        ensures who { self.now.who ≡ Queries }
        ensures at { self.now.place ≡ Of_queries }
        ensures place { IsPlaceOf self.now.who self.now.place }
        ensures job { IsJobDue self.now.scenario self.now.place }
    {
        let _ = &self.queries;
    }

    /// The next query as an input, where there is one.
    fn next(&self, hub: &Hub) -> Result<Option<Input>, NoMemory>
        requires level { IsLevel hub.now self.now }
        ensures next { IfOk result (λ input. input ≡ option_map asked_input
            (query_input hub.now.scenario (state_of hub.now.scenario hub.now.entries))) }
    {
        input_at(self.alloc, &self.queries, hub.asked() as usize)
    }

    /// The hub takes a query, which is the next one, and due.
    fn serve(&mut self, hub: &mut Hub, input: Input) -> Result<(), HubError>
        requires level { IsLevel hub.old self.old }
        requires due { IsDue hub.old.scenario
            (state_of hub.old.scenario hub.old.entries) input }
        requires within { IsInWindow hub.old input }
        requires own { is_same_actor self.old.who (actor_of input) ≡ true }
        requires few { length hub.old.entries < ENTRIES_MAX }
        ensures entry { OnOk result (hub.new
            ≡ with_entry hub.old (entry_by hub.old input (reading_at hub.old input))) }
        ensures level { OnOk result (IsLevel hub.new self.new) }
        ensures actor { IsSameActor self.old self.new }
        ensures memory { IfErr result (λ error. error ≡ HubError.NoMemory) }
        ensures same { OnErr result ((hub.new ≡ hub.old) × (self.new ≡ self.old)) }
    {
        take_event(hub, input)?;
        hub.rules();
        self.history = Snapshot::of(hub.entries());
        Ok(())
    }

    /// The next query, an event of the hub. Ok(false) exactly where there is none up to `until`, in
    /// ns of the scenario, in the hub's window, and up to the end of the run. Events exactly where there is one, and the
    /// hub has `ENTRIES_MAX` entries. A refusal leaves hub and queries as they were.
    pub fn event(&mut self, hub: &mut Hub, until: u64) -> Result<bool, HubError>
        requires level { IsLevel hub.old self.old }
        ensures step { (w : World) → result ≡ Ok true → IsIn w hub.old self.old →
            step_of hub.old.scenario w self.old.who ≡ Some (Event (world_with w hub.new self.new)) }
        ensures waits { (result ≡ Ok false) ↔ (is_ready until hub.old self.old ≡ false) }
        ensures events { (result ≡ Err HubError.Events)
            ↔ ((is_ready until hub.old self.old ≡ true) × (length hub.old.entries ≡ ENTRIES_MAX)) }
        ensures entry { result ≡ Ok true → AddsOwn self.old.who hub.old hub.new }
        ensures level { IsLevel hub.new self.new }
        ensures actor { IsSameActor self.old self.new }
        ensures idle { result ≡ Ok false → (hub.new ≡ hub.old) × (self.new ≡ self.old) }
        ensures same { OnErr result ((hub.new ≡ hub.old) × (self.new ≡ self.old)) }
    {
        hub.rules();
        self.kind();
        match self.due(hub) {
            Some(tick) if tick <= last_tick(hub, until) => {}
            _ => return Ok(false),
        }
        if hub.entries().len() >= ENTRIES_MAX as usize {
            return Err(HubError::Events);
        }
        let Some(input) = self.next(hub)? else {
            return Ok(false);
        };
        self.serve(hub, input)?;
        Ok(true)
    }
}
