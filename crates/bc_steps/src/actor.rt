ghost use Rattle.std.specs.Prelude.{◌≡◌, ◌↔◌, ◌<◌, true, false, [], length, Contains, Err, IfOk, Ok, OnErr, OnOk, Some};
ghost use Rattle.ptp_base.specs.declared.limits.TheConstants.{ENTRIES_MAX};
ghost use Rattle.bc_history.specs.Run.Actors.{actors_of};
ghost use Rattle.bc_history.specs.Run.World.{World, Event, Free, free_steps, is_busy, is_inside, step_of};
ghost use Rattle.bc_steps.specs.ActorView.{due_tick, is_ready, place_at_opening, world_with, AddsOwn, IsIn, IsJobDue, IsLevel, IsPlaceOf, IsSameActor, IsSameHistory};

use crate::follower::actor::FollowerActor;
use crate::port::actor::PortActor;
use crate::queries::QueryActor;
use bc_history::{Scenario, Who};
use hub_core::{Hub, HubError};
use ptp_base::NoMemory;
use std::alloc::Global;
use std::marker::Model;

/// Of which kind an actor is.
#[derive(Drop)]
enum ActorKind {
    /// A port with its servo.
    Port(PortActor),
    /// The follower of a clock, with its servo.
    Follower(FollowerActor),
    /// The queries.
    Queries(QueryActor),
}

/// One who acts in a run: a port or a follower, with its servo, or the queries. Contracts see its
/// scenario, who it is, its own entries, the newest first, and where it is in its job.
#[derive(Drop)]
pub struct Actor {
    kind: ActorKind,
}

impl Model for Actor {
    ghost use Rattle.bc_steps.specs.ActorKinds.{actor_view};
    ghost use Rattle.bc_steps.specs.ActorView.{ActorState};

    ghost Value = { ActorState };

    ghost view = { actor_view };
}

impl Actor {
    /// An actor of a scenario before the first entry. It keeps what it needs, and needs the scenario
    /// no more.
    pub fn new(alloc: Global, s: &Scenario, who: Who) -> Result<Actor, NoMemory>
        requires there { Contains (actors_of s.now) who }
        ensures { IfOk result (λ actor. actor ≡ record {
          scenario = s.now;
          who = who;
          entries = [];
          place = place_at_opening who;
        }) }
    {
        let kind = match who {
            Who::Port(number) => ActorKind::Port(PortActor::new(alloc, s, number)?),
            Who::Follower(clock) => ActorKind::Follower(FollowerActor::new(alloc, s, clock)),
            Who::Queries => ActorKind::Queries(QueryActor::new(alloc, s)?),
        };
        Ok(Actor { kind })
    }

    /// The tick of its next step, in ns of the scenario; None exactly where it has none up to the end
    /// of the run. Does not allocate.
    pub fn due(&self, hub: &Hub) -> Option<u64>
        requires level { IsLevel hub.now self.now }
        ensures tick { result ≡ due_tick hub.now self.now }
    {
        match &self.kind {
            ActorKind::Port(port) => port.due(hub),
            ActorKind::Follower(follower) => follower.due(),
            ActorKind::Queries(queries) => queries.due(hub),
        }
    }

    /// Whether it is in the middle of its job. Does not allocate.
    pub fn is_busy(&self) -> bool
        ensures { result ≡ is_busy self.now.place }
    {
        match &self.kind {
            ActorKind::Port(port) => port.is_busy(),
            ActorKind::Follower(follower) => follower.is_busy(),
            ActorKind::Queries(queries) => {
                queries.kind();
                false
            }
        }
    }

    /// False exactly where its next step is a reading or an exchange. Does not allocate.
    pub fn inside(&self) -> bool
        ensures { result ≡ is_inside self.now.place }
    {
        match &self.kind {
            ActorKind::Port(port) => port.inside(),
            ActorKind::Follower(follower) => follower.inside(),
            ActorKind::Queries(queries) => {
                queries.kind();
                true
            }
        }
    }

    /// Says that the actor is at a place of its own kind, as every actor is, and goes on with its job
    /// before the run ends. It does nothing: who calls it is told so.
    pub fn kind(&self)
        ensures place { IsPlaceOf self.now.who self.now.place }
        ensures job { IsJobDue self.now.scenario self.now.place }
    {
        match &self.kind {
            ActorKind::Port(port) => port.kind(),
            ActorKind::Follower(follower) => follower.kind(),
            ActorKind::Queries(queries) => queries.kind(),
        }
    }

    /// Its next step, an event of the hub. Ok(false) exactly where it has none up to `until`, in ns of
    /// the scenario, in the hub's window, and up to the end of the run. Events exactly where it has
    /// one, and the hub has
    /// `ENTRIES_MAX` entries. A refusal leaves hub and actor as they were.
    pub fn event(&mut self, hub: &mut Hub, until: u64) -> Result<bool, HubError>
        requires level { IsLevel hub.old self.old }
        requires inside { is_inside self.old.place ≡ true }
        ensures step { (w : World) → result ≡ Ok true → IsIn w hub.old self.old →
            step_of hub.old.scenario w self.old.who ≡ Some (Event (world_with w hub.new self.new)) }
        ensures waits { (result ≡ Ok false) ↔ (is_ready until hub.old self.old ≡ false) }
        ensures events { (result ≡ Err HubError.Events)
            ↔ ((is_ready until hub.old self.old ≡ true) × (length hub.old.entries ≡ ENTRIES_MAX)) }
        ensures entry { result ≡ Ok true → AddsOwn self.old.who hub.old hub.new }
        ensures level { IsLevel hub.new self.new }
        ensures actor { IsSameActor self.old self.new }
        ensures idle { result ≡ Ok false → (hub.new ≡ hub.old) × (self.new ≡ self.old) }
        ensures same { OnErr result ((hub.new ≡ hub.old) × (self.new ≡ self.old)) }
    {
        match &mut self.kind {
            ActorKind::Port(port) => port.event(hub, until),
            ActorKind::Follower(follower) => follower.event(hub, until),
            ActorKind::Queries(queries) => queries.event(hub, until),
        }
    }

    /// Its next step, a reading or the exchange of its servo's action. Want of memory leaves hub and
    /// actor as they were.
    pub fn free(&mut self, hub: &mut Hub) -> Result<(), NoMemory>
        requires level { IsLevel hub.old self.old }
        requires inside { is_inside self.old.place ≡ false }
        ensures step { OnOk result ((w : World) → IsIn w hub.old self.old →
            step_of hub.old.scenario w self.old.who ≡ Some (Free (world_with w hub.new self.new))) }
        ensures hub { OnOk result (IsSameHistory hub.old hub.new) }
        ensures fewer { OnOk result (free_steps self.new.place < free_steps self.old.place) }
        ensures level { IsLevel hub.new self.new }
        ensures actor { IsSameActor self.old self.new }
        ensures same { OnErr result ((hub.new ≡ hub.old) × (self.new ≡ self.old)) }
    {
        match &mut self.kind {
            ActorKind::Port(port) => port.free(hub),
            ActorKind::Follower(follower) => follower.free(hub),
            ActorKind::Queries(queries) => {
                queries.kind();
                unreachable!()
            }
        }
    }
}
