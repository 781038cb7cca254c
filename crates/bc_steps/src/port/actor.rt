ghost use Rattle.std.specs.Prelude.{◌≡◌, ◌==◌, ℕ, Some, None};
ghost use Rattle.bc_history.specs.Phases.Step.{state_of};
ghost use Rattle.bc_history.specs.Run.World.{is_busy, is_inside};
ghost use Rattle.bc_steps.specs.ActorView.{due_tick, IsJobDue, IsLevel, IsPlaceOf};

use crate::port::queue::tick_at;
use crate::port::record_queue::RecordQueue;
use bc_history::{Entries, PortPlace, Scenario};
use hub_core::Hub;
use pi_servo::Steerer;
use std::alloc::Global;
use std::marker::Model;
use std::snapshot::Snapshot;

/// A port with its servo. Contracts see it as an actor.
#[derive(Drop)]
pub struct PortActor {
    pub(crate) alloc: Global,
    pub(crate) scenario: Snapshot<Scenario>,
    // The hub's entries up to the actor's last one.
    pub(crate) history: Snapshot<Entries>,
    // The port's number, from 1.
    pub(crate) number: u16,
    // The end of the run, in ns of the scenario.
    pub(crate) duration: u64,
    // The records that are still to come.
    pub(crate) records: RecordQueue,
    pub(crate) steerer: Steerer,
    pub(crate) place: PortPlace,
}

impl Model for PortActor {
    ghost use Rattle.bc_steps.specs.PortActors.{port_actor_view, IsPortActor};
    ghost use Rattle.bc_steps.specs.ActorView.{ActorState};

    ghost Value = { ActorState };

    ghost view = { port_actor_view };

    ghost invariant = { IsPortActor };
}

impl PortActor {
    /// The tick of its next step, in ns of the scenario; None exactly where it has none up to the end
    /// of the run. Does not allocate.
    pub fn due(&self, hub: &Hub) -> Option<u64>
        requires level { IsLevel hub.now self.now }
        ensures tick { result ≡ due_tick hub.now self.now }
    {
        match tick_at(self.place, &self.records, hub.due(self.number)) {
            Some(tick) if tick <= self.duration => Some(tick),
            _ => None,
        }
    }

    /// Whether it is in the middle of its job. Does not allocate.
    pub fn is_busy(&self) -> bool
        ensures { result ≡ is_busy self.now.place }
    {
        !matches!(self.place, PortPlace::Waits)
    }

    /// False exactly where its next step is an exchange. Does not allocate.
    pub fn inside(&self) -> bool
        ensures { result ≡ is_inside self.now.place }
    {
        !matches!(self.place, PortPlace::Exchanges { .. })
    }

    /// Says that it is at a place of a port, and goes on with its job before the run ends. It does
    /// nothing: who calls it is told so.
    pub fn kind(&self)
        ensures place { IsPlaceOf self.now.who self.now.place }
        ensures job { IsJobDue self.now.scenario self.now.place }
    {
        let _ = &self.place;
    }
}
