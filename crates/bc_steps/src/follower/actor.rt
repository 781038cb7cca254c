ghost use Rattle.std.specs.Prelude.{◌≡◌};
ghost use Rattle.bc_history.specs.Run.World.{is_busy, is_inside};
ghost use Rattle.hub_core.specs.HubView.{HubState};
ghost use Rattle.bc_steps.specs.ActorView.{due_tick, IsJobDue, IsLevel, IsPlaceOf};

use crate::follower::place::{tick_at, turn_after};
use bc_history::{Entries, FollowerPlace, Scenario};
use phc_follow::Follower;
use ptp_profile::Reading;
use std::marker::Model;
use std::snapshot::Snapshot;

/// The follower of a clock, with its servo. Contracts see it as an actor.
#[derive(Drop)]
pub struct FollowerActor {
    pub(crate) scenario: Snapshot<Scenario>,
    // The hub's entries up to the follower's last one.
    pub(crate) history: Snapshot<Entries>,
    // The clock that follows, from 0.
    pub(crate) clock: u8,
    // How many turns it took.
    pub(crate) turns: u32,
    // From one turn to the next, in ns of the scenario.
    pub(crate) interval: u64,
    // The end of the run, in ns of the scenario.
    pub(crate) duration: u64,
    pub(crate) follower: Follower,
    pub(crate) place: FollowerPlace,
    // The last reading of the clock that it copies.
    pub(crate) theirs: Option<Reading>,
}

impl Model for FollowerActor {
    ghost use Rattle.bc_steps.specs.ActorView.{ActorState};
    ghost use Rattle.bc_steps.specs.FollowerActors.{follower_actor_view, IsFollowerActor};

    ghost Value = { ActorState };

    ghost view = { follower_actor_view };

    ghost invariant = { IsFollowerActor };
}

impl FollowerActor {
    /// The tick of its next step, in ns of the scenario; None exactly where that is beyond the end of
    /// the run. Does not allocate.
    pub fn due(&self) -> Option<u64>
        ensures tick { (hub : HubState) → IsLevel hub self.now → result ≡ due_tick hub self.now }
    {
        let tick = tick_at(turn_after(self.turns, self.interval), &self.place);
        if tick <= self.duration {
            Some(tick)
        } else {
            None
        }
    }

    /// Whether it is in the middle of its job. Does not allocate.
    pub fn is_busy(&self) -> bool
        ensures { result ≡ is_busy self.now.place }
    {
        !matches!(self.place, FollowerPlace::Turns)
    }

    /// False exactly where its next step is a reading or an exchange. Does not allocate.
    pub fn inside(&self) -> bool
        ensures { result ≡ is_inside self.now.place }
    {
        matches!(
            self.place,
            FollowerPlace::Turns | FollowerPlace::Samples { .. }
        )
    }

    /// Says that it is at a place of a follower, and goes on with its job before the run ends. It does
    /// nothing: who calls it is told so.
    pub fn kind(&self)
        ensures place { IsPlaceOf self.now.who self.now.place }
        ensures job { IsJobDue self.now.scenario self.now.place }
    {
        let _ = &self.place;
    }
}
