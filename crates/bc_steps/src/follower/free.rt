ghost use Rattle.std.specs.Prelude.{◌≡◌, ℕ, ◌<◌, false, OnErr, OnOk, Some};
ghost use Rattle.bc_history.specs.declared.entry.Who.TheVariants.{Follower};
ghost use Rattle.bc_history.specs.declared.place.FollowerPlace.TheVariants.{Exchanges, ReadsOwn, ReadsTheirs, Samples};
ghost use Rattle.bc_history.specs.Run.FollowerPlace.{after_follower_reading};
ghost use Rattle.bc_history.specs.Run.Samples.{follower_samples};
ghost use Rattle.bc_history.specs.Run.World.{World, Free, Of_follower, free_steps, held_by, is_inside, seen_at, step_of};
ghost use Rattle.hub_core.specs.HubView.{clock_reading};
ghost use Rattle.bc_steps.specs.ExchangeBounds.{outcome_at, with_exchange};
ghost use Rattle.bc_steps.specs.ActorView.{world_with, IsIn, IsLevel, IsSameActor, IsSameHistory};

use crate::exchange::exchange;
use crate::follower::actor::FollowerActor;
use crate::follower::place::{follower_job, seen_at};
use bc_history::{FollowerPlace, Seen};
use hub_core::Hub;
use ptp_base::NoMemory;
use ptp_profile::{Action, Held, Lead};

/// The stamp that the follower of a clock holds by its lead, whose source is at most 127.
fn held_by(clock: u8, lead: Lead) -> Held
    requires { lead.source < 128 }
    ensures { result ≡ held_by clock lead }
{
    Held {
        clock,
        gener: lead.gener,
        ctrl: 128 + lead.source,
    }
}

impl FollowerActor {
    /// Reads the clock that it was told to copy.
    fn read_theirs(&mut self, hub: &Hub, tick: u64, lead: Lead)
        requires level { IsLevel hub.now self.old }
        requires place { self.old.place ≡ Of_follower (ReadsTheirs tick lead) }
        ensures { self.new ≡ record self.old {
          place = Of_follower
              (ReadsOwn tick lead (seen_at tick (clock_reading hub.now lead.source)));
        } }
    {
        let _ = &self.place;
        let theirs = hub.read(lead.source);
        self.place = FollowerPlace::ReadsOwn {
            tick,
            lead,
            theirs: seen_at(tick, &theirs),
        };
        self.theirs = Some(theirs);
    }

    /// Reads its own clock: its servo takes the sample of both readings.
    fn read_own(&mut self, hub: &Hub, tick: u64, lead: Lead, theirs: Seen)
        requires level { IsLevel hub.now self.old }
        requires place { self.old.place ≡ Of_follower (ReadsOwn tick lead theirs) }
        ensures { (c : ℕ) → self.old.who ≡ Follower c → self.new ≡ record self.old {
          place = Of_follower (after_follower_reading self.old.scenario.options
              (follower_samples c hub.now.entries) (seen_at tick (clock_reading hub.now c))
              (ReadsOwn tick lead theirs));
        } }
    {
        let Some(read) = &self.theirs else {
            return;
        };
        let own = hub.read(self.clock);
        let action = self.follower.sample(lead, read, &own, tick);
        self.place = follower_job(tick, lead, theirs, seen_at(tick, &own), action);
    }

    /// The exchange of its servo's action under the stamp of its lead. Want of memory leaves hub and
    /// follower as they were.
    fn exchange(
        &mut self,
        hub: &mut Hub,
        tick: u64,
        lead: Lead,
        theirs: Seen,
        own: Seen,
        action: Action,
    ) -> Result<(), NoMemory>
        requires level { IsLevel hub.old self.old }
        requires place { self.old.place
            ≡ Of_follower (Exchanges tick lead theirs own action) }
        ensures hub { OnOk result ((c : ℕ) → self.old.who ≡ Follower c →
            hub.new ≡ with_exchange hub.old (held_by c lead) tick action) }
        ensures place { OnOk result ((c : ℕ) → self.old.who ≡ Follower c → self.new
            ≡ record self.old {
              place = Of_follower (Samples tick lead theirs own action
                  (outcome_at hub.old (held_by c lead) tick action));
            }) }
        ensures same { OnErr result ((hub.new ≡ hub.old) × (self.new ≡ self.old)) }
    {
        hub.rules();
        let outcome = exchange(hub, held_by(self.clock, lead), tick, action)?;
        self.place = FollowerPlace::Samples {
            tick,
            lead,
            theirs,
            own,
            action,
            outcome,
        };
        Ok(())
    }

    /// Its next step, a reading or the exchange of its servo's action. Want of memory leaves hub and
    /// follower as they were.
    pub fn free(&mut self, hub: &mut Hub) -> Result<(), NoMemory>
        requires level { IsLevel hub.old self.old }
        requires inside { is_inside self.old.place ≡ false }
        ensures step { OnOk result ((w : World) → IsIn w hub.old self.old →
            step_of hub.old.scenario w self.old.who ≡ Some (Free (world_with w hub.new self.new))) }
        ensures hub { OnOk result (IsSameHistory hub.old hub.new) }
        ensures fewer { OnOk result (free_steps self.new.place < free_steps self.old.place) }
        ensures level { IsLevel hub.new self.new }
        ensures actor { IsSameActor self.old self.new }
        ensures same { OnErr result ((hub.new ≡ hub.old) × (self.new ≡ self.old)) }
    {
        match self.place {
            FollowerPlace::Turns | FollowerPlace::Samples { .. } => {}
            FollowerPlace::ReadsTheirs { tick, lead } => self.read_theirs(hub, tick, lead),
            FollowerPlace::ReadsOwn { tick, lead, theirs } => {
                self.read_own(hub, tick, lead, theirs)
            }
            FollowerPlace::Exchanges {
                tick,
                lead,
                theirs,
                own,
                action,
            } => self.exchange(hub, tick, lead, theirs, own, action)?,
        }
        Ok(())
    }
}
