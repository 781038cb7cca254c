ghost use Rattle.std.specs.Prelude.{◌≡◌, [], Contains};
ghost use Rattle.bc_history.specs.declared.entry.Who.TheVariants.{Follower as A_follower};
ghost use Rattle.bc_history.specs.Run.Actors.{actors_of};
ghost use Rattle.bc_steps.specs.ActorView.{place_at_opening};

use crate::follower::actor::FollowerActor;
use crate::servo_conf::servo_of;
use bc_history::{Entries, FollowerPlace, Scenario};
use phc_follow::Follower;
use ptp_base::Items;
use std::alloc::Global;
use std::snapshot::Snapshot;

impl FollowerActor {
    /// The follower of a clock, from 0, before the first entry. It needs the scenario no more.
    pub fn new(alloc: Global, s: &Scenario, clock: u8) -> FollowerActor
        requires there { Contains (actors_of s.now) (A_follower clock) }
        ensures { result ≡ record {
          scenario = s.now;
          who = A_follower clock;
          entries = [];
          place = place_at_opening (A_follower clock);
        } }
    {
        s.rules();
        let none: Entries = Items::new(alloc);
        FollowerActor {
            scenario: Snapshot::of(s),
            history: Snapshot::of(&none),
            clock,
            turns: 0,
            interval: s.options.follow_interval,
            duration: s.options.duration,
            follower: Follower::new(clock, servo_of(&s.options)),
            place: FollowerPlace::Turns,
            theirs: None,
        }
    }
}
