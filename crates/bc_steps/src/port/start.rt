ghost use Rattle.std.specs.Prelude.{◌≡◌, [], Contains, IfOk};
ghost use Rattle.bc_history.specs.declared.entry.Who.TheVariants.{Port};
ghost use Rattle.bc_history.specs.Run.Actors.{actors_of};
ghost use Rattle.bc_steps.specs.ActorView.{place_at_opening};

use crate::port::actor::PortActor;
use crate::port::record_queue::queue_of;
use crate::servo_conf::servo_of;
use bc_history::{Entries, PortPlace, Scenario};
use pi_servo::Steerer;
use ptp_base::{Items, NoMemory};
use std::alloc::Global;
use std::snapshot::Snapshot;

impl PortActor {
    /// The port of a number, from 1, before the first entry. It keeps its own records, and needs the
    /// scenario no more.
    pub fn new(alloc: Global, s: &Scenario, number: u16) -> Result<PortActor, NoMemory>
        requires there { Contains (actors_of s.now) (Port number) }
        ensures { IfOk result (λ actor. actor ≡ record {
          scenario = s.now;
          who = Port number;
          entries = [];
          place = place_at_opening (Port number);
        }) }
    {
        s.rules();
        let none: Entries = Items::new(alloc);
        Ok(PortActor {
            alloc,
            scenario: Snapshot::of(s),
            history: Snapshot::of(&none),
            number,
            duration: s.options.duration,
            records: queue_of(alloc, s.records.items(), number)?,
            steerer: Steerer::new(servo_of(&s.options)),
            place: PortPlace::Waits,
        })
    }
}
