//! What the newest entry of the hub tells.

ghost use Rattle.std.specs.Prelude.{◌≡◌};
ghost use Rattle.hub_core.specs.HubView.{newest_seen};
ghost use Rattle.bc_steps.specs.NewestEntry.{newest_measure, newest_told};

use bc_history::{Seen, Told};
use hub_core::Hub;
use ptp_profile::{Held, Measure};

/// The reading of the hub's newest entry, if it has one.
pub fn newest_seen(hub: &Hub) -> Option<Seen>
    ensures { result ≡ newest_seen hub.now.entries }
{
    match hub.entries().items().last() {
        Some(entry) => entry.seen,
        None => None,
    }
}

/// What the hub's newest entry measured, and the stamp of the port's clock, if anything.
pub fn newest_measure(hub: &Hub) -> Option<(Measure, Held)>
    ensures { result ≡ newest_measure hub.now.entries }
{
    match hub.entries().items().last() {
        Some(entry) => entry.effects.measure,
        None => None,
    }
}

/// What the hub's newest entry told a follower, if anything.
pub fn newest_told(hub: &Hub) -> Option<Told>
    ensures { result ≡ newest_told hub.now.entries }
{
    match hub.entries().items().last() {
        Some(entry) => entry.effects.told,
        None => None,
    }
}
