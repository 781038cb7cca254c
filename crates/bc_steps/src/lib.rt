//! Who acts in a run, one step at a time. An actor is a port, a follower, or the queries, each of
//! which is one event. A port's job is an event
//! of the hub, and where that gave a measure, the exchange of its servo's action, and its report. A
//! follower's job is a turn, and where that told it whom to copy, a reading of that clock, a reading
//! of its own, the exchange of its servo's action, and its sample. Events are steps of the hub; each
//! reading and each exchange stands by itself, so that others may act in between.
#![tactic(auto)]

mod actor;
mod exchange;
mod follower;
mod hub_event;
mod newest_entry;
mod port;
mod queries;
mod servo_conf;
mod ticks;

pub use actor::Actor;
pub use bc_history::Who;
pub use hub_core::{Hub, HubError};
