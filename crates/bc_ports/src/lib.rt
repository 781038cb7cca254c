//! What an event does to the ports of a boundary clock and to its data sets: a port takes its input,
//! and then a decision for all ports may follow (IEEE 1588-2019, 9.2 and 9.3). What it tells: the
//! fate of a frame, how the ports moved, the new parent, the frames that are sent, the measure.
#![tactic(auto)]

mod boundary_clock;
mod decision;
mod event;
mod hub_port;
mod moment;
mod moves;
mod opening;
mod scratch;

pub use bc_history::{EventContext, Moved, PortEntry, PortHappening, PortInput};
pub use boundary_clock::BoundaryClock;
pub use event::EventOutcome;
pub use state_decision::Steps;
