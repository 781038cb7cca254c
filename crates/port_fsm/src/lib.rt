//! The state of a port: what each event makes of it, and the timers of the port
//! (IEEE 1588-2019, 9.2.5 and 9.2.6).
#![tactic(auto)]

mod machine;
mod timers;

pub use machine::next;
pub use ptp_profile::{PortEvent, Timer};
pub use timers::Timers;

#[cfg(test)]
mod tests;
