//! One port of a clock: its state, its timers, and what it makes of the messages of its parent and
//! of the clocks that follow it (IEEE 1588-2019, 9.2, 9.5 and 11.3).
#![tactic(auto)]

mod blank_frames;
mod engine;
mod entering;
mod firing;
mod frames;
mod hearing;
mod intervals;
mod messages;
mod offset;

pub use engine::PortEngine;
pub use frames::Frames;
pub use ptp_base::PortConf;
pub use ptp_profile::{Fate, Measure};

#[cfg(test)]
mod tests;
