//! The state decision of a clock: what the best master clock algorithm says of each of its ports
//! (IEEE 1588-2019, 9.3.3).
#![tactic(auto)]

mod best;
mod code;
mod decider;
mod decision;
mod passes;

pub use decider::Decider;
pub use decision::decide_all;
pub use ds_compare::Steps;
pub use ptp_base::Code;
pub use ptp_profile::PortBest;

#[cfg(test)]
mod tests;
