//! The follower of one clock: it keeps its clock to another one by readings of both. It is the
//! project's own, after phc2sys.
#![tactic(auto)]

mod follower;

pub use follower::Follower;
pub use ptp_profile::{Action, Lead, Reading, ServoConf};

#[cfg(test)]
mod tests;
