//! What the followers of a run are told: each has a ring of the notices that wait for it, and keeps
//! the last one that it took. It is the project's own, after the subscriptions of phc2sys to ptp4l.
#![tactic(auto)]

mod follower;
mod notices;

pub use bc_history::Told;
pub use follower::{Follower, Terms};
pub use notices::Notices;
pub use notify::PUT_MAX;
pub use ptp_profile::{Lead, Notice};

#[cfg(test)]
mod tests;
