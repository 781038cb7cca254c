//! The comparison of two announcements: which of them is better, and whether by topology alone.
#![tactic(auto)]

mod compare_masters;
mod compare_paths;
mod comparison;
mod counted;
mod steps;

pub use comparison::compare;
pub use counted::{better, compare_counted, wins};
pub use ptp_profile::Order;
pub use steps::Steps;

#[cfg(test)]
mod tests;
