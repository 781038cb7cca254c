//! The tests that cross crates: whole calls of the program, and a hub as it begins.
#![tactic(auto)]

#[cfg(test)]
mod call;
#[cfg(test)]
mod end_tests;
#[cfg(test)]
mod follower_tests;
#[cfg(test)]
mod query_tests;
#[cfg(test)]
mod reading_tests;
#[cfg(test)]
mod replay_tests;
#[cfg(test)]
mod steering_tests;
#[cfg(test)]
mod worked_tests;
