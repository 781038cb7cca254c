//! What drives each clock, the generations of that, and the orders of a generation.
#![tactic(auto)]

mod edge;
mod generations;
mod order;

pub use edge::edges;
pub use generations::Generations;
pub use order::orders;
pub use ptp_profile::{Edge, RoleOrder};

#[cfg(test)]
mod tests;
