//! What drives each clock of a run: the edges with their generation, the stamp of each clock's last
//! order, and the orders that go into the seats.
#![tactic(auto)]

mod orders;
mod roles;

pub use roles::Roles;

#[cfg(test)]
mod tests;
