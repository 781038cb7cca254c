//! Pairs a Sync with its Follow_Up, in either order (IEEE 1588-2019, 9.5.4, 9.5.5 and 11.2).
#![tactic(auto)]

mod pairing;
mod piece;

pub use pairing::Pairing;
pub use ptp_base::Triple;

#[cfg(test)]
mod tests;
