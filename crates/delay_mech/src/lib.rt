//! The delay request-response mechanism of one port: its delays, and their median
//! (IEEE 1588-2019, 11.3.2).
#![tactic(auto)]

mod arithmetic;
mod delays;
mod median;
mod request;

pub use delays::{Delays, Response};
pub use ptp_base::Triple;

#[cfg(test)]
mod tests;
