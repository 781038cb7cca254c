//! Clocks that drift, are stepped and are tuned.
#![tactic(auto)]

mod state;

pub use state::{ClockState, later_reads_no_less};

#[cfg(test)]
mod tests;
