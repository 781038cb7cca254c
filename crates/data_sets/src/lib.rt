//! The data sets of a clock, and what a decision makes of them (IEEE 1588-2019, 8.2 and 9.3.5).
#![tactic(auto)]

mod data_sets;
mod port_set;

pub use data_sets::DataSets;
pub use port_set::{PortSet, PortSets};
pub use ptp_base::Code;

#[cfg(test)]
mod tests;
