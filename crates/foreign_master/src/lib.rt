//! What a port keeps of the Announces of other clocks, and the best of them
//! (IEEE 1588-2019, 9.3.2).
#![tactic(auto)]

mod calls;
mod foreign_master;
mod laws;
mod master_table;
mod pass;
mod records;
mod search;
mod window;

pub use calls::{Answer, Call};
pub use ds_compare::Steps;
pub use laws::settled_is_same_set;
pub use ptp_profile::Heard;
pub use records::Records;

#[cfg(test)]
mod tests;
