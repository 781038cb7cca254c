//! The five messages of the profile, read from octets and written as octets (IEEE 1588-2019,
//! clause 13). Where each field stands is one table, `fields`, which reading and writing both use.
#![tactic(auto)]

mod fields;
mod flags;
mod reading;
mod writing;

pub use ptp_profile::{Body, Message, Reject, Said};
pub use reading::decode;
pub use writing::{encode, encode_reserved, written_length};

#[cfg(test)]
mod tests;
