//! Management messages, read from octets and written as octets (IEEE 1588-2019, clause 15), and the
//! table of those that this clock knows.
#![tactic(auto)]

mod reading;
mod table;
mod view;
mod writing;

pub use ptp_management::{
    Action, Field, Form, MANAGEMENT_IDS, Managed, ManagementId, ReadError, Tlv,
};
pub use reading::read;
pub use table::{Shape, fields_of, name_of, named, number_of, numbered, shape_of, width_of};
pub use view::{Lent, LentTlv, lend};
pub use writing::write;

#[cfg(test)]
mod tests;
