//! Management messages (IEEE 1588-2019, clause 15): their octets, the table of those that this clock
//! knows, and what a query asks and is answered, as definitions that contracts cite, with the data
//! types that these speak of.
#![tactic(auto)]

mod managed;
mod management_laws;
mod query;
mod table;

pub use managed::{Action, Managed, ReadError, Tlv};
pub use management_laws::{
    holds_management_numbers, managed_is_what_is_read, one_management_spelling,
    tests_tell_management,
};
pub use query::{Answers, AskError, Request};
pub use table::{Field, Form, MANAGEMENT_IDS, ManagementId};
