//! The hub of a boundary clock, one event at a time: the input of a port is its own event, and then
//! a decision for all ports (IEEE 1588-2019, 9.2 and 9.3); from the ports' states follows what drives
//! each clock, and what its followers are told; a query is answered by the data sets (15.5). `Hub`
//! keeps the history, whose entries tell all of that, and the clocks' logs.
#![tactic(auto)]

mod adjust;
mod advance;
mod effect_copies;
mod effect_rooms;
mod effects;
mod followers;
mod hub;
mod hub_parts;
mod opening;
mod own_input;
mod query;
mod reply;
mod windows;

pub use adjust::PlainRefused;
pub use bc_history::{
    Answers, AskError, Effects, Entries, Entry, Input, Logs, Moved, Moves, Outcome, RoleOrders,
    Scenario, Seen, Sends, Sent, Told,
};
pub use bc_ports::Steps;
pub use hub::{Hub, HubError};
