//! From a scenario text to its scenario, or to its first faulty line.
#![tactic(auto)]

mod draft;
mod header;
mod line;
mod options;
mod refusal;
mod section;
mod setting;
mod table;
mod text;

pub use bc_history::{
    Asked, AskedList, ClockStates, Happening, Options, PortConfs, Record, RecordList, Scenario,
    Turner, Turns, TurnsList,
};
pub use options::{option_named, option_value};
pub use refusal::Refusal;
pub use setting::{row, set_clock_option, set_option, set_port_option};
pub use table::OptionRow;
pub use text::scenario;
pub use text_io::Reason;

#[cfg(test)]
mod option_tests;
#[cfg(test)]
mod tests;
