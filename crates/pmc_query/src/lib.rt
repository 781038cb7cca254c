//! Management queries: what a text asks, what the data sets answer, and how answers are printed.
#![tactic(auto)]

mod answering;
mod asking;
mod forms;
mod printing;
mod showing;
mod values;

pub use answering::answer;
pub use asking::{ask, request, spell};
pub use forms::{add_hex, add_port, state_name};
pub use printing::print;
pub use ptp_management::{Answers, AskError, Request};
pub use showing::shows;

#[cfg(test)]
mod tests;
