//! The text of a run both ways: a printer of its entries and of what drove each clock, and a reader
//! that gives the run back, or names the first line that no run continues.
#![tactic(auto)]

mod answers;
mod begin;
mod effect_lines;
mod effects;
mod entry;
mod formed;
mod hex_digits;
mod input;
mod laws;
mod line;
mod line_effect;
mod line_event;
mod line_log;
mod line_text;
mod logs;
mod names;
mod numbers;
mod octets;
mod progress;
mod reader;
mod run;
mod shown;
mod split;
mod take;
mod text_error;
mod typed;
mod words;
mod writer;

pub use laws::{faults_are_one, runs_are_read, texts_are_of_one_run};
pub use run::{read, write};
pub use text_error::TextError;

#[cfg(test)]
mod line_tests;
#[cfg(test)]
mod read_tests;
#[cfg(test)]
mod tests;
