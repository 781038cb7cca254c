//! Where octets come from and go to, and the reasons for which a text is refused.
#![tactic(auto)]

mod adapters;
mod lines;
mod mem_sink;
mod mem_source;
mod numerals;
mod reason;
mod source_and_sink;
mod sure_ends;

pub use adapters::{InAdapter, OutAdapter};
pub use lines::{Words, is_printable, lines_in, words_in};
pub use mem_sink::MemSink;
pub use mem_source::MemSource;
pub use numerals::{hex_number, identity, number, seconds, signed};
pub use reason::Reason;
pub use source_and_sink::{Failed, Sink, Source};
pub use sure_ends::{SureSink, SureSource};

#[cfg(test)]
mod tests;
