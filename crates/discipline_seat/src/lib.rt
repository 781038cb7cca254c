//! Who holds each clock, what was ordered and changed of it, and what that makes of it.
#![tactic(auto)]

mod close;
mod entries;
mod pass;
mod plain;
mod seat;
mod seats;
mod steps;
mod table;
mod view;

pub use close::Left;
pub use pass::{HubSeat, Pass, Passes};
pub use plain::PlainSeats;
pub use ptp_profile::{Held, Log, LogEntries, LogEntry, Logs, Reading, Receipt, Refused};
pub use seats::{NoPage, Page};
pub use table::Seats;
pub use view::{Owner, StoryItem, StoryView, View};

#[cfg(test)]
mod crew_tests;
#[cfg(test)]
mod tests;
