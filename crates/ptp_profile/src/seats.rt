use model_clock::ClockState;
use ptp_base::Items;

/// The stamp under which an actor holds a clock: a generation and a controller.
#[derive(Clone, Copy, Debug, PartialEq, Eq)]
pub struct Held {
    /// The clock, from 0.
    pub clock: u8,
    /// The generation of the order.
    pub gener: u32,
    /// The controller, as the order has it: 0 for nobody.
    pub ctrl: u8,
}

/// A clock's state after so many entries of its log, with the stamp then in force.
#[derive(Clone, Copy, Debug, PartialEq, Eq)]
pub struct Reading {
    /// After how many entries.
    pub number: u32,
    /// The generation of the last order; 0 before the first.
    pub gener: u32,
    /// The controller of the last order; 0 for nobody.
    pub ctrl: u8,
    /// The clock then.
    pub state: ClockState,
}

/// The number, from 1, that an entry has in its clock's log.
#[derive(Clone, Copy, Debug, PartialEq, Eq)]
pub struct Receipt {
    /// The place in the log, from 1.
    pub number: u32,
}

/// Why a clock was not changed.
#[derive(Clone, Copy, Debug, PartialEq, Eq)]
pub enum Refused {
    /// A newer generation is in force after `at` entries.
    Superseded { newer: u32, at: u32 },
    /// The log has `at` entries, which is all that it may have.
    Spent { at: u32 },
}

/// An entry of a clock's log. Ticks and steps are in ns, frequencies in ppb times 65,536.
#[derive(Clone, Copy, Debug, PartialEq, Eq)]
pub enum LogEntry {
    /// The controller from now on.
    Order {
        gener: u32,
        ctrl: u8,
    },
    /// A change of the clock under a stamp.
    Change {
        gener: u32,
        ctrl: u8,
        tick: u64,
        step: i64,
        freq: i64,
    },
}

/// The entries of a log, the oldest first.
pub type LogEntries = Items<LogEntry>;

/// A clock's opening, and what was ordered and changed since, the oldest first.
#[derive(Debug, Drop)]
pub struct Log {
    /// The clock, from 0.
    pub clock: u8,
    /// The clock as the run begins.
    pub opening: ClockState,
    /// What was ordered and changed since, the oldest first.
    pub entries: LogEntries,
}

/// Logs, by rising clock.
pub type Logs = Items<Log>;
