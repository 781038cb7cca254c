use ptp_base::{Items, Octets, PortId, PortState};
use ptp_management::{Answers, AskError};
use ptp_profile::{Action, Fate, Held, Lead, Logs, Measure, RoleOrder, Timer};

/// What an exchange gave.
#[derive(Clone, Copy, Debug, PartialEq, Eq)]
pub enum Outcome {
    /// The action was Unlocked, so nothing was to be exchanged.
    Unlocked,
    /// The change is the entry of this number in the clock's log.
    Changed { number: u32 },
    /// A newer generation is in force after `at` entries.
    Superseded { newer: u32, at: u32 },
    /// The log is full with `at` entries.
    Spent { at: u32 },
}

/// What a clock read at the input's tick, in ns, and its frequency, after so many entries of its log.
#[derive(Clone, Copy, Debug, PartialEq, Eq)]
pub struct Seen {
    /// How many entries the log has.
    pub number: u32,
    /// The clock's time, in ns, 0 to `TIME_MAX`.
    pub value: i64,
    /// The clock's frequency, in ppb times 65,536.
    pub freq: i64,
}

/// What comes to the hub. Ticks are in ns of the scenario.
#[derive(Debug, Drop)]
pub enum Input {
    /// A frame arrives at a port.
    Frame {
        port: u16,
        tick: u64,
        octets: Octets,
    },
    /// A timer of a port fires.
    Timed {
        port: u16,
        tick: u64,
        timer: Timer,
    },
    /// A port's link goes down.
    Down {
        port: u16,
        tick: u64,
    },
    /// A port's link comes up.
    Up {
        port: u16,
        tick: u64,
    },
    /// A port says what became of its last measure: what the servo asked, and what the exchange gave.
    Report {
        port: u16,
        tick: u64,
        gener: u32,
        action: Action,
        outcome: Outcome,
    },
    /// A follower takes its turn.
    Turn {
        clock: u8,
        tick: u64,
    },
    /// A follower says what it read, what its servo asked, and what the exchange gave.
    Sampled {
        clock: u8,
        tick: u64,
        lead: Lead,
        theirs: Seen,
        own: Seen,
        action: Action,
        outcome: Outcome,
    },
    /// A management query.
    Query {
        tick: u64,
        text: Octets,
    },
}

/// A change of a port's state.
#[derive(Clone, Copy, Debug, PartialEq, Eq)]
pub struct Moved {
    /// The port's number, from 1.
    pub port: u16,
    /// The state before.
    pub old: PortState,
    /// The state after, which is another one.
    pub new: PortState,
}

/// A frame that a port sent.
#[derive(Debug, Drop)]
pub struct Sent {
    /// The port's number, from 1.
    pub port: u16,
    /// The octets of the frame.
    pub octets: Octets,
}

/// What a follower was told at its turn, and how many notices it missed.
#[derive(Clone, Copy, Debug, PartialEq, Eq)]
pub struct Told {
    /// What the follower is to copy; none where its clock copies nobody.
    pub lead: Option<Lead>,
    /// How many notices it missed.
    pub missed: u32,
}

/// Changes of state, by rising port.
pub type Moves = Items<Moved>;
/// Orders, in their order.
pub type RoleOrders = Items<RoleOrder>;
/// Frames that were sent, in their order.
pub type Sends = Items<Sent>;
/// Entries, the oldest first.
pub type Entries = Items<Entry>;

/// What follows from an input.
#[derive(Debug, Drop)]
pub struct Effects {
    /// What became of a frame.
    pub fate: Option<Fate>,
    /// Which ports changed their state; a port that changed twice stands twice.
    pub states: Moves,
    /// The new parent, where it changed.
    pub parent: Option<PortId>,
    /// The orders of a generation that begins.
    pub orders: RoleOrders,
    /// The measure that a frame gave, and the stamp of the port's clock.
    pub measure: Option<(Measure, Held)>,
    /// The frames that were sent.
    pub frames: Sends,
    /// What a follower was told.
    pub told: Option<Told>,
    /// Why a query made no request.
    pub asked: Option<AskError>,
    /// The answers to a query.
    pub answers: Answers,
}

/// An element of the history.
#[derive(Debug, Drop)]
pub struct Entry {
    /// What came to the hub.
    pub input: Input,
    /// The greatest tick of the entries so far, this one included.
    pub moment: u64,
    /// The reading of the port's clock, for a frame and a timer.
    pub seen: Option<Seen>,
    /// What followed from it.
    pub effects: Effects,
}

/// A finished run: its history, the oldest entry first, and the log of each clock.
#[derive(Debug, Drop)]
pub struct Run {
    /// The history, the oldest entry first.
    pub entries: Entries,
    /// The log of each clock, by rising clock.
    pub logs: Logs,
}

/// An actor of a run.
#[derive(Clone, Copy, Debug, PartialEq, Eq)]
pub enum Who {
    /// A port, by its number, from 1.
    Port(u16),
    /// The follower of a clock.
    Follower(u8),
    /// What asks the queries of the scenario.
    Queries,
}
