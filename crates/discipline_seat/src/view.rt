use model_clock::ClockState;
use ptp_profile::{LogEntry, Reading};
use std::collections::LinkedList;

/// Whose view it is.
pub enum Owner {
    /// The hub's.
    Hub,
    /// That of a port, from 1.
    Port(u8),
    /// That of the follower of a clock, from 0.
    Follower(u8),
    /// A note's, or that of a seat that was taken in.
    Nobody,
}

/// An item of a story: an answer with its arguments, or a page. It is for contracts alone.
pub enum StoryItem {
    /// A reading of a clock.
    GaveReading {
        clock: u8,
        reading: Reading,
    },
    /// The receipt of a change.
    GaveReceipt {
        clock: u8,
        gener: u32,
        ctrl: u8,
        tick: u64,
        step: i64,
        freq: i64,
        number: u32,
    },
    /// A change that was refused: a newer generation was in force after `at` entries.
    WasSuperseded {
        clock: u8,
        gener: u32,
        ctrl: u8,
        tick: u64,
        step: i64,
        freq: i64,
        newer: u32,
        at: u32,
    },
    /// A change that was refused: the log had `at` entries, which is all that it may have.
    WasSpent {
        clock: u8,
        gener: u32,
        ctrl: u8,
        tick: u64,
        step: i64,
        freq: i64,
        at: u32,
    },
    /// A page that says something.
    HadPage {
        list: LinkedList<u64>,
    },
}

/// What a view has of stories, the newest item first. It is for contracts alone.
pub struct StoryView {
    /// The pass's own story.
    pub story: LinkedList<StoryItem>,
    /// The part of it that the pass knows the hub's seat to have.
    pub told: LinkedList<StoryItem>,
    /// The hub's story of each pass.
    pub stories: LinkedList<LinkedList<StoryItem>>,
    /// Of the hub's last join: which pass it was.
    pub met: u64,
    /// Of the hub's last join: the hub's story of that pass before it.
    pub was: LinkedList<StoryItem>,
    /// Of the hub's last join: the story of the note.
    pub note_story: LinkedList<StoryItem>,
    /// Of the hub's last join: what the note was told.
    pub note_told: LinkedList<StoryItem>,
}

/// What a seat knows. No value of it is made: it is for contracts alone.
pub struct View {
    /// Whose it is.
    pub owner: Owner,
    /// Of each clock the log as far as it was seen, the newest entry first.
    pub seen: LinkedList<LinkedList<LogEntry>>,
    /// What it had seen before the last join.
    pub former: LinkedList<LinkedList<LogEntry>>,
    /// What the other had seen at the last join.
    pub noted: LinkedList<LinkedList<LogEntry>>,
    /// Whose view the last join took in, where it took in a pass for good.
    pub noter: Owner,
    /// What it has of stories.
    pub stories: StoryView,
    /// How many passes the hub's seat made.
    pub passes: u64,
    /// How many of the passes are ports'.
    pub ports: u64,
    /// Which pass it is, from 0.
    pub number: u64,
    /// The passes that the hub's seat took in for good.
    pub joined: LinkedList<u64>,
    /// The clocks as the table opened.
    pub openings: LinkedList<ClockState>,
    /// The clock that it looked at last.
    pub draft_clock: u64,
    /// What it stored since of the row behind the entries that it saw.
    pub draft: LinkedList<u64>,
}

/// What a table is told once.
#[derive(Drop)]
pub struct Setup {
    pub(crate) rows: u32,
    pub(crate) clocks: u8,
    pub(crate) ports: u8,
    pub(crate) openings: Vec<ClockState>,
}
