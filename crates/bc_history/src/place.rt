use crate::entry::{Outcome, Seen};
use ptp_profile::{Action, Held, Lead};

/// Where a port is in its job: an event, and where that gave a measure, the exchange of its servo's
/// action, and the report.
#[derive(Clone, Copy)]
pub enum PortPlace {
    /// At its next record or timer.
    Waits,
    /// At the exchange of its servo's action.
    Exchanges {
        /// When the measure was made, in ns of the scenario.
        tick: u64,
        /// The stamp that the port then held.
        held: Held,
        /// What the servo asks of the clock.
        action: Action,
    },
    /// At its report.
    Reports {
        /// When the measure was made, in ns of the scenario.
        tick: u64,
        /// The generation of the stamp that the port then held.
        gener: u32,
        /// What the servo asked of the clock.
        action: Action,
        /// What the exchange gave.
        outcome: Outcome,
    },
}

/// Where a follower is in its job: a turn, and where that told it whom to copy, a reading of the clock
/// that it copies, a reading of its own, the exchange of its servo's action, and the sample. The tick
/// is that of the turn, in ns of the scenario.
#[derive(Clone, Copy)]
pub enum FollowerPlace {
    /// At its next turn.
    Turns,
    /// At the reading of the clock that it copies.
    ReadsTheirs {
        /// When it was told, in ns of the scenario.
        tick: u64,
        /// What it was told.
        lead: Lead,
    },
    /// At the reading of its own clock.
    ReadsOwn {
        /// When it was told, in ns of the scenario.
        tick: u64,
        /// What it was told.
        lead: Lead,
        /// The reading of the clock that it copies.
        theirs: Seen,
    },
    /// At the exchange of its servo's action.
    Exchanges {
        /// When it was told, in ns of the scenario.
        tick: u64,
        /// What it was told.
        lead: Lead,
        /// The reading of the clock that it copies.
        theirs: Seen,
        /// The reading of its own clock.
        own: Seen,
        /// What the servo asks of its own clock.
        action: Action,
    },
    /// At its sample.
    Samples {
        /// When it was told, in ns of the scenario.
        tick: u64,
        /// What it was told.
        lead: Lead,
        /// The reading of the clock that it copies.
        theirs: Seen,
        /// The reading of its own clock.
        own: Seen,
        /// What the servo asked of its own clock.
        action: Action,
        /// What the exchange gave.
        outcome: Outcome,
    },
}
