use bc_history::{AskError, Input, Moved, Seen, Sent, Told};
use ptp_base::{Octets, PortId};
use ptp_profile::{Fate, LogEntry, Measure, RoleOrder};

/// A line of a transcript, with all that it shows and nothing that only its place says.
#[derive(Debug, Drop)]
pub enum Line {
    /// The first line: which form of transcript this is.
    Head,
    /// An entry begins: its number, from 1, its moment in ns, its input, and the reading that came
    /// with it.
    Event {
        number: u64,
        moment: u64,
        input: Input,
        seen: Option<Seen>,
    },
    /// What became of a frame.
    Fate(Fate),
    /// A port's state changed.
    State(Moved),
    /// A new parent.
    Parent(PortId),
    /// An order of a generation that begins.
    Order(RoleOrder),
    /// A measure, with generation and clock of the stamp that it was made under; that stamp's
    /// controller is the entry's port.
    Measure {
        measure: Measure,
        gener: u32,
        clock: u8,
    },
    /// A frame that was sent.
    Sent(Sent),
    /// What a follower was told.
    Told(Told),
    /// Why a query made no request.
    Asked(AskError),
    /// An answer to a query.
    Answer(Octets),
    /// One of the lines that print an answer.
    Printed(Octets),
    /// A clock's log begins: its opening time in ns, and its drift in ppb times 65,536.
    Clock {
        clock: u8,
        time: i64,
        drift: i64,
    },
    /// An entry of a clock's log, numbered from 1.
    Logged {
        clock: u8,
        number: u64,
        entry: LogEntry,
    },
    /// The last line: how many entries there are.
    End {
        number: u64,
    },
}
