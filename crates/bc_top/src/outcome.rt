ghost use Rattle.std.specs.Prelude.{◌≡◌};
ghost use Rattle.bc_top.specs.ExitStatus.{status_of, end_without};

use text_io::Reason;

/// How a call ended.
#[derive(Clone, Copy, Debug, PartialEq, Eq)]
pub enum End {
    /// What the command owes was written: the whole transcript of what was read to the end of the
    /// source, or at `gen` the summary.
    Done,
    /// The words are none that the program takes.
    Usage,
    /// The text that was read is no scenario.
    Refused {
        /// The first line at fault, from 1.
        line: u32,
        /// What is wrong with it.
        reason: Reason,
    },
    /// A read failed.
    ReadFault,
    /// A write failed.
    WriteFault,
    /// `ENTRIES_MAX` entries were held and another event was due.
    Events,
    /// There was no memory.
    NoMemory,
    /// A turn of the schedule has no step: it names an actor that has none, or none has one.
    NotDue {
        /// The turn, from 1.
        turn: u32,
    },
    /// The source gave more than `TEXT_MAX` octets.
    TooLong,
}

impl End {
    /// The status that the program ends with.
    pub fn status(&self) -> u8
        ensures { result ≡ status_of self.now }
    {
        match self {
            End::Done => 0,
            End::Usage => 1,
            End::Refused { .. } => 2,
            End::ReadFault => 3,
            End::WriteFault => 4,
            End::Events => 5,
            End::NoMemory => 6,
            End::NotDue { .. } => 7,
            End::TooLong => 8,
        }
    }
}

/// Why a text has no transcript, or a made scenario no summary.
#[derive(Clone, Copy, Debug, PartialEq, Eq)]
pub enum NoTranscript {
    /// The text is no scenario.
    Refused { line: u32, reason: Reason },
    /// `ENTRIES_MAX` entries were held and another event was due.
    Events,
    /// A turn of the schedule has no step.
    NotDue { turn: u32 },
    /// There was no memory.
    NoMemory,
}

impl NoTranscript {
    /// How a call ends that has nothing to write.
    pub fn end(&self) -> End
        ensures { result ≡ end_without self.now }
    {
        match self {
            NoTranscript::Refused { line, reason } => End::Refused {
                line: *line,
                reason: *reason,
            },
            NoTranscript::Events => End::Events,
            NoTranscript::NotDue { turn } => End::NotDue { turn: *turn },
            NoTranscript::NoMemory => End::NoMemory,
        }
    }
}
