ghost use Rattle.std.specs.Prelude.{◌≡◌};
ghost use Rattle.transcript.specs.LineReaders.{clock_of, order_entry_of, change_of, entry_of, logged_of};

use crate::line::Line;
use crate::numbers::{number8, number32, number64, scaled, signed64};
use crate::words::Words;
use ptp_profile::LogEntry;

/// The line that begins the log of a clock.
pub fn clock(words: &Words) -> Option<Line>
    ensures { result ≡ clock_of words.now }
{
    Some(Line::Clock {
        clock: number8(words.at(1))?,
        time: signed64(words.at(2))?,
        drift: scaled(words.at(3))?,
    })
}

/// An order in a log.
fn order_entry(words: &Words) -> Option<LogEntry>
    ensures { result ≡ order_entry_of words.now }
{
    Some(LogEntry::Order {
        gener: number32(words.at(4))?,
        ctrl: number8(words.at(5))?,
    })
}

/// A change in a log.
fn change(words: &Words) -> Option<LogEntry>
    ensures { result ≡ change_of words.now }
{
    Some(LogEntry::Change {
        gener: number32(words.at(4))?,
        ctrl: number8(words.at(5))?,
        tick: number64(words.at(6))?,
        step: signed64(words.at(7))?,
        freq: signed64(words.at(8))?,
    })
}

/// An entry of a log.
fn entry(words: &Words) -> Option<LogEntry>
    ensures { result ≡ entry_of words.now }
{
    if words.is(3, "order") {
        order_entry(words)
    } else if words.is(3, "change") {
        change(words)
    } else {
        None
    }
}

/// The line of an entry of a log.
pub fn logged(words: &Words) -> Option<Line>
    ensures { result ≡ logged_of words.now }
{
    Some(Line::Logged {
        clock: number8(words.at(1))?,
        number: number64(words.at(2))?,
        entry: entry(words)?,
    })
}
