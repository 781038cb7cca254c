ghost use Rattle.std.specs.Prelude.{◌≡◌, ◌<◌, ◌≤◌, length, IfOk, IfSome};
ghost use Rattle.std.specs.List.{position, after_first};
ghost use Rattle.transcript.specs.LineReaders.{reading_of, lead_of, outcome_of, jump_of, locked_of, exchange_of, readings_of, report_of, frame_of, sampled_of, port_input_of, clock_input_of, is_space, behind, query_of, input_of, seen_of, event_of};

use crate::line::Line;
use crate::names::timer_named;
use crate::numbers::{number8, number16, number32, number64, signed64};
use crate::octets::hex_octets;
use crate::words::Words;
use bc_history::{Input, Outcome, Seen};
use ptp_base::{NoMemory, Octets};
use ptp_profile::{Action, Lead};
use std::alloc::Global;

/// A reading, whose first word is number `i`.
fn reading(words: &Words, i: usize) -> Option<Seen>
    requires { i ≤ 99 }
    ensures { result ≡ reading_of words.now i }
{
    Some(Seen {
        number: number32(words.at(i))?,
        value: signed64(words.at(i + 1))?,
        freq: signed64(words.at(i + 2))?,
    })
}

/// What a follower copies.
pub fn lead(words: &Words, i: usize) -> Option<Lead>
    requires { i ≤ 99 }
    ensures { result ≡ lead_of words.now i }
{
    Some(Lead {
        gener: number32(words.at(i))?,
        source: number8(words.at(i + 1))?,
    })
}

/// What an exchange gave.
fn outcome(words: &Words, i: usize) -> Option<Outcome>
    requires { i ≤ 99 }
    ensures { result ≡ outcome_of words.now i }
{
    if words.is(i, "none") {
        Some(Outcome::Unlocked)
    } else if words.is(i, "changed") {
        Some(Outcome::Changed {
            number: number32(words.at(i + 1))?,
        })
    } else if words.is(i, "superseded") {
        Some(Outcome::Superseded {
            newer: number32(words.at(i + 1))?,
            at: number32(words.at(i + 2))?,
        })
    } else if words.is(i, "spent") {
        Some(Outcome::Spent {
            at: number32(words.at(i + 1))?,
        })
    } else {
        None
    }
}

/// A step and a frequency.
fn jump(words: &Words, i: usize) -> Option<Action>
    requires { i ≤ 99 }
    ensures { result ≡ jump_of words.now i }
{
    Some(Action::Jump {
        step: signed64(words.at(i))?,
        freq: signed64(words.at(i + 1))?,
    })
}

/// A frequency.
fn locked(words: &Words, i: usize) -> Option<Action>
    requires { i ≤ 99 }
    ensures { result ≡ locked_of words.now i }
{
    Some(Action::Locked {
        freq: signed64(words.at(i))?,
    })
}

/// What a servo asked, and what the exchange gave.
fn exchange(words: &Words, i: usize) -> Option<(Action, Outcome)>
    requires { i ≤ 90 }
    ensures { result ≡ exchange_of words.now i }
{
    if words.is(i, "unlocked") {
        Some((Action::Unlocked, outcome(words, i + 1)?))
    } else if words.is(i, "jump") {
        Some((jump(words, i + 1)?, outcome(words, i + 3)?))
    } else if words.is(i, "locked") {
        Some((locked(words, i + 1)?, outcome(words, i + 2)?))
    } else {
        None
    }
}

/// A report of a port.
fn report(words: &Words) -> Option<Input>
    ensures { result ≡ report_of words.now }
{
    let port = number16(words.at(4))?;
    let tick = number64(words.at(6))?;
    let gener = number32(words.at(7))?;
    let (action, outcome) = exchange(words, 8)?;
    Some(Input::Report {
        port,
        tick,
        gener,
        action,
        outcome,
    })
}

/// What happened to a port, but for a frame.
fn port_input(words: &Words) -> Option<Input>
    ensures { result ≡ port_input_of words.now }
{
    if words.is(5, "timer") {
        Some(Input::Timed {
            port: number16(words.at(4))?,
            tick: number64(words.at(6))?,
            timer: timer_named(words.at(7))?,
        })
    } else if words.is(5, "down") {
        Some(Input::Down {
            port: number16(words.at(4))?,
            tick: number64(words.at(6))?,
        })
    } else if words.is(5, "up") {
        Some(Input::Up {
            port: number16(words.at(4))?,
            tick: number64(words.at(6))?,
        })
    } else if words.is(5, "report") {
        report(words)
    } else {
        None
    }
}

/// A frame that arrived.
fn frame(alloc: Global, words: &Words) -> Result<Option<Input>, NoMemory>
    ensures { IfOk result (λ read. read ≡ frame_of words.now) }
{
    let (Some(port), Some(tick)) = (number16(words.at(4)), number64(words.at(6))) else {
        return Ok(None);
    };
    match hex_octets(alloc, words.at(7))? {
        Some(octets) => Ok(Some(Input::Frame { port, tick, octets })),
        None => Ok(None),
    }
}

/// Both readings of a sample.
fn readings(words: &Words) -> Option<(Seen, Seen)>
    ensures { result ≡ readings_of words.now }
{
    Some((reading(words, 10)?, reading(words, 14)?))
}

/// A sample of a follower.
fn sampled(words: &Words) -> Option<Input>
    ensures { result ≡ sampled_of words.now }
{
    let clock = number8(words.at(4))?;
    let tick = number64(words.at(6))?;
    let lead = lead(words, 7)?;
    let (theirs, own) = readings(words)?;
    let (action, outcome) = exchange(words, 17)?;
    Some(Input::Sampled {
        clock,
        tick,
        lead,
        theirs,
        own,
        action,
        outcome,
    })
}

/// What happened to a follower.
fn clock_input(words: &Words) -> Option<Input>
    ensures { result ≡ clock_input_of words.now }
{
    if words.is(5, "turn") {
        Some(Input::Turn {
            clock: number8(words.at(4))?,
            tick: number64(words.at(6))?,
        })
    } else if words.is(5, "sampled") {
        sampled(words)
    } else {
        None
    }
}

/// Where the first space of a text stands.
fn first_space(text: &[u8]) -> Option<usize>
    ensures value { result ≡ position is_space text.now }
    ensures bound { IfSome result (λ k. k < length text.now) }
{
    text.iter().position(|octet| *octet == b' ')
}

/// What stands behind the first space of a text.
fn behind<'a>(text: &'a [u8]) -> &'a [u8]
    ensures { result.now ≡ behind text.now }
{
    match first_space(text) {
        Some(space) => &text[space + 1..],
        None => &[],
    }
}

/// A query: its text is all that stands behind five words.
fn query(alloc: Global, line: &[u8], words: &Words) -> Result<Option<Input>, NoMemory>
    ensures { IfOk result (λ read. read ≡ query_of line.now words.now) }
{
    let Some(tick) = number64(words.at(4)) else {
        return Ok(None);
    };
    let mut text = Octets::new(alloc);
    text.append(behind(behind(behind(behind(behind(line))))))?;
    Ok(Some(Input::Query { tick, text }))
}

/// What came to the hub.
fn input(alloc: Global, line: &[u8], words: &Words) -> Result<Option<Input>, NoMemory>
    ensures { IfOk result (λ read. read ≡ input_of line.now words.now) }
{
    if words.is(3, "port") {
        if words.is(5, "frame") {
            frame(alloc, words)
        } else {
            Ok(port_input(words))
        }
    } else if words.is(3, "clock") {
        Ok(clock_input(words))
    } else if words.is(3, "query") {
        query(alloc, line, words)
    } else {
        Ok(None)
    }
}

/// The reading that an input comes with.
fn seen(input: &Input, words: &Words) -> Option<Option<Seen>>
    ensures { result ≡ seen_of input.now words.now }
{
    match input {
        Input::Frame { .. } | Input::Timed { .. } => Some(Some(reading(words, 9)?)),
        _ => Some(None),
    }
}

/// The line that begins an entry.
pub fn event(alloc: Global, line: &[u8], words: &Words) -> Result<Option<Line>, NoMemory>
    ensures { IfOk result (λ read. read ≡ event_of line.now words.now) }
{
    let Some(input) = input(alloc, line, words)? else {
        return Ok(None);
    };
    let (Some(number), Some(moment), Some(seen)) = (
        number64(words.at(1)),
        number64(words.at(2)),
        seen(&input, words),
    ) else {
        return Ok(None);
    };
    Ok(Some(Line::Event {
        number,
        moment,
        input,
        seen,
    }))
}
