ghost use Rattle.std.specs.Prelude.{◌≡◌, IfOk};
ghost use Rattle.transcript.specs.LineReaders.{moved_of, order_of, measure_of, told_of, plain_effect_of, parent_of, sent_of, answer_of, effect_of};

use crate::line::Line;
use crate::line_event::lead;
use crate::names::{asked_named, fate_named, state_named};
use crate::numbers::{number8, number16, number32, signed64, signed128};
use crate::octets::{hex_octets, port};
use crate::words::Words;
use bc_history::{Moved, Sent, Told};
use ptp_base::NoMemory;
use ptp_profile::{Measure, RoleOrder};
use std::alloc::Global;

/// A change of a port's state.
fn moved(words: &Words) -> Option<Line>
    ensures { result ≡ moved_of words.now }
{
    Some(Line::State(Moved {
        port: number16(words.at(3))?,
        old: state_named(words.at(4))?,
        new: state_named(words.at(5))?,
    }))
}

/// An order.
fn order(words: &Words) -> Option<Line>
    ensures { result ≡ order_of words.now }
{
    Some(Line::Order(RoleOrder {
        clock: number8(words.at(3))?,
        gener: number32(words.at(4))?,
        ctrl: number8(words.at(5))?,
    }))
}

/// A measure.
fn measure(words: &Words) -> Option<Line>
    ensures { result ≡ measure_of words.now }
{
    let gener = number32(words.at(3))?;
    let clock = number8(words.at(4))?;
    let measure = Measure {
        offset: signed128(words.at(5))?,
        delay: signed128(words.at(6))?,
        local: signed64(words.at(7))?,
    };
    Some(Line::Measure {
        measure,
        gener,
        clock,
    })
}

/// What a follower was told.
fn told(words: &Words) -> Option<Line>
    ensures { result ≡ told_of words.now }
{
    if words.is(3, "none") {
        Some(Line::Told(Told {
            lead: None,
            missed: number32(words.at(5))?,
        }))
    } else {
        Some(Line::Told(Told {
            lead: Some(lead(words, 3)?),
            missed: number32(words.at(6))?,
        }))
    }
}

/// An effect without octets.
fn plain_effect(words: &Words) -> Option<Line>
    ensures { result ≡ plain_effect_of words.now }
{
    if words.is(2, "fate") {
        Some(Line::Fate(fate_named(words.at(3))?))
    } else if words.is(2, "state") {
        moved(words)
    } else if words.is(2, "order") {
        order(words)
    } else if words.is(2, "measure") {
        measure(words)
    } else if words.is(2, "told") {
        told(words)
    } else if words.is(2, "asked") {
        Some(Line::Asked(asked_named(words.at(3))?))
    } else {
        None
    }
}

/// A new parent.
fn parent(alloc: Global, words: &Words) -> Result<Option<Line>, NoMemory>
    ensures { IfOk result (λ read. read ≡ parent_of words.now) }
{
    match port(alloc, words.at(3))? {
        Some(parent) => Ok(Some(Line::Parent(parent))),
        None => Ok(None),
    }
}

/// A frame that was sent.
fn sent(alloc: Global, words: &Words) -> Result<Option<Line>, NoMemory>
    ensures { IfOk result (λ read. read ≡ sent_of words.now) }
{
    let Some(port) = number16(words.at(3)) else {
        return Ok(None);
    };
    match hex_octets(alloc, words.at(4))? {
        Some(octets) => Ok(Some(Line::Sent(Sent { port, octets }))),
        None => Ok(None),
    }
}

/// An answer to a query.
fn answer(alloc: Global, words: &Words) -> Result<Option<Line>, NoMemory>
    ensures { IfOk result (λ read. read ≡ answer_of words.now) }
{
    match hex_octets(alloc, words.at(3))? {
        Some(octets) => Ok(Some(Line::Answer(octets))),
        None => Ok(None),
    }
}

/// The line of an effect.
pub fn effect(alloc: Global, words: &Words) -> Result<Option<Line>, NoMemory>
    ensures { IfOk result (λ read. read ≡ effect_of words.now) }
{
    if words.is(2, "parent") {
        parent(alloc, words)
    } else if words.is(2, "send") {
        sent(alloc, words)
    } else if words.is(2, "answer") {
        answer(alloc, words)
    } else {
        Ok(plain_effect(words))
    }
}
