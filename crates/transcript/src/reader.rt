ghost use Rattle.std.specs.Prelude.{◌≡◌, ◌≢◌, MatchBool, IfOk};
ghost use Rattle.std.specs.List.{starts_with};
ghost use Rattle.ptp_management.specs.ManagementQueries.{words_of};
ghost use Rattle.transcript.specs.TranscriptLines.{IsLineOf, IsReadOf};
ghost use Rattle.transcript.specs.LineReaders.{end_of, line_in, line_of};

use crate::formed::is_formed;
use crate::line::Line;
use crate::line_effect::effect;
use crate::line_event::event;
use crate::line_log::{clock, logged};
use crate::line_text::line_text;
use crate::numbers::number64;
use crate::typed::line_typed;
use crate::words::Words;
use ptp_base::{NoMemory, Octets};
use std::alloc::Global;

/// The line, without a margin, whose text the octets may be.
fn line_in(alloc: Global, line: &[u8], words: &Words) -> Result<Option<Line>, NoMemory>
    ensures { IfOk result (λ read. read ≡ line_in line.now words.now) }
{
    if words.is(0, "") {
        effect(alloc, words)
    } else if words.is(0, "event") {
        event(alloc, line, words)
    } else if words.is(0, "log") {
        Ok(logged(words))
    } else if words.is(0, "clock") {
        Ok(clock(words))
    } else if words.is(0, "bc-transcript") {
        Ok(Some(Line::Head))
    } else if words.is(0, "end") {
        Ok(end(words))
    } else {
        Ok(None)
    }
}

/// The last line.
fn end(words: &Words) -> Option<Line>
    ensures { result ≡ end_of words.now }
{
    Some(Line::End {
        number: number64(words.at(1))?,
    })
}

/// The only line whose text the octets may be.
#[tactic(auto, unfolding(crate::specs::LineReaders::line_of))]
fn likely(alloc: Global, line: &[u8]) -> Result<Option<Line>, NoMemory>
    ensures { IfOk result (λ read. read ≡ line_of line.now) }
{
    if line.starts_with(b"    ") {
        let mut text = Octets::new(alloc);
        text.append(&line[4..])?;
        return Ok(Some(Line::Printed(text)));
    }
    let words = Words::new(alloc, line)?;
    line_in(alloc, line, &words)
}

/// Whether two texts are the same.
fn is_same(one: &[u8], other: &[u8]) -> bool
    ensures { MatchBool result (one.now ≡ other.now) (one.now ≢ other.now) }
{
    one == other
}

/// Whether octets are the text of a line that can be.
fn is_line_of(alloc: Global, octets: &[u8], line: &Line) -> Result<bool, NoMemory>
    ensures { IfOk result (λ is. MatchBool is (IsLineOf octets.now line.now)
        (IsLineOf octets.now line.now → ⊥)) }
{
    if !is_formed(line) {
        return Ok(false);
    }
    line_typed(line);
    let text = line_text(alloc, line)?;
    Ok(is_same(text.items(), octets))
}

/// Reads a line, without its newline: the line whose text the octets are; none where they are
/// none's. What is read is printed again, and is refused where that gives other octets.
pub(crate) fn read_line(alloc: Global, line: &[u8]) -> Result<Option<Line>, NoMemory>
    ensures { IfOk result (λ read. IsReadOf line.now read) }
{
    let Some(read) = likely(alloc, line)? else {
        return Ok(None);
    };
    let is_it = is_line_of(alloc, line, &read)?;
    if is_it { Ok(Some(read)) } else { Ok(None) }
}
