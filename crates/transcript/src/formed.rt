ghost use Rattle.std.specs.Prelude.{◌≡◌};
ghost use Rattle.std.specs.List.{list_all};
ghost use Rattle.bc_history.specs.Phases.Inputs.{is_read};
ghost use Rattle.transcript.specs.FormedTests.{is_shown, is_shown_word, is_query_text, formed_input, is_whole, comes_right, is_in_line, formed_line};

use crate::line::Line;
use bc_history::{Input, Seen};
use pmc_query::shows;

/// Whether each octet may stand in a word of a query.
fn are_shown(word: &[u8]) -> bool
    ensures { result ≡ list_all is_shown word.now }
{
    word.iter().all(|octet| (0x21..=0x7E).contains(octet))
}

/// Whether a piece between spaces is a word of a query.
fn is_shown_word(word: &[u8]) -> bool
    ensures { result ≡ is_shown_word word.now }
{
    !word.is_empty() && are_shown(word)
}

/// Whether a text is words, parted by one space each.
fn is_query_text(text: &[u8]) -> bool
    ensures { result ≡ is_query_text text.now }
{
    text.split(|octet| *octet == b' ')
        .all(|word| is_shown_word(word))
}

/// Whether a text shows an input whole.
fn is_formed_input(input: &Input) -> bool
    ensures { result ≡ formed_input input.now }
{
    match input {
        Input::Frame { octets, .. } => !octets.items().is_empty(),
        Input::Query { text, .. } => is_query_text(text.items()),
        _ => true,
    }
}

/// Whether an input comes with a reading.
fn is_read(input: &Input) -> bool
    ensures { result ≡ is_read input.now }
{
    matches!(input, Input::Frame { .. } | Input::Timed { .. })
}

/// Whether a reading stands where the input comes with one.
fn comes_right(seen: &Option<Seen>, input: &Input) -> bool
    ensures { result ≡ comes_right seen.now input.now }
{
    match seen {
        Some(_) => is_read(input),
        None => !is_read(input),
    }
}

/// Whether a drift is a whole number of ppb.
fn is_whole(drift: &i64) -> bool
    ensures { result ≡ is_whole drift.now }
{
    drift.rem_euclid(65536) == 0
}

/// Whether there is no newline among octets.
fn is_in_line(text: &[u8]) -> bool
    ensures { result ≡ is_in_line text.now }
{
    text.iter().all(|octet| *octet != b'\n')
}

/// Whether a text shows what a line says.
pub fn is_formed(line: &Line) -> bool
    ensures { result ≡ formed_line line.now }
{
    match line {
        Line::Event { input, seen, .. } => { is_formed_input(input) && comes_right(seen, input) }
        Line::Sent(sent) => !sent.octets.items().is_empty(),
        Line::Answer(answer) => shows(answer.items()),
        Line::Printed(text) => is_in_line(text.items()),
        Line::Clock { drift, .. } => is_whole(drift),
        _ => true,
    }
}
