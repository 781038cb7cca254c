ghost use Rattle.std.specs.Prelude.{◌≡◌};
ghost use Rattle.text_io.specs.TextLines.{words_of};
ghost use Rattle.bc_history.specs.Scenario.SectionHeaders.{closed_of, sole_header, numbered_header, placed_header, header_of};
ghost use Rattle.bc_history.specs.Scenario.LineFaults.{role_of};

use crate::line::Line;
use bc_history::{Header, Role, Section};
use text_io::number;

/// The number before a closing bracket.
fn closed(word: &[u8]) -> Option<u128>
    ensures { result ≡ closed_of word.now }
{
    if word.ends_with(b"]") {
        number(&word[..word.len() - 1])
    } else {
        None
    }
}

/// A header of one word.
fn sole(word: &[u8]) -> Option<Header>
    ensures { result ≡ sole_header word.now }
{
    if word == b"[global]".as_slice() {
        Some(Header::Global)
    } else if word == b"[records]".as_slice() {
        Some(Header::Records)
    } else if word == b"[queries]".as_slice() {
        Some(Header::Queries)
    } else if word == b"[schedule]".as_slice() {
        Some(Header::Schedule)
    } else {
        None
    }
}

/// `[clock N]`, or `[port N]`, on clock 0.
fn numbered(name: &[u8], number: &[u8]) -> Option<Header>
    ensures { result ≡ numbered_header name.now number.now }
{
    if name == b"[clock".as_slice() {
        Some(Header::Clock(closed(number)?))
    } else if name == b"[port".as_slice() {
        Some(Header::Port {
            number: closed(number)?,
            clock: 0,
        })
    } else {
        None
    }
}

/// `[port N clock C]`.
fn placed(name: &[u8], port: &[u8], word: &[u8], clock: &[u8]) -> Option<Header>
    ensures { result ≡ placed_header name.now port.now word.now clock.now }
{
    if name == b"[port".as_slice() && word == b"clock".as_slice() {
        Some(Header::Port {
            number: number(port)?,
            clock: closed(clock)?,
        })
    } else {
        None
    }
}

/// The header that a line is.
fn header(line: &Line) -> Option<Header>
    ensures { result ≡ header_of (words_of line.now) }
{
    match line.words() {
        (Some(a), None, ..) => sole(a),
        (Some(a), Some(b), None, ..) => numbered(a, b),
        (Some(a), Some(b), Some(c), Some(d), None) => placed(a, b, c, d),
        _ => None,
    }
}

/// What a line is in the section that is in force.
pub(crate) fn role(section: Option<Section>, line: &Line) -> Role
    ensures { result ≡ role_of section (words_of line.now) }
{
    let Some(word) = line.first() else {
        return Role::Skipped;
    };
    if word.starts_with(b"#") {
        return Role::Skipped;
    }
    if word.starts_with(b"[") {
        return match header(line) {
            Some(header) => Role::Begins(header),
            None => Role::Astray,
        };
    }
    match section {
        Some(section) => Role::Says(section),
        None => Role::Astray,
    }
}
