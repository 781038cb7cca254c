ghost use Rattle.std.specs.Prelude.{◌≡◌, ◌<◌, not, List, ℕ, length, take, drop, IfSome};
ghost use Rattle.std.specs.List.{position, position_or_len};
ghost use Rattle.std.specs.Iterator.{item_count};
ghost use Rattle.bstr.specs.Text.{TakesFirstRef};
ghost use Rattle.text_io.specs.TextLines.{lines_of_text, words_of, is_blank, is_printable};

use bstr::{ByteSlice, Lines};
use std::marker::Model;

/// The lines of a text. Each ends with a newline, which is dropped with one carriage return before
/// it; a last piece without a newline is a line where it is not empty.
pub fn lines_in<'a>(text: &'a [u8]) -> Lines<'a>
    ensures { result ≡ lines_of_text text.now }
{
    text.lines()
}

/// The words of a line that are not given yet: its runs of octets other than space and tab.
#[derive(Drop)]
pub struct Words<'a> {
    rest: &'a [u8],
}

impl<'a> Model for Words<'a> {
    ghost use Rattle.std.specs.Prelude.{List, ℕ};
    ghost use Rattle.text_io.specs.TextLines.{words_of};

    ghost Value = { List (List ℕ) };

    ghost view = { λ s. words_of s.rest.now };
}

/// The words of a line.
pub fn words_in<'a>(line: &'a [u8]) -> Words<'a>
    ensures { result ≡ words_of line.now }
{
    Words { rest: line }
}

/// A space or a tab.
fn is_blank(octet: u8) -> bool
    ensures { result ≡ is_blank octet }
{
    octet == b' ' || octet == b'\t'
}

/// Where the first octet of a line stands that is not blank.
fn first_filled(line: &[u8]) -> Option<usize>
    ensures value { result ≡ position (λ octet. not (is_blank octet)) line.now }
    ensures bound { IfSome result (λ k. k < length line.now) }
{
    line.iter().position(|octet| !is_blank(*octet))
}

/// Where the first blank of a line stands.
fn first_blank(line: &[u8]) -> Option<usize>
    ensures value { result ≡ position is_blank line.now }
    ensures bound { IfSome result (λ k. k < length line.now) }
{
    line.iter().position(|octet| is_blank(*octet))
}

/// The first word of a line that begins with one, and what stands behind it.
fn split_word<'a>(line: &'a [u8]) -> (&'a [u8], &'a [u8])
    ensures word { result.0.now ≡ take (position_or_len is_blank line.now) line.now }
    ensures rest { result.1.now ≡ drop (position_or_len is_blank line.now) line.now }
{
    match first_blank(line) {
        Some(end) => line.split_at(end),
        None => (line, &[]),
    }
}

impl<'a> Iterator for Words<'a> {
    type Item = &'a [u8];

    ghost next_gives = { TakesFirstRef };

    ghost remaining = { item_count (λ rest. rest) };

    fn next(&mut self) -> Option<&'a [u8]> {
        match first_filled(self.rest) {
            None => None,
            Some(start) => {
                let (word, rest) = split_word(&self.rest[start..]);
                self.rest = rest;
                Some(word)
            }
        }
    }
}

/// Whether each octet of a line may stand in one that is not a comment: a tab, a space, or a
/// character of ASCII that shows.
pub fn is_printable(line: &[u8]) -> bool
    ensures { result ≡ is_printable line.now }
{
    line.iter()
        .all(|octet| *octet == b'\t' || (0x20..=0x7E).contains(octet))
}
