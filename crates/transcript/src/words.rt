ghost use Rattle.std.specs.Prelude.{◌≡◌, IfOk};
ghost use Rattle.std.specs.List.{starts_with, after_first};
ghost use Rattle.ptp_management.specs.ManagementQueries.{words_of};
ghost use Rattle.bc_history.specs.Scenario.SectionHeaders.{is_word};
ghost use Rattle.transcript.specs.WordReaders.{word_at};

use ptp_base::NoMemory;
use std::alloc::Global;
use std::marker::Model;

/// The words of a line: its pieces between single spaces, of which a piece may be empty.
#[derive(Drop)]
pub struct Words<'a> {
    words: Vec<&'a [u8]>,
}

impl<'a> Model for Words<'a> {
    ghost use Rattle.std.specs.Prelude.{List, ℕ, map};

    ghost Value = { List (List ℕ) };

    ghost view = { λ w. map (λ word. word.now) w.words.items };
}

impl<'a> Words<'a> {
    /// Splits a line.
    pub fn new(alloc: Global, line: &'a [u8]) -> Result<Words<'a>, NoMemory>
        ensures { IfOk result (λ words. words ≡ words_of line.now) }
    {
        let words = line.split(|octet| *octet == b' ').collect(alloc)?;
        Ok(Words { words })
    }

    /// A word, from 0; the empty one behind the last.
    pub fn at(&self, i: usize) -> &'a [u8]
        ensures { result.now ≡ word_at self.now i }
    {
        match self.words.get(i) {
            Some(word) => word,
            None => &[],
        }
    }

    /// Whether a word is spelled so.
    pub fn is(&self, i: usize, spelling: &str) -> bool
        ensures { result ≡ is_word (word_at self.now i) spelling.now }
    {
        self.at(i) == spelling.as_bytes()
    }
}
