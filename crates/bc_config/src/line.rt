ghost use Rattle.std.specs.Prelude.{◌≡◌, ℕ, List};
ghost use Rattle.text_io.specs.TextLines.{words_of, is_printable};
ghost use Rattle.bc_config.specs.LineWords.{WordsRepresent, IsFirst};

use std::marker::Model;
use text_io::{is_printable, words_in};

/// The first five words of a line, or as many as it has. A header has at most four; of a longer
/// line only a query's words are wanted, and [`Line::octets`] has them.
pub(crate) type FirstWords<'a> = (
    Option<&'a [u8]>,
    Option<&'a [u8]>,
    Option<&'a [u8]>,
    Option<&'a [u8]>,
    Option<&'a [u8]>,
);

/// The first words of a line.
fn first_words<'a>(line: &'a [u8]) -> FirstWords<'a>
    ensures { WordsRepresent result (words_of line.now) }
{
    let mut words = words_in(line);
    let a = words.next();
    let b = words.next();
    let c = words.next();
    let d = words.next();
    let e = words.next();
    (a, b, c, d, e)
}

/// A line of a text, split into its words. Contracts see its octets.
#[derive(Drop)]
pub(crate) struct Line<'a> {
    octets: &'a [u8],
    words: FirstWords<'a>,
    printable: bool,
}

impl<'a> Model for Line<'a> {
    ghost use Rattle.std.specs.Prelude.{ℕ, List};
    ghost use Rattle.bc_config.specs.LineWords.{LineRepresents};

    ghost Value = { List ℕ };

    ghost view = { λ l. l.octets.now };

    ghost invariant = { λ l. LineRepresents l.words l.printable l.octets.now };
}

impl<'a> Line<'a> {
    /// Splits a line.
    pub(crate) fn new(octets: &'a [u8]) -> Line<'a>
        ensures { result ≡ octets.now }
    {
        Line {
            octets,
            words: first_words(octets),
            printable: is_printable(octets),
        }
    }

    /// Its octets.
    pub(crate) fn octets(&self) -> &'a [u8]
        ensures { result.now ≡ self.now }
    {
        self.octets
    }

    /// Its first words.
    pub(crate) fn words(&self) -> FirstWords<'a>
        ensures { WordsRepresent result (words_of self.now) }
    {
        self.words
    }

    /// Whether all its octets may stand in a text.
    pub(crate) fn is_printable(&self) -> bool
        ensures { result ≡ is_printable self.now }
    {
        self.printable
    }

    /// Its first word.
    pub(crate) fn first(&self) -> Option<&'a [u8]>
        ensures { IsFirst result (words_of self.now) }
    {
        self.words.0
    }
}
