ghost use Rattle.std.specs.Prelude.{◌≡◌, ℕ, List, [], IfOk};
ghost use Rattle.bc_history.specs.Run.Transcript.{answer_lines};
ghost use Rattle.transcript.specs.NextLines.{is_empty};
ghost use Rattle.transcript.specs.ShownLines.{without_first};

use crate::split::lines_in;
use pmc_query::{print, shows};
use ptp_base::{Items, NoMemory, Octets};
use std::alloc::Global;
use std::marker::Model;

/// The lines that print an answer and still have to stand in the text, without their margin.
#[derive(Drop)]
pub(crate) struct Shown {
    lines: Items<Octets>,
    /// How many of them stand in the text.
    passed: usize,
}

impl Model for Shown {
    ghost use Rattle.std.specs.Prelude.{List, ℕ, drop};

    ghost Value = { List (List ℕ) };

    ghost view = { λ s. drop s.passed s.lines };
}

impl Shown {
    /// No lines.
    pub(crate) fn none(alloc: Global) -> Shown
        ensures { result ≡ [] }
    {
        Shown {
            lines: Items::new(alloc),
            passed: 0,
        }
    }

    /// The lines that print an answer: none where it cannot be printed.
    pub(crate) fn of(alloc: Global, answer: &[u8]) -> Result<Shown, NoMemory>
        ensures { IfOk result (λ lines. lines ≡ answer_lines answer.now) }
    {
        if !shows(answer) {
            return Ok(Shown::none(alloc));
        }
        let mut text = Octets::new(alloc);
        print(alloc, answer, &mut text)?;
        let lines = lines_in(alloc, text.items())?;
        Ok(Shown { lines, passed: 0 })
    }

    /// Whether no line is missing.
    pub(crate) fn is_done(&self) -> bool
        ensures { result ≡ is_empty self.now }
    {
        self.lines.len() <= self.passed
    }

    /// What is missing behind a line, where that line is the next.
    pub(crate) fn take(self, text: &[u8]) -> Option<Shown>
        ensures { result ≡ without_first self text.now }
    {
        let Shown { lines, passed } = self;
        if passed < lines.len() && lines.items()[passed].items() == text {
            Some(Shown {
                lines,
                passed: passed + 1,
            })
        } else {
            None
        }
    }
}
