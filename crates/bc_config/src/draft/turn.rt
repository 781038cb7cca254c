ghost use Rattle.std.specs.Prelude.{◌≡◌, ◌<◌, true, None, OnOk, IfErr};
ghost use Rattle.text_io.specs.TextLines.{words_of};
ghost use Rattle.bc_history.specs.Scenario.SectionLines.{count_of, turns_by, turner_of, plain_turns, placed_turns, turns_of, is_follower};
ghost use Rattle.ptp_base.specs.declared.limits.TheConstants.{CLOCKS_MAX};
ghost use Rattle.bc_config.specs.LineErrors.{Tells, IsTaken, role_fault};

use crate::draft::Draft;
use crate::line::Line;
use crate::refusal::{LineError, refuse_if};
use bc_history::{Role, Section, Turner, Turns};
use text_io::{Reason, number};

/// The most turns of a line.
const MOST_TURNS: u128 = 1_000_000;

/// How many turns a line has.
fn count(word: &[u8]) -> Option<u32>
    ensures { result ≡ count_of word.now }
{
    let count = number(word)?;
    if 1 <= count && count <= MOST_TURNS {
        Some(count as u32)
    } else {
        None
    }
}

/// So many turns.
fn turns_by(who: Turner, word: &[u8]) -> Option<Turns>
    ensures { result ≡ turns_by who word.now }
{
    let count = count(word)?;
    Some(Turns { who, count })
}

/// The turns of a line of two words.
fn plain_turns(name: &[u8], count: &[u8]) -> Option<Turns>
    ensures { result ≡ plain_turns name.now count.now }
{
    if name == b"default".as_slice() {
        turns_by(Turner::Default, count)
    } else if name == b"queries".as_slice() {
        turns_by(Turner::Queries, count)
    } else {
        None
    }
}

impl Draft {
    /// Whether a clock has a follower.
    fn is_follower(&self, number: u128) -> bool
        ensures value { result ≡ is_follower self.now.clocks number }
        ensures few { result ≡ true → number < CLOCKS_MAX }
    {
        2 <= self.clocks.len() && number < self.clocks.len() as u128
    }

    /// The port or the follower that two words name.
    fn turner(&self, name: &[u8], word: &[u8]) -> Option<Turner>
        ensures { result ≡ turner_of self.now.ports self.now.clocks name.now word.now }
    {
        let number = number(word)?;
        if name == b"port".as_slice() && self.is_port(number) {
            Some(Turner::Port(number as u16))
        } else if name == b"clock".as_slice() && self.is_follower(number) {
            Some(Turner::Clock(number as u8))
        } else {
            None
        }
    }

    /// The turns of a line of three words.
    fn placed_turns(&self, name: &[u8], number: &[u8], count: &[u8]) -> Option<Turns>
        ensures { result
            ≡ placed_turns self.now.ports self.now.clocks name.now number.now count.now }
    {
        let who = self.turner(name, number)?;
        turns_by(who, count)
    }

    /// The turns of a line.
    fn turns_of(&self, line: &Line) -> Option<Turns>
        ensures { result ≡ turns_of self.now.ports self.now.clocks (words_of line.now) }
    {
        match line.words() {
            (Some(name), Some(count), None, ..) => plain_turns(name, count),
            (Some(name), Some(number), Some(count), None, _) => {
                self.placed_turns(name, number, count)
            }
            _ => None,
        }
    }

    /// Takes a line of `[schedule]`.
    pub(crate) fn take_turns(&mut self, line: &Line) -> Result<(), LineError>
        ensures ok { OnOk result (IsTaken self.old line.now (Role.Says Section.Schedule) self.new) }
        ensures err { IfErr result
            (λ e. Tells e (role_fault self.old line.now (Role.Says Section.Schedule))) }
    {
        let Some(turns) = self.turns_of(line) else {
            return Err(LineError::Fault(Reason::Value));
        };
        refuse_if(!line.is_printable(), Reason::Value)?;
        self.turns.push(turns)?;
        Ok(())
    }
}
