ghost use Rattle.std.specs.Prelude.{◌≡◌, ◌<◌, ◌≤◌, ◌++◌, ◌∷◌, [], ℕ, List, Some, None, OnOk, IfOk, IfErr, length, option_map, nat_lt};
ghost use Rattle.std.specs.List.{join_with_byte};
ghost use Rattle.text_io.specs.TextLines.{words_of};
ghost use Rattle.bc_history.specs.Scenario.SectionLines.{former_query, is_early_query, query_of};
ghost use Rattle.ptp_base.specs.declared.time.TheConstants.{TICK_MAX};
ghost use Rattle.bc_history.specs.Scenario.LineFaults.{is_great_query};
ghost use Rattle.bc_config.specs.LineErrors.{Tells, IsTaken, role_fault};
ghost use Rattle.bc_config.specs.LineRecords.{query_found};

use crate::draft::Draft;
use crate::line::Line;
use crate::refusal::{LineError, refuse_if};
use bc_history::{Asked, Role, Section};
use ptp_base::{NoMemory, Octets, QUERY_MAX, TICK_MAX};
use std::alloc::Global;
use text_io::{Reason, Words, number, words_in};

/// A query as its line has it: its tick may be greater than a scenario's.
#[derive(Drop)]
pub(crate) struct LineQuery {
    /// When it is asked, in ns.
    pub(crate) tick: u128,
    /// Its words, joined by one space.
    pub(crate) text: Octets,
}

/// Words joined by one space.
fn joined(alloc: Global, first: &[u8], words: Words) -> Result<Octets, NoMemory>
    ensures { IfOk result (λ text. text ≡ join_with_byte 32 (first.now ∷ words.entry)) }
{
    let mut words = words;
    let mut text = Octets::new(alloc);
    text.append(first)?;
    while let Some(word) = words.next() {
        text.append(b" ")?;
        text.append(word)?;
    }
    Ok(text)
}

/// The query of a line.
fn query_of(alloc: Global, line: &Line) -> Result<Option<LineQuery>, NoMemory>
    ensures { IfOk result (λ found. option_map query_found found ≡ query_of (words_of line.now)) }
{
    let mut words = words_in(line.octets());
    let Some(tick) = words.next() else {
        return Ok(None);
    };
    let Some(first) = words.next() else {
        return Ok(None);
    };
    let Some(tick) = number(tick) else {
        return Ok(None);
    };
    let text = joined(alloc, first, words)?;
    Ok(Some(LineQuery { tick, text }))
}

/// Whether a query has a greater tick or a longer text than a scenario may.
fn is_great(query: &LineQuery) -> bool
    ensures { result ≡ is_great_query (Some (query_found query.now)) }
{
    query.tick > u128::from(TICK_MAX) || query.text.items().len() > QUERY_MAX
}

impl Draft {
    /// The tick of the former query.
    fn former_query(&self) -> u64
        ensures { result ≡ former_query self.now.queries }
    {
        match self.queries.items().last() {
            None => 0,
            Some(asked) => asked.tick,
        }
    }

    /// Whether the first word is a tick before that of the former query.
    fn is_early_query(&self, line: &Line) -> bool
        ensures { result ≡ is_early_query self.now.queries (words_of line.now) }
    {
        let Some(tick) = line.first() else {
            return false;
        };
        match number(tick) {
            None => false,
            Some(tick) => tick < u128::from(self.former_query()),
        }
    }

    /// Adds a query.
    fn add_query(&mut self, query: LineQuery) -> Result<(), NoMemory>
        requires { query.tick ≤ TICK_MAX }
        ensures { OnOk result
            (self.new
            ≡ record self.old { queries = self.old.queries ++ query_found query ∷ [] }) }
    {
        let LineQuery { tick, text } = query;
        self.queries.push(Asked {
            tick: tick as u64,
            text,
        })?;
        Ok(())
    }

    /// Takes a line of `[queries]`.
    pub(crate) fn take_query(&mut self, alloc: Global, line: &Line) -> Result<(), LineError>
        ensures ok { OnOk result (IsTaken self.old line.now (Role.Says Section.Queries) self.new) }
        ensures err { IfErr result
            (λ e. Tells e (role_fault self.old line.now (Role.Says Section.Queries))) }
    {
        refuse_if(self.is_early_query(line), Reason::Order)?;
        let Some(query) = query_of(alloc, line)? else {
            return Err(LineError::Fault(Reason::Value));
        };
        refuse_if(!line.is_printable(), Reason::Value)?;
        refuse_if(is_great(&query), Reason::Limit)?;
        self.add_query(query)?;
        Ok(())
    }
}
