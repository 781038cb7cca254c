ghost use Rattle.text_io.specs.TextLines.{words_of};
ghost use Rattle.text_io.specs.Numerals.{number_of};
ghost use Rattle.std.specs.Prelude.{◌≡◌, ◌+◌, ◌<◌, ◌≤◌, ◌&&◌, nat_lt, true, ℕ, List, [], ◌∷◌, ◌++◌, Some, None, OnOk, IfOk, IfErr, IfSome, length, option_map};
ghost use Rattle.bc_history.specs.Scenario.SectionLines.{is_port, former_tick, frame_of, happening_of, record_of, is_early_record, frame_length};
ghost use Rattle.ptp_base.specs.declared.limits.TheConstants.{PORTS_MAX};
ghost use Rattle.ptp_base.specs.declared.time.TheConstants.{TICK_MAX};
ghost use Rattle.bc_history.specs.Scenario.LineFaults.{is_great_record};
ghost use Rattle.bc_config.specs.LineErrors.{Tells, IsTaken, role_fault};
ghost use Rattle.bc_config.specs.LineRecords.{record_found, numbers_in, tick_and_port};

use crate::draft::Draft;
use crate::line::Line;
use crate::refusal::{LineError, refuse_if};
use bc_history::{Happening, Record, Role, Section};
use hex::FromHexError;
use ptp_base::{FRAME_MAX, NoMemory, Octets, TICK_MAX};
use std::alloc::Global;
use text_io::{Reason, number};

/// A record as its line has it: tick and port may be greater than a scenario's.
#[derive(Drop)]
pub(crate) struct LineRecord {
    /// When it happens, in ns.
    pub(crate) tick: u128,
    /// The port that it happens to.
    pub(crate) port: u128,
    /// What happens.
    pub(crate) what: Happening,
}

/// A frame of at least one octet in hex digits.
fn frame(alloc: Global, word: &[u8]) -> Result<Option<Happening>, NoMemory>
    ensures { IfOk result (λ found. found ≡ frame_of word.now) }
{
    match hex::decode(alloc, word) {
        Ok(octets) if octets.is_empty() => Ok(None),
        Ok(octets) => Ok(Some(Happening::Frame(Octets::from_vec(octets)))),
        Err(FromHexError::OutOfMemory) => Err(NoMemory),
        Err(_) => Ok(None),
    }
}

/// What the third word of a record says.
fn happening(alloc: Global, word: &[u8]) -> Result<Option<Happening>, NoMemory>
    ensures { IfOk result (λ found. found ≡ happening_of word.now) }
{
    if word == b"down".as_slice() {
        Ok(Some(Happening::Down))
    } else if word == b"up".as_slice() {
        Ok(Some(Happening::Up))
    } else {
        frame(alloc, word)
    }
}

/// Two words as numbers.
fn numbers(tick: &[u8], port: &[u8]) -> Option<(u128, u128)>
    ensures { result ≡ numbers_in (number_of tick.now) (number_of port.now) }
{
    match (number(tick), number(port)) {
        (Some(tick), Some(port)) => Some((tick, port)),
        _ => None,
    }
}

/// The tick and the port of a line: its first two words, where both are numbers.
fn tick_and_port(line: &Line) -> Option<(u128, u128)>
    ensures { result ≡ tick_and_port (words_of line.now) }
{
    match line.words() {
        (Some(tick), Some(port), ..) => numbers(tick, port),
        _ => None,
    }
}

/// The record of a line that has this tick and port, or not both.
fn record_of(
    alloc: Global,
    line: &Line,
    numbers: Option<(u128, u128)>,
) -> Result<Option<LineRecord>, NoMemory>
    requires { numbers ≡ tick_and_port (words_of line.now) }
    ensures { IfOk result (λ found. option_map record_found found ≡ record_of (words_of line.now)) }
{
    let Some((tick, port)) = numbers else {
        return Ok(None);
    };
    let (Some(_), Some(_), Some(word), None, _) = line.words() else {
        return Ok(None);
    };
    match happening(alloc, word)? {
        Some(what) => Ok(Some(LineRecord { tick, port, what })),
        None => Ok(None),
    }
}

/// The octets of a frame; 0 of what is none.
fn frame_length(what: &Happening) -> usize
    ensures { result ≡ frame_length what.now }
{
    match what {
        Happening::Frame(octets) => octets.items().len(),
        Happening::Down | Happening::Up => 0,
    }
}

/// Whether a record has a greater tick or a longer frame than a scenario may.
fn is_great(found: &LineRecord) -> bool
    ensures { result ≡ is_great_record (Some (record_found found.now)) }
{
    found.tick > u128::from(TICK_MAX) || frame_length(&found.what) > FRAME_MAX
}

impl Draft {
    /// Whether a port is there.
    pub(crate) fn is_port(&self, number: u128) -> bool
        ensures value { result ≡ is_port self.now.ports number }
        ensures few { result ≡ true → number ≤ PORTS_MAX }
    {
        1 <= number && number <= self.ports.len() as u128
    }

    /// Whether a port is there whose former record has a later tick.
    fn is_early_at(&self, tick: u128, port: u128) -> bool
        ensures { result
            ≡ (is_port self.now.ports port && nat_lt tick (former_tick self.now.records port)) }
    {
        self.is_port(port) && tick < u128::from(self.former[port as usize - 1])
    }

    /// Whether a line with this tick and port, or not both, is before the former record of the
    /// port.
    fn is_early(&self, numbers: Option<(u128, u128)>) -> bool
        ensures { (words : List (List ℕ)) → numbers ≡ tick_and_port words →
            result ≡ is_early_record self.now.ports self.now.records words }
    {
        match numbers {
            Some((tick, port)) => self.is_early_at(tick, port),
            None => false,
        }
    }

    /// Adds a record of a port that is there.
    fn add_record(&mut self, found: LineRecord) -> Result<(), NoMemory>
        requires port { is_port self.old.ports found.port ≡ true }
        requires tick { found.tick ≤ TICK_MAX }
        ensures { OnOk result
            (self.new
            ≡ record self.old { records = self.old.records ++ record_found found ∷ [] }) }
    {
        let LineRecord { tick, port, what } = found;
        let tick = tick as u64;
        self.records.push(Record {
            port: port as u16,
            tick,
            what,
        })?;
        self.former[port as usize - 1] = tick;
        Ok(())
    }

    /// Takes a line of `[records]`.
    pub(crate) fn take_record(&mut self, alloc: Global, line: &Line) -> Result<(), LineError>
        ensures ok { OnOk result (IsTaken self.old line.now (Role.Says Section.Records) self.new) }
        ensures err { IfErr result
            (λ e. Tells e (role_fault self.old line.now (Role.Says Section.Records))) }
    {
        let numbers = tick_and_port(line);
        refuse_if(self.is_early(numbers), Reason::Order)?;
        let Some(found) = record_of(alloc, line, numbers)? else {
            return Err(LineError::Fault(Reason::Value));
        };
        refuse_if(
            !self.is_port(found.port) || !line.is_printable(),
            Reason::Value,
        )?;
        refuse_if(is_great(&found), Reason::Limit)?;
        self.add_record(found)?;
        Ok(())
    }
}
