//! The text of each kind of line, without its newline.

ghost use Rattle.std.specs.Prelude.{◌≡◌, pos, ◌++◌, OnOk, IfOk};
ghost use Rattle.std.specs.Fmt.{signed_decimal};
ghost use Rattle.ptp_base.specs.Floor.{floor_of};
ghost use Rattle.bc_history.specs.Run.Transcript.{lead_text};
ghost use Rattle.transcript.specs.TranscriptLines.{line_text, logged_text};
ghost use Rattle.transcript.specs.declared.line.Line.TheVariants.{Event, Fate as A_fate, State, Parent, Order, Measure as A_measure, Sent as A_frame, Told as A_told, Asked, Answer, Printed, Clock, Logged};

use crate::input::{push_input, push_seen};
use crate::line::Line;
use crate::names::{asked_name, fate_name};
use crate::writer::Writer;
use bc_history::{AskError, Input, Moved, Seen, Sent, Told};
use pmc_query::state_name;
use ptp_base::{NoMemory, Octets, PortId};
use ptp_profile::{Fate, Lead, LogEntry, Measure, RoleOrder};
use std::alloc::Global;

/// Adds the line that begins an entry.
#[tactic(auto, unfolding(crate::specs::TranscriptLines::line_text))]
pub fn push_event(
    out: &mut Writer,
    number: &u64,
    moment: &u64,
    input: &Input,
    seen: &Option<Seen>,
) -> Result<(), NoMemory>
    ensures { OnOk result (out.new ≡ out.old
        ++ line_text (Event number.now moment.now input.now seen.now)) }
{
    write!(out, "event {number} {moment} ")?;
    push_input(out, input)?;
    push_seen(out, seen)
}

/// Adds what became of a frame.
#[tactic(auto, unfolding(crate::specs::TranscriptLines::line_text))]
pub fn push_fate(out: &mut Writer, fate: &Fate) -> Result<(), NoMemory>
    ensures { OnOk result (out.new ≡ out.old ++ line_text (A_fate fate.now)) }
{
    write!(out, "  fate {}", fate_name(fate))
}

/// Adds a change of a port's state.
#[tactic(auto, unfolding(crate::specs::TranscriptLines::line_text))]
pub fn push_moved(out: &mut Writer, moved: &Moved) -> Result<(), NoMemory>
    ensures { OnOk result (out.new ≡ out.old ++ line_text (State moved.now)) }
{
    let old = state_name(&moved.old);
    let new = state_name(&moved.new);
    write!(out, "  state {} {old} {new}", moved.port)
}

/// Adds a measure, with generation and clock of its stamp.
#[tactic(auto, unfolding(crate::specs::TranscriptLines::line_text))]
pub fn push_measure(
    out: &mut Writer,
    measure: &Measure,
    gener: &u32,
    clock: &u8,
) -> Result<(), NoMemory>
    ensures { OnOk result (out.new ≡ out.old
        ++ line_text (A_measure measure.now gener.now clock.now)) }
{
    write!(out, "  measure {gener} {clock} ")?;
    write!(
        out,
        "{} {} {}",
        measure.offset, measure.delay, measure.local
    )
}

/// Adds a lead, or that there is none.
fn push_lead(out: &mut Writer, lead: &Option<Lead>) -> Result<(), NoMemory>
    ensures { OnOk result (out.new ≡ out.old ++ lead_text lead.now) }
{
    match lead {
        None => write!(out, "none"),
        Some(lead) => write!(out, "{} {}", lead.gener, lead.source),
    }
}

/// Adds what a follower was told.
#[tactic(auto, unfolding(crate::specs::TranscriptLines::line_text))]
pub fn push_told(out: &mut Writer, told: &Told) -> Result<(), NoMemory>
    ensures { OnOk result (out.new ≡ out.old ++ line_text (A_told told.now)) }
{
    write!(out, "  told ")?;
    push_lead(out, &told.lead)?;
    write!(out, " missed {}", told.missed)
}

/// Adds a drift, in ppb.
fn push_drift(out: &mut Writer, drift: &i64) -> Result<(), NoMemory>
    ensures { OnOk result (out.new ≡ out.old ++ signed_decimal (floor_of drift.now (pos 65536))) }
{
    let ppb = drift.div_euclid(65536);
    write!(out, "{ppb}")
}

/// Adds the opening of a clock.
#[tactic(auto, unfolding(crate::specs::TranscriptLines::line_text))]
pub fn push_clock(out: &mut Writer, clock: &u8, time: &i64, drift: &i64) -> Result<(), NoMemory>
    ensures { OnOk result (out.new ≡ out.old
        ++ line_text (Clock clock.now time.now drift.now)) }
{
    write!(out, "clock {clock} {time} ")?;
    push_drift(out, drift)
}

/// Adds a new parent.
#[tactic(auto, unfolding(crate::specs::TranscriptLines::line_text))]
pub fn push_parent(out: &mut Writer, parent: &PortId) -> Result<(), NoMemory>
    ensures { OnOk result (out.new ≡ out.old ++ line_text (Parent parent.now)) }
{
    write!(out, "  parent ")?;
    out.port(parent)
}

/// Adds an order.
#[tactic(auto, unfolding(crate::specs::TranscriptLines::line_text))]
pub fn push_order(out: &mut Writer, order: &RoleOrder) -> Result<(), NoMemory>
    ensures { OnOk result (out.new ≡ out.old ++ line_text (Order order.now)) }
{
    write!(
        out,
        "  order {} {} {}",
        order.clock, order.gener, order.ctrl
    )
}

/// Adds a frame that was sent.
#[tactic(auto, unfolding(crate::specs::TranscriptLines::line_text))]
pub fn push_sent(out: &mut Writer, sent: &Sent) -> Result<(), NoMemory>
    ensures { OnOk result (out.new ≡ out.old ++ line_text (A_frame sent.now)) }
{
    write!(out, "  send {} ", sent.port)?;
    out.hex(sent.octets.items())
}

/// Adds why a query made no request.
#[tactic(auto, unfolding(crate::specs::TranscriptLines::line_text))]
pub fn push_asked(out: &mut Writer, error: &AskError) -> Result<(), NoMemory>
    ensures { OnOk result (out.new ≡ out.old ++ line_text (Asked error.now)) }
{
    write!(out, "  asked {}", asked_name(error))
}

/// Adds an answer to a query.
#[tactic(auto, unfolding(crate::specs::TranscriptLines::line_text))]
pub fn push_answer(out: &mut Writer, answer: &Octets) -> Result<(), NoMemory>
    ensures { OnOk result (out.new ≡ out.old ++ line_text (Answer answer.now)) }
{
    write!(out, "  answer ")?;
    out.hex(answer.items())
}

/// Adds one of the lines that print an answer.
#[tactic(auto, unfolding(crate::specs::TranscriptLines::line_text))]
fn push_printed(out: &mut Writer, text: &Octets) -> Result<(), NoMemory>
    ensures { OnOk result (out.new ≡ out.old ++ line_text (Printed text.now)) }
{
    write!(out, "    ")?;
    out.octets(text.items())
}

/// Adds an entry of a log, behind its number.
fn push_entry(out: &mut Writer, entry: &LogEntry) -> Result<(), NoMemory>
    ensures { OnOk result (out.new ≡ out.old ++ logged_text entry.now) }
{
    match entry {
        LogEntry::Order { gener, ctrl } => write!(out, " order {gener} {ctrl}"),
        LogEntry::Change {
            gener,
            ctrl,
            tick,
            step,
            freq,
        } => write!(out, " change {gener} {ctrl} {tick} {step} {freq}"),
    }
}

/// Adds an entry of a clock's log.
#[tactic(auto, unfolding(crate::specs::TranscriptLines::line_text))]
pub fn push_logged(
    out: &mut Writer,
    clock: &u8,
    number: &u64,
    entry: &LogEntry,
) -> Result<(), NoMemory>
    ensures { OnOk result (out.new ≡ out.old
        ++ line_text (Logged clock.now number.now entry.now)) }
{
    write!(out, "log {clock} {number}")?;
    push_entry(out, entry)
}

/// Adds a line, without its newline.
#[tactic(auto, unfolding(crate::specs::TranscriptLines::line_text))]
fn push_line(out: &mut Writer, line: &Line) -> Result<(), NoMemory>
    ensures { OnOk result (out.new ≡ out.old ++ line_text line.now) }
{
    match line {
        Line::Head => write!(out, "bc-transcript 1"),
        Line::Event {
            number,
            moment,
            input,
            seen,
        } => push_event(out, number, moment, input, seen),
        Line::Fate(fate) => push_fate(out, fate),
        Line::State(moved) => push_moved(out, moved),
        Line::Parent(parent) => push_parent(out, parent),
        Line::Order(order) => push_order(out, order),
        Line::Measure {
            measure,
            gener,
            clock,
        } => push_measure(out, measure, gener, clock),
        Line::Sent(sent) => push_sent(out, sent),
        Line::Told(told) => push_told(out, told),
        Line::Asked(error) => push_asked(out, error),
        Line::Answer(answer) => push_answer(out, answer),
        Line::Printed(text) => push_printed(out, text),
        Line::Clock { clock, time, drift } => push_clock(out, clock, time, drift),
        Line::Logged {
            clock,
            number,
            entry,
        } => push_logged(out, clock, number, entry),
        Line::End { number } => write!(out, "end {number}"),
    }
}

/// The text of a line.
pub fn line_text(alloc: Global, line: &Line) -> Result<Octets, NoMemory>
    ensures { IfOk result (λ text. text ≡ line_text line.now) }
{
    let mut out = Writer::new(alloc);
    push_line(&mut out, line)?;
    Ok(out.into_octets())
}
