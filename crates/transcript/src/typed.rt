ghost use Rattle.transcript.specs.TypedLines.{IsWithin, IsWithinSigned, AreOctets, IsTypedSeen, IsTypedReading, IsTypedAction, IsTypedOutcome, IsTypedLead, IsTypedOptionLead, IsTypedInput, IsTypedPort, IsTypedMeasure, IsTypedOrder, IsTypedLogEntry, IsTypedLine};
ghost use Rattle.transcript.specs.declared.line.Line.TheVariants.{Event, Measure as A_measure, Sent as A_frame, Told as A_told, Clock, Logged};

use crate::line::Line;
use bc_history::{Input, Moved, Outcome, Seen, Sent, Told};
use ptp_base::{Octets, PortId};
use ptp_profile::{Action, Lead, LogEntry, Measure, RoleOrder};

/// Octets are numbers of 8 bits. Each function of this file says that numbers are in the ranges of
/// their types, and does nothing.
fn items_typed(items: &[u8])
    ensures { AreOctets items.now }
{}

/// The same where they are owned.
fn octets_typed(octets: &Octets)
    ensures { AreOctets octets.now }
{
    items_typed(octets.items());
}

/// The numbers of a reading are in the ranges of their types.
fn seen_typed(seen: &Seen)
    ensures { IsTypedSeen seen.now }
{
    let _number = seen.number;
    let _value = seen.value;
    let _freq = seen.freq;
}

/// The same where there may be none.
fn reading_typed(seen: &Option<Seen>)
    ensures { IsTypedReading seen.now }
{
    if let Some(seen) = seen {
        seen_typed(seen);
    }
}

/// The same of what a servo asked.
fn action_typed(action: &Action)
    ensures { IsTypedAction action.now }
{
    match action {
        Action::Unlocked => {}
        Action::Jump { step, freq } => {
            let _step = *step;
            let _freq = *freq;
        }
        Action::Locked { freq } => {
            let _freq = *freq;
        }
    }
}

/// The same of what an exchange gave.
fn outcome_typed(outcome: &Outcome)
    ensures { IsTypedOutcome outcome.now }
{
    match outcome {
        Outcome::Unlocked => {}
        Outcome::Changed { number } => {
            let _number = *number;
        }
        Outcome::Superseded { newer, at } => {
            let _newer = *newer;
            let _at = *at;
        }
        Outcome::Spent { at } => {
            let _at = *at;
        }
    }
}

/// The same of what a follower copies.
fn lead_typed(lead: &Lead)
    ensures { IsTypedLead lead.now }
{
    let _gener = lead.gener;
    let _source = lead.source;
}

/// The same where there may be none.
fn option_lead_typed(lead: &Option<Lead>)
    ensures { IsTypedOptionLead lead.now }
{
    if let Some(lead) = lead {
        lead_typed(lead);
    }
}

/// A number of 8 bits.
fn typed8(n: &u8)
    ensures { IsWithin 8 n.now }
{
    let _n = *n;
}

/// A number of 16 bits.
fn typed16(n: &u16)
    ensures { IsWithin 16 n.now }
{
    let _n = *n;
}

/// A number of 32 bits.
fn typed32(n: &u32)
    ensures { IsWithin 32 n.now }
{
    let _n = *n;
}

/// A number of 64 bits.
fn typed64(n: &u64)
    ensures { IsWithin 64 n.now }
{
    let _n = *n;
}

/// A signed number of 64 bits.
fn signed_typed(n: &i64)
    ensures { IsWithinSigned 63 n.now }
{
    let _n = *n;
}

/// The port and the tick of an input.
fn at_port(port: &u16, tick: &u64)
    ensures port { IsWithin 16 port.now }
    ensures tick { IsWithin 64 tick.now }
{
    typed16(port);
    typed64(tick);
}

/// The clock and the tick of an input.
fn at_clock(clock: &u8, tick: &u64)
    ensures clock { IsWithin 8 clock.now }
    ensures tick { IsWithin 64 tick.now }
{
    typed8(clock);
    typed64(tick);
}

/// What a servo asked, and what the exchange gave.
fn exchange_typed(action: &Action, outcome: &Outcome)
    ensures action { IsTypedAction action.now }
    ensures outcome { IsTypedOutcome outcome.now }
{
    action_typed(action);
    outcome_typed(outcome);
}

/// Both readings of a sample.
fn readings_typed(theirs: &Seen, own: &Seen)
    ensures theirs { IsTypedSeen theirs.now }
    ensures own { IsTypedSeen own.now }
{
    seen_typed(theirs);
    seen_typed(own);
}

/// An input.
fn input_typed(input: &Input)
    ensures { IsTypedInput input.now }
{
    match input {
        Input::Frame { port, tick, octets } => {
            at_port(port, tick);
            octets_typed(octets);
        }
        Input::Timed { port, tick, .. } | Input::Down { port, tick } | Input::Up { port, tick } => {
            at_port(port, tick)
        }
        Input::Report {
            port,
            tick,
            gener,
            action,
            outcome,
        } => {
            at_port(port, tick);
            typed32(gener);
            exchange_typed(action, outcome);
        }
        Input::Turn { clock, tick } => at_clock(clock, tick),
        Input::Sampled {
            clock,
            tick,
            lead,
            theirs,
            own,
            action,
            outcome,
        } => {
            at_clock(clock, tick);
            lead_typed(lead);
            readings_typed(theirs, own);
            exchange_typed(action, outcome);
        }
        Input::Query { tick, text } => {
            typed64(tick);
            octets_typed(text);
        }
    }
}

/// The same of a change of a port's state.
fn moved_typed(moved: &Moved)
    ensures { IsWithin 16 moved.now.port }
{
    let _port = moved.port;
}

/// The same of the identity of a port.
fn port_typed(port: &PortId)
    ensures { IsTypedPort port.now }
{
    let _id = port.clock.id;
    let _port = port.port;
}

/// The same of a measure.
fn measure_typed(measure: &Measure)
    ensures { IsTypedMeasure measure.now }
{
    let _offset = measure.offset;
    let _delay = measure.delay;
    let _local = measure.local;
}

/// The same of an order.
fn order_typed(order: &RoleOrder)
    ensures { IsTypedOrder order.now }
{
    let _clock = order.clock;
    let _gener = order.gener;
    let _ctrl = order.ctrl;
}

/// The same of an entry of a log.
fn entry_typed(entry: &LogEntry)
    ensures { IsTypedLogEntry entry.now }
{
    match entry {
        LogEntry::Order { gener, ctrl } => {
            let _gener = *gener;
            let _ctrl = *ctrl;
        }
        LogEntry::Change {
            gener,
            ctrl,
            tick,
            step,
            freq,
        } => {
            let _gener = *gener;
            let _ctrl = *ctrl;
            let _tick = *tick;
            let _step = *step;
            let _freq = *freq;
        }
    }
}

/// The line that begins an entry.
fn event_typed(number: &u64, moment: &u64, input: &Input, seen: &Option<Seen>)
    ensures { IsTypedLine (Event number.now moment.now input.now seen.now) }
{
    typed64(number);
    typed64(moment);
    input_typed(input);
    reading_typed(seen);
}

/// A measure, with generation and clock of its stamp.
fn stamped_typed(measure: &Measure, gener: &u32, clock: &u8)
    ensures { IsTypedLine (A_measure measure.now gener.now clock.now) }
{
    measure_typed(measure);
    typed32(gener);
    typed8(clock);
}

/// A frame that was sent.
fn sent_typed(sent: &Sent)
    ensures { IsTypedLine (A_frame sent.now) }
{
    typed16(&sent.port);
    octets_typed(&sent.octets);
}

/// What a follower was told.
fn told_typed(told: &Told)
    ensures { IsTypedLine (A_told told.now) }
{
    option_lead_typed(&told.lead);
    typed32(&told.missed);
}

/// The opening of a clock.
fn clock_typed(clock: &u8, time: &i64, drift: &i64)
    ensures { IsTypedLine (Clock clock.now time.now drift.now) }
{
    typed8(clock);
    signed_typed(time);
    signed_typed(drift);
}

/// An entry of a clock's log.
fn logged_typed(clock: &u8, number: &u64, entry: &LogEntry)
    ensures { IsTypedLine (Logged clock.now number.now entry.now) }
{
    typed8(clock);
    typed64(number);
    entry_typed(entry);
}

/// The numbers of a line are in the ranges of the types of their fields.
pub fn line_typed(line: &Line)
    ensures { IsTypedLine line.now }
{
    match line {
        Line::Head | Line::Fate(_) | Line::Asked(_) => {}
        Line::Event {
            number,
            moment,
            input,
            seen,
        } => event_typed(number, moment, input, seen),
        Line::State(moved) => moved_typed(moved),
        Line::Parent(parent) => port_typed(parent),
        Line::Order(order) => order_typed(order),
        Line::Measure {
            measure,
            gener,
            clock,
        } => stamped_typed(measure, gener, clock),
        Line::Sent(sent) => sent_typed(sent),
        Line::Told(told) => told_typed(told),
        Line::Answer(octets) | Line::Printed(octets) => octets_typed(octets),
        Line::Clock { clock, time, drift } => clock_typed(clock, time, drift),
        Line::Logged {
            clock,
            number,
            entry,
        } => logged_typed(clock, number, entry),
        Line::End { number } => typed64(number),
    }
}
