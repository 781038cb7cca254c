ghost use Rattle.std.specs.Prelude.{◌≡◌, ℕ, List, ◌++◌, OnOk, codes};
ghost use Rattle.std.specs.Fmt.{decimal};
ghost use Rattle.ptp_profile.specs.Port.PrintedNames.{◌<>◌};
ghost use Rattle.bc_history.specs.Run.Transcript.{reading_text, seen_text, action_text, outcome_text, input_text};

use crate::names::timer_name;
use crate::writer::Writer;
use bc_history::{Input, Outcome, Seen};
use ptp_base::NoMemory;
use ptp_profile::{Action, Lead};

/// Adds a reading: after how many entries, the value and the frequency.
fn push_reading(out: &mut Writer, seen: &Seen) -> Result<(), NoMemory>
    ensures { OnOk result (out.new ≡ out.old ++ reading_text seen.now) }
{
    write!(out, "{} {} {}", seen.number, seen.value, seen.freq)
}

/// Adds the reading of a port's clock, if there is one.
pub fn push_seen(out: &mut Writer, seen: &Option<Seen>) -> Result<(), NoMemory>
    ensures { OnOk result (out.new ≡ out.old ++ seen_text seen.now) }
{
    match seen {
        None => Ok(()),
        Some(seen) => {
            write!(out, " seen ")?;
            push_reading(out, seen)
        }
    }
}

/// Adds what a servo asked.
fn push_action(out: &mut Writer, action: &Action) -> Result<(), NoMemory>
    ensures { OnOk result (out.new ≡ out.old ++ action_text action.now) }
{
    match action {
        Action::Unlocked => write!(out, "unlocked"),
        Action::Jump { step, freq } => write!(out, "jump {step} {freq}"),
        Action::Locked { freq } => write!(out, "locked {freq}"),
    }
}

/// Adds what an exchange gave.
fn push_outcome(out: &mut Writer, outcome: &Outcome) -> Result<(), NoMemory>
    ensures { OnOk result (out.new ≡ out.old ++ outcome_text outcome.now) }
{
    match outcome {
        Outcome::Unlocked => write!(out, "none"),
        Outcome::Changed { number } => write!(out, "changed {number}"),
        Outcome::Superseded { newer, at } => write!(out, "superseded {newer} {at}"),
        Outcome::Spent { at } => write!(out, "spent {at}"),
    }
}

/// Adds, behind a space, what a servo asked and what the exchange gave.
fn push_exchange(out: &mut Writer, action: &Action, outcome: &Outcome) -> Result<(), NoMemory>
    ensures { OnOk result (out.new ≡ out.old
        ++ (codes " " <> action_text action.now <> codes " " <> outcome_text outcome.now)) }
{
    write!(out, " ")?;
    push_action(out, action)?;
    write!(out, " ")?;
    push_outcome(out, outcome)
}

/// Adds which clock's follower sampled at which tick, whom it followed, and both readings.
fn push_sample(
    out: &mut Writer,
    clock: u8,
    tick: u64,
    lead: &Lead,
    theirs: &Seen,
    own: &Seen,
) -> Result<(), NoMemory>
    ensures { OnOk result (out.new ≡ out.old
        ++ (codes "clock " <> decimal clock <> codes " sampled " <> decimal tick
        <> codes " " <> decimal lead.now.gener <> codes " " <> decimal lead.now.source
        <> codes " theirs " <> reading_text theirs.now
        <> codes " own " <> reading_text own.now)) }
{
    write!(
        out,
        "clock {clock} sampled {tick} {} {} theirs ",
        lead.gener, lead.source
    )?;
    push_reading(out, theirs)?;
    write!(out, " own ")?;
    push_reading(out, own)
}

/// Adds what came to the hub.
pub fn push_input(out: &mut Writer, input: &Input) -> Result<(), NoMemory>
    ensures { OnOk result (out.new ≡ out.old ++ input_text input.now) }
{
    match input {
        Input::Frame { port, tick, octets } => {
            write!(out, "port {port} frame {tick} ")?;
            out.hex(octets.items())
        }
        Input::Timed { port, tick, timer } => {
            write!(out, "port {port} timer {tick} {}", timer_name(timer))
        }
        Input::Down { port, tick } => write!(out, "port {port} down {tick}"),
        Input::Up { port, tick } => write!(out, "port {port} up {tick}"),
        Input::Report {
            port,
            tick,
            gener,
            action,
            outcome,
        } => {
            write!(out, "port {port} report {tick} {gener}")?;
            push_exchange(out, action, outcome)
        }
        Input::Turn { clock, tick } => write!(out, "clock {clock} turn {tick}"),
        Input::Sampled {
            clock,
            tick,
            lead,
            theirs,
            own,
            action,
            outcome,
        } => {
            push_sample(out, *clock, *tick, lead, theirs, own)?;
            push_exchange(out, action, outcome)
        }
        Input::Query { tick, text } => {
            write!(out, "query {tick} ")?;
            out.octets(text.items())
        }
    }
}
