//! The lines of what follows from an input, each with its newline.

ghost use Rattle.std.specs.Prelude.{◌≡◌, ℕ, List, ◌++◌, OnOk};
ghost use Rattle.bc_history.specs.Run.Transcript.{fate_text, moved_text, moves_text, parent_text, orders_text, measure_text, frames_text, told_text, asked_text, effects_text};
ghost use Rattle.transcript.specs.PrintedLines.{order_text, frame_text};

use crate::answers::push_answers;
use crate::line_text;
use crate::writer::Writer;
use bc_history::{AskError, Effects, Moved, Sent, Told};
use ptp_base::{NoMemory, PortId};
use ptp_profile::{Fate, Held, Measure, RoleOrder};

/// Adds the line of what became of a frame, if there is one.
#[tactic(auto, unfolding(crate::specs::TranscriptLines::line_text))]
fn push_fate(out: &mut Writer, fate: &Option<Fate>) -> Result<(), NoMemory>
    ensures { OnOk result (out.new ≡ out.old ++ fate_text fate.now) }
{
    match fate {
        None => Ok(()),
        Some(fate) => {
            line_text::push_fate(out, fate)?;
            write!(out, "\n")
        }
    }
}

/// Adds the line of a change of a port's state.
#[tactic(auto, unfolding(crate::specs::TranscriptLines::line_text))]
fn push_moved(out: &mut Writer, moved: &Moved) -> Result<(), NoMemory>
    ensures { OnOk result (out.new ≡ out.old ++ moved_text moved.now) }
{
    line_text::push_moved(out, moved)?;
    write!(out, "\n")
}

/// Adds the lines of changes of state.
fn push_moves(out: &mut Writer, moves: &[Moved]) -> Result<(), NoMemory>
    ensures { OnOk result (out.new ≡ out.old ++ moves_text moves.now) }
{
    for moved in moves {
        push_moved(out, moved)?;
    }
    Ok(())
}

/// Adds the line of a new parent, if there is one.
#[tactic(auto, unfolding(crate::specs::TranscriptLines::line_text))]
fn push_parent(out: &mut Writer, parent: &Option<PortId>) -> Result<(), NoMemory>
    ensures { OnOk result (out.new ≡ out.old ++ parent_text parent.now) }
{
    match parent {
        None => Ok(()),
        Some(parent) => {
            line_text::push_parent(out, parent)?;
            write!(out, "\n")
        }
    }
}

/// Adds the line of an order.
#[tactic(auto, unfolding(crate::specs::PrintedLines::order_text, crate::specs::TranscriptLines::line_text))]
fn push_order(out: &mut Writer, order: &RoleOrder) -> Result<(), NoMemory>
    ensures { OnOk result (out.new ≡ out.old ++ order_text order.now) }
{
    line_text::push_order(out, order)?;
    write!(out, "\n")
}

/// Adds the lines of orders.
fn push_orders(out: &mut Writer, orders: &[RoleOrder]) -> Result<(), NoMemory>
    ensures { OnOk result (out.new ≡ out.old ++ orders_text orders.now) }
{
    for order in orders {
        push_order(out, order)?;
    }
    Ok(())
}

/// Adds the line of a measure and the stamp that it was made under, if there is one.
#[tactic(auto, unfolding(crate::specs::TranscriptLines::line_text))]
fn push_measure(out: &mut Writer, measure: &Option<(Measure, Held)>) -> Result<(), NoMemory>
    ensures { OnOk result (out.new ≡ out.old ++ measure_text measure.now) }
{
    match measure {
        None => Ok(()),
        Some((measure, held)) => {
            line_text::push_measure(out, measure, &held.gener, &held.clock)?;
            write!(out, "\n")
        }
    }
}

/// Adds the line of a frame that was sent.
#[tactic(auto, unfolding(crate::specs::PrintedLines::frame_text, crate::specs::TranscriptLines::line_text))]
fn push_frame(out: &mut Writer, sent: &Sent) -> Result<(), NoMemory>
    ensures { OnOk result (out.new ≡ out.old ++ frame_text sent.now) }
{
    line_text::push_sent(out, sent)?;
    write!(out, "\n")
}

/// Adds the lines of the frames that were sent.
fn push_frames(out: &mut Writer, frames: &[Sent]) -> Result<(), NoMemory>
    ensures { OnOk result (out.new ≡ out.old ++ frames_text frames.now) }
{
    for sent in frames {
        push_frame(out, sent)?;
    }
    Ok(())
}

/// Adds the line of what a follower was told, if it was told anything.
#[tactic(auto, unfolding(crate::specs::TranscriptLines::line_text))]
fn push_told(out: &mut Writer, told: &Option<Told>) -> Result<(), NoMemory>
    ensures { OnOk result (out.new ≡ out.old ++ told_text told.now) }
{
    match told {
        None => Ok(()),
        Some(told) => {
            line_text::push_told(out, told)?;
            write!(out, "\n")
        }
    }
}

/// Adds the line of why a query made no request, if it made none.
#[tactic(auto, unfolding(crate::specs::TranscriptLines::line_text))]
fn push_asked(out: &mut Writer, asked: &Option<AskError>) -> Result<(), NoMemory>
    ensures { OnOk result (out.new ≡ out.old ++ asked_text asked.now) }
{
    match asked {
        None => Ok(()),
        Some(error) => {
            line_text::push_asked(out, error)?;
            write!(out, "\n")
        }
    }
}

/// Adds the lines of what follows from an input, in the order of the fields.
pub fn push_effects(out: &mut Writer, effects: &Effects) -> Result<(), NoMemory>
    ensures { OnOk result (out.new ≡ out.old ++ effects_text effects.now) }
{
    push_fate(out, &effects.fate)?;
    push_moves(out, effects.states.items())?;
    push_parent(out, &effects.parent)?;
    push_orders(out, effects.orders.items())?;
    push_measure(out, &effects.measure)?;
    push_frames(out, effects.frames.items())?;
    push_told(out, &effects.told)?;
    push_asked(out, &effects.asked)?;
    push_answers(out, effects.answers.items())?;
    Ok(())
}
