ghost use Rattle.std.specs.Prelude.{◌≡◌, ◌+◌, ◌∷◌, ◌++◌, [], List, ℕ, IfOk, Some, None, if◌then◌else◌, ◌&&◌, nat_le, not, ◌==◌};
ghost use Rattle.bc_history.specs.Phases.Inputs.{port_of};
ghost use Rattle.transcript.specs.NextLines.{none_from_asked, none_from_told, none_from_frames, none_from_measure, none_from_orders, none_from_parent, none_from_states, none_from_fate, may_follow, with_measure, with_effect, shown_behind};

use crate::line::Line;
use crate::shown::Shown;
use bc_history::{AskError, Effects, Input, Moved, Sent, Told};
use ptp_base::{NoMemory, Octets, PortId};
use ptp_profile::{Fate, Held, Measure, RoleOrder};
use std::alloc::Global;

// Of the effects of an entry each kind stands behind those before it, so that a line may stand where
// nothing is there yet of the kinds behind its own.

/// Nothing is there from the error of a query on.
fn none_from_asked(f: &Effects) -> bool
    ensures { result ≡ none_from_asked f.now }
{
    f.asked.is_none() && f.answers.len() == 0
}

/// Nothing is there from what a follower was told on.
fn none_from_told(f: &Effects) -> bool
    ensures { result ≡ none_from_told f.now }
{
    f.told.is_none() && none_from_asked(f)
}

/// Nothing is there from the frames on.
fn none_from_frames(f: &Effects) -> bool
    ensures { result ≡ none_from_frames f.now }
{
    f.frames.len() == 0 && none_from_told(f)
}

/// Nothing is there from the measure on.
fn none_from_measure(f: &Effects) -> bool
    ensures { result ≡ none_from_measure f.now }
{
    f.measure.is_none() && none_from_frames(f)
}

/// Nothing is there from the orders on.
fn none_from_orders(f: &Effects) -> bool
    ensures { result ≡ none_from_orders f.now }
{
    f.orders.len() == 0 && none_from_measure(f)
}

/// Nothing is there from the parent on.
fn none_from_parent(f: &Effects) -> bool
    ensures { result ≡ none_from_parent f.now }
{
    f.parent.is_none() && none_from_orders(f)
}

/// Nothing is there from the changes of state on.
fn none_from_states(f: &Effects) -> bool
    ensures { result ≡ none_from_states f.now }
{
    f.states.len() == 0 && none_from_parent(f)
}

/// Nothing is there.
fn none_from_fate(f: &Effects) -> bool
    ensures { result ≡ none_from_fate f.now }
{
    f.fate.is_none() && none_from_states(f)
}

/// Whether a change of state may stand behind others. The last two say it: ports rise, and none
/// stands three times.
fn may_follow(moves: &[Moved], moved: &Moved) -> bool
    ensures { result ≡ may_follow moves.now moved.now }
{
    match moves {
        [] => true,
        [one] => one.port <= moved.port,
        [.., former, last] => last.port <= moved.port && former.port != moved.port,
    }
}

/// With what became of a frame.
fn with_fate(mut f: Effects, fate: Fate) -> Option<Effects>
    ensures { result ≡ (if none_from_fate f then Some (record f { fate = Some fate }) else None) }
{
    if !none_from_fate(&f) {
        return None;
    }
    f.fate = Some(fate);
    Some(f)
}

/// With a change of state.
fn with_move(mut f: Effects, moved: Moved) -> Result<Option<Effects>, NoMemory>
    ensures { IfOk result (λ after. after ≡ (if none_from_parent f && may_follow f.states moved
        then Some (record f { states = f.states ++ moved ∷ [] }) else None)) }
{
    if !none_from_parent(&f) || !may_follow(f.states.items(), &moved) {
        return Ok(None);
    }
    f.states.push(moved)?;
    Ok(Some(f))
}

/// With a new parent.
fn with_parent(mut f: Effects, parent: PortId) -> Option<Effects>
    ensures { result
        ≡ (if none_from_parent f then Some (record f { parent = Some parent }) else None) }
{
    if !none_from_parent(&f) {
        return None;
    }
    f.parent = Some(parent);
    Some(f)
}

/// With an order.
fn with_order(mut f: Effects, order: RoleOrder) -> Result<Option<Effects>, NoMemory>
    ensures { IfOk result (λ after. after ≡ (if none_from_measure f
        then Some (record f { orders = f.orders ++ order ∷ [] }) else None)) }
{
    if !none_from_measure(&f) {
        return Ok(None);
    }
    f.orders.push(order)?;
    Ok(Some(f))
}

/// The port that an input is of.
fn port_of(input: &Input) -> Option<u16>
    ensures { result ≡ port_of input.now }
{
    match input {
        Input::Frame { port, .. } => Some(*port),
        Input::Timed { port, .. } => Some(*port),
        Input::Down { port, .. } => Some(*port),
        Input::Up { port, .. } => Some(*port),
        Input::Report { port, .. } => Some(*port),
        Input::Turn { .. } => None,
        Input::Sampled { .. } => None,
        Input::Query { .. } => None,
    }
}

/// With a measure, under the stamp whose controller is the port of the entry: a port above 255 is
/// no controller.
fn with_measure(
    mut f: Effects,
    measure: Measure,
    gener: u32,
    clock: u8,
    port: Option<u16>,
) -> Option<Effects>
    ensures { result ≡ (if none_from_measure f
        then with_measure f measure gener clock port else None) }
{
    if !none_from_measure(&f) {
        return None;
    }
    let port = port?;
    if port >= 256 {
        return None;
    }
    let held = Held {
        clock,
        gener,
        ctrl: port as u8,
    };
    f.measure = Some((measure, held));
    Some(f)
}

/// With a frame that was sent.
fn with_frame(mut f: Effects, sent: Sent) -> Result<Option<Effects>, NoMemory>
    ensures { IfOk result (λ after. after ≡ (if none_from_told f
        then Some (record f { frames = f.frames ++ sent ∷ [] }) else None)) }
{
    if !none_from_told(&f) {
        return Ok(None);
    }
    f.frames.push(sent)?;
    Ok(Some(f))
}

/// With what a follower was told.
fn with_told(mut f: Effects, told: Told) -> Option<Effects>
    ensures { result ≡ (if none_from_told f then Some (record f { told = Some told }) else None) }
{
    if !none_from_told(&f) {
        return None;
    }
    f.told = Some(told);
    Some(f)
}

/// With the error of a query.
fn with_asked(mut f: Effects, error: AskError) -> Option<Effects>
    ensures { result
        ≡ (if none_from_asked f then Some (record f { asked = Some error }) else None) }
{
    if !none_from_asked(&f) {
        return None;
    }
    f.asked = Some(error);
    Some(f)
}

/// With an answer.
fn with_answer(mut f: Effects, answer: Octets) -> Result<Option<Effects>, NoMemory>
    ensures { IfOk result (λ after.
        after ≡ Some (record f { answers = f.answers ++ answer ∷ [] })) }
{
    f.answers.push(answer)?;
    Ok(Some(f))
}

/// The effects of an input with a line more; none where the line is of no effect, or may not stand
/// there.
pub(crate) fn with_effect(
    input: &Input,
    f: Effects,
    line: Line,
) -> Result<Option<Effects>, NoMemory>
    ensures { IfOk result (λ after. after ≡ with_effect input.now f line) }
{
    match line {
        Line::Fate(fate) => Ok(with_fate(f, fate)),
        Line::State(moved) => with_move(f, moved),
        Line::Parent(parent) => Ok(with_parent(f, parent)),
        Line::Order(order) => with_order(f, order),
        Line::Measure {
            measure,
            gener,
            clock,
        } => Ok(with_measure(f, measure, gener, clock, port_of(input))),
        Line::Sent(sent) => with_frame(f, sent),
        Line::Told(told) => Ok(with_told(f, told)),
        Line::Asked(error) => Ok(with_asked(f, error)),
        Line::Answer(answer) => with_answer(f, answer),
        Line::Head => Ok(None),
        Line::Event { .. } => Ok(None),
        Line::Printed(_) => Ok(None),
        Line::Clock { .. } => Ok(None),
        Line::Logged { .. } => Ok(None),
        Line::End { .. } => Ok(None),
    }
}

/// The lines that have to stand behind a line.
pub(crate) fn shown_behind(alloc: Global, line: &Line) -> Result<Shown, NoMemory>
    ensures { IfOk result (λ lines. lines ≡ shown_behind line.now) }
{
    match line {
        Line::Answer(answer) => Shown::of(alloc, answer.items()),
        Line::Head => Ok(Shown::none(alloc)),
        Line::Event { .. } => Ok(Shown::none(alloc)),
        Line::Fate(_) => Ok(Shown::none(alloc)),
        Line::State(_) => Ok(Shown::none(alloc)),
        Line::Parent(_) => Ok(Shown::none(alloc)),
        Line::Order(_) => Ok(Shown::none(alloc)),
        Line::Measure { .. } => Ok(Shown::none(alloc)),
        Line::Sent(_) => Ok(Shown::none(alloc)),
        Line::Told(_) => Ok(Shown::none(alloc)),
        Line::Asked(_) => Ok(Shown::none(alloc)),
        Line::Printed(_) => Ok(Shown::none(alloc)),
        Line::Clock { .. } => Ok(Shown::none(alloc)),
        Line::Logged { .. } => Ok(Shown::none(alloc)),
        Line::End { .. } => Ok(Shown::none(alloc)),
    }
}
