ghost use Rattle.std.specs.Prelude.{◌≡◌, ℕ, IfOk};
ghost use Rattle.std.specs.Option.{option_map};
ghost use Rattle.bc_history.specs.Phases.Inputs.{tick_of};
ghost use Rattle.bc_history.specs.Run.NextInputs.{input_of, record_or_timer};
ghost use Rattle.bc_history.specs.Run.PortEntries.{is_record_of};
ghost use Rattle.bc_steps.specs.RecordQueue.{input_at, is_first, last_of, tick_at};

use crate::port::record_queue::RecordQueue;
use bc_history::{Happening, Input, PortPlace, Record};
use ptp_base::NoMemory;
use ptp_profile::Timer;
use std::alloc::Global;

/// Whether a record of a tick comes before the timer that is set, if one is: the record is first at
/// one tick.
fn is_first(tick: u64, timer: Option<(u64, Timer)>) -> bool
    ensures { result ≡ is_first tick timer }
{
    match timer {
        Some((at, _)) => tick <= at,
        None => true,
    }
}

/// The tick of the record or timer that a port takes next, if it has one.
fn next_tick(queue: &RecordQueue, timer: Option<(u64, Timer)>) -> Option<u64>
    ensures { (p : ℕ) → result ≡ option_map tick_of (record_or_timer p (last_of queue.now) timer) }
{
    match queue.tick() {
        Some(tick) if is_first(tick, timer) => Some(tick),
        _ => match timer {
            Some((tick, _)) => Some(tick),
            None => None,
        },
    }
}

/// The tick of the next step of a port at a place, if it has one.
pub fn tick_at(place: PortPlace, queue: &RecordQueue, timer: Option<(u64, Timer)>) -> Option<u64>
    ensures { (p : ℕ) → result ≡ tick_at p place (last_of queue.now) timer }
{
    match place {
        PortPlace::Waits => next_tick(queue, timer),
        PortPlace::Exchanges { tick, .. } | PortPlace::Reports { tick, .. } => Some(tick),
    }
}

/// What a record brings to a port. The octets of a frame are copied.
pub fn input_of(alloc: Global, port: u16, brought: &Record) -> Result<Input, NoMemory>
    ensures { IfOk result (λ input. input ≡ input_of port brought.now.tick brought.now.what) }
{
    let tick = brought.tick;
    Ok(match &brought.what {
        Happening::Frame(octets) => Input::Frame {
            port,
            tick,
            octets: octets.copy(alloc)?,
        },
        Happening::Down => Input::Down { port, tick },
        Happening::Up => Input::Up { port, tick },
    })
}

/// The record or timer that a port takes next, if it has one.
fn next_input(
    alloc: Global,
    port: u16,
    queue: &RecordQueue,
    timer: Option<(u64, Timer)>,
) -> Result<Option<Input>, NoMemory>
    ensures { IfOk result (λ input. input ≡ record_or_timer port (last_of queue.now) timer) }
{
    match queue.last() {
        Some(record) if is_first(record.tick, timer) => Ok(Some(input_of(alloc, port, record)?)),
        _ => match timer {
            Some((tick, timer)) => Ok(Some(Input::Timed { port, tick, timer })),
            None => Ok(None),
        },
    }
}

/// The input of the next event of a port at a place, if it has one.
pub fn input_at(
    alloc: Global,
    port: u16,
    place: PortPlace,
    queue: &RecordQueue,
    timer: Option<(u64, Timer)>,
) -> Result<Option<Input>, NoMemory>
    ensures { IfOk result (λ input. input ≡ input_at port place (last_of queue.now) timer) }
{
    match place {
        PortPlace::Waits => next_input(alloc, port, queue, timer),
        PortPlace::Exchanges { .. } => Ok(None),
        PortPlace::Reports {
            tick,
            gener,
            action,
            outcome,
        } => Ok(Some(Input::Report {
            port,
            tick,
            gener,
            action,
            outcome,
        })),
    }
}

/// Whether an input of the port is that of a record.
pub fn is_record_of(port: u16, input: &Input) -> bool
    ensures { result ≡ is_record_of port input.now }
{
    match input {
        Input::Frame { port: of, .. } | Input::Down { port: of, .. } | Input::Up { port: of, .. } =>
            { *of == port }
        Input::Timed { .. }
        | Input::Report { .. }
        | Input::Turn { .. }
        | Input::Sampled { .. }
        | Input::Query { .. } => false,
    }
}
