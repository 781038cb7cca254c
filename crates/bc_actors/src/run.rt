ghost use Rattle.std.specs.Prelude.{IfErr, IfOk};
ghost use Rattle.run_legal.specs.Runs.LegalRuns.{IsLegal, IsWindowed};
ghost use Rattle.bc_actors.specs.RunErrors.{IsRunError};

use crate::gate::Gate;
use crate::rounds::run_named;
use bc_history::{Run, Scenario};
use ptp_base::NoMemory;
use std::alloc::Global;
use std::marker::Brand;
use std::sync::Wait;
use std::thread::Threads;

/// Why a scenario was not run to its end.
#[derive(Drop)]
pub enum RunError {
    /// There was no memory.
    NoMemory,
    /// The history has `ENTRIES_MAX` entries, and another event is due.
    Events {
        /// The run so far.
        held: Run,
    },
}

impl From<NoMemory> for RunError {
    ghost use Rattle.std.specs.Prelude.{◌≡◌};
    ghost use Rattle.bc_actors.specs.declared.run.RunError.TheVariants.{NoMemory as Lacks};

    ghost from_gives = { λ _ e. e ≡ Lacks };

    fn from(_e: NoMemory) -> RunError {
        RunError::NoMemory
    }
}

/// A run of a scenario by threads, one for each who acts: window by window all take their steps up to
/// the window's end, each step under one lock, and `gate` comes before and after each. The schedule
/// is not looked at. It is legal and windowed; which of all such runs it is, the threads settle.
/// `Events` only with an open and windowed run of `ENTRIES_MAX` entries, after which an event is due.
/// Waits for the lock and for the threads. Where no thread can be made all act one after another.
pub fn run_windows<R: Threads + Wait + Sync, G: Gate + Sync>(
    rt: &R,
    alloc: Global,
    s: &Scenario,
    gate: &G,
) -> Result<Run, RunError>
    ensures legal { IfOk result (IsLegal s.now) }
    ensures windowed { IfOk result (IsWindowed s.now) }
    ensures error { IfErr result (IsRunError s.now) }
{
    run_named::<Brand, R, G>(rt, alloc, s, gate)
}
