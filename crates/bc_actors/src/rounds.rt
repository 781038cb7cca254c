//! Rounds over all who act, each in a thread of its own.

ghost use Rattle.std.specs.Prelude.{◌≡◌, ◌<◌, ◌≤◌, All, length, IfErr, IfOk};
ghost use Rattle.bc_history.specs.Run.Actors.{actors_of};
ghost use Rattle.run_legal.specs.Runs.LegalRuns.{IsLegal, IsWindowed};
ghost use Rattle.bc_actors.specs.ActingState.{IsNumberOf, entry_of};
ghost use Rattle.bc_actors.specs.RunErrors.{IsRunError};

use crate::acting::{Acting, Acts, Naming, Next, Turn};
use crate::gate::Gate;
use crate::run::RunError;
use bc_history::{Run, Scenario};
use bc_steps::HubError;
use ptp_base::NoMemory;
use std::alloc::Global;
use std::sync::{Mutex, Wait};
use std::thread;
use std::thread::Threads;

/// How far an actor is with its turns.
#[derive(Drop)]
struct TurnsTaken {
    // The actor's number among all who act, from 1.
    number: u8,
    // How many turns it had.
    turns: u64,
    // A turn found no memory.
    lacks_memory: bool,
}

/// The index, from 1, of the entry that a turn added to the history, 0 where it added none.
fn entry_of(turn: &Result<Turn, HubError>) -> u32
    ensures { result ≡ entry_of turn.now }
{
    match turn {
        Ok(Turn::Event { entry }) => *entry,
        _ => 0,
    }
}

/// The turns of one actor, each a step under the lock, until it has none in the present window.
fn take_turns<A: Acts, R: Wait, G: Gate>(rt: &R, gate: &G, shared: &Mutex<A>, me: &mut TurnsTaken)
    requires there { A.numbers me.old.number }
    ensures same { me.new.number ≡ me.old.number }
{
    for _ in rt.forever() {
        me.turns = me.turns.saturating_add(1);
        gate.before(me.number, me.turns);
        let turn = shared.lock(rt).turn(me.number);
        gate.after(me.number, me.turns, entry_of(&turn));
        match turn {
            Ok(Turn::Event { .. } | Turn::Free) => {}
            Ok(Turn::Idle) | Err(HubError::Events) => break,
            Err(HubError::NoMemory) => {
                me.lacks_memory = true;
                break;
            }
        }
    }
}

/// The turns of all who act, each in a thread of its own.
fn take_all_turns<A: Acts + Send, R: Threads + Wait + Sync, G: Gate + Sync>(
    rt: &R,
    gate: &G,
    shared: &Mutex<A>,
    all: &mut [TurnsTaken],
)
    requires there { All (λ (t : TurnsTaken). A.numbers t.number) all.old }
    requires some { 0 < length all.old }
    ensures there { All (λ (t : TurnsTaken). A.numbers t.number) all.new }
    ensures many { length all.new ≡ length all.old }
{
    let count = all.len();
    thread::for_each_mut(
        rt,
        all,
        count,
        &|_, me: &mut TurnsTaken|
            requires { A.numbers me.now.number }
            ensures { me.exit.now.number ≡ me.entry.now.number }
        { take_turns(rt, gate, shared, me) },
    );
}

/// One round over all who act, each of whom takes its steps up to the end of the present window.
fn round<N: Naming + Send + Sync, R: Threads + Wait + Sync, G: Gate + Sync>(
    rt: &R,
    gate: &G,
    acting: Acting<N>,
    all: &mut Vec<TurnsTaken>,
) -> Acting<N>
    requires there { All (λ (t : TurnsTaken). IsNumberOf N.scenario t.number) all.old.items }
    requires some { 0 < length all.old.items }
    ensures there { All (λ (t : TurnsTaken). IsNumberOf N.scenario t.number) all.new.items }
    ensures some { 0 < length all.new.items }
{
    let shared = Mutex::new(acting);
    take_all_turns(rt, gate, &shared, all.as_mut_slice());
    shared.into_inner()
}

/// All who act, before their first turns.
fn no_turns(alloc: Global, count: u8) -> Result<Vec<TurnsTaken>, NoMemory>
    ensures there { IfOk result
        (λ all. All (λ (t : TurnsTaken). (1 ≤ t.number) × (t.number ≤ count)) all.items) }
    ensures many { IfOk result (λ all. length all.items ≡ count) }
{
    let mut all = Vec::new(alloc);
    for index in 0..count {
        all.push(TurnsTaken {
            number: index + 1,
            turns: 0,
            lacks_memory: false,
        })?;
    }
    Ok(all)
}

/// Rounds, window by window, until nobody has a step that is due before the run ends.
fn take_rounds<N: Naming + Send + Sync, R: Threads + Wait + Sync, G: Gate + Sync>(
    rt: &R,
    s: &Scenario,
    gate: &G,
    acting: Acting<N>,
    all: &mut Vec<TurnsTaken>,
) -> Result<Run, RunError>
    requires named { s.now ≡ N.scenario }
    requires there { All (λ (t : TurnsTaken). IsNumberOf N.scenario t.number) all.old.items }
    requires some { 0 < length all.old.items }
    ensures legal { IfOk result (IsLegal N.scenario) }
    ensures windowed { IfOk result (IsWindowed N.scenario) }
    ensures error { IfErr result (IsRunError N.scenario) }
{
    let mut acting = acting;
    for _ in rt.forever() {
        match acting.next(s) {
            Next::Finished => return Ok(acting.part()),
            Next::Full => {
                return Err(RunError::Events {
                    held: acting.part(),
                });
            }
            Next::Round => {}
        }
        acting = round(rt, gate, acting, all);
        if all.iter().any(|taken| taken.lacks_memory) {
            return Err(RunError::NoMemory);
        }
    }
    unreachable!()
}

/// The run of a scenario that has a name.
pub(crate) fn run_named<N: Naming + Send + Sync, R: Threads + Wait + Sync, G: Gate + Sync>(
    rt: &R,
    alloc: Global,
    s: &Scenario,
    gate: &G,
) -> Result<Run, RunError>
    requires named { s.now ≡ N.scenario }
    ensures legal { IfOk result (IsLegal N.scenario) }
    ensures windowed { IfOk result (IsWindowed N.scenario) }
    ensures error { IfErr result (IsRunError N.scenario) }
{
    let acting = Acting::<N>::new(alloc, s)?;
    let mut all = no_turns(alloc, acting.count())?;
    take_rounds(rt, s, gate, acting, &mut all)
}
