ghost use Rattle.std.specs.Prelude.{◌≡◌, ◌<◌, ◌+◌, length, slice_get, Some, IfOk, IfErr, OnOk};
ghost use Rattle.bc_history.specs.declared.scenario.Turner.TheVariants.{Default};
ghost use Rattle.bc_history.specs.Run.World.{IsWorld};
ghost use Rattle.bc_history.specs.Scenario.ScenarioRules.{IsTurnerOf};
ghost use Rattle.run_legal.specs.Runs.LegalRuns.{IsLegal};
ghost use Rattle.bc_replay.specs.ActorLoop.{IsUnscheduledLoop, LoopRepresents};
ghost use Rattle.bc_replay.specs.ActorTurns.{HasNoTurn, HasTurns};
ghost use Rattle.bc_replay.specs.ReplayError.{IsReplayError};

use crate::actors::actors_of;
use crate::step::take_turn;
use crate::turn::{default_turn, turn_of};
use bc_history::{Run, Scenario, Turns};
use bc_steps::{Actor, Hub, HubError};
use ptp_base::NoMemory;
use run_legal::assemble;
use std::alloc::Global;

/// Why a scenario was not replayed.
#[derive(Clone, Copy, Debug, PartialEq, Eq)]
pub enum ReplayError {
    /// There was no memory.
    NoMemory,
    /// `ENTRIES_MAX` entries were held and another event was due.
    Events,
    /// A turn of the schedule has no step: it names an actor that has none, or none has one.
    NotDue {
        /// The turn, from 1.
        turn: u32,
    },
}

impl From<NoMemory> for ReplayError {
    ghost use Rattle.std.specs.Prelude.{◌≡◌};
    ghost use Rattle.bc_replay.specs.declared.run.ReplayError.TheVariants.{NoMemory as Lacks};

    ghost from_gives = { λ _ e. e ≡ Lacks };

    fn from(_e: NoMemory) -> ReplayError {
        ReplayError::NoMemory
    }
}

impl From<HubError> for ReplayError {
    ghost use Rattle.std.specs.Prelude.{◌≡◌};
    ghost use Rattle.bc_replay.specs.ReplayError.{by_hub};

    ghost from_gives = { λ h e. e ≡ by_hub h };

    fn from(error: HubError) -> ReplayError {
        match error {
            HubError::NoMemory => ReplayError::NoMemory,
            HubError::Events => ReplayError::Events,
        }
    }
}

/// The turns of a line of the schedule, behind so many that were taken.
fn take_line(
    s: &Scenario,
    hub: &mut Hub,
    actors: &mut Vec<Actor>,
    line: Turns,
    taken: u32,
) -> Result<(), ReplayError>
    requires going { LoopRepresents s.now taken hub.old actors.old.items }
    requires there { IsTurnerOf (length s.now.clocks) (length s.now.ports) line.who }
    requires turns { HasTurns s.now taken line.who line.count }
    ensures going { OnOk result
        (LoopRepresents s.now (taken + line.count) hub.new actors.new.items) }
    ensures error { IfErr result (IsReplayError s.now) }
{
    for k in 0..line.count {
        let Some(i) = turn_of(s, hub, actors, line.who) else {
            return Err(ReplayError::NotDue {
                turn: taken + k + 1,
            });
        };
        take_turn(hub, actors, i, s.options.duration)?;
    }
    Ok(())
}

/// How many lines the schedule of a scenario has.
fn line_count(s: &Scenario) -> usize
    ensures { result ≡ length s.now.turns }
{
    s.turns.len()
}

/// A line of the schedule of a scenario.
fn line_at(s: &Scenario, i: usize) -> Turns
    requires there { i < length s.now.turns }
    ensures { slice_get s.now.turns i ≡ Some result }
{
    s.turns.items()[i]
}

/// The turns of the schedule, line by line.
fn take_schedule(s: &Scenario, hub: &mut Hub, actors: &mut Vec<Actor>) -> Result<(), ReplayError>
    requires going { LoopRepresents s.now 0 hub.old actors.old.items }
    ensures going { OnOk result (IsUnscheduledLoop s.now hub.new actors.new.items) }
    ensures error { IfErr result (IsReplayError s.now) }
{
    s.rules();
    let mut taken = 0;
    for i in 0..line_count(s) {
        let line = line_at(s, i);
        take_line(s, hub, actors, line, taken)?;
        taken += line.count;
    }
    Ok(())
}

/// The turns of the default rule, until nobody has a step.
fn take_default_turns(
    s: &Scenario,
    hub: &mut Hub,
    actors: &mut Vec<Actor>,
) -> Result<(), ReplayError>
    requires going { IsUnscheduledLoop s.now hub.old actors.old.items }
    ensures going { OnOk result (IsUnscheduledLoop s.now hub.new actors.new.items) }
    ensures none { OnOk result (HasNoTurn hub.new actors.new.items Default) }
    ensures error { IfErr result (IsReplayError s.now) }
{
    'turns: while let Some(i) = default_turn(hub, actors) {
        take_turn(hub, actors, i, s.options.duration)?;
    }
    Ok(())
}

/// The run of a scenario: the turns of its schedule, and then those of the default rule. It is legal.
/// At each turn of the default rule it looks once at each actor, and copies nothing of the history.
/// `Events` exactly where the scenario ends at one event too many; `NotDue` exactly where it ends at
/// a turn of the schedule that has no step.
pub fn replay(alloc: Global, s: &Scenario) -> Result<Run, ReplayError>
    ensures run { IfOk result (λ run. IsWorld s.now run) }
    ensures legal { IfOk result (λ run. IsLegal s.now run) }
    ensures error { IfErr result (IsReplayError s.now) }
{
    s.rules();
    let mut hub = Hub::new(alloc, s)?;
    let mut actors = actors_of(alloc, s)?;
    take_schedule(s, &mut hub, &mut actors)?;
    take_default_turns(s, &mut hub, &mut actors)?;
    let (entries, logs) = hub.part();
    Ok(assemble(entries, logs))
}
