ghost use Rattle.std.specs.Prelude.{◌≡◌, ◌≤◌, true, false, [], length, Ok, IfErr, OnErr, OnOk};
ghost use Rattle.ptp_base.specs.declared.limits.TheConstants.{ENTRIES_MAX};
ghost use Rattle.bc_history.specs.Run.World.{is_inside};
ghost use Rattle.bc_steps.specs.ActorView.{is_ready, IsLevel};
ghost use Rattle.bc_replay.specs.ActorLoop.{AreLevel};
ghost use Rattle.bc_replay.specs.ActorSteps.{IsStepError, IsTurnError, StepYields, TurnYields};
ghost use Rattle.bc_replay.specs.ActorTurns.{IsDueAt};

use bc_steps::{Actor, Hub, HubError};

/// An actor whose next step is an event takes it, where it is due up to a tick.
fn take_event(hub: &mut Hub, actor: &mut Actor, until: u64) -> Result<bool, HubError>
    requires level { IsLevel hub.old actor.old }
    requires few { length hub.old.entries ≤ ENTRIES_MAX }
    requires inside { is_inside actor.old.place ≡ true }
    ensures step { result ≡ Ok true → StepYields hub.old actor.old hub.new actor.new }
    ensures waits { result ≡ Ok false → is_ready until hub.old actor.old ≡ false }
    ensures idle { result ≡ Ok false → (hub.new ≡ hub.old) × (actor.new ≡ actor.old) }
    ensures error { IfErr result (IsStepError hub.old actor.old) }
    ensures same { OnErr result ((hub.new ≡ hub.old) × (actor.new ≡ actor.old)) }
{
    let taken = actor.event(hub, until)?;
    actor.kind();
    Ok(taken)
}

/// An actor whose next step is no event takes it.
fn take_free_step(hub: &mut Hub, actor: &mut Actor) -> Result<bool, HubError>
    requires level { IsLevel hub.old actor.old }
    requires few { length hub.old.entries ≤ ENTRIES_MAX }
    requires inside { is_inside actor.old.place ≡ false }
    ensures taken { OnOk result (result ≡ Ok true) }
    ensures step { OnOk result (StepYields hub.old actor.old hub.new actor.new) }
    ensures error { IfErr result (IsStepError hub.old actor.old) }
    ensures same { OnErr result ((hub.new ≡ hub.old) × (actor.new ≡ actor.old)) }
{
    actor.free(hub)?;
    actor.kind();
    Ok(true)
}

/// An actor takes its next step: an event where that is due up to `until`, in ns of the scenario, in
/// the hub's window and before the run ends, or a reading or an exchange. Ok(false) only where its
/// next step is an event that is not due so. Events only where the step is an event that is one too many.
/// A refusal leaves hub and actor as they were.
pub fn take_step(hub: &mut Hub, actor: &mut Actor, until: u64) -> Result<bool, HubError>
    requires level { IsLevel hub.old actor.old }
    requires few { length hub.old.entries ≤ ENTRIES_MAX }
    ensures step { result ≡ Ok true → StepYields hub.old actor.old hub.new actor.new }
    ensures waits { result ≡ Ok false
        → (is_inside actor.old.place ≡ true) × (is_ready until hub.old actor.old ≡ false) }
    ensures idle { result ≡ Ok false → (hub.new ≡ hub.old) × (actor.new ≡ actor.old) }
    ensures error { IfErr result (IsStepError hub.old actor.old) }
    ensures same { OnErr result ((hub.new ≡ hub.old) × (actor.new ≡ actor.old)) }
{
    if actor.inside() {
        take_event(hub, actor, until)
    } else {
        take_free_step(hub, actor)
    }
}

/// An actor whose next step is due up to a tick takes it.
fn take_ready_step(hub: &mut Hub, actor: &mut Actor, until: u64) -> Result<(), HubError>
    requires level { IsLevel hub.old actor.old }
    requires few { length hub.old.entries ≤ ENTRIES_MAX }
    requires ready { is_ready until hub.old actor.old ≡ true }
    ensures step { OnOk result (StepYields hub.old actor.old hub.new actor.new) }
    ensures error { IfErr result (IsStepError hub.old actor.old) }
{
    take_step(hub, actor, until)?;
    Ok(())
}

/// One turn: the actor of index `i`, whose next step is due, takes it.
pub fn take_turn(
    hub: &mut Hub,
    actors: &mut Vec<Actor>,
    i: usize,
    until: u64,
) -> Result<(), HubError>
    requires level { AreLevel hub.old actors.old.items }
    requires few { length hub.old.entries ≤ ENTRIES_MAX }
    requires due { IsDueAt hub.old actors.old.items i }
    requires until { until ≡ hub.old.scenario.options.duration }
    requires unbounded { hub.old.windows ≡ [] }
    ensures step { OnOk result (TurnYields hub.old actors.old.items i hub.new actors.new.items) }
    ensures error { IfErr result (IsTurnError hub.old actors.old.items i) }
{
    take_ready_step(hub, &mut actors[i], until)
}
