ghost use Rattle.std.specs.Prelude.{◌≡◌, ℕ, ◌<◌, length, map, MatchOption, None, slice_get, Some};
ghost use Rattle.ptp_base.specs.Least.{lesser};
ghost use Rattle.bc_history.specs.declared.scenario.Turner.TheVariants.{Default};
ghost use Rattle.bc_history.specs.Scenario.ScenarioRules.{IsTurnerOf};
ghost use Rattle.bc_steps.specs.ActorView.{ActorState, due_tick};
ghost use Rattle.bc_history.specs.Run.Actors.{actors_of};
ghost use Rattle.bc_replay.specs.ActorLoop.{AreLevel};
ghost use Rattle.bc_replay.specs.ActorTurns.{HasNoTurn, IsDueAt, IsTurnOf};

use crate::actors::{follower_count, port_count};
use bc_history::{Scenario, Turner};
use bc_steps::{Actor, Hub};

/// The earlier of two, and the former one of equals: each is an index and a tick.
pub fn earlier(best: Option<(usize, u64)>, i: usize, tick: u64) -> Option<(usize, u64)>
    ensures { result ≡ lesser (λ (at : ℕ × ℕ). at.1) best (i, tick) }
{
    match best {
        Some((_, least)) if least <= tick => best,
        _ => Some((i, tick)),
    }
}

/// The index of the actor whose turn it is by the default rule: one in the middle of its job goes
/// first, else the one with the least tick; of equals the first. None where none has a step up to the
/// end of the run. It looks once at each actor, and does not allocate.
pub fn default_turn(hub: &Hub, actors: &[Actor]) -> Option<usize>
    requires level { AreLevel hub.now actors.now }
    ensures { MatchOption result (HasNoTurn hub.now actors.now Default)
        (IsTurnOf hub.now actors.now Default) }
{
    let mut busy: Option<(usize, u64)> = None;
    let mut first: Option<(usize, u64)> = None;
    'actors: for (i, actor) in actors.iter().enumerate() {
        if let Some(tick) = actor.due(hub) {
            first = earlier(first, i, tick);
            if actor.is_busy() {
                busy = earlier(busy, i, tick);
            }
        }
    }
    match busy.or(first) {
        Some((i, _)) => Some(i),
        None => None,
    }
}

/// The index of an actor, where it has a step up to the end of the run.
fn due_at(hub: &Hub, actors: &[Actor], i: usize) -> Option<usize>
    requires level { AreLevel hub.now actors.now }
    requires there { i < length actors.now }
    ensures idle { result ≡ None → (a : ActorState) → slice_get actors.now i ≡ Some a →
        due_tick hub.now a ≡ None }
    ensures due { (j : ℕ) → result ≡ Some j → (j ≡ i) }
    ensures at { (j : ℕ) → result ≡ Some j → IsDueAt hub.now actors.now j }
{
    match actors[i].due(hub) {
        Some(_) => Some(i),
        None => None,
    }
}

/// The index of the actor whose turn it is by a line of the schedule, where it has a step. Does not
/// allocate.
pub fn turn_of(s: &Scenario, hub: &Hub, actors: &[Actor], who: Turner) -> Option<usize>
    requires level { AreLevel hub.now actors.now }
    requires acting { map (λ (a : ActorState). a.who) actors.now ≡ actors_of s.now }
    requires there { IsTurnerOf (length s.now.clocks) (length s.now.ports) who }
    ensures { MatchOption result (HasNoTurn hub.now actors.now who)
        (IsTurnOf hub.now actors.now who) }
{
    s.rules();
    match who {
        Turner::Default => default_turn(hub, actors),
        Turner::Port(port) => due_at(hub, actors, port as usize - 1),
        Turner::Clock(clock) => due_at(hub, actors, port_count(s) + clock as usize),
        Turner::Queries => due_at(hub, actors, port_count(s) + follower_count(s)),
    }
}
