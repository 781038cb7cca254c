ghost use Rattle.std.specs.Prelude.{◌≡◌, ◌≤◌, length, map, IfOk};
ghost use Rattle.ptp_base.specs.declared.limits.TheConstants.{CLOCKS_MAX, PORTS_MAX};
ghost use Rattle.bc_history.specs.Phases.OpeningState.{follower_count};
ghost use Rattle.bc_history.specs.Run.Actors.{actors_of};
ghost use Rattle.bc_replay.specs.ActorLoop.{actor_at_opening};

use bc_history::Scenario;
use bc_steps::{Actor, Who};
use ptp_base::NoMemory;
use std::alloc::Global;

/// The number of the ports of a scenario.
pub fn port_count(s: &Scenario) -> usize
    ensures { result ≡ length s.now.ports }
{
    s.ports.len()
}

/// How many clocks have a follower: all where there are two or more.
pub fn follower_count(s: &Scenario) -> usize
    ensures { result ≡ follower_count s.now }
{
    if s.clocks.len() < 2 {
        0
    } else {
        s.clocks.len()
    }
}

/// All who act in a scenario, before the first step.
pub fn actors_of(alloc: Global, s: &Scenario) -> Result<Vec<Actor>, NoMemory>
    requires ports { length s.now.ports ≤ PORTS_MAX }
    requires clocks { length s.now.clocks ≤ CLOCKS_MAX }
    ensures { IfOk result (λ actors.
        actors.items ≡ map (actor_at_opening s.now) (actors_of s.now)) }
{
    let mut actors = Vec::new(alloc);
    for i in 0..port_count(s) {
        actors.push(Actor::new(alloc, s, Who::Port(i as u16 + 1))?)?;
    }
    for c in 0..follower_count(s) {
        actors.push(Actor::new(alloc, s, Who::Follower(c as u8))?)?;
    }
    actors.push(Actor::new(alloc, s, Who::Queries)?)?;
    Ok(actors)
}
