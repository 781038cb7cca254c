ghost use Rattle.std.specs.Prelude.{◌≡◌};
ghost use Rattle.bc_history.specs.Phases.Inputs.{tick_of};
ghost use Rattle.bc_steps.specs.ActorView.{last_tick};

use bc_history::Input;
use hub_core::Hub;

/// When an input came, in ns of the scenario.
pub fn tick_of(input: &Input) -> u64
    ensures { result ≡ tick_of input.now }
{
    match input {
        Input::Frame { tick, .. }
        | Input::Timed { tick, .. }
        | Input::Down { tick, .. }
        | Input::Up { tick, .. }
        | Input::Report { tick, .. }
        | Input::Turn { tick, .. }
        | Input::Sampled { tick, .. }
        | Input::Query { tick, .. } => *tick,
    }
}

/// The last tick, in ns of the scenario, up to which a hub takes events where all goes on up to
/// `until`: that, or the end of its present window where this is earlier.
pub fn last_tick(hub: &Hub, until: u64) -> u64
    ensures { result ≡ last_tick hub.now until }
{
    match hub.bound() {
        None => until,
        Some(end) => until.min(end),
    }
}
