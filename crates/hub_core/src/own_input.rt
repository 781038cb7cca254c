ghost use Rattle.std.specs.Prelude.{◌≡◌, Some};
ghost use Rattle.bc_history.specs.Phases.Inputs.{history_input, port_input, tick_of};
ghost use Rattle.hub_core.specs.FollowerInputs.{is_of_follower};
ghost use Rattle.hub_core.specs.HubView.{IsPortInput};

use bc_history::{Input, PortHappening, PortInput};

/// An input of a port's own as such. Queries and the inputs of followers are none.
pub fn port_input(input: Input) -> PortInput
    requires { IsPortInput input }
    ensures { port_input input ≡ Some result }
{
    let (number, tick, what) = match input {
        Input::Frame { port, tick, octets } => (port, tick, PortHappening::Frame(octets)),
        Input::Timed { port, tick, timer } => (port, tick, PortHappening::Timed(timer)),
        Input::Down { port, tick } => (port, tick, PortHappening::Down),
        Input::Up { port, tick } => (port, tick, PortHappening::Up),
        Input::Report {
            port,
            tick,
            gener,
            action,
            outcome,
        } => (
            port,
            tick,
            PortHappening::Report {
                gener,
                action,
                outcome,
            },
        ),
        Input::Turn { .. } | Input::Sampled { .. } | Input::Query { .. } => unreachable!(),
    };
    PortInput { number, tick, what }
}

/// The tick of an input, in ns of the scenario.
pub fn tick_of(input: &Input) -> u64
    ensures { result ≡ tick_of input.now }
{
    match input {
        Input::Frame { tick, .. }
        | Input::Timed { tick, .. }
        | Input::Down { tick, .. }
        | Input::Up { tick, .. }
        | Input::Report { tick, .. }
        | Input::Turn { tick, .. }
        | Input::Sampled { tick, .. }
        | Input::Query { tick, .. } => *tick,
    }
}

/// Whether an input is a follower's: a turn or a sample.
pub fn is_of_follower(input: &Input) -> bool
    ensures { result ≡ is_of_follower input.now }
{
    matches!(input, Input::Turn { .. } | Input::Sampled { .. })
}

/// A port's own input as one of the history.
pub fn history_input(input: PortInput) -> Input
    ensures { result ≡ history_input input }
{
    let PortInput { number, tick, what } = input;
    let port = number;
    match what {
        PortHappening::Frame(octets) => Input::Frame { port, tick, octets },
        PortHappening::Timed(timer) => Input::Timed { port, tick, timer },
        PortHappening::Down => Input::Down { port, tick },
        PortHappening::Up => Input::Up { port, tick },
        PortHappening::Report {
            gener,
            action,
            outcome,
        } => Input::Report {
            port,
            tick,
            gener,
            action,
            outcome,
        },
    }
}
