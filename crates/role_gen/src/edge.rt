ghost use Rattle.std.specs.Prelude.{◌≡◌, ℕ, ◌<◌, ◌≤◌, ◌==◌, ◌&&◌, All, find, length};
ghost use Rattle.std.specs.List.{position_from, zip};
ghost use Rattle.ptp_base.specs.declared.limits.TheConstants.{CLOCKS_MAX, PORTS_MAX};
ghost use Rattle.ptp_base.specs.declared.port_state.PortState.{PortState};
ghost use Rattle.ptp_profile.specs.Port.PortStates.{is_following, is_slave};
ghost use Rattle.ptp_profile.specs.Roles.Edges.{edge_by, edges_of, port_on, slave_clock, ctrls_of};
ghost use Rattle.ptp_profile.specs.Roles.Forest.{IsForest};
ghost use Rattle.role_gen.specs.Generation.{HaveCtrls};

use ptp_base::{PortId, PortState};
use ptp_profile::{Edge, edges_make_a_forest};

/// Whether a port in this state follows a master.
fn is_following(state: PortState) -> bool
    ensures { result ≡ is_following state }
{
    matches!(state, PortState::Uncalibrated | PortState::Slave)
}

/// Whether it is SLAVE.
fn is_slave(state: PortState) -> bool
    ensures { result ≡ is_slave state }
{
    matches!(state, PortState::Slave)
}

/// The place of the port that follows on the clock.
fn place_on(clock: u8, states: &[PortState], map: &[u8]) -> Option<usize>
    ensures { result
        ≡ position_from (λ (p : PortState × ℕ). is_following p.0 && (p.1 == clock)) 0
        (zip states.now map.now) }
{
    states
        .iter()
        .zip(map)
        .position(|(state, on)| is_following(*state) && *on == clock)
}

/// The number, from 1, of the port that follows on the clock.
fn port_on(clock: u8, states: &[PortState], map: &[u8]) -> Option<u8>
    requires few { length states.now ≤ PORTS_MAX }
    ensures { result ≡ port_on clock states.now map.now }
{
    match place_on(clock, states, map) {
        Some(place) => Some(place as u8 + 1),
        None => None,
    }
}

/// The port in SLAVE, and its clock.
fn slave_on(states: &[PortState], map: &[u8]) -> Option<(PortState, u8)>
    ensures { result ≡ find (λ (p : PortState × ℕ). is_slave p.0) (zip states.now map.now) }
{
    states
        .iter()
        .copied()
        .zip(map.iter().copied())
        .find(|(state, _)| is_slave(*state))
}

/// The clock of the port in SLAVE.
fn slave_clock(states: &[PortState], map: &[u8]) -> Option<u8>
    ensures { result ≡ slave_clock states.now map.now }
{
    match slave_on(states, map) {
        Some((_, clock)) => Some(clock),
        None => None,
    }
}

/// What drives a clock: its port that follows, else the clock of the port in SLAVE.
fn edge_by(parent: PortId, port: Option<u8>, source: Option<u8>) -> Option<Edge>
    ensures { result ≡ edge_by parent port source }
{
    match (port, source) {
        (Some(port), _) => Some(Edge::Port { port, parent }),
        (None, Some(source)) => Some(Edge::Follow { source }),
        (None, None) => None,
    }
}

/// Writes what drives each clock: the port of it in UNCALIBRATED or SLAVE, which follows `parent`,
/// else, where some port is in SLAVE, the follower that copies the clock of that port, else nothing
/// (project). `states` and `map` are of the ports by rising number; `map` says on which clock each stands.
/// There are at most `PORTS_MAX` ports and `CLOCKS_MAX` clocks, and each clock of `map` has a place in
/// `out`. Does not allocate.
pub fn edges(states: &[PortState], map: &[u8], parent: PortId, out: &mut [Option<Edge>])
    requires same_length { length states.now ≡ length map.now }
    requires few { length states.now ≤ PORTS_MAX }
    requires clocks { length out.old ≤ CLOCKS_MAX }
    requires there { All (λ clock. clock < length out.old) map.now }
    ensures edges { out.new ≡ edges_of (length out.old) parent states.now map.now }
    ensures forest { IsForest (ctrls_of out.new) }
    ensures ctrls { HaveCtrls out.new }
{
    edges_make_a_forest();
    let source = slave_clock(states, map);
    for (clock, edge) in out.iter_mut().enumerate() {
        *edge = edge_by(parent, port_on(clock as u8, states, map), source);
    }
}
