ghost use Rattle.std.specs.Prelude.{◌≡◌, ◌≢◌, ℕ, ◌+◌, ◌*◌, ◌<◌, ◌≤◌, List, [], length, slice_get, slice_set, ◌++◌, Some};
ghost use Rattle.ptp_base.specs.declared.limits.TheConstants.{PORTS_MAX};
ghost use Rattle.bc_history.specs.Phases.RolePhase.{states_of};
ghost use Rattle.bc_history.specs.Phases.HubPort.{HubPort as Model};
ghost use Rattle.bc_history.specs.Phases.EntryEffects.{moves_of_port, moves_from, changed_parent};
ghost use Rattle.bc_ports.specs.Representation.{PortsRepresent};
ghost use Rattle.bc_ports.specs.DecisionScratch.{states_in, with_states};

use crate::hub_port::HubPort;
use bc_history::Moved;
use data_sets::{PortSet, PortSets};
use ptp_base::{PortId, PortState, Room};

/// Adds how a port moved, where it did.
fn push_moved(port: u16, old: PortState, new: PortState, out: &mut Room<Moved>)
    requires { 0 < out.old.spare }
    ensures moved { out.new.items ≡ out.old.items ++ moves_of_port port old new }
    ensures spare { out.old.spare ≤ out.new.spare + 1 }
{
    if old != new {
        out.push(Moved { port, old, new });
    }
}

/// The state of the port of index `i` after the own event of the port of index `at`, which left that
/// in the state `between`.
fn state_between(i: usize, at: usize, between: PortState, old: PortState) -> PortState
    ensures here { i ≡ at → result ≡ between }
    ensures elsewhere { i ≢ at → result ≡ old }
{
    if i == at { between } else { old }
}

/// Adds how the ports moved: the port of index `at` at its own event, which left it in the state
/// `between`, and then each by the decision.
fn push_moves(
    sets: &[PortSet],
    at: usize,
    between: PortState,
    news: &[PortState],
    out: &mut Room<Moved>,
)
    requires news { length news.now ≡ length sets.now }
    requires few { length sets.now ≤ PORTS_MAX }
    requires room { 2 * length sets.now ≤ out.old.spare }
    ensures { out.new.items
        ≡ out.old.items
        ++ moves_from 1 (states_in sets.now) (slice_set (states_in sets.now) at between)
        news.now }
{
    for i in 0..sets.len() {
        let port = i as u16 + 1;
        let old = sets[i].state;
        let mid = state_between(i, at, between, old);
        push_moved(port, old, mid, out);
        push_moved(port, mid, news[i], out);
    }
}

/// The new parent, where it changed.
pub fn changed_parent(old: PortId, new: PortId) -> Option<PortId>
    ensures { result ≡ changed_parent old new }
{
    if old == new { None } else { Some(new) }
}

/// Adds the states of the ports.
pub fn push_states(ports: &[HubPort], out: &mut Room<PortState>)
    requires empty { out.old.items ≡ [] }
    requires room { length ports.now ≤ out.old.spare }
    ensures length { length out.new.items ≡ length ports.now }
    ensures states { (n m : ℕ) (hs : List Model) → PortsRepresent n m ports.now hs →
        out.new.items ≡ states_of hs }
{
    for port in ports {
        out.push(port.engine.state());
    }
}

/// portDS of the port of an index.
fn set_at(sets: &PortSets, i: usize) -> PortSet
    requires { i < length sets.now }
    ensures { slice_get sets.now i ≡ Some result }
{
    sets.items()[i]
}

/// portDS with another state.
fn with_state(former: PortSet, state: PortState) -> PortSet
    ensures { result ≡ record former { state = state } }
{
    PortSet { state, ..former }
}

/// Takes the states into portDS of each port (IEEE 1588-2019, 8.2.15.3.1).
fn set_states(sets: &mut PortSets, states: &[PortState])
    requires { length states.now ≡ length sets.old }
    ensures { sets.new ≡ with_states sets.old states.now }
{
    for i in 0..states.len() {
        let former = set_at(sets, i);
        sets.set(i, with_state(former, states[i]));
    }
}

/// Where no decision followed: the port of index `at` alone may have moved, to the state `between`.
/// Adds how it did, and takes the state into its portDS.
pub fn move_own(sets: &mut PortSets, at: usize, between: PortState, out: &mut Room<Moved>)
    requires there { at < length sets.old }
    requires few { length sets.old ≤ PORTS_MAX }
    requires room { 0 < out.old.spare }
    ensures moves { out.new.items
        ≡ out.old.items
        ++ moves_from 1 (states_in sets.old) (slice_set (states_in sets.old) at between)
        (slice_set (states_in sets.old) at between) }
    ensures sets { sets.new
        ≡ with_states sets.old (slice_set (states_in sets.old) at between) }
{
    let former = set_at(sets, at);
    push_moved(at as u16 + 1, former.state, between, out);
    sets.set(at, with_state(former, between));
}

/// Where a decision followed: each port may have moved, that of index `at` to the state `between`
/// before. Adds how they did, and takes the states, for which `states` has places, into portDS.
pub fn move_all(
    ports: &[HubPort],
    sets: &mut PortSets,
    at: usize,
    between: PortState,
    states: &mut Room<PortState>,
    out: &mut Room<Moved>,
)
    requires same { length sets.old ≡ length ports.now }
    requires few { length sets.old ≤ PORTS_MAX }
    requires places { length ports.now ≤ length states.old.items + states.old.spare }
    requires room { 2 * length sets.old ≤ out.old.spare }
    ensures moves { out.new.items
        ≡ out.old.items
        ++ moves_from 1 (states_in sets.old) (slice_set (states_in sets.old) at between)
        states.new.items }
    ensures sets { sets.new ≡ with_states sets.old states.new.items }
    ensures states { (n m : ℕ) (hs : List Model) → PortsRepresent n m ports.now hs →
        states.new.items ≡ states_of hs }
    ensures places { length ports.now ≤ length states.new.items + states.new.spare }
{
    states.clear();
    push_states(ports, states);
    push_moves(sets.items(), at, between, states.items(), out);
    set_states(sets, states.items());
}
