//! How the roles go on after an event of a port.

ghost use Rattle.std.specs.Prelude.{◌≡◌, ◌+◌, ◌*◌, ◌<◌, ◌≤◌, List, [], length, All};
ghost use Rattle.ptp_base.specs.declared.limits.TheConstants.{ENTRIES_MAX};
ghost use Rattle.ptp_profile.specs.Roles.SeatLogs.{with_orders};
ghost use Rattle.bc_history.specs.declared.entry.Entry.{Entry};
ghost use Rattle.bc_history.specs.declared.scenario.Scenario.{Scenario};
ghost use Rattle.bc_history.specs.Phases.RolePhase.{clocks_of};
ghost use Rattle.bc_history.specs.Phases.State.{Core};
ghost use Rattle.bc_history.specs.Phases.Step.{state_of};
ghost use Rattle.bc_ports.specs.Representation.{CoreRepresents, IsSound};
ghost use Rattle.bc_roles.specs.RolesView.{AdvanceYields, IsSameTable, RolesRepresent};
ghost use Rattle.hub_core.specs.StatesTold.{IsTold};

use bc_ports::{BoundaryClock, EventOutcome};
use bc_roles::Roles;
use ptp_base::{Items, PortState, Room};
use ptp_profile::RoleOrder;

/// The roles after an event that told this of the ports, by the ports' states and clocks and by the
/// parent, and the orders of the generation that begins, if one does. Where no port moved and the
/// parent stays, the edges stay, so no port is looked at. `states` has a place for each port. Does not
/// allocate.
pub fn advance_roles(
    roles: &mut Roles,
    told: &EventOutcome,
    core: &BoundaryClock,
    states: &mut Room<PortState>,
    map: &[u8],
    out: Room<RoleOrder>,
) -> Items<RoleOrder>
    requires sound { IsSound core.now }
    requires same { core.now.ports.len ≡ length map.now }
    requires states { core.now.ports.len ≤ length states.old.items + states.old.spare }
    requires placed { All (λ clock. clock < length roles.old.stamps) map.now }
    requires below { roles.old.generation.gener < ENTRIES_MAX }
    requires empty { out.items ≡ [] }
    requires room { 2 * length roles.old.stamps ≤ out.spare }
    requires spare { 2 * length roles.old.stamps ≤ roles.old.seats.spare }
    ensures advanced { (s : Scenario) (entries : List Entry) (c : Core)
        → IsTold (state_of s entries).core c told.now
        → CoreRepresents s.options core.now c → map.now ≡ clocks_of c.ports
        → RolesRepresent roles.old (state_of s entries).roles
        → AdvanceYields c (state_of s entries).roles roles.new result }
    ensures logs { roles.new.seats.logs ≡ with_orders roles.old.seats.logs result }
    ensures short { length result ≤ 2 * length roles.old.stamps }
    ensures same { IsSameTable roles.old roles.new }
    ensures gener { roles.new.generation.gener ≤ roles.old.generation.gener + 1 }
    ensures places { core.now.ports.len ≤ length states.new.items + states.new.spare }
{
    if told.states.len() == 0 && told.parent.is_none() {
        return out.done();
    }
    states.clear();
    core.states(states);
    roles.advance(states.items(), map, core.sets.parent, out)
}
