ghost use Rattle.std.specs.Prelude.{◌≡◌, map, IfOk};
ghost use Rattle.ptp_base.specs.declared.port_conf.PortConf.{PortConf};
ghost use Rattle.ptp_profile.specs.Roles.SeatLogs.{no_logs};
ghost use Rattle.bc_history.specs.Phases.OpeningState.{opening};
ghost use Rattle.ptp_profile.specs.Best.StateDecision.{bests_of};
ghost use Rattle.bc_ports.specs.DecisionCost.{no_bests};
ghost use Rattle.hub_core.specs.HubParts.{PartsRepresent};

use crate::hub_parts::HubParts;
use bc_history::Scenario;
use bc_notices::Notices;
use bc_ports::BoundaryClock;
use bc_roles::Roles;
use ptp_base::{NoMemory, PortConf, Room};
use std::alloc::Global;

/// The clock of each port.
fn clocks_of(alloc: Global, confs: &[PortConf]) -> Result<Vec<u8>, NoMemory>
    ensures { IfOk result
        (λ clocks. clocks.items ≡ map (λ (conf : PortConf). conf.clock) confs.now) }
{
    let mut clocks = Vec::new(alloc);
    for conf in confs {
        clocks.push(conf.clock)?;
    }
    Ok(clocks)
}

impl HubParts {
    /// As a run begins.
    pub fn new(alloc: Global, s: &Scenario) -> Result<HubParts, NoMemory>
        ensures machine { IfOk result (λ m. PartsRepresent s.now m (opening s.now)) }
        ensures logs { IfOk result (λ m. m.roles.seats.logs ≡ no_logs s.now.clocks) }
        ensures gener { IfOk result (λ m. m.roles.generation.gener ≡ 0) }
        ensures bests { IfOk result (λ m. bests_of m.core.decider.bests ≡ no_bests s.now.ports) }
    {
        s.rules();
        Ok(HubParts {
            port_clocks: clocks_of(alloc, s.ports.items())?,
            core: BoundaryClock::new(alloc, s)?,
            roles: Roles::new(alloc, s.clocks.items(), s.options.seat_rows)?,
            states: Room::with(alloc, s.ports.len())?,
            notices: Notices::new(alloc, s)?,
            drafts: Room::with(alloc, s.clocks.len())?,
        })
    }
}
