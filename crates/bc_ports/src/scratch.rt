ghost use Rattle.std.specs.Prelude.{◌≤◌, IfOk};
ghost use Rattle.ptp_base.specs.declared.limits.TheConstants.{PORTS_MAX};
ghost use Rattle.bc_ports.specs.DecisionScratch.{HasRoom};

use ptp_base::{Code, NoMemory, PortState, Room};
use ptp_profile::PortBest;
use std::alloc::Global;

/// What a decision works on, reserved once for all, so that deciding does not allocate.
#[derive(Drop)]
pub struct DecisionScratch {
    /// State and Erbest of each port, by rising number.
    pub bests: Room<PortBest>,
    /// The code of each port, by rising number.
    pub codes: Vec<Code>,
    /// The state of each port after the decision, by rising number.
    pub states: Room<PortState>,
}

impl DecisionScratch {
    /// For so many ports.
    pub fn with(alloc: Global, ports: usize) -> Result<DecisionScratch, NoMemory>
        requires { ports ≤ PORTS_MAX }
        ensures { IfOk result (HasRoom ports) }
    {
        Ok(DecisionScratch {
            bests: Room::with(alloc, ports)?,
            codes: vec![in alloc; Code::Stay; ports]?,
            states: Room::with(alloc, ports)?,
        })
    }
}
