ghost use Rattle.std.specs.Prelude.{◌≡◌, ℕ, ◌≤◌, List, [], Option, length, max};
ghost use Rattle.ptp_base.specs.declared.limits.TheConstants.{PORTS_MAX};
ghost use Rattle.ptp_base.specs.declared.time.TheConstants.{TICK_MAX};
ghost use Rattle.ptp_profile.specs.declared.timing.Measure.{Measure};
ghost use Rattle.ptp_profile.specs.Port.PortStates.{is_slave};
ghost use Rattle.ptp_profile.specs.Roles.Edges.{slave_port};
ghost use Rattle.bc_history.specs.declared.scenario.Options.{Options};
ghost use Rattle.bc_history.specs.Phases.HubPort.{HubPort as Model};
ghost use Rattle.bc_history.specs.Phases.RolePhase.{states_of};
ghost use Rattle.bc_history.specs.Phases.State.{Core};
ghost use Rattle.bc_history.specs.Phases.Step.{at_moment};
ghost use Rattle.bc_ports.specs.Representation.{ClockRepresents, CoreRepresents, IsSound, PortsRepresent};

use crate::boundary_clock::BoundaryClock;
use crate::hub_port::HubPort;
use crate::moves::push_states;
use ptp_base::{PortState, Room};

/// Whether a port in this state is in SLAVE.
fn is_slave(state: PortState) -> bool
    ensures { result ≡ is_slave state }
{
    matches!(state, PortState::Slave)
}

/// The number, from 1, of the port in SLAVE, or 0.
fn slave_port(ports: &[HubPort]) -> u16
    requires few { length ports.now ≤ PORTS_MAX }
    ensures { (n m : ℕ) (hs : List Model) → PortsRepresent n m ports.now hs
        → result ≡ slave_port (states_of hs) }
{
    for (place, port) in ports.iter().enumerate() {
        if is_slave(port.engine.state()) {
            return place as u16 + 1;
        }
    }
    0
}

impl BoundaryClock {
    /// The number, from 1, of the port in SLAVE, or 0 where none is. Does not allocate.
    pub fn slave(&self) -> u16
        requires sound { IsSound self.now }
        ensures { (o : Options) (c : Core) → CoreRepresents o self.now c
            → result ≡ slave_port (states_of c.ports) }
    {
        slave_port(&self.ports)
    }

    /// Adds the state of each port, by rising number. Does not allocate.
    pub fn states(&self, out: &mut Room<PortState>)
        requires empty { out.old.items ≡ [] }
        requires room { self.now.ports.len ≤ out.old.spare }
        ensures length { length out.new.items ≡ self.now.ports.len }
        ensures states { (o : Options) (c : Core) → CoreRepresents o self.now c
            → out.new.items ≡ states_of c.ports }
    {
        push_states(&self.ports, out);
    }

    /// Takes the tick of an input that is no port's, in ns, at most `TICK_MAX`: the moment is the
    /// greatest tick so far, and all else stays. Does not allocate.
    pub fn advance_moment(&mut self, tick: u64)
        requires sound { IsSound self.old }
        requires tick { tick ≤ TICK_MAX }
        ensures exact { self.new ≡ record self.old { moment = max self.old.moment tick } }
        ensures sound { IsSound self.new }
        ensures clock { (o : Options) (c : Core) (measured : Option Measure)
            → ClockRepresents o self.old c measured
            → ClockRepresents o self.new (at_moment tick c) measured }
    {
        self.moment = self.moment.max(tick);
    }
}
