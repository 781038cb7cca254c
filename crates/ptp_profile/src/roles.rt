ghost use Rattle.std.specs.Prelude.{◌≡◌};
ghost use Rattle.ptp_profile.specs.Roles.Edges.{HasCtrl, ctrl_of};

use ptp_base::PortId;

/// What drives a clock.
#[derive(Clone, Copy, Debug, PartialEq, Eq)]
pub enum Edge {
    /// A port of the clock, which follows its parent.
    Port { port: u8, parent: PortId },
    /// The clock's own follower, which copies another clock.
    Follow { source: u8 },
}

impl Edge {
    /// The controller that the edge names: its port, or 128 more than the clock that is copied.
    /// The port, or that clock, is at most 127.
    pub fn ctrl(&self) -> u8
        requires { HasCtrl self.now }
        ensures { result ≡ ctrl_of self.now }
    {
        match self {
            Edge::Port { port, .. } => *port,
            Edge::Follow { source } => 128 + *source,
        }
    }
}

/// An order of a generation: who drives the clock from now on. The controller is 0 for nobody, 1 to
/// 32 for a port, and 128 + s for the clock's own follower that copies clock s.
#[derive(Clone, Copy, Debug, PartialEq, Eq)]
pub struct RoleOrder {
    /// The clock that is ordered, from 0.
    pub clock: u8,
    /// The generation of the order.
    pub gener: u32,
    /// The controller from now on.
    pub ctrl: u8,
}

/// Under which order a clock is held: the generation and the controller of the order.
#[derive(Clone, Copy, Debug, PartialEq, Eq)]
pub struct Stamp {
    /// The generation of the order.
    pub gener: u32,
    /// As the order has it: 0 for nobody.
    pub ctrl: u8,
}

/// What a follower is told to copy: the generation of the last order of its clock, and the source.
#[derive(Clone, Copy, Debug, PartialEq, Eq)]
pub struct Lead {
    /// The generation of the last order of the follower's clock.
    pub gener: u32,
    /// The clock that is copied, from 0.
    pub source: u8,
}

/// What a follower is told of a generation.
#[derive(Clone, Copy, Debug, PartialEq, Eq)]
pub struct Notice {
    /// The generation that the notice tells of.
    pub gener: u32,
    /// The number of the port in SLAVE, or 0.
    pub slave: u16,
    /// There exactly where the follower's clock copies another.
    pub lead: Option<Lead>,
}
