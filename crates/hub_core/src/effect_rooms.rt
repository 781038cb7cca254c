ghost use Rattle.std.specs.Prelude.{◌≤◌, IfOk};
ghost use Rattle.ptp_base.specs.declared.limits.TheConstants.{CLOCKS_MAX, PORTS_MAX};
ghost use Rattle.hub_core.specs.EffectRooms.{AreRooms, AreCopies};

use bc_history::{Moved, Sent};
use port_engine::Frames;
use ptp_base::{NoMemory, Room, SENT_MAX};
use ptp_profile::RoleOrder;
use std::alloc::Global;

/// Places for what an event tells, taken before anything changes.
#[derive(Drop)]
pub struct EffectRooms {
    /// For changes of state, two of each port.
    pub moves: Room<Moved>,
    /// For orders, two of each clock.
    pub orders: Room<RoleOrder>,
    /// For the frames that a port makes, two.
    pub frames: Frames,
    /// For the frames that were sent, two.
    pub sends: Room<Sent>,
}

/// Places for a copy of what an event tells.
#[derive(Drop)]
pub struct EffectCopies {
    /// For changes of state, two of each port.
    pub moves: Room<Moved>,
    /// For orders, two of each clock.
    pub orders: Room<RoleOrder>,
    /// For the frames that were sent, two.
    pub sends: Room<Sent>,
    /// For the octets of the first frame, at most `SENT_MAX`.
    pub first: Room<u8>,
    /// For the octets of the second frame, at most `SENT_MAX`.
    pub second: Room<u8>,
}

impl EffectRooms {
    /// For so many ports and clocks.
    pub fn with(alloc: Global, ports: usize, clocks: usize) -> Result<EffectRooms, NoMemory>
        requires ports { ports ≤ PORTS_MAX }
        requires clocks { clocks ≤ CLOCKS_MAX }
        ensures { IfOk result (AreRooms ports clocks) }
    {
        let mut frames = Frames::new(alloc);
        frames.reserve()?;
        Ok(EffectRooms {
            moves: Room::with(alloc, 2 * ports)?,
            orders: Room::with(alloc, 2 * clocks)?,
            frames,
            sends: Room::with(alloc, 2)?,
        })
    }
}

impl EffectCopies {
    /// For so many ports and clocks.
    pub fn with(alloc: Global, ports: usize, clocks: usize) -> Result<EffectCopies, NoMemory>
        requires ports { ports ≤ PORTS_MAX }
        requires clocks { clocks ≤ CLOCKS_MAX }
        ensures { IfOk result (AreCopies ports clocks) }
    {
        Ok(EffectCopies {
            moves: Room::with(alloc, 2 * ports)?,
            orders: Room::with(alloc, 2 * clocks)?,
            sends: Room::with(alloc, 2)?,
            first: Room::with(alloc, SENT_MAX as usize)?,
            second: Room::with(alloc, SENT_MAX as usize)?,
        })
    }
}
