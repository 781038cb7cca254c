ghost use Rattle.std.specs.Prelude.{◌≡◌, [], IfOk, ◌<◌, ◌≤◌, ◌+◌};
ghost use Rattle.ptp_base.specs.declared.limits.TheConstants.{SENT_MAX};
ghost use Rattle.port_engine.specs.BlankFrames.{AreBlank, count_of};

use ptp_base::{NoMemory, Room, SENT_MAX};
use std::alloc::Global;
use std::mem;

/// Frames that are still to be written.
#[derive(Drop)]
pub(crate) enum Blanks {
    Empty,
    One(Room<u8>),
    Two(Room<u8>, Room<u8>),
}

impl Blanks {
    /// Two blank frames.
    pub fn two(alloc: Global) -> Result<Blanks, NoMemory>
        ensures blank { IfOk result AreBlank }
        ensures count { IfOk result (λ b. count_of b ≡ 2) }
    {
        Ok(Blanks::Two(Room::with(alloc, SENT_MAX)?, Room::with(alloc, SENT_MAX)?))
    }

    /// How many there are: 0, 1 or 2.
    pub fn count(&self) -> usize
        ensures exact { result ≡ count_of self.now }
        ensures few { result ≤ 2 }
    {
        match self {
            Blanks::Empty => 0,
            Blanks::One(_) => 1,
            Blanks::Two(..) => 2,
        }
    }

    /// Takes one of them.
    pub fn take(&mut self) -> Room<u8>
        requires blank { AreBlank self.old }
        requires some { 0 < count_of self.old }
        ensures blank { result ≡ record { items = []; spare = SENT_MAX } }
        ensures rest { AreBlank self.new }
        ensures count { count_of self.new + 1 ≡ count_of self.old }
    {
        match mem::replace(self, Blanks::Empty) {
            Blanks::Two(frame, rest) => {
                *self = Blanks::One(rest);
                frame
            }
            Blanks::One(frame) => frame,
            Blanks::Empty => unreachable!(),
        }
    }
}
