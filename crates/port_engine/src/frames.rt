ghost use Rattle.std.specs.Prelude.{◌≡◌, ℕ, ◌<◌, ◌≤◌, ◌+◌, ◌-◌, [], ◌∷◌, ◌++◌, OnOk, OnErr, IsOk};
ghost use Rattle.ptp_profile.specs.Wire.MessageFormat.{IsSpelled, message_octets};

use crate::blank_frames::Blanks;
use ptp_base::{Items, NoMemory, Octets};
use ptp_wire::{Message, encode_reserved};
use std::alloc::Global;
use std::marker::Model;

/// The frames that were sent, each as its octets. Contracts see the list, and for how many more
/// messages it has room.
#[derive(Drop)]
pub struct Frames {
    alloc: Global,
    sent: Vec<Octets>,
    blanks: Blanks,
}

impl Model for Frames {
    ghost use Rattle.std.specs.Prelude.{List, ℕ, ◌+◌, ◌≤◌, vec_len, vec_capacity};
    ghost use Rattle.std.specs.Coded.{coded_list, coded_ℕ};
    ghost use Rattle.ptp_base.specs.Room.{Reserved, reserved_code};

    ghost Value = { Reserved (List ℕ) };

    ghost coded = { reserved_code (coded_list coded_ℕ) };

    ghost use Rattle.port_engine.specs.BlankFrames.{AreBlank, count_of};

    ghost view = { λ f. record { items = f.sent.items; spare = count_of f.blanks } };

    ghost invariant = { λ f. (vec_len f.sent + count_of f.blanks ≤ vec_capacity f.sent) × AreBlank f.blanks };
}

impl Frames {
    /// No frames.
    pub fn new(alloc: Global) -> Frames
        ensures { result ≡ record { items = []; spare = 0 } }
    {
        Frames {
            alloc,
            sent: Vec::new(alloc),
            blanks: Blanks::Empty,
        }
    }

    /// Lends the frames.
    pub fn items(&self) -> &[Octets]
        ensures { result.now ≡ self.now.items }
    {
        self.sent.as_slice()
    }

    /// The list of the frames. Does not allocate.
    pub fn into_items(self) -> Items<Octets>
        ensures { result ≡ self.items }
    {
        let Frames {
            alloc: _,
            sent,
            blanks: _,
        } = self;
        Items::from_vec(sent)
    }

    /// Makes room for two frames, unless there is. Adding them then does not allocate.
    pub fn reserve(&mut self) -> Result<(), NoMemory>
        ensures items { self.new.items ≡ self.old.items }
        ensures room { OnOk result (2 ≤ self.new.spare) }
        ensures same { OnErr result (self.new ≡ self.old) }
        ensures succeeds { 2 ≤ self.old.spare → IsOk result }
        ensures ready { 2 ≤ self.old.spare → self.new ≡ self.old }
    {
        if self.blanks.count() == 2 {
            return Ok(());
        }
        let blanks = Blanks::two(self.alloc)?;
        self.sent.reserve(2)?;
        self.blanks = blanks;
        Ok(())
    }

    /// Adds one element at the end, or leaves the list as before. The room stays as it was.
    pub fn push(&mut self, item: Octets) -> Result<(), NoMemory>
        ensures ok { OnOk result
            (self.new ≡ record self.old { items = self.old.items ++ item ∷ [] }) }
        ensures err { OnErr result (self.new ≡ self.old) }
    {
        self.sent.reserve(self.blanks.count() + 1)?;
        self.sent.push_reserved(item);
        Ok(())
    }

    /// Adds the message, as its octets.
    pub(crate) fn put(&mut self, m: &Message)
        requires fits { IsSpelled m.now }
        requires room { 0 < self.old.spare }
        ensures { self.new
            ≡ record {
              items = self.old.items ++ message_octets m.now ∷ [];
              spare = self.old.spare - 1;
            } }
    {
        let mut frame = self.blanks.take();
        encode_reserved(m, &mut frame);
        self.sent
            .push_reserved(Octets::from_vec(frame.done().into_vec()));
    }
}
