ghost use Rattle.std.specs.Prelude.{◌≡◌, ℕ, ◌++◌, ◌∷◌, ◌<◌, ◌≤◌, [], length, OnErr, OnOk};
ghost use Rattle.ptp_profile.specs.Roles.SeatLogs.{log_at};
ghost use Rattle.discipline_seat.specs.Rule.SeatView.{seen_log};
ghost use Rattle.discipline_seat.specs.Rule.Story.{receipts_of};
ghost use Rattle.discipline_seat.specs.SeatEntries.{most_of, placed};
ghost use Rattle.discipline_seat.specs.SeatValue.{IsFirst};
ghost use Rattle.discipline_seat.specs.WholeLogs.{orders_of};

use crate::entries::Entries;
use crate::steps::Place;
use ptp_base::NoMemory;
use ptp_profile::LogEntries;
use std::alloc::Global;
use std::marker::Model;

/// The seat of a port or of a clock's follower, which nobody else steps with, with the changes that
/// it made. Contracts see its table, its view, which is what it has seen of each clock's log and
/// its story, and for how many more changes it has places.
#[derive(Drop)]
pub struct Pass {
    pub(crate) seat: Place,
    pub(crate) entries: Entries,
}

impl Model for Pass {
    ghost use Rattle.discipline_seat.specs.Rule.SeatLog.{pass_owner};
    ghost use Rattle.discipline_seat.specs.Rule.Story.{GrewWithoutPages};
    ghost use Rattle.discipline_seat.specs.Rule.SeatView.{IsTruthful};
    ghost use Rattle.discipline_seat.specs.SeatEntries.{KeepsReceipts};
    ghost use Rattle.std.specs.Prelude.{◌≡◌, [], length};
    ghost use Rattle.discipline_seat.specs.SeatValue.{SeatValue};

    ghost Value = { SeatValue };

    ghost view = { λ p. record {
      table = p.seat.table_id;
      view = p.seat.me.0;
      spare = p.entries.spare;
    } };

    ghost invariant = { λ p.
        (p.seat.me.1 ≡ []) × (length p.seat.me.0.seen ≡ length p.seat.me.0.openings)
        × (p.seat.me.0.owner ≡ pass_owner p.seat.me.0.ports p.seat.me.0.number)
        × GrewWithoutPages p.seat.me.0.stories.told p.seat.me.0.stories.story
        × IsTruthful p.seat.me.0 × KeepsReceipts p.entries.items p.seat.me.0 };
}

impl Pass {
    /// Makes places for so many more changes, or leaves all as before.
    pub fn reserve(&mut self, more: u32) -> Result<(), NoMemory>
        ensures ok { OnOk result (more ≤ self.new.spare) }
        ensures same { OnOk result (self.new ≡ record self.old { spare = self.new.spare }) }
        ensures err { OnErr result (self.new ≡ self.old) }
    {
        self.entries.reserve(more)
    }

    /// The largest of a number and those of the pass's changes of a clock.
    pub(crate) fn longest(&self, clock: u8, least: u32) -> u32
        ensures { result ≡ most_of least (receipts_of clock self.now.view.stories.story) }
    {
        self.entries.longest(clock, least)
    }

    /// Puts each change of the pass at the place of its number in the list of its clock.
    pub(crate) fn fill(&self, logs: &mut Vec<LogEntries>)
        requires clocks { length logs.old.items ≡ length self.now.view.openings }
        requires inside { (clock : ℕ) → clock < length logs.old.items →
            most_of 0 (receipts_of clock self.now.view.stories.story)
            ≤ length (log_at logs.old.items clock) }
        ensures clocks { length logs.new.items ≡ length logs.old.items }
        ensures placed { (clock : ℕ) → log_at logs.new.items clock
            ≡ placed (receipts_of clock self.now.view.stories.story)
            (log_at logs.old.items clock) }
    {
        self.entries.fill(logs);
    }
}

/// The hub's seat, with the last stamp of each clock, so that an order is one addition, and the
/// orders that it made. Contracts see its table, its view, which is what it has seen of each
/// clock's log and the story that it was told of each pass, and for how many more orders it has
/// places.
#[derive(Drop)]
pub struct HubSeat {
    pub(crate) seat: Place,
    pub(crate) stamps: Vec<u64>,
    pub(crate) entries: Entries,
}

impl Model for HubSeat {
    ghost use Rattle.std.specs.Prelude.{◌≡◌, [], length};
    ghost use Rattle.discipline_seat.specs.SeatValue.{SeatValue};
    ghost use Rattle.discipline_seat.specs.declared.view.Owner.TheVariants.{Hub};
    ghost use Rattle.std.specs.Prelude.{ℕ, ◌<◌, slice_index};
    ghost use Rattle.discipline_seat.specs.Rule.SeatView.{seen_log};
    ghost use Rattle.discipline_seat.specs.Rule.SeatLog.{ctrl_after, stamp_number};
    ghost use Rattle.discipline_seat.specs.SeatEntries.{KeepsOrders};

    ghost Value = { SeatValue };

    ghost view = { λ p. record {
      table = p.seat.table_id;
      view = p.seat.me.0;
      spare = p.entries.spare;
    } };

    ghost invariant = { λ p.
        (p.seat.me.1 ≡ []) × (length p.seat.me.0.seen ≡ length p.seat.me.0.openings)
        × (p.seat.me.0.owner ≡ Hub) × (length p.stamps.items ≡ length p.seat.me.0.openings)
        × ((clock : ℕ) → clock < length p.stamps.items →
        (slice_index p.stamps.items clock ≡ stamp_number (seen_log p.seat.me.0 clock))
        × (ctrl_after (seen_log p.seat.me.0 clock) < 256))
        × KeepsOrders p.entries.items p.seat.me.0 };
}

impl HubSeat {
    /// Makes places for so many more orders, or leaves all as before.
    pub fn reserve(&mut self, more: u32) -> Result<(), NoMemory>
        ensures ok { OnOk result (more ≤ self.new.spare) }
        ensures same { OnOk result (self.new ≡ record self.old { spare = self.new.spare }) }
        ensures err { OnErr result (self.new ≡ self.old) }
    {
        self.entries.reserve(more)
    }

    /// The largest of a number and those of the orders of a clock.
    pub(crate) fn longest(&self, clock: u8, least: u32) -> u32
        ensures { result ≡ most_of least (orders_of (seen_log self.now.view clock)) }
    {
        self.entries.longest(clock, least)
    }

    /// Puts each order at the place of its number in the list of its clock.
    pub(crate) fn fill(&self, logs: &mut Vec<LogEntries>)
        requires clocks { length logs.old.items ≡ length self.now.view.openings }
        requires inside { (clock : ℕ) → clock < length logs.old.items →
            most_of 0 (orders_of (seen_log self.now.view clock))
            ≤ length (log_at logs.old.items clock) }
        ensures clocks { length logs.new.items ≡ length logs.old.items }
        ensures placed { (clock : ℕ) → log_at logs.new.items clock
            ≡ placed (orders_of (seen_log self.now.view clock))
            (log_at logs.old.items clock) }
    {
        self.entries.fill(logs);
    }
}

/// Passes that nobody took so far. Contracts see them, and how many were made.
#[derive(Drop)]
pub struct Passes {
    pub(crate) passes: Vec<Pass>,
    pub(crate) made: usize,
}

impl Model for Passes {
    ghost use Rattle.std.specs.Prelude.{◌≤◌, vec_capacity};
    ghost use Rattle.discipline_seat.specs.SeatValue.{PassesLeft};

    ghost Value = { PassesLeft };

    ghost view = { λ p. record { passes = p.passes.items; made = p.made } };

    ghost invariant = { λ p. p.made ≤ vec_capacity p.passes };
}

impl Passes {
    /// The first pass that is left; None where none is. Does not allocate.
    pub fn take(&mut self) -> Option<Pass>
        ensures first { IsFirst self.old.passes result self.new.passes }
        ensures made { self.new.made ≡ self.old.made }
    {
        if self.passes.is_empty() {
            None
        } else {
            Some(self.passes.remove(0))
        }
    }

    /// Puts a pass at the end. Fewer passes are there than were made. Does not allocate.
    pub fn put(&mut self, pass: Pass)
        requires room { length self.old.passes < self.old.made }
        ensures { self.new ≡ record self.old { passes = self.old.passes ++ pass ∷ [] } }
    {
        self.passes.push_reserved(pass);
    }
}
