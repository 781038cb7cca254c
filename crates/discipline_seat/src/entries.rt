ghost use Rattle.std.specs.Prelude.{◌≡◌, ℕ, ◌-◌, ◌≤◌, [], ◌∷◌, ◌++◌, length, reverse, OnErr, OnOk};
ghost use Rattle.ptp_profile.specs.Roles.SeatLogs.{log_at};
ghost use Rattle.discipline_seat.specs.SeatEntries.{AreWithin, entries_at, most_of, placed};

use ptp_base::NoMemory;
use ptp_profile::{LogEntries, LogEntry};
use std::alloc::Global;
use std::marker::Model;

/// An entry that a seat made.
#[derive(Clone, Copy)]
pub(crate) struct Numbered {
    /// The clock, from 0.
    pub(crate) clock: u8,
    /// The place in the clock's log, from 1.
    pub(crate) number: u32,
    /// What was made.
    pub(crate) entry: LogEntry,
}

/// The entries that a seat made, the oldest first, with places for more.
#[derive(Drop)]
pub(crate) struct Entries {
    items: Vec<Numbered>,
    spare: usize,
}

impl Model for Entries {
    ghost use Rattle.std.specs.Prelude.{◌+◌, ◌≤◌, vec_len, vec_capacity};
    ghost use Rattle.ptp_base.specs.Room.{Reserved};
    ghost use Rattle.discipline_seat.specs.declared.entries.Numbered.{Numbered};

    ghost Value = { Reserved Numbered };

    ghost view = { λ e. record { items = e.items.items; spare = e.spare } };

    ghost invariant = { λ e. vec_len e.items + e.spare ≤ vec_capacity e.items };
}

impl Entries {
    /// None, and no place.
    pub(crate) fn new(alloc: Global) -> Entries
        ensures { result ≡ record { items = []; spare = 0 } }
    {
        Entries {
            items: Vec::new(alloc),
            spare: 0,
        }
    }

    /// Makes places for so many more, or leaves all as before.
    pub(crate) fn reserve(&mut self, more: u32) -> Result<(), NoMemory>
        ensures ok { OnOk result (more ≤ self.new.spare) }
        ensures same { OnOk result (self.new ≡ record self.old { spare = self.new.spare }) }
        ensures err { OnErr result (self.new ≡ self.old) }
    {
        let more = more as usize;
        if more > self.spare {
            self.items.reserve(more)?;
            self.spare = more;
        }
        Ok(())
    }

    /// Adds an entry in one of the places.
    pub(crate) fn push(&mut self, entry: Numbered)
        requires { 1 ≤ self.old.spare }
        ensures { self.new
            ≡ record { items = self.old.items ++ entry ∷ []; spare = self.old.spare - 1 } }
    {
        self.items.push_reserved(entry);
        self.spare -= 1;
    }

    /// The largest of a number and those of the entries of a clock.
    pub(crate) fn longest(&self, clock: u8, least: u32) -> u32
        ensures { result ≡ most_of least (entries_at clock (reverse self.now.items)) }
    {
        let mut most = least;
        for one in self.items.as_slice() {
            if one.clock == clock {
                most = one.number.max(most);
            }
        }
        most
    }

    /// Puts each entry at the place of its number in the list of its clock.
    pub(crate) fn fill(&self, logs: &mut Vec<LogEntries>)
        requires { (clock : ℕ) → AreWithin (length (log_at logs.old.items clock))
            (entries_at clock (reverse self.now.items)) }
        ensures clocks { length logs.new.items ≡ length logs.old.items }
        ensures placed { (clock : ℕ) → log_at logs.new.items clock
            ≡ placed (entries_at clock (reverse self.now.items))
            (log_at logs.old.items clock) }
    {
        for one in self.items.as_slice() {
            logs[usize::from(one.clock)].set(one.number as usize - 1, one.entry);
        }
    }
}
