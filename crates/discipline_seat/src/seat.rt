ghost use Rattle.std.specs.Prelude.{◌≡◌, ◌+◌, ◌-◌, ◌<◌, ◌≤◌, ◌∷◌, [], length, reverse, IfOk, OnOk, OnErr, vec_len, vec_capacity};
ghost use Rattle.model_clock.specs.Clock.{IsClock};
ghost use Rattle.ptp_base.specs.Floor.{IsWithin};
ghost use Rattle.ptp_profile.specs.declared.seats.LogEntry.TheVariants.{Change, Order};
ghost use Rattle.ptp_profile.specs.Roles.SeatLogs.{change_of, stamp_after, exchange_answer, whole_reading};
ghost use Rattle.discipline_seat.specs.SeatInvariants.{Line};

use model_clock::ClockState;
use ptp_base::{FREQ_MAX, Items, NoMemory, TICK_MAX, TIME_MAX};
use ptp_profile::{Held, Log, LogEntry, Reading, Receipt, Refused, Stamp};
use std::alloc::Global;
use std::marker::Model;

/// One clock: its opening, its entries, the oldest first, and the state and the stamp after them.
#[derive(Drop)]
pub(crate) struct Seat {
    opening: ClockState,
    state: ClockState,
    stamp: Stamp,
    entries: Vec<LogEntry>,
    room: usize,
}

impl Model for Seat {
    ghost use Rattle.std.specs.Prelude.{◌+◌, ◌≤◌, reverse, vec_len, vec_capacity};
    ghost use Rattle.discipline_seat.specs.SeatInvariants.{IsKept, Line};

    ghost Value = { Line };

    ghost view = { λ s. record { opening = s.opening; log = reverse s.entries.items; room = s.room } };

    ghost invariant = { λ s. record {
      kept : IsKept s.opening s.state s.stamp (reverse s.entries.items);
      fits : vec_len s.entries + s.room ≤ vec_capacity s.entries;
    } };
}

impl Seat {
    /// A clock of which nothing was ordered or changed.
    pub(crate) fn new(alloc: Global, opening: ClockState) -> Seat
        requires { IsClock opening }
        ensures { result ≡ record { opening = opening; log = []; room = 0 } }
    {
        Seat {
            opening,
            state: opening,
            stamp: Stamp { gener: 0, ctrl: 0 },
            entries: Vec::new(alloc),
            room: 0,
        }
    }

    /// Makes room for so many more entries.
    pub(crate) fn reserve(&mut self, more: usize) -> Result<(), NoMemory>
        ensures same { self.new ≡ record self.old { room = self.new.room } }
        ensures more { self.old.room ≤ self.new.room }
        ensures ok { OnOk result (more ≤ self.new.room) }
    {
        if more > self.room {
            self.entries.reserve(more)?;
            self.room = more;
        }
        Ok(())
    }

    /// The entries, the oldest first.
    pub(crate) fn entries(&self) -> &[LogEntry]
        ensures { result.now ≡ reverse self.now.log }
    {
        self.entries.as_slice()
    }

    /// The state after the log, with the stamp in force.
    pub(crate) fn read(&self) -> Reading
        requires { length self.now.log < 4294967296 }
        ensures reading { result ≡ whole_reading self.now.opening self.now.log }
        ensures state { IsClock result.state }
    {
        Reading {
            number: self.entries.len() as u32,
            gener: self.stamp.gener,
            ctrl: self.stamp.ctrl,
            state: self.state,
        }
    }

    /// Gives the clock to a controller.
    pub(crate) fn order(&mut self, gener: u32, ctrl: u8) -> Receipt
        requires room { 0 < self.old.room }
        requires short { length self.old.log + 1 < 4294967296 }
        ensures log { self.new
            ≡ record {
              opening = self.old.opening;
              log = Order gener ctrl ∷ self.old.log;
              room = self.old.room - 1;
            } }
        ensures number { result ≡ record { number = length self.old.log + 1 } }
    {
        self.entries.push_reserved(LogEntry::Order { gener, ctrl });
        self.stamp = Stamp { gener, ctrl };
        self.room -= 1;
        Receipt {
            number: self.entries.len() as u32,
        }
    }

    /// Changes the clock, under the stamp in force.
    fn change(&mut self, tick: u64, step: i64, freq: i64) -> Receipt
        requires room { 0 < self.old.room }
        requires short { length self.old.log + 1 < 4294967296 }
        requires tick { tick ≤ TICK_MAX }
        requires step { IsWithin TIME_MAX step }
        requires freq { IsWithin FREQ_MAX freq }
        ensures log { self.new
            ≡ record {
              opening = self.old.opening;
              log = Change (stamp_after self.old.log).gener (stamp_after self.old.log).ctrl
                  tick step freq
                  ∷ self.old.log;
              room = self.old.room - 1;
            } }
        ensures number { result ≡ record { number = length self.old.log + 1 } }
    {
        self.entries.push_reserved(LogEntry::Change {
            gener: self.stamp.gener,
            ctrl: self.stamp.ctrl,
            tick,
            step,
            freq,
        });
        self.state = self.state.change(tick, step, freq);
        self.room -= 1;
        Receipt {
            number: self.entries.len() as u32,
        }
    }

    /// Changes the clock where the held stamp is in force and the log has fewer than `rows` entries.
    pub(crate) fn adjust(
        &mut self,
        rows: u32,
        held: &Held,
        tick: u64,
        step: i64,
        freq: i64,
    ) -> Result<Receipt, Refused>
        requires room { 0 < self.old.room }
        requires short { length self.old.log + 1 < 4294967296 }
        requires tick { tick ≤ TICK_MAX }
        requires step { IsWithin TIME_MAX step }
        requires freq { IsWithin FREQ_MAX freq }
        ensures answer { result ≡ exchange_answer rows held.now self.old.log }
        ensures taken { OnOk result
            (self.new
            ≡ record {
              opening = self.old.opening;
              log = change_of held.now tick step freq ∷ self.old.log;
              room = self.old.room - 1;
            }) }
        ensures number { IfOk result
            (λ receipt. receipt ≡ record { number = length self.old.log + 1 }) }
        ensures same { OnErr result (self.new ≡ self.old) }
    {
        let at = self.entries.len() as u32;
        if self.stamp.gener != held.gener || self.stamp.ctrl != held.ctrl {
            return Err(Refused::Superseded {
                newer: self.stamp.gener,
                at,
            });
        }
        if at >= rows {
            return Err(Refused::Spent { at });
        }
        Ok(self.change(tick, step, freq))
    }

    /// The log. Does not allocate.
    pub(crate) fn into_log(self, clock: u8) -> Log
        ensures { result
            ≡ record { clock = clock; opening = self.opening; entries = reverse self.log } }
    {
        let Seat {
            opening,
            entries,
            ..
        } = self;
        Log {
            clock,
            opening,
            entries: Items::from_vec(entries),
        }
    }
}
