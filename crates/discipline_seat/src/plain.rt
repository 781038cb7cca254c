ghost use Rattle.std.specs.Prelude.{◌≡◌, ℕ, [], map, ◌≢◌, ◌+◌, ◌-◌, ◌<◌, ◌≤◌, All, length, reverse, IfErr, IfOk, OnErr, OnOk};
ghost use Rattle.ptp_base.specs.declared.limits.TheConstants.{CLOCKS_MAX, GENERATION_MAX, ORDERS_MAX, ROWS_MAX};
ghost use Rattle.model_clock.specs.Clock.{IsClock};
ghost use Rattle.ptp_base.specs.Floor.{IsWithin};
ghost use Rattle.ptp_profile.specs.declared.seats.LogEntry.TheVariants.{Order};
ghost use Rattle.ptp_profile.specs.Roles.Forest.{IsForest};
ghost use Rattle.ptp_profile.specs.Roles.SeatLogs.{HasOrder, change_of, exchange_answer, logs_from, order_count, MayFollow, IsController, IsRefusal};
ghost use Rattle.discipline_seat.specs.SeatInvariants.{Line, logs_of, openings_of};
ghost use Rattle.discipline_seat.specs.SeatsView.{ctrls_with, log_of, seats_at_opening, reading_of, stamp_in, with_entry, Seats};

use crate::seat::Seat;
use model_clock::ClockState;
use ptp_base::{FREQ_MAX, NoMemory, Room, TICK_MAX, TIME_MAX};
use ptp_profile::{Held, Log, LogEntry, Logs, Reading, Receipt, Refused};
use std::alloc::Global;
use std::marker::Model;

/// The clocks of a run, each with its log, for one thread. Contracts see the openings, the logs, the
/// newest entry first, and how many more entries are taken without allocating.
#[derive(Drop)]
pub struct PlainSeats {
    rows: u32,
    spare: usize,
    seats: Vec<Seat>,
    // Places for the logs, in which they part without allocating.
    places: Room<Log>,
}

impl Model for PlainSeats {
    ghost use Rattle.discipline_seat.specs.SeatInvariants.{IsTable, logs_of, openings_of};
    ghost use Rattle.discipline_seat.specs.SeatsView.{Seats};

    ghost Value = { Seats };

    ghost view = { λ t. record {
      rows = t.rows;
      spare = t.spare;
      openings = openings_of t.seats.items;
      logs = logs_of t.seats.items;
    } };

    ghost invariant = { λ t. IsTable t.rows t.spare t.seats.items t.places };
}

/// Seats of these clocks.
fn opened(alloc: Global, clocks: &[ClockState]) -> Result<Vec<Seat>, NoMemory>
    requires { All IsClock clocks.now }
    ensures { IfOk result
        (λ seats.
        seats.items
        ≡ map (λ clock. record { opening = clock; log = []; room = 0 }) clocks.now) }
{
    let mut seats = Vec::new(alloc);
    for clock in clocks {
        seats.push(Seat::new(alloc, *clock))?;
    }
    Ok(seats)
}

impl PlainSeats {
    /// Seats of 1 to `CLOCKS_MAX` clocks in these states, of which nothing was ordered or changed. No
    /// change makes a log longer than `rows`, which is from 1 to `ROWS_MAX`.
    pub fn new(alloc: Global, clocks: &[ClockState], rows: u32) -> Result<PlainSeats, NoMemory>
        requires some { 1 ≤ length clocks.now }
        requires few { length clocks.now ≤ CLOCKS_MAX }
        requires clocks { All IsClock clocks.now }
        requires row { 1 ≤ rows }
        requires rows { rows ≤ ROWS_MAX }
        ensures { IfOk result (λ seats. seats ≡ seats_at_opening rows clocks.now) }
    {
        Ok(PlainSeats {
            rows,
            spare: 0,
            seats: opened(alloc, clocks)?,
            places: Room::with(alloc, clocks.len())?,
        })
    }

    /// Makes room for so many more entries, of whatever clocks, or leaves all as before.
    pub fn reserve(&mut self, more: u32) -> Result<(), NoMemory>
        ensures ok { OnOk result (more ≤ self.new.spare) }
        ensures same { OnOk result (self.new ≡ record self.old { spare = self.new.spare }) }
        ensures err { OnErr result (self.new ≡ self.old) }
    {
        let more = more as usize;
        if more > self.spare {
            reserve(&mut self.seats, more)?;
            self.spare = more;
        }
        Ok(())
    }

    /// The state of a clock after all entries of its log, with the stamp then in force. The state's
    /// tick is at most `TICK_MAX` and its frequency within `FREQ_MAX`. The clock is there. Does
    /// not allocate.
    pub fn read(&self, clock: u8) -> Reading
        requires there { clock < length self.now.logs }
        ensures reading { result ≡ reading_of self.now clock }
        ensures state { IsClock result.state }
    {
        let seat = &self.seats[clock as usize];
        seat.read()
    }

    /// The entries of a clock's log, the oldest first. The clock is there. Does not allocate.
    pub fn log(&self, clock: u8) -> &[LogEntry]
        requires there { clock < length self.now.logs }
        ensures { result.now ≡ reverse (log_of self.now clock) }
    {
        let seat = &self.seats[clock as usize];
        seat.entries()
    }

    /// Gives a clock to a controller: nobody, by 0, a port from 1 to `CONTROLLER_PORTS`, or the clock's
    /// own follower that copies clock s, by `FOLLOWER_BASE` + s. `gener`, at most `GENERATION_MAX`, is
    /// no older than the clock's generation, and newer where somebody holds the clock; the controllers
    /// that all clocks then have are a forest; the clock has had fewer than `ORDERS_MAX` orders. The
    /// clock is there, and `spare` is 1 or more. The receipt has the entry's number, which is the
    /// length of the log. Does not allocate.
    pub fn order(&mut self, clock: u8, gener: u32, ctrl: u8) -> Receipt
        requires there { clock < length self.old.logs }
        requires spare { 1 ≤ self.old.spare }
        requires ctrl { IsController (length self.old.logs) ctrl }
        requires gener { gener ≤ GENERATION_MAX }
        requires follows { MayFollow (stamp_in self.old clock) gener }
        requires forest { IsForest (ctrls_with self.old clock ctrl) }
        requires few { order_count (log_of self.old clock) < ORDERS_MAX }
        ensures log { self.new ≡ with_entry self.old clock (Order gener ctrl) }
        ensures number { result.number ≡ length (log_of self.new clock) }
    {
        let seat = &mut self.seats[clock as usize];
        let receipt = seat.order(gener, ctrl);
        self.spare -= 1;
        receipt
    }

    /// Changes a clock under a held stamp: adds `step` ns to its time and sets its frequency to `freq`,
    /// in ppb times 65,536, at `tick`. Superseded where another stamp is in force, and then its
    /// generation is newer; else Spent where the log has `rows` entries or more. A refusal leaves all
    /// as before. The clock is there, the held stamp has a controller and was ordered of the clock, and
    /// `spare` is 1 or more. Does not allocate.
    pub fn adjust(
        &mut self,
        held: Held,
        tick: u64,
        step: i64,
        freq: i64,
    ) -> Result<Receipt, Refused>
        requires there { held.clock < length self.old.logs }
        requires spare { 1 ≤ self.old.spare }
        requires somebody { held.ctrl ≢ 0 }
        requires ordered { HasOrder (log_of self.old held.clock) held.gener held.ctrl }
        requires tick { tick ≤ TICK_MAX }
        requires step { IsWithin TIME_MAX step }
        requires freq { IsWithin FREQ_MAX freq }
        ensures answer { result ≡ exchange_answer self.old.rows held (log_of self.old held.clock) }
        ensures taken { OnOk result
            (self.new ≡ with_entry self.old held.clock (change_of held tick step freq)) }
        ensures number { IfOk result
            (λ receipt. receipt.number ≡ length (log_of self.new held.clock)) }
        ensures refused { IfErr result (IsRefusal (log_of self.old held.clock) held self.old.rows) }
        ensures same { OnErr result (self.new ≡ self.old) }
    {
        let rows = self.rows;
        let seat = &mut self.seats[held.clock as usize];
        match seat.adjust(rows, &held, tick, step, freq) {
            Ok(receipt) => {
                self.spare -= 1;
                Ok(receipt)
            }
            Err(refused) => Err(refused),
        }
    }

    /// The logs, by rising clocks, the oldest entry first. Does not allocate.
    pub fn part(self) -> Logs
        ensures { result ≡ logs_from 0 self.openings self.logs }
    {
        let PlainSeats { seats, places, .. } = self;
        let mut logs = places;
        let mut clock: u8 = 0;
        for seat in seats {
            logs.push(seat.into_log(clock));
            clock += 1;
        }
        logs.done()
    }
}

/// Makes room for so many more entries in each seat.
fn reserve(seats: &mut Vec<Seat>, more: usize) -> Result<(), NoMemory>
    ensures openings { openings_of seats.new.items ≡ openings_of seats.old.items }
    ensures logs { logs_of seats.new.items ≡ logs_of seats.old.items }
    ensures rooms { (spare : ℕ) → All (λ (line : Line). spare ≤ line.room) seats.old.items →
        All (λ (line : Line). spare ≤ line.room) seats.new.items }
    ensures ok { OnOk result (All (λ (line : Line). more ≤ line.room) seats.new.items) }
{
    let count = seats.len();
    for place in 0..count {
        let seat = &mut seats[place];
        seat.reserve(more)?;
    }
    Ok(())
}
