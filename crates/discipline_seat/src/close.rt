ghost use Rattle.std.specs.Prelude.{◌≡◌, ℕ, [], ◌<◌, ◌≤◌, All, List, length, map, reverse, IfErr, IfOk};
ghost use Rattle.model_clock.specs.declared.state.ClockState.{ClockState};
ghost use Rattle.ptp_profile.specs.Roles.SeatLogs.{log_at, logs_from};
ghost use Rattle.discipline_seat.specs.Rule.SeatLog.{SeatLog};
ghost use Rattle.discipline_seat.specs.SeatEntries.{most_of, placed};
ghost use Rattle.discipline_seat.specs.SeatValue.{IsSeatOf};
ghost use Rattle.discipline_seat.specs.WholeLogs.{AllTakenIn, CloseYields, TakenIn, made_of};

use crate::pass::{HubSeat, Pass, Passes};
use crate::steps::{Gather, Tell};
use crate::table::Seats;
use model_clock::ClockState;
use ptp_base::{Items, NoMemory, Room};
use ptp_profile::{Log, LogEntries, LogEntry, Logs};
use std::alloc::Global;

/// What a closing that got no memory hands back: all that it was given.
#[derive(Drop)]
pub struct Left {
    /// The seats.
    pub seats: Seats,
    /// The hub's seat.
    pub hub: HubSeat,
    /// The passes.
    pub passes: Passes,
}

/// Lists for the logs, as long as these will be, and places for the logs.
struct Blanks {
    lists: Vec<LogEntries>,
    places: Room<Log>,
}

impl Seats {
    /// Ends the seats: the whole log of each clock, by rising clocks, the oldest entry first. A log
    /// has each order of the hub's seat and each change of a pass at its number, and nothing else.
    /// Hub's seat and passes are those of this table, and the passes are all that it has. The
    /// memory is taken before anything changes; where there is none, all is handed back.
    pub fn close(self, alloc: Global, hub: HubSeat, passes: Passes) -> Result<Logs, Left>
        requires hub_table { IsSeatOf self hub }
        requires pass_tables { All (IsSeatOf self) passes.passes }
        requires all { length passes.passes ≡ hub.view.passes }
        ensures logs { IfOk result (λ logs.
            (whole : List SeatLog) × (logs ≡ logs_from 0 self.openings.items whole)
            × CloseYields self.rows self.openings.items hub.view passes.passes whole) }
        ensures left { IfErr result
            (λ left. (left.seats ≡ self) × (left.hub ≡ hub) × (left.passes ≡ passes)) }
    {
        match self.blanks(alloc, &hub, &passes) {
            Ok(blanks) => Ok(self.finish(hub, passes, blanks)),
            Err(NoMemory) => Err(Left {
                seats: self,
                hub,
                passes,
            }),
        }
    }

    // The memory of the logs.
    fn blanks(&self, alloc: Global, hub: &HubSeat, passes: &Passes) -> Result<Blanks, NoMemory>
        ensures clocks { IfOk result
            (λ r. length r.lists.items ≡ length self.now.openings.items) }
        ensures sized { IfOk result (λ r. (clock : ℕ) → clock < length r.lists.items →
            length (log_at r.lists.items clock)
            ≡ most_of 0 (made_of clock hub.now.view passes.now.passes)) }
        ensures empty { IfOk result (λ r. r.places.items ≡ []) }
        ensures places { IfOk result (λ r. length r.lists.items ≤ r.places.spare) }
    {
        let passes = passes.passes.as_slice();
        let count = self.clock_count();
        Ok(Blanks {
            lists: blank_lists(alloc, count, hub, passes)?,
            places: Room::with(alloc, count)?,
        })
    }

    // The logs, in the memory that was taken.
    fn finish(self, mut hub: HubSeat, passes: Passes, blanks: Blanks) -> Logs
        requires hub_table { IsSeatOf self hub }
        requires pass_tables { All (IsSeatOf self) passes.passes }
        requires all { length passes.passes ≡ hub.view.passes }
        requires clocks { length blanks.lists.items ≡ length self.openings.items }
        requires sized { (clock : ℕ) → clock < length blanks.lists.items →
            length (log_at blanks.lists.items clock)
            ≡ most_of 0 (made_of clock hub.view passes.passes) }
        requires empty { blanks.places.items ≡ [] }
        requires places { length blanks.lists.items ≤ blanks.places.spare }
        ensures { (whole : List SeatLog) × (result ≡ logs_from 0 self.openings.items whole)
            × CloseYields self.rows self.openings.items hub.view passes.passes whole }
    {
        let Blanks { mut lists, places } = blanks;
        let Passes { passes, .. } = passes;
        self.gather_all(&mut hub, passes, &mut lists);
        let Seats {
            table,
            openings,
            ..
        } = self;
        let HubSeat { seat, .. } = hub;
        let closed = table.close_with(seat);
        closed.free();
        logs_of(openings.as_slice(), lists, places)
    }

    // The hub's seat takes in all passes, and each entry goes to its place.
    fn gather_all(&self, hub: &mut HubSeat, mut passes: Vec<Pass>, lists: &mut Vec<LogEntries>)
        requires hub_table { IsSeatOf self.now hub.old }
        requires pass_tables { All (IsSeatOf self.now) passes.items }
        requires clocks { length lists.old.items ≡ length self.now.openings.items }
        requires sized { (clock : ℕ) → clock < length lists.old.items →
            most_of 0 (made_of clock hub.old.view passes.items)
            ≤ length (log_at lists.old.items clock) }
        ensures hub_table { IsSeatOf self.now hub.new }
        ensures taken { AllTakenIn hub.old.view passes.items hub.new.view }
        ensures clocks { length lists.new.items ≡ length lists.old.items }
        ensures placed { (clock : ℕ) → log_at lists.new.items clock
            ≡ placed (made_of clock hub.old.view passes.items) (log_at lists.old.items clock) }
    {
        hub.fill(lists);
        while let Some(pass) = passes.pop() {
            pass.fill(lists);
            self.gather(hub, pass);
        }
    }

    // The hub's seat takes in a pass for good.
    fn gather(&self, hub: &mut HubSeat, pass: Pass)
        requires hub_table { IsSeatOf self.now hub.old }
        requires pass_table { IsSeatOf self.now pass }
        ensures hub_table { IsSeatOf self.now hub.new }
        ensures taken { TakenIn hub.old.view pass hub.new.view }
    {
        let Pass { seat, .. } = pass;
        self.table.shared.join_seat::<Gather>(&mut hub.seat, seat);
        self.table.shared.load::<Tell>(&mut hub.seat, 0);
    }
}

// For each clock a list as long as its log will be.
fn blank_lists(
    alloc: Global,
    count: usize,
    hub: &HubSeat,
    passes: &[Pass],
) -> Result<Vec<LogEntries>, NoMemory>
    requires { count ≤ 255 }
    ensures clocks { IfOk result (λ r. length r.items ≡ count) }
    ensures sized { IfOk result (λ r. (clock : ℕ) → clock < count →
        length (log_at r.items clock) ≡ most_of 0 (made_of clock hub.now.view passes.now)) }
{
    let mut lists = Vec::new(alloc);
    for clock in 0..count {
        let long = longest(hub, passes, clock as u8);
        let entry = LogEntry::Order { gener: 0, ctrl: 0 };
        let blank = Vec::from_elem(alloc, entry, long as usize)?;
        lists.push(Items::from_vec(blank))?;
    }
    Ok(lists)
}

// The largest number of an entry of a clock, 0 where there is none.
fn longest(hub: &HubSeat, passes: &[Pass], clock: u8) -> u32
    ensures { result ≡ most_of 0 (made_of clock hub.now.view passes.now) }
{
    let mut most = hub.longest(clock, 0);
    let mut left = passes.len();
    while left > 0 {
        left -= 1;
        most = passes[left].longest(clock, most);
    }
    most
}

// Logs of these lists, whose clocks opened so.
fn logs_of(openings: &[ClockState], lists: Vec<LogEntries>, places: Room<Log>) -> Logs
    requires clocks { length lists.items ≡ length openings.now }
    requires few { length openings.now ≤ 255 }
    requires empty { places.items ≡ [] }
    requires places { length lists.items ≤ places.spare }
    ensures { result ≡ logs_from 0 openings.now (map reverse lists.items) }
{
    let mut logs = places;
    let mut clock: u8 = 0;
    for entries in lists {
        logs.push(Log {
            clock,
            opening: openings[usize::from(clock)],
            entries,
        });
        clock += 1;
    }
    logs.done()
}
