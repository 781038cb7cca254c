ghost use Rattle.std.specs.Prelude.{◌≡◌, ◌≢◌, ◌+◌, ◌*◌, ◌<◌, ◌≤◌, All, [], length, IfErr, IfOk, OnErr, OnOk};
ghost use Rattle.model_clock.specs.Clock.{IsClock};
ghost use Rattle.ptp_base.specs.Floor.{IsWithin};
ghost use Rattle.ptp_profile.specs.Roles.SeatLogs.{change_of, exchange_answer, logs_from, with_orders, HasOrder, IsRefusal};
ghost use Rattle.discipline_seat.specs.SeatsView.{log_of, reading_of, with_entry};
ghost use Rattle.ptp_profile.specs.Roles.Edges.{edge_at, lead_by, slave_port};
ghost use Rattle.bc_history.specs.declared.scenario.Scenario.{Scenario};
ghost use Rattle.bc_history.specs.Phases.NoticePhase.{notice_for};
ghost use Rattle.bc_history.specs.Phases.OpeningState.{opening};
ghost use Rattle.bc_history.specs.Phases.RolePhase.{clocks_of, states_of};
ghost use Rattle.bc_history.specs.Phases.State.{Core, Roles as HistoryRoles};
ghost use Rattle.bc_history.specs.Phases.Step.{held_of};
ghost use Rattle.bc_roles.specs.RolesView.{no_roles, notice_at, AdvanceYields, IsSameTable, RolesRepresent};
ghost use Rattle.bc_roles.specs.Stamps.{held_at, stamp_at};

use crate::orders::{draft, go_on, place_edges};
use discipline_seat::PlainSeats;
use model_clock::ClockState;
use ptp_base::{
    CLOCKS_MAX, ENTRIES_MAX, FREQ_MAX, Items, NoMemory, PORTS_MAX, PortId, PortState, ROWS_MAX,
    Room, TICK_MAX, TIME_MAX,
};
use ptp_profile::{Edge, Held, Lead, Logs, Notice, Reading, Receipt, Refused, RoleOrder, Stamp};
use role_gen::Generations;
use std::alloc::Global;
use std::marker::Model;

/// What drives each clock of a run, and the clocks' logs: the edges with their generation, the
/// stamp of each clock's last order, and the seats.
#[derive(Drop)]
pub struct Roles {
    generations: Generations,
    // By rising clock.
    stamps: Vec<Stamp>,
    seats: PlainSeats,
    // A place for each clock.
    next: Vec<Option<Edge>>,
    // Two places for each clock.
    drafts: Vec<RoleOrder>,
}

impl Model for Roles {
    ghost use Rattle.bc_roles.specs.RolesInvariant.{IsRoles};
    ghost use Rattle.bc_roles.specs.RolesView.{roles_view, RolesView};

    ghost Value = { RolesView };

    ghost view = { λ r. roles_view r.generations r.stamps.items r.seats };

    ghost invariant = { λ r.
        IsRoles (roles_view r.generations r.stamps.items r.seats) r.next.items r.drafts.items };
}

impl Roles {
    /// Before the first generation: nothing drives any of 1 to `CLOCKS_MAX` clocks in these states,
    /// and their logs are empty. No change makes a log longer than `rows`, which is from 1 to
    /// `ROWS_MAX`.
    pub fn new(alloc: Global, clocks: &[ClockState], rows: u32) -> Result<Roles, NoMemory>
        requires some { 1 ≤ length clocks.now }
        requires few { length clocks.now ≤ CLOCKS_MAX }
        requires clocks { All IsClock clocks.now }
        requires row { 1 ≤ rows }
        requires rows { rows ≤ ROWS_MAX }
        ensures roles { IfOk result (λ roles. roles ≡ no_roles rows clocks.now) }
        ensures history { IfOk result (λ roles. (s : Scenario) → clocks.now ≡ s.clocks
            → RolesRepresent roles (opening s).roles) }
    {
        let count = clocks.len();
        let nobody = Stamp { gener: 0, ctrl: 0 };
        let no_order = RoleOrder {
            clock: 0,
            gener: 0,
            ctrl: 0,
        };
        Ok(Roles {
            generations: Generations::new(alloc, count as u8)?,
            stamps: vec![in alloc; nobody; count]?,
            seats: PlainSeats::new(alloc, clocks, rows)?,
            next: vec![in alloc; None; count]?,
            drafts: vec![in alloc; no_order; 2 * count]?,
        })
    }

    /// The number of the clocks, at most `CLOCKS_MAX`. Does not allocate.
    pub fn clocks(&self) -> usize
        ensures number { result ≡ length self.now.stamps }
        ensures logs { result ≡ length self.now.seats.logs }
        ensures few { result ≤ CLOCKS_MAX }
    {
        self.stamps.len()
    }

    /// A clock with the stamp of its last order, of which the seats are not asked. The clock is
    /// there. Does not allocate.
    pub fn held(&self, clock: u8) -> Held
        requires there { clock < length self.now.stamps }
        ensures stamp { result ≡ held_at self.now.stamps clock }
        ensures history { (r : HistoryRoles) → RolesRepresent self.now r
            → result ≡ held_of clock r.orders }
        ensures ordered { result.ctrl ≢ 0
            → HasOrder (log_of self.now.seats clock) result.gener result.ctrl }
    {
        let stamp = self.stamps[clock as usize];
        Held {
            clock,
            gener: stamp.gener,
            ctrl: stamp.ctrl,
        }
    }

    /// The number of the generation, from 1, or 0 before the first. Does not allocate.
    pub fn generation(&self) -> u32
        ensures { result ≡ self.now.generation.gener }
    {
        self.generations.generation()
    }

    /// What the follower of a clock copies by the clock's edge, with the generation of the clock's
    /// last order.
    fn lead(&self, clock: u8) -> Option<Lead>
        requires there { clock < length self.now.stamps }
        ensures { result
            ≡ lead_by (stamp_at self.now.stamps clock).gener
            (edge_at self.now.generation.edges clock) }
    {
        let edge = self.generations.edges()[clock as usize];
        match edge {
            Some(Edge::Follow { source }) => Some(Lead {
                gener: self.stamps[clock as usize].gener,
                source,
            }),
            Some(Edge::Port { .. }) | None => None,
        }
    }

    /// What the follower of a clock is told of the present generation, where `slave` is the number
    /// of the port in SLAVE, from 1, or 0 for none. The clock is there. Does not allocate.
    pub fn notice(&self, clock: u8, slave: u16) -> Notice
        requires there { clock < length self.now.stamps }
        ensures exact { result ≡ notice_at self.now clock slave }
        ensures history { (c : Core) (r : HistoryRoles) → RolesRepresent self.now r
            → slave ≡ slave_port (states_of c.ports) → result ≡ notice_for c r clock }
    {
        Notice {
            gener: self.generations.generation(),
            slave,
            lead: self.lead(clock),
        }
    }

    /// Makes room for the orders of one generation, two for each clock, and for one change, or
    /// leaves all as before.
    pub fn reserve(&mut self) -> Result<(), NoMemory>
        ensures ok { OnOk result (2 * length self.new.stamps + 1 ≤ self.new.seats.spare) }
        ensures same { self.new
            ≡ record self.old { seats = record self.old.seats { spare = self.new.seats.spare } } }
        ensures err { OnErr result (self.new ≡ self.old) }
    {
        let orders = 2 * self.stamps.len() as u32;
        self.seats.reserve(orders + 1)
    }

    /// The state of a clock after its whole log, with the stamp in force. The clock is there. Does
    /// not allocate.
    pub fn read(&self, clock: u8) -> Reading
        requires there { clock < length self.now.stamps }
        ensures reading { result ≡ reading_of self.now.seats clock }
        ensures state { IsClock result.state }
    {
        self.seats.read(clock)
    }

    /// Begins the next generation where the edges that the ports' states give differ, the parent
    /// included, gives its orders to the clocks and tells them: revokes, then grants, each by
    /// rising clocks. `states` and `map` have the state and the clock of each port, of which there
    /// are at most `PORTS_MAX`. The generation is below `ENTRIES_MAX`, and `out` is empty and has
    /// two places for each clock, as the seats have. Does not allocate.
    pub fn advance(
        &mut self,
        states: &[PortState],
        map: &[u8],
        parent: PortId,
        out: Room<RoleOrder>,
    ) -> Items<RoleOrder>
        requires same { length states.now ≡ length map.now }
        requires few { length states.now ≤ PORTS_MAX }
        requires placed { All (λ clock. clock < length self.old.stamps) map.now }
        requires below { self.old.generation.gener < ENTRIES_MAX }
        requires empty { out.items ≡ [] }
        requires room { 2 * length self.old.stamps ≤ out.spare }
        requires spare { 2 * length self.old.stamps ≤ self.old.seats.spare }
        ensures advanced { (c : Core) (r : HistoryRoles) → parent ≡ c.master.parent
            → states.now ≡ states_of c.ports → map.now ≡ clocks_of c.ports
            → RolesRepresent self.old r → AdvanceYields c r self.new result }
        ensures logs { self.new.seats.logs ≡ with_orders self.old.seats.logs result }
        ensures short { length result ≤ 2 * length self.old.stamps }
        ensures same { IsSameTable self.old self.new }
        ensures gener { self.new.generation.gener ≤ self.old.generation.gener + 1 }
    {
        place_edges(states, map, parent, &mut self.next);
        let count = draft(&self.generations, &self.next, &mut self.drafts);
        go_on(
            &mut self.generations,
            &mut self.stamps,
            &mut self.seats,
            &self.next,
            &self.drafts[..count],
            out,
        )
    }

    /// Changes a clock under a held stamp: adds `step` ns to its time and sets its frequency to
    /// `freq`, in ppb times 65,536, at `tick`. Superseded where another stamp is in force, and then
    /// its generation is newer; else Spent where the log has as many entries as it may have. A
    /// refusal leaves all as before. The clock is there, the held stamp has a controller and was
    /// ordered of the clock, and the seats have a place. Does not allocate.
    pub fn adjust(
        &mut self,
        held: Held,
        tick: u64,
        step: i64,
        freq: i64,
    ) -> Result<Receipt, Refused>
        requires there { held.clock < length self.old.stamps }
        requires spare { 1 ≤ self.old.seats.spare }
        requires somebody { held.ctrl ≢ 0 }
        requires ordered { HasOrder (log_of self.old.seats held.clock) held.gener held.ctrl }
        requires tick { tick ≤ TICK_MAX }
        requires step { IsWithin TIME_MAX step }
        requires freq { IsWithin FREQ_MAX freq }
        ensures answer { result
            ≡ exchange_answer self.old.seats.rows held (log_of self.old.seats held.clock) }
        ensures taken { OnOk result (self.new.seats
            ≡ with_entry self.old.seats held.clock (change_of held tick step freq)) }
        ensures number { IfOk result (λ receipt.
            receipt.number ≡ length (log_of self.new.seats held.clock)) }
        ensures refused { IfErr result
            (IsRefusal (log_of self.old.seats held.clock) held self.old.seats.rows) }
        ensures same { OnErr result (self.new ≡ self.old) }
        ensures kept { self.new ≡ record self.old { seats = self.new.seats } }
        ensures history { (r : HistoryRoles) → RolesRepresent self.old r
            → RolesRepresent self.new r }
    {
        self.seats.adjust(held, tick, step, freq)
    }

    /// The logs, by rising clocks, the oldest entry first. Does not allocate.
    pub fn part(self) -> Logs
        ensures { result ≡ logs_from 0 self.seats.openings self.seats.logs }
    {
        let Roles { seats, .. } = self;
        seats.part()
    }
}
