ghost use Rattle.std.specs.Prelude.{◌≡◌, ◌≢◌, ℕ, ◌+◌, ◌*◌, ◌<◌, ◌≤◌, ◌∷◌, ◌++◌, [], All, List, length, MatchResult, IfOk, OnErr, OnOk, slice_index, slice_index_or};
ghost use Rattle.ptp_base.specs.declared.limits.TheConstants.{CLOCKS_MAX, CONTROLLER_PORTS, GENERATION_MAX, ORDERS_MAX, ROWS_MAX};
ghost use Rattle.ptp_base.specs.Floor.{IsWithin};
ghost use Rattle.model_clock.specs.Clock.{IsClock, clock_at};
ghost use Rattle.ptp_profile.specs.Roles.Forest.{IsForest};
ghost use Rattle.ptp_profile.specs.Roles.SeatLogs.{HasOrder, IsController, MayFollow, order_count, stamp_after, clock_after, whole_reading};
ghost use Rattle.ptp_profile.specs.declared.seats.LogEntry.TheVariants.{Order, Change};
ghost use Rattle.discipline_seat.specs.declared.view.Owner.TheVariants.{Hub};
ghost use Rattle.discipline_seat.specs.Rule.SeatLog.{Extends, GrewByOthers, HasNoCircle, IsSeatLog, MayComeNext, SeatLog, ctrl_after, gener_after, last_change, owner_named, pass_owner, word_after};
ghost use Rattle.discipline_seat.specs.Rule.SeatView.{IsPassView, after_look, after_split, ctrls_with, new_pass_view, row_words, seen_log, view_at_opening, with_page, with_row, with_row_word};
ghost use Rattle.discipline_seat.specs.Rule.SeatRule.{row_place};
ghost use Rattle.discipline_seat.specs.Rule.Story.{GrewWithoutPages, HasNoPages, HasNoReceipts, IsAnswerOfLook, Story, StoryAgrees, page_item, reading_item, story_of, with_items};
ghost use Rattle.discipline_seat.specs.declared.view.StoryItem.TheVariants.{GaveReading, GaveReceipt, WasSuperseded};
ghost use Rattle.discipline_seat.specs.SeatCalls.{HasSameOrders, LookYields, SawLog, EntryAdded, WasOvertaken, RefusalYields, LeavesOthers, IsWordOf, AdjustYields, MeetYields, IsNewHub, AreNewPasses, HearYields, LearnYields, RoundYields, IsPassSeat, StoryTold, adjust_item};
ghost use Rattle.discipline_seat.specs.SeatValue.{IsSeatOf, seat_value};

use crate::entries::{Entries, Numbered};
use crate::pass::{HubSeat, Pass, Passes};
use crate::steps::{
    Adjust, Answer, Appoint, Deal, Fetch, Hear, Learn, Look, Note, Place, Put, Said, Tell, Wanted,
    Words, Write,
};
use crate::table::Seats;
use crate::view::Setup;
use model_clock::ClockState;
use ptp_base::{CLOCKS_MAX, CONTROLLER_PORTS, FREQ_MAX, NoMemory, ROWS_MAX, TICK_MAX, TIME_MAX};
use ptp_profile::{Held, LogEntry, Reading, Receipt, Refused};
use seat_word::{Word, pack, unpack};
use std::alloc::Global;
use std::marker::Brand;

impl Seats {
    /// Seats of 1 to `CLOCKS_MAX` clocks in these states, of which nothing was ordered or
    /// changed, with the hub's seat and all passes: those of ports 1 to `ports`, of which there
    /// are at most `CONTROLLER_PORTS`, then those of the followers of clocks 0 and up. No change
    /// makes a log longer than `rows`, which is from 1 to `ROWS_MAX`.
    pub fn new(
        alloc: Global,
        clocks: &[ClockState],
        rows: u32,
        ports: u8,
    ) -> Result<(Seats, HubSeat, Passes), NoMemory>
        requires some { 1 ≤ length clocks.now }
        requires few { length clocks.now ≤ CLOCKS_MAX }
        requires clocks { All IsClock clocks.now }
        requires row { 1 ≤ rows }
        requires rows { rows ≤ ROWS_MAX }
        requires port { 1 ≤ ports }
        requires ports { ports ≤ CONTROLLER_PORTS }
        ensures rows { IfOk result (λ r. r.0.rows ≡ rows) }
        ensures openings { IfOk result (λ r. r.0.openings.items ≡ clocks.now) }
        ensures hub { IfOk result (λ r. IsSeatOf r.0 r.1) }
        ensures ordered { IfOk result (λ r. IsNewHub ports r.1.view r.2.made) }
        ensures made { IfOk result (λ r. r.2.made ≡ ports + length clocks.now) }
        ensures count { IfOk result (λ r. length r.2.passes ≡ r.2.made) }
        ensures passes { IfOk result (λ r.
            AreNewPasses r.0.table.shared.table_id r.0.openings.items ports r.2.passes) }
    {
        let (seats, mut hub) = Seats::opened(alloc, clocks, rows, ports)?;
        let count = usize::from(ports) + clocks.len();
        let mut passes = Vec::with_capacity(alloc, count)?;
        for made in 0..count {
            let pass = seats.deal(alloc, &mut hub);
            passes.push_reserved(pass);
        }
        let passes = Passes {
            passes,
            made: count,
        };
        Ok((seats, hub, passes))
    }

    // A table with the hub's seat, and no pass so far.
    fn opened(
        alloc: Global,
        clocks: &[ClockState],
        rows: u32,
        ports: u8,
    ) -> Result<(Seats, HubSeat), NoMemory>
        requires some { 1 ≤ length clocks.now }
        requires few { length clocks.now ≤ CLOCKS_MAX }
        requires clocks { All IsClock clocks.now }
        requires rows { rows ≤ ROWS_MAX }
        ensures rows { IfOk result (λ r. r.0.rows ≡ rows) }
        ensures openings { IfOk result (λ r. r.0.openings.items ≡ clocks.now) }
        ensures hub { IfOk result (λ r. IsSeatOf r.0 r.1) }
        ensures ordered { IfOk result (λ r. IsNewHub ports r.1.view 0) }
    {
        let count = clocks.len();
        let words = Vec::from_elem(alloc, 0u64, word_count(rows, count))?;
        let stamps = Vec::from_elem(alloc, 0u64, count)?;
        let setup = Setup {
            rows,
            clocks: count as u8,
            ports,
            openings: Vec::from_slice(alloc, clocks)?,
        };
        let (table, seat) = Words::of_words(alloc, words.as_slice(), &setup)?;
        let Setup { openings, .. } = setup;
        let seats = Seats {
            table,
            rows,
            openings,
        };
        let hub = HubSeat {
            seat,
            stamps,
            entries: Entries::new(alloc),
        };
        Ok((seats, hub))
    }

    // One pass more.
    fn deal(&self, alloc: Global, hub: &mut HubSeat) -> Pass
        requires table { IsSeatOf self.now hub.old }
        requires nothing { (c : ℕ) → seen_log hub.old.view c ≡ [] }
        ensures hub { hub.new ≡ record hub.old { view = after_split hub.old.view } }
        ensures pass { result
            ≡ record hub.old { view = new_pass_view hub.old.view; spare = 0 } }
    {
        let seat = self.table.shared.split_seat::<Deal>(&mut hub.seat);
        Pass {
            seat,
            entries: Entries::new(alloc),
        }
    }

    // How many clocks there are.
    pub(crate) fn clock_count(&self) -> usize
        ensures { result ≡ length self.now.openings.items }
    {
        self.openings.as_slice().len()
    }

    // A look whose answer the call picks.
    fn look<A: Answer>(&self, pass: &mut Pass, clock: u8, _asked: LogEntry) -> Word
        requires table { IsSeatOf self.now pass.old }
        requires clock { clock < length self.now.openings.items }
        requires limit { A.rows ≡ self.now.rows }
        requires quiet { (c : ℕ) (l : SeatLog) → HasNoPages (A.says c l) }
        requires truth { (m : ℕ → SeatLog) (r : ℕ) → IsSeatLog r (m clock) →
            Extends (seen_log pass.old.view clock) (m clock) →
            StoryAgrees self.now.openings.items m (A.says clock (m clock))
            × HasNoReceipts (A.says clock (m clock)) × IsAnswerOfLook m (A.says clock (m clock)) }
        ensures table { IsSeatOf self.now pass.new }
        ensures spare { pass.new.spare ≡ pass.old.spare }
        ensures sees { LookYields self.now.rows A.says pass.old.view clock result pass.new.view }
    {
        unpack(
            self.table
                .shared
                .load::<Look<A>>(&mut pass.seat, usize::from(clock)),
        )
    }

    /// The state of a clock after all entries that its log then has, with the stamp then in
    /// force: all of one moment. No fewer entries than the pass had seen, and it has then seen
    /// them. The state's tick is at most `TICK_MAX` and its frequency within `FREQ_MAX`. The
    /// clock is there. Does not allocate and waits for nobody.
    pub fn read(&self, pass: &mut Pass, clock: u8) -> Reading
        requires table { IsSeatOf self.now pass.old }
        requires clock { clock < length self.now.openings.items }
        ensures table { IsSeatOf self.now pass.new }
        ensures reading { result
            ≡ whole_reading (clock_at self.now.openings.items clock)
            (seen_log pass.new.view clock) }
        ensures seen { SawLog pass.old.view clock pass.new.view }
        ensures state { IsClock result.state }
        ensures story { pass.new.view.stories
            ≡ with_items (GaveReading clock result ∷ []) pass.old.view.stories }
        ensures spare { pass.new.spare ≡ pass.old.spare }
    {
        let at = self.look_for_reading(pass, clock);
        let state = self.state(pass, clock, &at);
        Reading {
            number: at.number,
            gener: at.gener,
            ctrl: at.ctrl,
            state,
        }
    }

    // A look for a reading.
    fn look_for_reading(&self, pass: &mut Pass, clock: u8) -> Word
        requires table { IsSeatOf self.now pass.old }
        requires clock { clock < length self.now.openings.items }
        ensures table { IsSeatOf self.now pass.new }
        ensures spare { pass.new.spare ≡ pass.old.spare }
        ensures sees { LookYields self.now.rows (reading_item self.now.openings.items)
            pass.old.view clock result pass.new.view }
    {
        self.look::<Brand>(pass, clock, LogEntry::Order { gener: 0, ctrl: 0 })
    }

    // The state of a clock after all that was seen of its log, of which `at` is the word.
    fn state(&self, pass: &mut Pass, clock: u8, at: &Word) -> ClockState
        requires table { IsSeatOf self.now pass.old }
        requires clock { clock < length self.now.openings.items }
        requires word { IsWordOf at.now (seen_log pass.old.view clock) }
        requires lawful { IsSeatLog self.now.rows (seen_log pass.old.view clock) }
        ensures same { pass.new ≡ pass.old }
        ensures state { result
            ≡ clock_after (clock_at self.now.openings.items clock)
            (seen_log pass.old.view clock) }
        ensures clock { IsClock result }
    {
        let opening = self.openings[usize::from(clock)];
        if at.row == 0 {
            return opening;
        }
        let row = at.row - 1;
        let tick = self.row_word(pass, clock, row, 0);
        let time = self.row_word(pass, clock, row, 1);
        let freq = self.row_word(pass, clock, row, 2);
        state_of_row(&opening, tick, time.cast_signed(), freq.cast_signed())
    }

    // A word of the row of the last change that was seen of a clock, behind `row` entries.
    fn row_word(&self, pass: &mut Pass, clock: u8, row: u32, word: usize) -> u64
        requires table { IsSeatOf self.now pass.old }
        requires clock { clock < length self.now.openings.items }
        requires row { last_change (seen_log pass.old.view clock) ≡ row + 1 }
        requires rows { row < self.now.rows }
        requires word { word < 3 }
        ensures same { pass.new ≡ pass.old }
        ensures word { result
            ≡ slice_index (row_words (clock_after (clock_at self.now.openings.items clock)
            (seen_log pass.old.view clock))) word }
    {
        self.fetch::<Brand>(pass, clock, row, word)
    }

    // The same, for the word that the call picks.
    fn fetch<W: Wanted>(&self, pass: &mut Pass, clock: u8, row: u32, word: usize) -> u64
        requires table { IsSeatOf self.now pass.old }
        requires clock { clock < length self.now.openings.items }
        requires row { last_change (seen_log pass.old.view clock) ≡ row + 1 }
        requires rows { row < self.now.rows }
        requires word { word < 3 }
        requires wanted { W.word
            ≡ slice_index (row_words (clock_after (clock_at self.now.openings.items clock)
            (seen_log pass.old.view clock))) word }
        ensures same { pass.new ≡ pass.old }
        ensures word { result ≡ W.word }
    {
        let place = place_of(self.rows, self.clock_count(), clock, row, word);
        self.table.shared.load::<Fetch<W>>(&mut pass.seat, place)
    }

    // Stores a word of the row behind all that was seen of the clock that was looked at last.
    fn store(&self, pass: &mut Pass, clock: u8, row: u32, word: usize, value: u64)
        requires table { IsSeatOf self.now pass.old }
        requires clock { clock < length self.now.openings.items }
        requires looked { pass.old.view.draft_clock ≡ clock }
        requires row { length (seen_log pass.old.view clock) ≡ row }
        requires rows { row < self.now.rows }
        requires next { length pass.old.view.draft ≡ word }
        requires word { word < 3 }
        requires holds { owner_named clock (ctrl_after (seen_log pass.old.view clock))
            ≡ pass.old.view.owner }
        ensures word { pass.new ≡ record pass.old { view = with_row_word pass.old.view value } }
    {
        let place = place_of(self.rows, self.clock_count(), clock, row, word);
        self.table
            .shared
            .store::<Write>(&mut pass.seat, place, value)
    }

    // Prepares the row of a change behind all that was seen, of which `at` is the word.
    fn prepare(&self, pass: &mut Pass, clock: u8, at: &Word, state: &ClockState)
        requires table { IsSeatOf self.now pass.old }
        requires clock { clock < length self.now.openings.items }
        requires looked { pass.old.view.draft_clock ≡ clock }
        requires row { length (seen_log pass.old.view clock) ≡ at.now.number }
        requires rows { at.now.number < self.now.rows }
        requires nothing { pass.old.view.draft ≡ [] }
        requires holds { owner_named clock (ctrl_after (seen_log pass.old.view clock))
            ≡ pass.old.view.owner }
        ensures row { pass.new ≡ record pass.old { view = with_row pass.old.view state.now } }
    {
        self.store(pass, clock, at.number, 0, state.tick);
        self.store(pass, clock, at.number, 1, state.time.cast_unsigned());
        self.store(pass, clock, at.number, 2, state.freq.cast_unsigned());
    }

    /// Changes a clock under a held stamp: adds `step` ns to its time and sets its frequency to
    /// `freq`, in ppb times 65,536, at `tick`. It is one exchange: where it is taken, the change
    /// stands at the receipt's number, behind all that the pass had seen. Superseded where a
    /// newer generation than the held one is in force after `at` entries; Spent where the held
    /// stamp is in force after `at` entries, which are `rows` or more. So a holder of the stamp
    /// in force is never superseded. The clock is there, the stamp's controller names the pass,
    /// the pass has seen the stamp's order, and its `spare` is 1 or more. A change takes one place.
    /// Does not allocate and waits for nobody.
    pub fn adjust(
        &self,
        pass: &mut Pass,
        held: Held,
        tick: u64,
        step: i64,
        freq: i64,
    ) -> Result<Receipt, Refused>
        requires table { IsSeatOf self.now pass.old }
        requires clock { held.clock < length self.now.openings.items }
        requires spare { 1 ≤ pass.old.spare }
        requires somebody { held.ctrl ≢ 0 }
        requires named { owner_named held.clock held.ctrl ≡ pass.old.view.owner }
        requires ordered { HasOrder (seen_log pass.old.view held.clock) held.gener held.ctrl }
        requires tick { tick ≤ TICK_MAX }
        requires step { IsWithin TIME_MAX step }
        requires freq { IsWithin FREQ_MAX freq }
        ensures table { IsSeatOf self.now pass.new }
        ensures same { LeavesOthers pass.old.view held.clock pass.new.view }
        ensures answer { AdjustYields pass.old.view held.clock held.gener held.ctrl tick step freq
            self.now.rows result pass.new.view }
        ensures story { pass.new.view.stories
            ≡ with_items (adjust_item held.clock held.gener held.ctrl tick step freq result)
            pass.old.view.stories }
        ensures taken { OnOk result (pass.old.spare ≡ pass.new.spare + 1) }
        ensures kept { OnErr result (pass.new.spare ≡ pass.old.spare) }
    {
        let asked = LogEntry::Change {
            gener: held.gener,
            ctrl: held.ctrl,
            tick,
            step,
            freq,
        };
        let at = self.look::<Brand>(pass, held.clock, asked);
        if at.gener != held.gener || at.ctrl != held.ctrl {
            return Err(Refused::Superseded {
                newer: at.gener,
                at: at.number,
            });
        }
        if at.number >= self.rows {
            return Err(Refused::Spent { at: at.number });
        }
        let state = self.state(pass, held.clock, &at).change(tick, step, freq);
        self.prepare(pass, held.clock, &at, &state);
        match self.exchange(pass, held, at, tick, step, freq) {
            Ok(number) => Ok(Receipt { number }),
            Err(now) => Err(Refused::Superseded {
                newer: now.gener,
                at: now.number,
            }),
        }
    }

    // The exchange alone, behind a look that found `at`.
    fn exchange(
        &self,
        pass: &mut Pass,
        held: Held,
        at: Word,
        tick: u64,
        step: i64,
        freq: i64,
    ) -> Result<u32, Word>
        requires table { IsSeatOf self.now pass.old }
        requires clock { held.clock < length self.now.openings.items }
        requires spare { 1 ≤ pass.old.spare }
        requires somebody { held.ctrl ≢ 0 }
        requires named { owner_named held.clock held.ctrl ≡ pass.old.view.owner }
        requires gener { at.gener ≡ held.gener }
        requires ctrl { at.ctrl ≡ held.ctrl }
        requires word { IsWordOf at (seen_log pass.old.view held.clock) }
        requires room { at.number < self.now.rows }
        requires tick { tick ≤ TICK_MAX }
        requires step { IsWithin TIME_MAX step }
        requires freq { IsWithin FREQ_MAX freq }
        requires looked { pass.old.view.draft_clock ≡ held.clock }
        requires row { pass.old.view.draft
            ≡ row_words (clock_after (clock_at self.now.openings.items held.clock)
            (Change held.gener held.ctrl tick step freq ∷ seen_log pass.old.view held.clock)) }
        ensures table { IsSeatOf self.now pass.new }
        ensures same { LeavesOthers pass.old.view held.clock pass.new.view }
        ensures told { MatchResult result
            (λ n. EntryAdded pass.old.view held.clock (Change held.gener held.ctrl tick step freq) n
            pass.new.view)
            (λ x. WasOvertaken pass.old.view held.clock held.gener x pass.new.view) }
        ensures story { MatchResult result
            (λ n. pass.new.view.stories
            ≡ with_items (GaveReceipt held.clock held.gener held.ctrl tick step freq n ∷ [])
            pass.old.view.stories)
            (λ x. pass.new.view.stories
            ≡ with_items
            (WasSuperseded held.clock held.gener held.ctrl tick step freq x.gener x.number ∷ [])
            pass.old.view.stories) }
        ensures taken { OnOk result (pass.old.spare ≡ pass.new.spare + 1) }
        ensures kept { OnErr result (pass.new.spare ≡ pass.old.spare) }
    {
        let new = Word {
            number: at.number + 1,
            row: at.number + 1,
            ..at
        };
        let change = LogEntry::Change {
            gener: held.gener,
            ctrl: held.ctrl,
            tick,
            step,
            freq,
        };
        let old = pack(at);
        let found = self.table.shared.compare_exchange_with::<Adjust>(
            &mut pass.seat,
            usize::from(held.clock),
            old,
            pack(new),
            &change,
        );
        if found == old {
            pass.entries.push(Numbered {
                clock: held.clock,
                number: at.number + 1,
                entry: change,
            });
            Ok(at.number + 1)
        } else {
            Err(unpack(found))
        }
    }

    /// Gives a clock to a controller, in one addition: nobody, by 0, a port from 1 to
    /// `CONTROLLER_PORTS`, or the clock's own follower that copies clock s, by `FOLLOWER_BASE` +
    /// s. `gener`, at most `GENERATION_MAX`, is no older than the clock's generation, and newer
    /// where somebody holds the clock; the controllers that all clocks then have are a forest;
    /// the clock has had fewer than `ORDERS_MAX` orders. The clock is there, and the seat's `spare`
    /// is 1 or more, of which the order takes one. The receipt has the entry's number, which is
    /// above all that the hub's seat had seen of the clock. Does not allocate and waits for nobody.
    pub fn order(&self, hub: &mut HubSeat, clock: u8, gener: u32, ctrl: u8) -> Receipt
        requires table { IsSeatOf self.now hub.old }
        requires clock { clock < length self.now.openings.items }
        requires spare { 1 ≤ hub.old.spare }
        requires ctrl { IsController (length self.now.openings.items) ctrl }
        requires gener { gener ≤ GENERATION_MAX }
        requires follows { MayFollow (stamp_after (seen_log hub.old.view clock)) gener }
        requires forest { IsForest (ctrls_with hub.old.view clock ctrl) }
        requires few { order_count (seen_log hub.old.view clock) < ORDERS_MAX }
        ensures table { IsSeatOf self.now hub.new }
        ensures same { LeavesOthers hub.old.view clock hub.new.view }
        ensures ordered { EntryAdded hub.old.view clock (Order gener ctrl) result.number
            hub.new.view }
        ensures passes { hub.new.view.passes ≡ hub.old.view.passes }
        ensures spare { hub.old.spare ≡ hub.new.spare + 1 }
    {
        let number = self.appoint(hub, clock, gener, ctrl);
        Receipt { number }
    }

    // An order in one addition.
    fn appoint(&self, hub: &mut HubSeat, clock: u8, gener: u32, ctrl: u8) -> u32
        requires table { IsSeatOf self.now hub.old }
        requires clock { clock < length self.now.openings.items }
        requires spare { 1 ≤ hub.old.spare }
        requires follows { MayComeNext self.now.rows (seen_log hub.old.view clock)
            (Order gener ctrl) }
        requires forest { HasNoCircle
            (λ d. ctrl_after
            (seen_log (after_look hub.old.view clock
            (Order gener ctrl ∷ seen_log hub.old.view clock)) d)) }
        ensures table { IsSeatOf self.now hub.new }
        ensures same { LeavesOthers hub.old.view clock hub.new.view }
        ensures made { EntryAdded hub.old.view clock (Order gener ctrl) result hub.new.view }
        ensures passes { hub.new.view.passes ≡ hub.old.view.passes }
        ensures spare { hub.old.spare ≡ hub.new.spare + 1 }
    {
        let old = hub.stamps[usize::from(clock)];
        let new = u64::from(gener) * 256 + u64::from(ctrl);
        let step = (new - old) * 274877906944 + 524288;
        let found = self
            .table
            .shared
            .fetch_add::<Appoint>(&mut hub.seat, usize::from(clock), step);
        hub.stamps[usize::from(clock)] = new;
        let number = unpack(found).number + 1;
        hub.entries.push(Numbered {
            clock,
            number,
            entry: LogEntry::Order { gener, ctrl },
        });
        number
    }

    /// Lets pass and hub's seat know what the other has seen, and the hub's seat the whole story
    /// of the pass, at the end of which the page then stands where it says something. Before it
    /// the hub's seat was told an end of the story, and no page stood behind that. Does not
    /// allocate and waits for nobody.
    pub fn meet<N: Page>(&self, hub: &mut HubSeat, pass: &mut Pass, page: &N)
        requires hub_table { IsSeatOf self.now hub.old }
        requires pass_table { IsSeatOf self.now pass.old }
        ensures hub_table { IsSeatOf self.now hub.new }
        ensures pass_table { IsSeatOf self.now pass.new }
        ensures owner { pass.new.view.owner ≡ pass.old.view.owner }
        ensures number { pass.new.view.number ≡ pass.old.view.number }
        ensures hub_owner { hub.new.view.owner ≡ hub.old.view.owner }
        ensures hub_passes { hub.new.view.passes ≡ hub.old.view.passes }
        ensures orders { (clock : ℕ) →
            HasSameOrders (seen_log hub.old.view clock) (seen_log hub.new.view clock) }
        ensures met { (c : ℕ) →
            MeetYields (seen_log hub.old.view c) (seen_log pass.old.view c)
            (seen_log hub.new.view c) (seen_log pass.new.view c) }
        ensures before { GrewWithoutPages (story_of hub.old.view.stories pass.old.view.number)
            pass.old.view.stories.story }
        ensures story { pass.new.view.stories.story ≡ page_item (N.list page.now)
            ++ pass.old.view.stories.story }
        ensures level { pass.new.view.stories.told ≡ pass.new.view.stories.story }
        ensures heard { StoryTold hub.old.view.stories pass.old.view.number
            pass.new.view.stories.story hub.new.view.stories }
        ensures spare { pass.new.spare ≡ pass.old.spare }
        ensures hub_spare { hub.new.spare ≡ hub.old.spare }
    {
        self.bare_round(hub, &mut pass.seat);
        self.round::<Brand, N>(hub, &mut pass.seat, page);
    }

    // A round without a page.
    fn bare_round(&self, hub: &mut HubSeat, seat: &mut Place)
        requires hub_table { IsSeatOf self.now hub.old }
        requires pass_table { IsSeatOf self.now (seat_value seat.old.table_id seat.old.me.0) }
        requires seat { IsPassSeat seat.old.me }
        ensures hub_table { IsSeatOf self.now hub.new }
        ensures pass_table { IsSeatOf self.now (seat_value seat.new.table_id seat.new.me.0) }
        ensures seat { IsPassSeat seat.new.me }
        ensures hub_owner { hub.new.view.owner ≡ hub.old.view.owner }
        ensures hub_passes { hub.new.view.passes ≡ hub.old.view.passes }
        ensures orders { (clock : ℕ) →
            HasSameOrders (seen_log hub.old.view clock) (seen_log hub.new.view clock) }
        ensures met { (c : ℕ) →
            MeetYields (seen_log hub.old.view c) (seen_log seat.old.me.0 c)
            (seen_log hub.new.view c) (seen_log seat.new.me.0 c) }
        ensures round { RoundYields [] hub.old.view seat.old.me.0 hub.new.view seat.new.me.0 }
        ensures hub_spare { hub.new.spare ≡ hub.old.spare }
    {
        self.round::<Brand, NoPage>(hub, seat, &NoPage);
    }

    // A round: a note of the pass for the hub's seat, and one of the hub's seat for the pass.
    fn round<P: Said, N: Page>(&self, hub: &mut HubSeat, seat: &mut Place, page: &N)
        requires hub_table { IsSeatOf self.now hub.old }
        requires pass_table { IsSeatOf self.now (seat_value seat.old.table_id seat.old.me.0) }
        requires seat { IsPassSeat seat.old.me }
        ensures hub_table { IsSeatOf self.now hub.new }
        ensures pass_table { IsSeatOf self.now (seat_value seat.new.table_id seat.new.me.0) }
        ensures seat { IsPassSeat seat.new.me }
        ensures hub_owner { hub.new.view.owner ≡ hub.old.view.owner }
        ensures hub_passes { hub.new.view.passes ≡ hub.old.view.passes }
        ensures orders { (clock : ℕ) →
            HasSameOrders (seen_log hub.old.view clock) (seen_log hub.new.view clock) }
        ensures met { (c : ℕ) →
            MeetYields (seen_log hub.old.view c) (seen_log seat.old.me.0 c)
            (seen_log hub.new.view c) (seen_log seat.new.me.0 c) }
        ensures round { RoundYields (page_item P.page) hub.old.view seat.old.me.0 hub.new.view
            seat.new.me.0 }
        ensures hub_spare { hub.new.spare ≡ hub.old.spare }
    {
        self.tell_hub::<P, N>(hub, seat, page);
        self.tell_pass(hub, seat);
    }

    // A note of the pass for the hub's seat. The story has the page that the call picks.
    fn tell_hub<P: Said, N: Page>(&self, hub: &mut HubSeat, seat: &mut Place, _page: &N)
        requires hub_table { IsSeatOf self.now hub.old }
        requires pass_table { IsSeatOf self.now (seat_value seat.old.table_id seat.old.me.0) }
        requires seat { IsPassSeat seat.old.me }
        ensures hub_table { IsSeatOf self.now hub.new }
        ensures pass_table { seat.new.table_id ≡ seat.old.table_id }
        ensures seat { seat.new.me ≡ (with_page seat.old.me.0 P.page, seat.old.me.1) }
        ensures hub_owner { hub.new.view.owner ≡ hub.old.view.owner }
        ensures hub_passes { hub.new.view.passes ≡ hub.old.view.passes }
        ensures orders { (clock : ℕ) →
            HasSameOrders (seen_log hub.old.view clock) (seen_log hub.new.view clock) }
        ensures told { (c : ℕ) → Extends (seen_log hub.old.view c) (seen_log hub.new.view c)
            × Extends (seen_log seat.old.me.0 c) (seen_log hub.new.view c) }
        ensures heard { HearYields hub.old.view (with_page seat.old.me.0 P.page) hub.new.view }
        ensures hub_spare { hub.new.spare ≡ hub.old.spare }
    {
        let note = self.table.shared.split_seat::<Put<P>>(seat);
        self.table.shared.join_seat::<Hear>(&mut hub.seat, note);
        self.table.shared.load::<Tell>(&mut hub.seat, 0);
    }

    // A note of the hub's seat for the pass.
    fn tell_pass(&self, hub: &mut HubSeat, seat: &mut Place)
        requires hub_table { IsSeatOf self.now hub.old }
        requires pass_table { IsSeatOf self.now (seat_value seat.old.table_id seat.old.me.0) }
        requires seat { IsPassSeat seat.old.me }
        ensures hub { hub.new ≡ hub.old }
        ensures pass_table { IsSeatOf self.now (seat_value seat.new.table_id seat.new.me.0) }
        ensures seat { IsPassSeat seat.new.me }
        ensures told { (c : ℕ) → Extends (seen_log seat.old.me.0 c) (seen_log seat.new.me.0 c)
            × Extends (seen_log hub.old.view c) (seen_log seat.new.me.0 c)
            × (length (seen_log seat.old.me.0 c) ≤ length (seen_log hub.old.view c) →
            seen_log seat.new.me.0 c ≡ seen_log hub.old.view c) }
        ensures learnt { LearnYields seat.old.me.0 hub.old.view seat.new.me.0 }
    {
        let note = self.table.shared.split_seat::<Note>(&mut hub.seat);
        self.table.shared.join_seat::<Learn>(seat, note);
        self.table.shared.load::<Tell>(seat, 0);
    }
}

// How many words a table has: one for each clock, and three for each row.
fn word_count(rows: u32, clocks: usize) -> usize
    requires clocks { clocks ≤ CLOCKS_MAX }
    requires rows { rows ≤ ROWS_MAX }
    ensures { result ≡ clocks + clocks * rows * 3 }
{
    clocks + clocks * rows as usize * 3
}

// The state that a row says, of a clock with this opening.
fn state_of_row(opening: &ClockState, tick: u64, time: i64, freq: i64) -> ClockState
    ensures { result
        ≡ record { tick = tick; time = time; freq = freq; drift = opening.now.drift } }
{
    ClockState {
        tick,
        time,
        freq,
        drift: opening.drift,
    }
}

// Where a word of the row behind so many entries stands.
fn place_of(rows: u32, clocks: usize, clock: u8, row: u32, word: usize) -> usize
    requires clocks { clocks ≤ CLOCKS_MAX }
    requires rows { rows ≤ ROWS_MAX }
    requires row { row < rows }
    requires word { word < 3 }
    ensures { result ≡ row_place rows clocks clock row word }
{
    clocks + ((usize::from(clock) * rows as usize + row as usize) * 3 + word)
}

/// What is put at the end of a pass's story in a meet. Contracts see it as a list of whole numbers.
pub trait Page {
    ghost list: { Self → List ℕ };
}

/// A page that says nothing: its list is empty.
pub struct NoPage;

impl Page for NoPage {
    ghost list = { λ _. [] };
}
