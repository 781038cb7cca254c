ghost use Rattle.std.specs.Prelude.{◌≡◌, ◌≢◌, ◌<◌, ◌≤◌, ◌+◌, ℕ, List, ◌∷◌, All, Contains, Some};
ghost use Rattle.model_clock.specs.declared.state.ClockState.{ClockState};
ghost use Rattle.ptp_profile.specs.declared.roles.RoleOrder.{RoleOrder};
ghost use Rattle.ptp_profile.specs.declared.seats.Held.{Held};
ghost use Rattle.ptp_profile.specs.declared.seats.LogEntry.{LogEntry};
ghost use Rattle.ptp_profile.specs.declared.timing.Action.{Action};
ghost use Rattle.ptp_profile.specs.declared.timing.Action.TheVariants.{Unlocked};
ghost use Rattle.ptp_profile.specs.Roles.SeatLogs.{IsLawful, with_order};
ghost use Rattle.bc_history.specs.declared.entry.Entry.{Entry};
ghost use Rattle.bc_history.specs.declared.entry.Input.TheVariants.{Report};
ghost use Rattle.bc_history.specs.declared.entry.Outcome.{Outcome};
ghost use Rattle.bc_history.specs.declared.entry.Seen.{Seen};
ghost use Rattle.bc_history.specs.declared.entry.Who.{Who};
ghost use Rattle.bc_history.specs.declared.scenario.Scenario.{Scenario};
ghost use Rattle.bc_history.specs.Phases.State.{Event};
ghost use Rattle.bc_history.specs.Phases.Step.{state_of};
ghost use Rattle.bc_history.specs.Run.Actors.{entries_of};
ghost use Rattle.bc_history.specs.Run.ExchangeOutcomes.{Agrees, IsHolder};
ghost use Rattle.bc_history.specs.Run.History.{Continues, Follows};
ghost use Rattle.bc_history.specs.Phases.HubPort.{TickMeasure};
ghost use Rattle.bc_history.specs.Run.PortEntries.{measured_by};
ghost use Rattle.bc_history.specs.Scenario.ScenarioRules.{IsScenario};
ghost use Rattle.bc_history.specs.Run.World.{World, run_of, world_opening};
ghost use Rattle.run_legal.specs.Numbers.Marks.{marks_in, marks_of};
ghost use Rattle.run_legal.specs.Numbers.GrownLogs.{AreSameOrChanged, logs_after_exchange, outcome_of_exchange};
ghost use Rattle.run_legal.specs.Numbers.LogNumbers.{numbers_in};
ghost use Rattle.run_legal.specs.Numbers.Knowledge.{AreRising, IsAbreast, IsNumbered, IsWithin};
ghost use Rattle.run_legal.specs.Runs.Courses.{AreLogs, EachAfter, IsAgreed, IsCourse, IsReadRight, IsSeen};
ghost use Rattle.run_legal.specs.Runs.LegalRuns.{IsOpen};
ghost use Rattle.run_legal.specs.Runs.WorldInvariant.{IsOpenThroughout, IsRight, StaysRight};

/// What was read of a clock, and what an exchange with it gave, stays right as its log grows.
pub fn logs_grow()
    ensures readings { (opening : ClockState) (log : List LogEntry) (entry : LogEntry) (tick : ℕ)
        (seen : Seen)
        → IsSeen opening log tick seen → IsSeen opening (entry ∷ log) tick seen }
    ensures outcomes { (rows : ℕ) (entry : LogEntry) (log : List LogEntry) (held : Held) (tick : ℕ)
        (action : Action) (outcome : Outcome)
        → Agrees rows log held tick action outcome
        → Agrees rows (entry ∷ log) held tick action outcome }
{}

/// The orders of an entry of a history are of the generation behind the one before it, and no order
/// so far is of a later generation than the present one.
pub fn orders_are_newer()
    ensures made { (s : Scenario) (e : Entry) (before : List Entry) → Follows s before e
        → All (λ (order : RoleOrder). order.gener ≡ (state_of s before).roles.gener + 1)
        e.effects.orders }
    ensures entries { (s : Scenario) (entries : List Entry) → Continues s entries
        → All (λ (e : Entry). All
        (λ (order : RoleOrder). order.gener ≤ (state_of s entries).roles.gener) e.effects.orders)
        entries }
    ensures orders { (s : Scenario) (entries : List Entry)
        → All (λ (order : RoleOrder). order.gener ≤ (state_of s entries).roles.gener)
        (state_of s entries).roles.orders }
{}

/// A newer order in its clock's log changes no number that former entries have for any clock.
pub fn newer_orders_keep_numbers()
    ensures { (s : Scenario) (logs : List (List LogEntry)) (newer : RoleOrder) (clock : ℕ)
        (entries : List Entry)
        → All (λ (e : Entry). All
        (λ (order : RoleOrder). order.gener < newer.gener) e.effects.orders) entries
        → numbers_in s (with_order logs newer) clock entries ≡ numbers_in s logs clock entries }
{}

/// Where each entry is numbered after those before it, the numbers of each actor rise along all
/// entries.
pub fn numbers_of_an_actor_rise()
    ensures { (s : Scenario) (logs : List (List LogEntry)) (who : Who) (entries : List Entry)
        → EachAfter (IsNumbered s logs) entries → AreRising (marks_in s (entries_of who entries)) }
{}

/// Where an event's readings are right and its outcome agrees with the log, no number that it knew is
/// beyond its clock's log.
pub fn numbers_are_within_logs()
    ensures { (s : Scenario) (logs : List (List LogEntry)) (event : Event)
        → IsReadRight s logs event → IsAgreed s logs event.input
        → All (IsWithin logs) (marks_of s event) }
{}

/// Where each log is as it was or has one change more, and the logs are lawful, entries and logs that
/// belonged together go on to do so, and an event that would have been abreast goes on to be.
pub fn changes_keep_courses()
    ensures courses { (s : Scenario) (entries : List Entry) (logs later : List (List LogEntry))
        → AreSameOrChanged logs later → AreLogs s entries later
        → IsCourse s entries logs → IsCourse s entries later }
    ensures abreast { (s : Scenario) (entries : List Entry) (logs later : List (List LogEntry))
        (event : Event)
        → AreSameOrChanged logs later
        → IsAbreast s logs event entries → IsAbreast s later event entries }
{}

/// Where an order of a history gave a clock to somebody, the generation in force in a lawful log of the
/// clock is not before that of the order, and where it is the same, so is the controller.
pub fn ordered_stamps_are_holders()
    ensures { (s : Scenario) (entries : List Entry) (log : List LogEntry) (held : Held)
        → held.ctrl ≢ 0 → IsLawful held.clock (state_of s entries).roles.orders log
        → Contains (state_of s entries).roles.orders
        (record { clock = held.clock; gener = held.gener; ctrl = held.ctrl })
        → IsHolder log held }
{}

/// An exchange of a port under the stamp of its last measure keeps entries and logs that belong
/// together, and a report of it agrees with the logs that it leaves. No log has an order more.
pub fn port_exchanges_keep_courses()
    ensures courses { (s : Scenario) → IsScenario s → (entries : List Entry)
        (logs : List (List LogEntry)) (p : ℕ) (m : TickMeasure) (action : Action)
        → IsCourse s entries logs → measured_by p entries ≡ Some m
        → IsCourse s entries (logs_after_exchange s logs m.held m.tick action) }
    ensures agreed { (s : Scenario) → IsScenario s → (entries : List Entry)
        (logs : List (List LogEntry)) (p : ℕ) (m : TickMeasure) (action : Action)
        → IsCourse s entries logs → measured_by p entries ≡ Some m → action ≢ Unlocked
        → IsAgreed s (logs_after_exchange s logs m.held m.tick action)
        (Report p m.tick m.held.gener action
        (outcome_of_exchange s logs m.held m.tick action)) }
    ensures grown { (s : Scenario) (logs : List (List LogEntry)) (held : Held) (tick : ℕ)
        (action : Action)
        → AreSameOrChanged logs (logs_after_exchange s logs held tick action) }
{}

/// The World begins right.
pub fn the_world_begins_right()
    ensures { (s : Scenario) → IsRight s (world_opening s) }
{}

/// The run of a World that is right is open, so far as it goes. Where each step leaves the World
/// right, each of its states is an open run.
pub fn open_by_steps()
    ensures now { (s : Scenario) (w : World) → IsRight s w → IsOpen s (run_of s w) }
    ensures throughout { (s : Scenario) → StaysRight s → IsOpenThroughout s }
{}
