ghost use Rattle.std.specs.Prelude.{◌≡◌, ◌≢◌, ◌≤◌, ℕ, List, ◌∷◌, Option, Some, None, false, IsTrue, length, replicate, reverse, take};
ghost use Rattle.ptp_profile.specs.declared.timing.Action.{Action};
ghost use Rattle.ptp_profile.specs.declared.timing.Action.TheVariants.{Unlocked};
ghost use Rattle.ptp_profile.specs.declared.seats.Held.{Held};
ghost use Rattle.ptp_profile.specs.declared.seats.LogEntry.{LogEntry};
ghost use Rattle.ptp_profile.specs.Roles.Forest.{IsForest, ctrls_after};
ghost use Rattle.ptp_profile.specs.Roles.Edges.{AtMostOneFollows, edges_of};
ghost use Rattle.bc_history.specs.declared.entry.Entry.{Entry};
ghost use Rattle.bc_history.specs.declared.entry.Input.{Input};
ghost use Rattle.bc_history.specs.declared.entry.Seen.{Seen};
ghost use Rattle.bc_history.specs.declared.scenario.Scenario.{Scenario};
ghost use Rattle.bc_history.specs.Phases.EffectKinds.{TellsByKind, is_there};
ghost use Rattle.bc_history.specs.Phases.EntryEffects.{entry_after};
ghost use Rattle.bc_history.specs.Run.History.{IsHistory, IsFinished, Follows};
ghost use Rattle.bc_history.specs.Phases.Inputs.{is_read, tick_of};
ghost use Rattle.bc_history.specs.Run.ExchangeOutcomes.{Agrees, IsHolder, exchange_result};
ghost use Rattle.bc_history.specs.Phases.PortIdentities.{ArePortsOf};
ghost use Rattle.bc_history.specs.Phases.RolePhase.{clocks_of, states_of};
ghost use Rattle.bc_history.specs.Scenario.ScenarioRules.{IsScenario};
ghost use Rattle.bc_history.specs.Phases.Step.{state_of};
ghost use Rattle.bc_history.specs.Run.World.{End, IsEnd};

/// After every list of entries at most one port is UNCALIBRATED or SLAVE.
pub fn at_most_one_follows()
    ensures { (s : Scenario) (entries : List Entry)
        → AtMostOneFollows (states_of (state_of s entries).core.ports) }
{}

/// After every list of entries the ports are those of the scenario: as many, and each with its number
/// and its configuration.
pub fn ports_stay()
    ensures { (s : Scenario) (entries : List Entry) → ArePortsOf s (state_of s entries).core.ports }
{}

/// A scenario ends in at most one way: with one run, or at one turn that has no step, or at one event
/// too many.
pub fn has_one_end()
    ensures { (s : Scenario) (a b : End) → IsEnd s a → IsEnd s b → a ≡ b }
{}

/// Along a history moments never fall, and none is below the tick of its entry's input.
pub fn moments_never_fall()
    ensures { (s : Scenario) (e f : Entry) (before : List Entry) → IsHistory s (e ∷ f ∷ before)
        → (f.moment ≤ e.moment) × (tick_of e.input ≤ e.moment) }
{}

/// After every list of entries each clock has the edge that the ports and the parent give it.
pub fn edges_are_those_of_the_ports()
    ensures { (s : Scenario) (entries : List Entry) → (state_of s entries).roles.edges
        ≡ edges_of (length s.clocks) (state_of s entries).core.master.parent
        (states_of (state_of s entries).core.ports) (clocks_of (state_of s entries).core.ports) }
{}

/// After every number of all the orders that a list of entries gives, the controllers of the clocks
/// are a forest: no clock copies itself, over others or not.
pub fn controllers_are_always_a_forest()
    ensures { (s : Scenario) → IsScenario s → (entries : List Entry) (k : ℕ)
        → IsForest (ctrls_after (replicate (length s.clocks) 0)
        (take k (reverse (state_of s entries).roles.orders))) }
{}

/// What an entry tells is of its input's kind: a frame has a fate, and it alone gives a measure; a
/// frame and a timer send frames; a turn is told whom its follower copies; a query asks and is
/// answered. So does an entry of a history, and its port or its follower is there.
pub fn entries_tell_by_their_kind()
    ensures made { (s : Scenario) (before : List Entry) (input : Input) (seen : Option Seen)
        → TellsByKind (state_of s before) (entry_after s before input seen) }
    ensures follows { (s : Scenario) (before : List Entry) (e : Entry) → Follows s before e
        → TellsByKind (state_of s before) e }
    ensures there { (s : Scenario) (before : List Entry) (e : Entry) → Follows s before e
        → IsTrue (is_there (state_of s before) e.input) }
{}

/// An entry follows with a reading where it is a frame or a timer, and else without one.
pub fn readings_come_with_frames_and_timers()
    ensures unread { (s : Scenario) (before : List Entry) (e : Entry)
        → IsTrue (is_read e.input) → e.seen ≡ None → ¬ (Follows s before e) }
    ensures read { (s : Scenario) (before : List Entry) (e : Entry) (seen : Seen)
        → is_read e.input ≡ false → e.seen ≡ Some seen → ¬ (Follows s before e) }
{}

/// Nothing follows a history after which nobody has an input that is due.
pub fn nothing_follows_the_end()
    ensures { (s : Scenario) (before : List Entry) → IsFinished s before
        → (e : Entry) → ¬ (Follows s before e) }
{}

/// What an exchange under a held stamp gives agrees with the log that it leaves.
pub fn exchanges_agree()
    ensures { (rows : ℕ) (held : Held) (tick : ℕ) (action : Action) (log : List LogEntry)
        → action ≢ Unlocked → IsHolder log held
        → Agrees rows (exchange_result rows held tick action log).1 held tick action
        (exchange_result rows held tick action log).0 }
{}
