ghost use Rattle.std.specs.Prelude.{◌≡◌, ◌<◌, List, ◌∷◌, Some, length};
ghost use Rattle.ptp_base.specs.declared.limits.TheConstants.{ENTRIES_MAX};
ghost use Rattle.ptp_profile.specs.declared.seats.LogEntry.{LogEntry};
ghost use Rattle.ptp_profile.specs.Roles.SeatLogs.{with_orders};
ghost use Rattle.bc_history.specs.declared.entry.Entry.{Entry};
ghost use Rattle.bc_history.specs.declared.entry.Who.{Who};
ghost use Rattle.bc_history.specs.declared.scenario.Scenario.{Scenario};
ghost use Rattle.bc_history.specs.Run.World.{Event, World, step_of};
ghost use Rattle.bc_history.specs.Scenario.ScenarioRules.{IsScenario};
ghost use Rattle.run_legal.specs.Runs.Courses.{IsCourse};
ghost use Rattle.run_legal.specs.Runs.RightEntries.{IsRightEntry};
ghost use Rattle.run_legal.specs.Runs.WorldInvariant.{IsRight};

/// Entries and logs that belong together go on to do so with a right entry more, where its orders are
/// appended to the logs.
pub fn right_entries_keep_courses()
    ensures { (s : Scenario) → IsScenario s → (entries : List Entry) (logs : List (List LogEntry))
        (e : Entry) → IsCourse s entries logs → IsRightEntry s entries logs e
        → length entries < ENTRIES_MAX
        → IsCourse s (e ∷ entries) (with_orders logs e.effects.orders) }
{}

/// An event of any actor leaves a World right that was so, where there is room for its entry.
pub fn events_stay_right()
    ensures { (s : Scenario) → IsScenario s → (w next : World) (who : Who)
        → IsRight s w → step_of s w who ≡ Some (Event next)
        → length w.entries < ENTRIES_MAX → IsRight s next }
{}
