ghost use Rattle.std.specs.Prelude.{◌≡◌, None, Some, option_and_then, []};
ghost use Rattle.bc_history.specs.declared.entry.Run.{Run};
ghost use Rattle.bc_history.specs.declared.entry.Who.{Who};
ghost use Rattle.bc_history.specs.declared.scenario.Scenario.{Scenario};
ghost use Rattle.bc_history.specs.Run.History.{IsFinished};
ghost use Rattle.bc_history.specs.Run.World.{Event, Free, IsWorld, World, candidates, default_turn, step_of, world_opening};
ghost use Rattle.bc_history.specs.Scenario.ScenarioRules.{IsScenario};
ghost use Rattle.run_legal.specs.Runs.LegalRuns.{IsLegal};
ghost use Rattle.run_legal.specs.Runs.NamedChanges.{AreNamedSoFar};
ghost use Rattle.run_legal.specs.Runs.WorldInvariant.{IsRight, StaysRight};

/// A step that is no event, a reading or an exchange, leaves a World right that was right.
pub fn free_steps_stay_right()
    ensures { (s : Scenario) → IsScenario s → (w next : World) (who : Who) → IsRight s w
        → step_of s w who ≡ Some (Free next) → IsRight s next }
{}

/// Each change of the World's logs is named by the outcome of an entry, or by that of an actor that is
/// to enter it: so it begins, and each event, reading and exchange keeps it so.
pub fn changes_stay_named()
    ensures begins { (s : Scenario) → AreNamedSoFar s (world_opening s) }
    ensures events { (s : Scenario) (w next : World) (who : Who) → AreNamedSoFar s w
        → step_of s w who ≡ Some (Event next) → AreNamedSoFar s next }
    ensures others { (s : Scenario) → IsScenario s → (w next : World) (who : Who) → IsRight s w
        → AreNamedSoFar s w → step_of s w who ≡ Some (Free next) → AreNamedSoFar s next }
{}

/// Where the default rule names nobody who has a step, nobody's step is due before the run ends; and
/// if the World is right, nothing is due after its history.
pub fn nothing_is_due_at_the_end()
    ensures nobody { (s : Scenario) (w : World)
        → option_and_then (step_of s w) (default_turn s w) ≡ None → candidates s w ≡ [] }
    ensures finished { (s : Scenario) (w : World) → IsRight s w
        → option_and_then (step_of s w) (default_turn s w) ≡ None → IsFinished s w.entries }
{}

/// Where each step leaves the World right, the run of a scenario is legal.
pub fn legal_by_steps()
    ensures { (s : Scenario) → IsScenario s → StaysRight s
        → (run : Run) → IsWorld s run → IsLegal s run }
{}
