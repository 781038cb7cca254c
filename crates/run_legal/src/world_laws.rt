ghost use Rattle.std.specs.Prelude.{◌<◌, ◌≡◌, ℕ, Contains, Some};
ghost use Rattle.bc_history.specs.declared.entry.Input.{Input};
ghost use Rattle.bc_history.specs.declared.entry.Run.{Run};
ghost use Rattle.bc_history.specs.declared.entry.Who.{Who};
ghost use Rattle.bc_history.specs.declared.scenario.Scenario.{Scenario};
ghost use Rattle.bc_history.specs.Phases.Inputs.{tick_of};
ghost use Rattle.bc_history.specs.Phases.Step.{state_of};
ghost use Rattle.bc_history.specs.Run.Actors.{actors_of};
ghost use Rattle.bc_history.specs.Run.NextInputs.{IsNext};
ghost use Rattle.bc_history.specs.Run.World.{IsWorld, Place, World, place_due, place_of};
ghost use Rattle.bc_history.specs.Scenario.ScenarioRules.{IsScenario};
ghost use Rattle.run_legal.specs.Runs.LegalRuns.{IsLegal};
ghost use Rattle.run_legal.specs.Runs.WorldInvariant.{IsOpenThroughout, IsRight, StaysRight};

/// Each step of each actor leaves a World right that was so. So each state of a scenario that goes on
/// is an open run, and the run of a scenario is legal.
pub fn world_runs_are_legal()
    ensures steps { (s : Scenario) → IsScenario s → StaysRight s }
    ensures throughout { (s : Scenario) → IsScenario s → IsOpenThroughout s }
    ensures legal { (s : Scenario) → IsScenario s → (run : Run) → IsWorld s run → IsLegal s run }
{}

/// In a World that is right, whoever's next step has a tick has a next input of that tick; and
/// where the next steps of all actors are beyond a tick, so are all next inputs.
pub fn next_inputs_are_of_actors()
    ensures has_next { (s : Scenario) (w : World) → IsRight s w
        → (who : Who) (place : Place) (tick : ℕ) → place_of w who ≡ Some place
        → place_due s (state_of s w.entries) who place ≡ Some tick
        → (input : Input) × IsNext s (state_of s w.entries) input × (tick_of input ≡ tick) }
    ensures beyond { (s : Scenario) (w : World) (end : ℕ) → IsRight s w
        → ((who : Who) (place : Place) (tick : ℕ) → Contains (actors_of s) who
        → place_of w who ≡ Some place
        → place_due s (state_of s w.entries) who place ≡ Some tick → end < tick)
        → (input : Input) → IsNext s (state_of s w.entries) input → end < tick_of input }
{}
