ghost use Rattle.bc_history.specs.declared.entry.Run.{Run};
ghost use Rattle.bc_history.specs.declared.scenario.Scenario.{Scenario};
ghost use Rattle.bc_history.specs.Run.FormedRuns.{IsFormedRun};
ghost use Rattle.bc_history.specs.Scenario.ScenarioRules.{IsScenario};
ghost use Rattle.run_legal.specs.Runs.LegalRuns.{IsLegal, IsOpen};

/// An open run of a scenario holds nothing that a text can't show, and so does a legal one.
pub fn open_runs_are_formed()
    ensures is_open { (s : Scenario) → IsScenario s → (run : Run) → IsOpen s run → IsFormedRun run }
    ensures legal { (s : Scenario) → IsScenario s → (run : Run) → IsLegal s run → IsFormedRun run }
{}
