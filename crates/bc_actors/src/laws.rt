ghost use Rattle.std.specs.Prelude.{◌≡◌, ◌∷◌, [], List, All, reverse};
ghost use Rattle.bc_history.specs.declared.entry.Run.{Run};
ghost use Rattle.bc_history.specs.declared.scenario.Scenario.{Scenario};
ghost use Rattle.bc_history.specs.Run.History.{Continues};
ghost use Rattle.bc_history.specs.Scenario.ScenarioRules.{IsScenario};
ghost use Rattle.run_legal.specs.Runs.LegalRuns.{IsWindowed};
ghost use Rattle.bc_windows.specs.Windows.{BeganEmpty, IsMadeBy, Window};
ghost use Rattle.bc_actors.specs.OptionWindows.{IsOneWindow};

/// Where windows made the entries of a run, from no entries on, and each was given once nothing was
/// to come before the window of the option that its last tick is in, the run is windowed; so is a
/// run with no entries.
pub fn runs_by_windows_are_windowed()
    ensures windowed { (s : Scenario) (w : Window) (former : List Window) (run : Run)
        → IsScenario s → Continues s (reverse run.entries)
        → IsMadeBy s (w ∷ former) (reverse run.entries) → BeganEmpty (w ∷ former)
        → All (IsOneWindow s) (w ∷ former) → IsWindowed s run }
    ensures empty { (s : Scenario) (run : Run) → run.entries ≡ [] → IsWindowed s run }
{}
