ghost use Rattle.std.specs.Prelude.{List, All};
ghost use Rattle.bc_history.specs.declared.entry.Entry.{Entry};
ghost use Rattle.bc_history.specs.declared.scenario.Scenario.{Scenario};
ghost use Rattle.bc_history.specs.Run.FormedRuns.{IsFormedEntry, IsFormedOpening};
ghost use Rattle.bc_history.specs.Run.History.{Follows};
ghost use Rattle.bc_history.specs.Scenario.ScenarioRules.{IsScenario};

/// An entry that follows holds nothing that a text can't show.
pub fn entries_are_formed()
    ensures { (s : Scenario) (before : List Entry) (e : Entry) → IsScenario s
        → Follows s before e → IsFormedEntry e }
{}

/// Each clock of a scenario opens a log whose opening a text shows.
pub fn openings_are_formed()
    ensures { (s : Scenario) → IsScenario s → All IsFormedOpening s.clocks }
{}
