ghost use Rattle.std.specs.Prelude.{ℕ, List};
ghost use Rattle.bc_history.specs.declared.scenario.Scenario.{Scenario};
ghost use Rattle.bc_history.specs.Scenario.LineFaults.{Stands};
ghost use Rattle.bc_history.specs.Scenario.ScenarioRules.{IsScenario};

/// A scenario that a text stands for keeps the rules: its numbers are in their ranges, its ports,
/// records and turns are of clocks and ports that are there, and ticks don't fall.
pub fn scenarios_keep_the_rules()
    ensures { (text : List ℕ) (s : Scenario) → Stands text s → IsScenario s }
{}
