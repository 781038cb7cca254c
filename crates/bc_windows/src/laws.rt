ghost use Rattle.std.specs.Prelude.{◌<◌, ◌≤◌, ◌∷◌, ◌++◌, ℕ, List, All};
ghost use Rattle.bc_history.specs.declared.entry.Entry.{Entry};
ghost use Rattle.bc_history.specs.declared.scenario.Scenario.{Scenario};
ghost use Rattle.bc_history.specs.Phases.Inputs.{tick_of};
ghost use Rattle.bc_history.specs.Run.History.{Continues, IsFinished};
ghost use Rattle.bc_history.specs.Scenario.ScenarioRules.{IsScenario};
ghost use Rattle.bc_windows.specs.Windows.{BeganEmpty, IsBeyond, IsMadeBy, Window, latest};

/// Where no entry of a history is beyond a tick and no actor has a next input up to it, all that
/// follows is beyond that tick, and no actor has a next input up to it then either.
pub fn nothing_falls_behind()
    ensures entries { (s : Scenario) (before more : List Entry) (end : ℕ) → IsScenario s
        → Continues s (more ++ before) → All (λ (e : Entry). tick_of e.input ≤ end) before
        → IsBeyond s before end → All (λ (e : Entry). end < tick_of e.input) more }
    ensures inputs { (s : Scenario) (before more : List Entry) (end : ℕ) → IsScenario s
        → Continues s (more ++ before) → All (λ (e : Entry). tick_of e.input ≤ end) before
        → IsBeyond s before end → IsBeyond s (more ++ before) end }
{}

/// Where windows made a history, from no entries on, each entry is up to the latest last tick of
/// them, and each that was made since the newest window was given is beyond the last ticks of all
/// former windows.
pub fn windows_keep_their_order()
    ensures within { (s : Scenario) (w : Window) (former : List Window) (entries : List Entry)
        → IsMadeBy s (w ∷ former) entries → BeganEmpty (w ∷ former)
        → All (λ (e : Entry). tick_of e.input ≤ latest (w ∷ former)) entries }
    ensures behind { (s : Scenario) (w v : Window) (former : List Window) (more : List Entry)
        → IsScenario s → Continues s (more ++ w.begun)
        → IsMadeBy s (w ∷ v ∷ former) (more ++ w.begun) → BeganEmpty (w ∷ v ∷ former)
        → All (λ (e : Entry). latest (v ∷ former) < tick_of e.input) more }
{}

/// A history is finished exactly where no actor has a next input up to the end of the run.
pub fn finished_is_beyond_the_end()
    ensures beyond { (s : Scenario) (entries : List Entry)
        → IsFinished s entries → IsBeyond s entries s.options.duration }
    ensures finished { (s : Scenario) (entries : List Entry)
        → IsBeyond s entries s.options.duration → IsFinished s entries }
{}
