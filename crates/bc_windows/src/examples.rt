ghost use Rattle.std.specs.Prelude.{◌≡◌, ℕ, List, [], ◌∷◌, map};
ghost use Rattle.bc_history.specs.declared.entry.Entry.{Entry};
ghost use Rattle.bc_history.specs.Phases.Inputs.{tick_of};
ghost use Rattle.bc_windows.specs.Windows.{IsMadeBy};
ghost use Rattle.bc_windows.specs.WindowExamples.{first_window, hurried_windows, lonely};
ghost use Rattle.bc_windows.specs.WindowExamples.{lonely_entries, lonely_windows};

/// Two entries, at 6 s and 7 s, are made by two windows that end then, the later one given after
/// the first entry; not by the earlier window alone, nor where the later one is given too early.
pub fn windows_make_a_history()
    ensures ticks { map (λ (e : Entry). tick_of e.input) lonely_entries
        ≡ 7000000000 ∷ 6000000000 ∷ [] }
    ensures made { IsMadeBy lonely lonely_windows lonely_entries }
    ensures alone { ¬ (IsMadeBy lonely (first_window ∷ []) lonely_entries) }
    ensures hurried { ¬ (IsMadeBy lonely hurried_windows lonely_entries) }
{}
