ghost use Rattle.std.specs.Prelude.{◌≡◌, ◌≤◌, ℕ, List, Some, None, length, slice_get};
ghost use Rattle.bc_history.specs.declared.entry.Entry.{Entry};
ghost use Rattle.bc_history.specs.declared.entry.Who.TheVariants.{Follower as A_follower};
ghost use Rattle.bc_history.specs.declared.place.FollowerPlace.TheVariants.{ReadsTheirs, Turns};
ghost use Rattle.bc_history.specs.declared.scenario.Options.{Options};
ghost use Rattle.bc_history.specs.declared.scenario.Scenario.{Scenario};
ghost use Rattle.bc_history.specs.Phases.OpeningState.{follower_count};
ghost use Rattle.bc_history.specs.Phases.State.{Follower, TickLead};
ghost use Rattle.bc_history.specs.Phases.Step.{state_of};
ghost use Rattle.bc_history.specs.Run.Actors.{entries_of};
ghost use Rattle.bc_history.specs.Run.FollowerEntries.{IsLeadOf, leading_by, turns_by};
ghost use Rattle.bc_history.specs.Run.FollowerPlace.{FollowerStep, follower_place, follower_place_by_entries};
ghost use Rattle.bc_history.specs.Run.History.{Continues};
ghost use Rattle.bc_history.specs.Run.Samples.{follower_samples};
ghost use Rattle.bc_history.specs.Scenario.ScenarioRules.{IsScenario};

/// After every list of entries there are as many followers as the scenario has.
pub fn followers_stay()
    ensures { (s : Scenario) (entries : List Entry)
        → length (state_of s entries).followers ≡ follower_count s }
{}

/// A follower took as many turns as its entries have, and it keeps what its own last entry told it to
/// copy.
pub fn followers_keep_their_entries()
    ensures turns { (s : Scenario) (entries : List Entry) (c : ℕ) (f : Follower)
        → slice_get (state_of s entries).followers c ≡ Some f → f.turns ≡ turns_by c entries }
    ensures leading { (s : Scenario) (entries : List Entry) (c : ℕ) (f : Follower)
        → Continues s entries → slice_get (state_of s entries).followers c ≡ Some f
        → f.leading ≡ leading_by c entries }
{}

/// What entries say of a follower is said by its own alone: its samples, its place, how many turns it
/// took, and what it was last told to copy.
pub fn followers_are_told_by_their_own_entries()
    ensures samples { (c : ℕ) (entries : List Entry)
        → follower_samples c entries ≡ follower_samples c (entries_of (A_follower c) entries) }
    ensures by_entries { (c : ℕ) (entries : List Entry) → follower_place_by_entries c entries
        ≡ follower_place_by_entries c (entries_of (A_follower c) entries) }
    ensures place { (o : Options) (c : ℕ) (entries : List Entry) (steps : List FollowerStep)
        → follower_place o c entries steps
        ≡ follower_place o c (entries_of (A_follower c) entries) steps }
    ensures turns { (c : ℕ) (entries : List Entry)
        → turns_by c entries ≡ turns_by c (entries_of (A_follower c) entries) }
    ensures leading { (c : ℕ) (entries : List Entry)
        → leading_by c entries ≡ leading_by c (entries_of (A_follower c) entries) }
{}

/// A follower whose last entry told it nothing to copy takes a turn next; else it reads the clock that
/// it was told, at that entry's tick, which comes up to the end of the run.
pub fn follower_places_are_by_leads()
    ensures none { (c : ℕ) (entries : List Entry)
        → leading_by c entries ≡ None → follower_place_by_entries c entries ≡ Turns }
    ensures some { (c : ℕ) (entries : List Entry) (l : TickLead) → leading_by c entries ≡ Some l
        → follower_place_by_entries c entries ≡ ReadsTheirs l.tick l.lead }
    ensures due { (s : Scenario) (c : ℕ) (entries : List Entry) (l : TickLead)
        → Continues s entries → leading_by c entries ≡ Some l → l.tick ≤ s.options.duration }
{}

/// What a follower was told to copy is a clock of the scenario, and an order gave the follower's clock
/// to the follower, to copy that one.
pub fn leads_are_ordered()
    ensures { (s : Scenario) → IsScenario s → (entries : List Entry) (c : ℕ) (l : TickLead)
        → Continues s entries → leading_by c entries ≡ Some l
        → IsLeadOf s (state_of s entries).roles.orders c l.lead }
{}
