ghost use Rattle.std.specs.Prelude.{◌≡◌, ◌≤◌, ℕ, List, ◌∷◌, Some, None, All};
ghost use Rattle.ptp_profile.specs.declared.seats.Held.{Held};
ghost use Rattle.ptp_profile.specs.declared.timing.Measure.{Measure};
ghost use Rattle.ptp_profile.specs.Timing.Servo.{newest_action};
ghost use Rattle.bc_history.specs.declared.entry.Entry.{Entry};
ghost use Rattle.bc_history.specs.declared.entry.Who.TheVariants.{Port};
ghost use Rattle.bc_history.specs.declared.scenario.Options.{Options};
ghost use Rattle.bc_history.specs.declared.scenario.Scenario.{Scenario};
ghost use Rattle.bc_history.specs.Phases.HubPort.{HubPort, TickMeasure};
ghost use Rattle.bc_history.specs.Phases.Inputs.{IsReadTime, IsTime, port_at, port_of};
ghost use Rattle.bc_history.specs.Phases.OpeningState.{servo_of};
ghost use Rattle.bc_history.specs.Phases.Step.{state_of};
ghost use Rattle.bc_history.specs.Run.Actors.{entries_of};
ghost use Rattle.bc_history.specs.Run.History.{Continues, Follows};
ghost use Rattle.bc_history.specs.Run.PortEntries.{IsHeldByPort, measured_by, taken_by};
ghost use Rattle.bc_history.specs.declared.place.PortPlace.TheVariants.{Waits};
ghost use Rattle.bc_history.specs.Run.PortPlace.{place_by_entries, port_job};
ghost use Rattle.bc_history.specs.Run.Samples.{port_samples};
ghost use Rattle.bc_history.specs.Scenario.ScenarioRules.{IsScenario};

/// A port keeps what its own last entry measured, and it took as many records as its entries brought.
pub fn ports_keep_their_entries()
    ensures measured { (s : Scenario) (entries : List Entry) (p : ℕ) (h : HubPort)
        → Continues s entries → port_at (state_of s entries).core.ports p ≡ Some h
        → h.measured ≡ measured_by p entries }
    ensures taken { (s : Scenario) (entries : List Entry) (p : ℕ) (h : HubPort)
        → port_at (state_of s entries).core.ports p ≡ Some h → h.taken ≡ taken_by p entries }
{}

/// What entries say of a port is said by its own alone: its samples, its place, its last measure, and
/// how many of its records came.
pub fn ports_are_told_by_their_own_entries()
    ensures samples { (p : ℕ) (entries : List Entry)
        → port_samples p entries ≡ port_samples p (entries_of (Port p) entries) }
    ensures place { (o : Options) (p : ℕ) (entries : List Entry)
        → place_by_entries o p entries ≡ place_by_entries o p (entries_of (Port p) entries) }
    ensures measured { (p : ℕ) (entries : List Entry)
        → measured_by p entries ≡ measured_by p (entries_of (Port p) entries) }
    ensures taken { (p : ℕ) (entries : List Entry)
        → taken_by p entries ≡ taken_by p (entries_of (Port p) entries) }
{}

/// A port whose last entry measured nothing waits; else it goes to the job of its servo's action, at the
/// measure's tick and under its stamp. A measure comes up to the end of the run.
pub fn places_are_by_measures()
    ensures none { (o : Options) (p : ℕ) (entries : List Entry)
        → measured_by p entries ≡ None → place_by_entries o p entries ≡ Waits }
    ensures some { (o : Options) (p : ℕ) (entries : List Entry) (m : TickMeasure)
        → measured_by p entries ≡ Some m → place_by_entries o p entries
        ≡ port_job m.tick m.held (newest_action (servo_of o) (port_samples p entries)) }
    ensures due { (s : Scenario) (p : ℕ) (entries : List Entry) (m : TickMeasure)
        → Continues s entries → measured_by p entries ≡ Some m → m.tick ≤ s.options.duration }
{}

/// A measure bears the stamp of its port's clock, which has the port as its controller and which an
/// order before the measure gave; so does the last measure of a port, as long as the port keeps it.
pub fn measures_bear_their_ports_stamp()
    ensures made { (s : Scenario) → IsScenario s
        → (before : List Entry) (e : Entry) (p : ℕ) (m : Measure × Held)
        → Follows s before e → port_of e.input ≡ Some p → e.effects.measure ≡ Some m
        → IsHeldByPort s (state_of s before).roles.orders p m.1 }
    ensures kept { (s : Scenario) → IsScenario s
        → (entries : List Entry) (p : ℕ) (m : TickMeasure)
        → Continues s entries → measured_by p entries ≡ Some m
        → IsHeldByPort s (state_of s entries).roles.orders p m.held }
{}

/// Where every entry that reads its clock reads a time, the time of a measure is one: that at which the
/// Sync of the measure arrived.
pub fn measures_bear_readings()
    ensures { (s : Scenario) (entries : List Entry) (e : Entry) (m : Measure × Held)
        → Continues s (e ∷ entries) → All IsReadTime (e ∷ entries)
        → e.effects.measure ≡ Some m → IsTime m.0.local }
{}
