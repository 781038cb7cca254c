ghost use Rattle.std.specs.Prelude.{◌≡◌, ℕ, ◌+◌, List, length, map, slice_set, Some, None};
ghost use Rattle.bc_history.specs.declared.scenario.Scenario.{Scenario};
ghost use Rattle.bc_history.specs.declared.scenario.Turner.{Turner};
ghost use Rattle.bc_history.specs.declared.scenario.Turner.TheVariants.{Default};
ghost use Rattle.bc_history.specs.Scenario.ScenarioRules.{IsTurnerOf};
ghost use Rattle.bc_history.specs.Run.Actors.{actors_of};
ghost use Rattle.bc_history.specs.Run.World.{World, Events, Not_due, IsEnd, IsWorld, default_turn, run_of, turner_at};
ghost use Rattle.hub_core.specs.HubView.{HubState, hub_at_opening};
ghost use Rattle.bc_steps.specs.ActorView.{ActorState};
ghost use Rattle.hub_core.specs.declared.hub.HubError.TheVariants.{Events as Too_many};
ghost use Rattle.bc_replay.specs.ActorLoop.{actor_at_opening, AreIn, LoopRepresents};
ghost use Rattle.bc_replay.specs.ActorSteps.{IsStepError, StepYields};
ghost use Rattle.bc_replay.specs.ActorTurns.{due_actors, turn_among, HasNoTurn, IsTurnOf, IsTurnerAt};

/// In a World where a hub and all who act stand, the default rule names one of them, and goes by
/// theirs alone.
pub fn the_default_turn_is_of_an_actor()
    ensures { (hub : HubState) (w : World) (actors : List ActorState)
        → AreIn w hub actors
        → map (λ (a : ActorState). a.who) actors ≡ actors_of hub.scenario
        → default_turn hub.scenario w ≡ turn_among (due_actors hub actors) }
{}

/// A loop that lets the actor whose turn it is take its next step gives the World of a scenario: it
/// begins where the World does, each step keeps to it, and it ends as the World does, with the run,
/// at a turn of the schedule that has no step, or with an event too many.
pub fn the_loop_is_the_world()
    ensures begins { (s : Scenario)
        → LoopRepresents s 0 (hub_at_opening s) (map (actor_at_opening s) (actors_of s)) }
    ensures goes_on { (s : Scenario) (taken : ℕ) (hub new : HubState) (actors : List ActorState)
        (turner : Turner) (i : ℕ) (b : ActorState) (turn : IsTurnOf hub actors turner i)
        → LoopRepresents s taken hub actors → IsTurnerAt s taken turner
        → StepYields hub turn.at.actor new b
        → LoopRepresents s (taken + 1) new (slice_set actors i b) }
    ensures finishes { (s : Scenario) (taken : ℕ) (hub : HubState) (actors : List ActorState)
        → LoopRepresents s taken hub actors → turner_at s.turns taken ≡ None
        → HasNoTurn hub actors Default
        → (w : World) × (w.entries ≡ hub.entries) × (w.logs ≡ hub.logs) × IsWorld s (run_of s w) }
    ensures stops { (s : Scenario) (taken : ℕ) (hub : HubState) (actors : List ActorState)
        (turner : Turner)
        → LoopRepresents s taken hub actors
        → turner_at s.turns taken ≡ Some turner
        → IsTurnerOf (length s.clocks) (length s.ports) turner → HasNoTurn hub actors turner
        → IsEnd s (Not_due (taken + 1)) }
    ensures overflows { (s : Scenario) (taken : ℕ) (hub : HubState) (actors : List ActorState)
        (turner : Turner) (i : ℕ) (turn : IsTurnOf hub actors turner i)
        → LoopRepresents s taken hub actors → IsTurnerAt s taken turner
        → IsStepError hub turn.at.actor Too_many → IsEnd s Events }
{}
