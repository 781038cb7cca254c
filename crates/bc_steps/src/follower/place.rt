ghost use Rattle.std.specs.Prelude.{◌≡◌, ◌<◌, ◌≤◌};
ghost use Rattle.std.specs.Option.{option_and_then};
ghost use Rattle.ptp_base.specs.declared.limits.TheConstants.{ENTRIES_MAX};
ghost use Rattle.ptp_base.specs.declared.time.TheConstants.{TICK_MAX};
ghost use Rattle.model_clock.specs.Clock.{IsClock};
ghost use Rattle.bc_history.specs.declared.entry.Told.{Told};
ghost use Rattle.bc_history.specs.Run.FollowerPlace.{follower_job, place_by_lead};
ghost use Rattle.bc_history.specs.Run.World.{seen_at};
ghost use Rattle.bc_steps.specs.FollowerJob.{follower_input, follower_tick, turn_after, turns_served};

use bc_history::{FollowerPlace, Input, Outcome, Seen, Told};
use ptp_profile::{Action, Lead, Reading};

/// The tick of the turn behind so many turns, at an interval in ns of the scenario.
pub fn turn_after(turns: u32, interval: u64) -> u64
    requires turns { turns ≤ ENTRIES_MAX }
    requires interval { interval ≤ 1000000000000 }
    ensures { result ≡ turn_after turns interval }
{
    (turns as u64 + 1) * interval
}

/// The tick of the next step of a follower at a place, whose next turn is at a tick.
pub fn tick_at(turn: u64, place: &FollowerPlace) -> u64
    ensures { result ≡ follower_tick turn place.now }
{
    match place {
        FollowerPlace::Turns => turn,
        FollowerPlace::ReadsTheirs { tick, .. }
        | FollowerPlace::ReadsOwn { tick, .. }
        | FollowerPlace::Exchanges { tick, .. }
        | FollowerPlace::Samples { tick, .. } => *tick,
    }
}

/// The input of the next event of the follower of a clock at a place, where that is its next step.
pub fn input_at(clock: u8, turn: u64, place: FollowerPlace) -> Option<Input>
    ensures { result ≡ follower_input clock turn place }
{
    match place {
        FollowerPlace::Turns => Some(Input::Turn { clock, tick: turn }),
        FollowerPlace::Samples {
            tick,
            lead,
            theirs,
            own,
            action,
            outcome,
        } => Some(Input::Sampled {
            clock,
            tick,
            lead,
            theirs,
            own,
            action,
            outcome,
        }),
        FollowerPlace::ReadsTheirs { .. }
        | FollowerPlace::ReadsOwn { .. }
        | FollowerPlace::Exchanges { .. } => None,
    }
}

/// How many turns a follower took once it was served at a place.
pub fn turns_served(turns: u32, place: &FollowerPlace) -> u32
    requires { turns < ENTRIES_MAX }
    ensures { result ≡ turns_served turns place.now }
{
    match place {
        FollowerPlace::Turns => turns + 1,
        FollowerPlace::ReadsTheirs { .. }
        | FollowerPlace::ReadsOwn { .. }
        | FollowerPlace::Exchanges { .. }
        | FollowerPlace::Samples { .. } => turns,
    }
}

/// Where a follower goes after an event at a tick that told it this: to the reading of the clock that
/// it was told to copy, or to its next turn.
pub fn place_told(tick: u64, told: Option<Told>) -> FollowerPlace
    ensures { result ≡ place_by_lead tick (option_and_then (λ (t : Told). t.lead) told) }
{
    match told {
        Some(told) => match told.lead {
            Some(lead) => FollowerPlace::ReadsTheirs { tick, lead },
            None => FollowerPlace::Turns,
        },
        None => FollowerPlace::Turns,
    }
}

/// What a reading shows at a tick.
pub fn seen_at(tick: u64, reading: &Reading) -> Seen
    requires asked { tick ≤ TICK_MAX }
    requires state { IsClock reading.now.state }
    ensures { result ≡ seen_at tick reading.now }
{
    Seen {
        number: reading.number,
        value: reading.state.read(tick),
        freq: reading.state.freq,
    }
}

/// Where a follower goes with its servo's action: to the exchange, or past it where nothing is asked.
pub fn follower_job(tick: u64, lead: Lead, theirs: Seen, own: Seen, action: Action) -> FollowerPlace
    ensures { result ≡ follower_job tick lead theirs own action }
{
    match action {
        Action::Unlocked => FollowerPlace::Samples {
            tick,
            lead,
            theirs,
            own,
            action,
            outcome: Outcome::Unlocked,
        },
        Action::Jump { .. } | Action::Locked { .. } => FollowerPlace::Exchanges {
            tick,
            lead,
            theirs,
            own,
            action,
        },
    }
}
