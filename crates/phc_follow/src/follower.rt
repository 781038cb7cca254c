ghost use Rattle.std.specs.Prelude.{◌≡◌, ◌≤◌, ◌≤ℤ◌, ◌-ℤ◌, pos, List, [], ◌∷◌};
ghost use Rattle.ptp_base.specs.Floor.{IsWithin};
ghost use Rattle.model_clock.specs.Clock.{IsClock};
ghost use Rattle.ptp_profile.specs.declared.timing.ServoConf.{ServoConf};
ghost use Rattle.ptp_profile.specs.Timing.Servo.{Sample, newest_action};
ghost use Rattle.pi_servo.specs.SteererView.{SteererRepresents};
ghost use Rattle.phc_follow.specs.FollowerView.{follower_sample, IsWithinLimits};

use pi_servo::Steerer;
use ptp_base::{TICK_MAX, TIME_MAX};
use ptp_profile::{Action, Lead, Reading, ServoConf};
use std::marker::Model;

/// How far a clock is ahead of another one, in ns, by what both read.
fn offset_between(own: i64, theirs: i64) -> i64
    requires own_early { pos 0 ≤ℤ own }
    requires own_late { own ≤ℤ TIME_MAX }
    requires theirs_early { pos 0 ≤ℤ theirs }
    requires theirs_late { theirs ≤ℤ TIME_MAX }
    ensures value { result ≡ own -ℤ theirs }
    ensures within { IsWithin TIME_MAX result }
{
    own - theirs
}

/// The follower of one clock: a servo for each generation of its leads. It does not allocate.
#[derive(Drop)]
pub struct Follower {
    clock: u8,
    steerer: Steerer,
}

impl Model for Follower {
    ghost use Rattle.phc_follow.specs.FollowerView.{FollowerView};

    ghost Value = { FollowerView };

    ghost view = { λ f. record { clock = f.clock; steerer = f.steerer } };
}

impl Follower {
    /// The follower of a clock, numbered from 0, before its first sample.
    pub fn new(clock: u8, conf: ServoConf) -> Follower
        ensures clock { result.clock ≡ clock }
        ensures begun { SteererRepresents result.steerer conf [] }
    {
        Follower {
            clock,
            steerer: Steerer::new(conf),
        }
    }

    /// The clock that follows, from 0.
    pub fn clock(&self) -> u8
        ensures { result ≡ self.now.clock }
    {
        self.clock
    }

    /// Takes what the source clock and the own clock read at a tick, under a lead, and says what is
    /// asked of the own clock. Its offset is its own reading less the source's. A lead of another
    /// generation than the last one begins a servo anew, at the frequency at which the clock runs.
    pub fn sample(&mut self, lead: Lead, theirs: &Reading, own: &Reading, tick: u64) -> Action
        requires asked { tick ≤ TICK_MAX }
        requires theirs { IsClock theirs.now.state }
        requires own { IsClock own.now.state }
        ensures action { (conf : ServoConf) (samples : List Sample) →
            SteererRepresents self.old.steerer conf samples → result
            ≡ newest_action conf (follower_sample lead theirs.now own.now tick ∷ samples) }
        ensures steers { (conf : ServoConf) (samples : List Sample) →
            SteererRepresents self.old.steerer conf samples → SteererRepresents self.new.steerer conf
            (follower_sample lead theirs.now own.now tick ∷ samples) }
        ensures limits { (conf : ServoConf) (samples : List Sample) →
            SteererRepresents self.old.steerer conf samples → IsWithinLimits conf result }
        ensures clock { self.new.clock ≡ self.old.clock }
    {
        let local = own.state.read(tick);
        let offset = offset_between(local, theirs.state.read(tick));
        self.steerer
            .sample(lead.gener, own.state.freq, offset, local as u64)
    }
}
