ghost use Rattle.std.specs.Prelude.{ℕ, ℤ, pos, ◌≡◌, ◌<◌, true, false, List, [], ◌∷◌};
ghost use Rattle.ptp_base.specs.Floor.{IsWithin};
ghost use Rattle.ptp_profile.specs.declared.timing.ServoConf.{ServoConf};
ghost use Rattle.ptp_profile.specs.Timing.Servo.{Sample, Running, estimate, next_phase, next_drift, first_action, action_at, action_after, is_held, IsGentle};
ghost use Rattle.pi_servo.specs.ServoView.{sample_at, ServoRepresents, ServoYields};

use crate::pi::{
    Point, estimate, first_action, held_within, is_beyond, limit, running_action, running_drift,
};
use ptp_base::TIME_MAX;
use ptp_profile::{Action, ServoConf};
use std::marker::Model;

/// How many samples a servo has of its run.
#[derive(Clone, Copy)]
pub(crate) enum Phase {
    /// None yet.
    NoSample,
    /// Its first, and it waits for one from which to estimate its drift.
    OneSample(Point),
    /// It has estimated its drift.
    Running,
}

/// A proportional and integral servo over one run of offsets. It does not allocate.
#[derive(Drop)]
pub struct Servo {
    conf: ServoConf,
    phase: Phase,
    // Whether it has made an estimate. It stays so when the servo begins anew, so that the clock is
    // stepped for `first_step` once.
    locked: bool,
    // How much too fast the clock is by itself, in ppb times 65,536.
    drift: i64,
}

impl Model for Servo {
    ghost use Rattle.pi_servo.specs.ServoView.{ServoView, phase_of, IsDrift};

    ghost Value = { ServoView };

    ghost view = { λ s. record { conf = s.conf; phase = phase_of s.phase; locked = s.locked; drift = s.drift } };

    ghost invariant = { λ s. IsDrift s.conf s.drift };
}

impl Servo {
    /// A servo before its first offset, of a clock that runs at the frequency `freq`, in ppb times
    /// 65,536.
    pub fn new(conf: ServoConf, freq: i64) -> Servo
        ensures conf { result.conf ≡ conf }
        ensures begun { ServoRepresents result conf freq [] }
    {
        Servo {
            conf,
            phase: Phase::NoSample,
            locked: false,
            drift: held_within(limit(&conf), -(freq as i128)),
        }
    }

    // Makes an estimate from the first point and a later one.
    fn lock(&mut self, first: &Point, point: &Point) -> Action
        requires order { first.now.local < point.now.local }
        requires offset { IsWithin TIME_MAX point.now.offset }
        ensures conf { self.new.conf ≡ self.old.conf }
        ensures phase { self.new.phase ≡ Running }
        ensures locked { self.new.locked ≡ true }
        ensures drift { (gener : ℕ) (freq : ℤ)
            → let x = sample_at gener freq point.now.offset point.now.local in
            let since = pos first.now.local in
            self.new.drift ≡ estimate self.old.conf x first.now.offset since self.old.drift }
        ensures action { (gener : ℕ) (freq : ℤ)
            → let x = sample_at gener freq point.now.offset point.now.local in
            result ≡ first_action self.old.conf x self.old.locked self.new.drift }
        ensures gentle { IsGentle self.old.conf result }
    {
        self.drift = estimate(&self.conf, first, point, self.drift);
        let action = first_action(&self.conf, point.offset, self.locked, self.drift);
        self.phase = Phase::Running;
        self.locked = true;
        action
    }

    // Goes on, or begins anew where the offset is too great.
    fn run(&mut self, point: &Point) -> Action
        requires { self.old.phase ≡ Running }
        ensures conf { self.new.conf ≡ self.old.conf }
        ensures phase { (gener : ℕ) (freq : ℤ)
            → let x = sample_at gener freq point.now.offset point.now.local in
            self.new.phase ≡ next_phase self.old.conf x Running }
        ensures locked { self.new.locked ≡ self.old.locked }
        ensures drift { (gener : ℕ) (freq : ℤ)
            → let x = sample_at gener freq point.now.offset point.now.local in
            self.new.drift ≡ next_drift self.old.conf x Running self.old.drift }
        ensures action { (gener : ℕ) (freq : ℤ)
            → let x = sample_at gener freq point.now.offset point.now.local in
            result ≡ action_at self.old.conf x Running self.old.locked self.old.drift }
        ensures gentle { IsGentle self.old.conf result }
    {
        if is_beyond(self.conf.step, point.offset) {
            self.phase = Phase::NoSample;
            return Action::Unlocked;
        }
        let action = running_action(&self.conf, point.offset, self.drift);
        self.drift = running_drift(&self.conf, point.offset, self.drift);
        action
    }

    // Takes one more point.
    fn take(&mut self, point: &Point) -> Action
        requires { IsWithin TIME_MAX point.now.offset }
        ensures yields { (gener : ℕ) (freq : ℤ)
            → let x = sample_at gener freq point.now.offset point.now.local in
            ServoYields x self.old self.new result }
        ensures gentle { IsGentle self.old.conf result }
    {
        match self.phase {
            Phase::NoSample => {
                self.phase = Phase::OneSample(*point);
                Action::Unlocked
            }
            Phase::OneSample(first) => {
                if first.local < point.local {
                    self.lock(&first, point)
                } else {
                    self.phase = Phase::NoSample;
                    Action::Unlocked
                }
            }
            Phase::Running => self.run(point),
        }
    }

    /// Takes an offset in ns, within `TIME_MAX`, that the clock had at a local time in ns, and says
    /// what is asked of the clock. The frequency is in ppb times 65,536, and at most `max` times
    /// 65,536.
    pub fn sample(&mut self, offset: i64, local: u64) -> Action
        requires { IsWithin TIME_MAX offset }
        ensures answer { (conf : ServoConf) (freq : ℤ) (before : List Sample)
            → ServoRepresents self.old conf freq before → (gener : ℕ) (at : ℤ)
            → result ≡ action_after conf freq (sample_at gener at offset local) before }
        ensures runs { (conf : ServoConf) (freq : ℤ) (before : List Sample)
            → ServoRepresents self.old conf freq before → (gener : ℕ) (at : ℤ)
            → ServoRepresents self.new conf freq (sample_at gener at offset local ∷ before) }
        ensures held { (gener : ℕ) (at : ℤ)
            → let x = sample_at gener at offset local in
            is_held self.old.conf x self.old.phase self.old.drift ≡ true
            → self.new.drift ≡ self.old.drift }
        ensures gentle { IsGentle self.old.conf result }
        ensures conf { self.new.conf ≡ self.old.conf }
    {
        self.take(&Point { offset, local })
    }
}
