ghost use Rattle.std.specs.Prelude.{◌≡◌, ◌≢◌, true, false, List, [], ◌∷◌, Some};
ghost use Rattle.ptp_base.specs.Floor.{IsWithin};
ghost use Rattle.ptp_profile.specs.declared.timing.ServoConf.{ServoConf};
ghost use Rattle.ptp_profile.specs.Timing.Servo.{Sample, newest_action, IsGentle};
ghost use Rattle.pi_servo.specs.ServoView.{sample_at};
ghost use Rattle.pi_servo.specs.SteererView.{SteererRepresents};

use crate::servo::Servo;
use ptp_base::TIME_MAX;
use ptp_profile::{Action, ServoConf};
use std::marker::Model;

/// Servos for the generations of a clock's samples, one after another. It does not allocate.
#[derive(Drop)]
pub struct Steerer {
    conf: ServoConf,
    generation: Option<u32>,
    servo: Servo,
}

impl Model for Steerer {
    ghost use Rattle.std.specs.Prelude.{◌≡◌};
    ghost use Rattle.pi_servo.specs.SteererView.{SteererView};

    ghost Value = { SteererView };

    ghost view = { λ s. record { conf = s.conf; generation = s.generation; servo = s.servo } };

    ghost invariant = { λ s. s.servo.conf ≡ s.conf };
}

impl Steerer {
    /// A steerer before its first sample.
    pub fn new(conf: ServoConf) -> Steerer
        ensures conf { result.conf ≡ conf }
        ensures begun { SteererRepresents result conf [] }
    {
        Steerer {
            conf,
            generation: None,
            servo: Servo::new(conf, 0),
        }
    }

    // Whether a sample is of the generation of the last one.
    fn goes_on(&self, gener: u32) -> bool
        ensures same { result ≡ true → self.now.generation ≡ Some gener }
        ensures other { result ≡ false → self.now.generation ≢ Some gener }
    {
        match self.generation {
            Some(last) => last == gener,
            None => false,
        }
    }

    /// Takes an offset in ns, within `TIME_MAX`, that the clock had at a local time in ns, and says
    /// what is asked of the clock. In a new generation a new servo begins, at the frequency `freq`,
    /// in ppb times 65,536, at which the clock runs.
    pub fn sample(&mut self, gener: u32, freq: i64, offset: i64, local: u64) -> Action
        requires { IsWithin TIME_MAX offset }
        ensures answer { (conf : ServoConf) (samples : List Sample)
            → SteererRepresents self.old conf samples
            → result ≡ newest_action conf (sample_at gener freq offset local ∷ samples) }
        ensures steers { (conf : ServoConf) (samples : List Sample)
            → SteererRepresents self.old conf samples
            → SteererRepresents self.new conf (sample_at gener freq offset local ∷ samples) }
        ensures gentle { IsGentle self.old.conf result }
        ensures conf { self.new.conf ≡ self.old.conf }
    {
        if self.goes_on(gener) {
            return self.servo.sample(offset, local);
        }
        self.generation = Some(gener);
        self.servo = Servo::new(self.conf, freq);
        self.servo.sample(offset, local)
    }
}
