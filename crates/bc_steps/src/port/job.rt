ghost use Rattle.std.specs.Prelude.{◌≡◌, pos, ◌≤ℤ◌, List, ◌∷◌, IfSome, Option};
ghost use Rattle.ptp_profile.specs.declared.timing.ServoConf.{ServoConf};
ghost use Rattle.ptp_profile.specs.Timing.Servo.{Sample, newest_action};
ghost use Rattle.pi_servo.specs.SteererView.{SteererRepresents};
ghost use Rattle.bc_history.specs.declared.entry.Seen.{Seen};
ghost use Rattle.bc_history.specs.declared.scenario.Options.{Options};
ghost use Rattle.bc_history.specs.Phases.OpeningState.{servo_of};
ghost use Rattle.bc_history.specs.Run.PortPlace.{place_by_measure, port_job};
ghost use Rattle.bc_history.specs.Run.Samples.{freq_of, measure_sample};
ghost use Rattle.bc_steps.specs.ExchangeBounds.{IsAskable, IsPlaceAskable, IsWithinClock};
ghost use Rattle.bc_steps.specs.PortSamples.{with_sample};

use bc_history::{Outcome, PortPlace, Seen};
use pi_servo::Steerer;
use ptp_base::to_ns;
use ptp_profile::{Action, Held, Measure};

/// What the servo asks of a clock that runs at a frequency, in ppb times 65,536, at a measure under a
/// stamp.
fn steer(steerer: &mut Steerer, measure: &Measure, held: Held, freq: i64) -> Action
    requires local { pos 0 ≤ℤ measure.now.local }
    ensures action { (conf : ServoConf) (samples : List Sample) (seen : Option Seen) →
        SteererRepresents steerer.old conf samples → freq ≡ freq_of seen → result
        ≡ newest_action conf (measure_sample seen (measure.now, held) ∷ samples) }
    ensures steers { (conf : ServoConf) (samples : List Sample) (seen : Option Seen) →
        SteererRepresents steerer.old conf samples → freq ≡ freq_of seen →
        SteererRepresents steerer.new conf (measure_sample seen (measure.now, held) ∷ samples) }
    ensures askable { (conf : ServoConf) (samples : List Sample) →
        SteererRepresents steerer.old conf samples → IsWithinClock conf → IsAskable result }
{
    let offset = to_ns(measure.offset);
    steerer.sample(held.gener, freq, offset, measure.local as u64)
}

/// Where a port goes with its servo's action at a tick under a stamp: to the exchange, or to the
/// report where nothing is asked.
fn port_job(tick: u64, held: Held, action: Action) -> PortPlace
    ensures { result ≡ port_job tick held action }
{
    match action {
        Action::Unlocked => PortPlace::Reports {
            tick,
            gener: held.gener,
            action,
            outcome: Outcome::Unlocked,
        },
        Action::Jump { .. } | Action::Locked { .. } => PortPlace::Exchanges { tick, held, action },
    }
}

/// The frequency that was read, in ppb times 65,536; 0 where nothing was.
fn freq_of(seen: &Option<Seen>) -> i64
    ensures { result ≡ freq_of seen.now }
{
    match seen {
        Some(seen) => seen.freq,
        None => 0,
    }
}

/// Where a port goes after an event at a tick, with a reading of its clock, that measured this, or
/// nothing: its servo takes the measure's sample.
pub fn take_measure(
    steerer: &mut Steerer,
    tick: u64,
    seen: &Option<Seen>,
    measure: &Option<(Measure, Held)>,
) -> PortPlace
    requires local { IfSome measure.now (λ m. pos 0 ≤ℤ m.0.local) }
    ensures place { (o : Options) (samples : List Sample) →
        SteererRepresents steerer.old (servo_of o) samples →
        result ≡ place_by_measure o (with_sample seen.now measure.now samples) tick measure.now }
    ensures steers { (o : Options) (samples : List Sample) →
        SteererRepresents steerer.old (servo_of o) samples →
        SteererRepresents steerer.new (servo_of o) (with_sample seen.now measure.now samples) }
    ensures askable { (o : Options) (samples : List Sample) →
        SteererRepresents steerer.old (servo_of o) samples → IsWithinClock (servo_of o) →
        IsPlaceAskable result }
{
    let Some((measure, held)) = measure else {
        return PortPlace::Waits;
    };
    let action = steer(steerer, measure, *held, freq_of(seen));
    port_job(tick, *held, action)
}
