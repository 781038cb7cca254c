ghost use Rattle.std.specs.Prelude.{◌≡◌};
ghost use Rattle.bc_history.specs.Phases.OpeningState.{servo_of};

use bc_history::Options;
use ptp_profile::ServoConf;

/// The servo's options.
pub fn servo_of(options: &Options) -> ServoConf
    ensures { result ≡ servo_of options.now }
{
    ServoConf {
        kp: options.servo_kp,
        ki: options.servo_ki,
        max: options.max_frequency,
        step: options.step_threshold,
        first_step: options.first_step_threshold,
    }
}
