ghost use Rattle.std.specs.Prelude.{◌≡◌};
ghost use Rattle.bc_history.specs.Scenario.OptionTable.{row_of, with_option, with_port_option, with_clock_option};
ghost use Rattle.bc_history.specs.Scenario.Defaults.{default_options, plain_port};
ghost use Rattle.model_clock.specs.Clock.{plain_clock};
ghost use Rattle.bc_config.specs.UnsetOptions.{no_settings};
ghost use Rattle.bc_config.specs.OptionRanges.{IsInRange};

use crate::table::{OptionRow, Settings};
use bc_history::{NO_OPTIONS, Options};
use model_clock::ClockState;
use ptp_base::PortConf;

impl Settings {
    /// Nothing is set yet.
    fn new() -> Settings
        ensures { result ≡ no_settings }
    {
        Settings {
            options: NO_OPTIONS,
            port: PortConf {
                clock: 0,
                log_announce: 0,
                log_sync: 0,
                log_delay: 0,
                receipt: 0,
            },
            clock: ClockState {
                tick: 0,
                time: 0,
                freq: 0,
                drift: 0,
            },
        }
    }

    /// Every option at its default: what a text says nothing of.
    pub(crate) fn defaults() -> Settings
        ensures options { result.options ≡ default_options }
        ensures port { result.port ≡ plain_port }
        ensures clock { result.clock ≡ plain_clock }
    {
        let mut settings = Settings::new();
        let mut number = 0;
        while let Some(row) = row(number) {
            settings.set(number, row.default);
            number += 1;
        }
        settings
    }
}

/// The row of an option, by its number: none where the table has no such option.
pub fn row(number: usize) -> Option<OptionRow>
    ensures { result ≡ row_of number }
{
    Settings::new().set(number, 0)
}

/// Sets an option of `[global]`, and leaves the others; the option of a port or a clock sets
/// nothing.
pub fn set_option(options: &mut Options, number: usize, value: i128)
    requires { IsInRange number value }
    ensures { options.new ≡ with_option number value options.old }
{
    let mut settings = Settings::new();
    settings.options = *options;
    settings.set(number, value);
    *options = settings.options;
}

/// Sets an option of a port, and leaves the others; an option of `[global]` alone or of a clock
/// sets nothing.
pub fn set_port_option(port: &mut PortConf, number: usize, value: i128)
    requires { IsInRange number value }
    ensures { port.new ≡ with_port_option number value port.old }
{
    let mut settings = Settings::new();
    settings.port = *port;
    settings.set(number, value);
    *port = settings.port;
}

/// Sets an option of a clock, and leaves the others; an option of `[global]` or of a port sets
/// nothing.
pub fn set_clock_option(clock: &mut ClockState, number: usize, value: i128)
    requires { IsInRange number value }
    ensures { clock.new ≡ with_clock_option number value clock.old }
{
    let mut settings = Settings::new();
    settings.clock = *clock;
    settings.set(number, value);
    *clock = settings.clock;
}
