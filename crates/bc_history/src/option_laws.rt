ghost use Rattle.std.specs.Prelude.{◌≡◌, ℕ, Some};
ghost use Rattle.ptp_base.specs.declared.port_conf.PortConf.{PortConf};
ghost use Rattle.model_clock.specs.declared.state.ClockState.{ClockState};
ghost use Rattle.bc_history.specs.Scenario.OptionTable.{Row, row_of, option_named, with_defaults, with_port_defaults, with_clock_defaults};
ghost use Rattle.bc_history.specs.Scenario.Defaults.{default_options, plain_port};
ghost use Rattle.model_clock.specs.Clock.{plain_clock};
ghost use Rattle.bc_history.specs.declared.scenario.Options.{Options};

/// Each option is the one that its name names in its own section: the table has all options, and no
/// two of one section have one name.
pub fn options_are_named()
    ensures { (number : ℕ) (row : Row) → row_of number ≡ Some row
        → option_named row.scope row.name ≡ Some number }
{}

/// The defaults of the table make the options, the ports and the clocks that a text says nothing of.
pub fn defaults_are_of_the_table()
    ensures options { (o : Options) → with_defaults o ≡ default_options }
    ensures ports { (p : PortConf) → with_port_defaults p ≡ record plain_port { clock = p.clock } }
    ensures clocks { (c : ClockState) →
        with_clock_defaults c ≡ record plain_clock { tick = c.tick; freq = c.freq } }
{}
