ghost use Rattle.std.specs.Prelude.{◌≡◌, None, Some, OnOk, IfErr, IfSome};
ghost use Rattle.text_io.specs.TextLines.{words_of};
ghost use Rattle.bc_history.specs.Scenario.OptionTable.{with_clock_option, with_port_option};
ghost use Rattle.bc_history.specs.Scenario.Draft.{with_last};
ghost use Rattle.bc_history.specs.Scenario.LineFaults.{setting_of, option_of, stands_in, with_setting};
ghost use Rattle.bc_config.specs.OptionRanges.{IsInRange};
ghost use Rattle.bc_config.specs.LineErrors.{Tells, IsTaken, role_fault};

use crate::draft::Draft;
use crate::line::Line;
use crate::options::{option_named, option_value};
use crate::refusal::{LineError, refuse_if};
use crate::setting::{set_clock_option, set_option, set_port_option};
use bc_history::{ClockStates, PortConfs, Role, Scope, Section};
use ptp_base::NoMemory;
use text_io::Reason;

/// The option that the first word of a line names.
fn option_of(scope: Scope, line: &Line) -> Option<usize>
    ensures { result ≡ option_of scope (words_of line.now) }
{
    let name = line.first()?;
    option_named(scope, name)
}

/// The value of a line of two words.
fn setting_of(option: usize, line: &Line) -> Option<i128>
    ensures value { result ≡ setting_of option (words_of line.now) }
    ensures range { IfSome result (λ value. IsInRange option value) }
{
    match line.words() {
        (Some(_), Some(value), None, ..) => option_value(option, value),
        _ => None,
    }
}

/// Sets an option of the latest clock.
fn set_last_clock(clocks: &mut ClockStates, option: usize, value: i128)
    requires { IsInRange option value }
    ensures { clocks.new ≡ with_last (with_clock_option option value) clocks.old }
{
    if let Some(last) = clocks.items().last().copied() {
        let mut clock = last;
        set_clock_option(&mut clock, option, value);
        clocks.set(clocks.len() - 1, clock);
    }
}

/// Sets an option of the latest port.
fn set_last_port(ports: &mut PortConfs, option: usize, value: i128)
    requires { IsInRange option value }
    ensures { ports.new ≡ with_last (with_port_option option value) ports.old }
{
    if let Some(last) = ports.items().last().copied() {
        let mut port = last;
        set_port_option(&mut port, option, value);
        ports.set(ports.len() - 1, port);
    }
}

impl Draft {
    /// Whether the option stands in the section already.
    fn stands(&self, option: usize) -> bool
        ensures { result ≡ stands_in self.now.named option }
    {
        self.named.items().contains(&option)
    }

    /// Sets an option of the section.
    fn set(&mut self, scope: Scope, option: usize, value: i128) -> Result<(), NoMemory>
        requires { IsInRange option value }
        ensures { OnOk result (self.new ≡ with_setting self.old scope option value) }
    {
        self.named.push(option)?;
        match scope {
            Scope::Global => {
                set_option(&mut self.options, option, value);
                set_port_option(&mut self.defaults, option, value);
                Ok(())
            }
            Scope::Clock => {
                set_last_clock(&mut self.clocks, option, value);
                Ok(())
            }
            Scope::Port => {
                set_last_port(&mut self.ports, option, value);
                Ok(())
            }
        }
    }

    /// Takes a line of a section of options.
    pub(crate) fn take_option(&mut self, scope: Scope, line: &Line) -> Result<(), LineError>
        ensures ok { OnOk result
            (IsTaken self.old line.now (Role.Says (Section.Options scope)) self.new) }
        ensures err { IfErr result
            (λ e. Tells e (role_fault self.old line.now (Role.Says (Section.Options scope)))) }
    {
        let Some(option) = option_of(scope, line) else {
            return Err(LineError::Fault(Reason::UnknownOption));
        };
        refuse_if(self.stands(option), Reason::Repeated)?;
        let Some(value) = setting_of(option, line) else {
            return Err(LineError::Fault(Reason::Value));
        };
        refuse_if(!line.is_printable(), Reason::Value)?;
        self.set(scope, option, value)?;
        Ok(())
    }
}
