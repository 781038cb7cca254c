ghost use Rattle.std.specs.Prelude.{◌≡◌, ◌<◌, None, OnOk, IfErr, length, Some};
ghost use Rattle.bc_history.specs.Scenario.LineFaults.{first_of, sole_tests, is_misplaced, is_on_another, breaks_jbod, header_tests, with_header};
ghost use Rattle.ptp_base.specs.declared.limits.TheConstants.{CLOCKS_MAX, PORTS_MAX};
ghost use Rattle.bc_config.specs.DraftInvariant.{HasPlace};
ghost use Rattle.bc_config.specs.LineErrors.{Tells, IsTaken, role_fault};

use crate::draft::{Draft, plain_clock};
use crate::line::Line;
use crate::refusal::LineError;
use crate::section::{may_follow, section_of};
use bc_history::{Header, Role, Scope, Section};
use ptp_base::{CLOCKS_MAX, NoMemory, PORTS_MAX, PortConf};
use text_io::Reason;

/// Whether a clock isn't that of the first port.
fn is_on_another(first: Option<PortConf>, clock: u128) -> bool
    ensures { result ≡ is_on_another first clock }
{
    match first {
        None => false,
        Some(first) => u128::from(first.clock) != clock,
    }
}

impl Draft {
    /// Whether a section may not stand here.
    fn is_misplaced(&self, next: Section) -> bool
        ensures { result ≡ is_misplaced self.now next }
    {
        !may_follow(self.section, next)
    }

    /// Whether a port on the clock would be against `boundary_clock_jbod`.
    fn breaks_jbod(&self, clock: u128) -> bool
        ensures { result ≡ breaks_jbod self.now clock }
    {
        !self.options.boundary_clock_jbod
            && is_on_another(self.ports.items().first().copied(), clock)
    }

    /// What is wrong with the header of a section that stands alone.
    fn sole_fault(&self, next: Section, printable: bool) -> Option<Reason>
        ensures { result ≡ first_of (sole_tests self.now printable next) }
    {
        if self.is_misplaced(next) {
            Some(Reason::Order)
        } else if !printable {
            Some(Reason::Value)
        } else {
            None
        }
    }

    /// What is wrong with the header of a clock.
    fn clock_fault(&self, number: u128, printable: bool) -> Option<Reason>
        ensures value { result ≡ first_of (header_tests self.now printable (Header.Clock number)) }
        ensures room { result ≡ None → length self.now.clocks < CLOCKS_MAX }
    {
        let next = Section::Options(Scope::Clock);
        if self.is_misplaced(next) || number != self.clocks.len() as u128 {
            Some(Reason::Order)
        } else if !printable {
            Some(Reason::Value)
        } else if number == CLOCKS_MAX as u128 {
            Some(Reason::Limit)
        } else {
            None
        }
    }

    /// What is wrong with the header of a port.
    fn port_fault(&self, number: u128, clock: u128, printable: bool) -> Option<Reason>
        ensures value { result
            ≡ first_of (header_tests self.now printable (Header.Port number clock)) }
        ensures room { result ≡ None → (length self.now.ports < PORTS_MAX) × (clock < CLOCKS_MAX) }
    {
        let next = Section::Options(Scope::Port);
        if self.is_misplaced(next) || number != self.ports.len() as u128 + 1 {
            Some(Reason::Order)
        } else if clock >= self.clock_count() as u128 || !printable {
            Some(Reason::Value)
        } else if number == PORTS_MAX as u128 + 1 {
            Some(Reason::Limit)
        } else if self.breaks_jbod(clock) {
            Some(Reason::Jbod)
        } else {
            None
        }
    }

    /// What is wrong with a header, all of whose octets are printable or not.
    fn header_fault(&self, header: Header, printable: bool) -> Option<Reason>
        ensures value { result ≡ first_of (header_tests self.now printable header) }
        ensures room { result ≡ None → HasPlace self.now header }
    {
        match header {
            Header::Clock(number) => self.clock_fault(number, printable),
            Header::Port { number, clock } => self.port_fault(number, clock, printable),
            Header::Global => self.sole_fault(Section::Options(Scope::Global), printable),
            Header::Records => self.sole_fault(Section::Records, printable),
            Header::Queries => self.sole_fault(Section::Queries, printable),
            Header::Schedule => self.sole_fault(Section::Schedule, printable),
        }
    }

    /// Adds what a header says.
    fn add_header(&mut self, header: Header) -> Result<(), NoMemory>
        requires { HasPlace self.old header }
        ensures { OnOk result (self.new ≡ with_header self.old header) }
    {
        match header {
            Header::Clock(_) => self.clocks.push(plain_clock())?,
            Header::Port { clock, .. } => {
                let mut port = self.defaults;
                port.clock = clock as u8;
                self.ports.push(port)?;
            }
            Header::Global | Header::Records | Header::Queries | Header::Schedule => {}
        }
        self.section = Some(section_of(header));
        self.named.clear();
        Ok(())
    }

    /// Takes a line that is a header.
    pub(crate) fn take_header(&mut self, header: Header, line: &Line) -> Result<(), LineError>
        ensures ok { OnOk result (IsTaken self.old line.now (Role.Begins header) self.new) }
        ensures err { IfErr result
            (λ e. Tells e (role_fault self.old line.now (Role.Begins header))) }
    {
        if let Some(reason) = self.header_fault(header, line.is_printable()) {
            return Err(LineError::Fault(reason));
        }
        self.add_header(header)?;
        Ok(())
    }
}
