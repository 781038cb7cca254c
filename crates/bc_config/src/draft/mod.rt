ghost use Rattle.std.specs.Prelude.{◌≡◌, ◌≤◌, ℕ, None, length, OnOk, IfOk, IfErr};
ghost use Rattle.bc_history.specs.Scenario.LineFaults.{fault, with_line, end_fault};
ghost use Rattle.bc_config.specs.LineErrors.{Tells, IsTaken, role_fault};
ghost use Rattle.bc_history.specs.Scenario.Draft.{empty_draft, clocks_of, scenario_of};
ghost use Rattle.bc_history.specs.Scenario.ScenarioRules.{IsScenario};
ghost use Rattle.model_clock.specs.Clock.{plain_clock};
ghost use Rattle.ptp_base.specs.declared.limits.TheConstants.{CLOCKS_MAX};

mod header;
mod option;
mod query;
mod record;
mod turn;

use crate::header::role;
use crate::line::Line;
use crate::refusal::LineError;
use crate::table::Settings;
use bc_history::{
    AskedList, ClockStates, Options, PortConfs, RecordList, Role, Scenario, Section, TurnsList,
};
use model_clock::ClockState;
use ptp_base::{Items, NoMemory, PORTS_MAX, PortConf};
use std::alloc::Global;
use std::marker::Model;
use text_io::Reason;

/// What the lines of a text say so far.
#[derive(Drop)]
pub(crate) struct Draft {
    /// The section in force.
    section: Option<Section>,
    /// The options that stand in it, by their numbers.
    named: Items<usize>,
    /// The options of the whole.
    options: Options,
    /// What a port begins with.
    defaults: PortConf,
    /// The clocks so far, by their numbers.
    clocks: ClockStates,
    /// The ports so far, the first with number 1.
    ports: PortConfs,
    /// The records so far, in the order of their lines.
    records: RecordList,
    /// The tick of each port's former record.
    former: [u64; PORTS_MAX],
    /// The queries so far, in the order of their lines.
    queries: AskedList,
    /// The turns so far, in the order of their lines.
    turns: TurnsList,
}

impl Model for Draft {
    ghost use Rattle.bc_history.specs.Scenario.Draft.{Draft as Said};
    ghost use Rattle.bc_config.specs.DraftInvariant.{IsKept};

    ghost Value = { Said };

    ghost view = { λ d. record {
      section = d.section;
      named = d.named;
      options = d.options;
      defaults = d.defaults;
      clocks = d.clocks;
      ports = d.ports;
      records = d.records;
      queries = d.queries;
      turns = d.turns;
    } };

    ghost invariant = { λ d. IsKept d.former d.records d.clocks d.ports };
}

/// A clock of which a text says nothing.
pub(crate) fn plain_clock() -> ClockState
    ensures { result ≡ plain_clock }
{
    ClockState {
        tick: 0,
        time: 0,
        freq: 0,
        drift: 0,
    }
}

/// The clocks, or one plain clock where there is none.
fn or_plain(clocks: ClockStates) -> Result<ClockStates, NoMemory>
    ensures { IfOk result (λ all. all ≡ clocks_of clocks) }
{
    let mut clocks = clocks;
    if clocks.len() == 0 {
        clocks.push(plain_clock())?;
    }
    Ok(clocks)
}

impl Draft {
    /// What no line says.
    pub(crate) fn new(alloc: Global) -> Draft
        ensures { result ≡ empty_draft }
    {
        let clocks = Items::new(alloc);
        let ports = Items::new(alloc);
        let records = Items::new(alloc);
        let former = [0; PORTS_MAX];
        let defaults = Settings::defaults();
        Draft {
            section: None,
            named: Items::new(alloc),
            options: defaults.options,
            defaults: defaults.port,
            clocks,
            ports,
            records,
            former,
            queries: Items::new(alloc),
            turns: Items::new(alloc),
        }
    }

    /// Takes a line in its role.
    fn take_in_role(&mut self, alloc: Global, role: Role, line: &Line) -> Result<(), LineError>
        ensures ok { OnOk result (IsTaken self.old line.now role self.new) }
        ensures err { IfErr result (λ e. Tells e (role_fault self.old line.now role)) }
    {
        match role {
            Role::Skipped => Ok(()),
            Role::Astray => Err(LineError::Fault(Reason::Section)),
            Role::Begins(header) => self.take_header(header, line),
            Role::Says(Section::Options(scope)) => self.take_option(scope, line),
            Role::Says(Section::Records) => self.take_record(alloc, line),
            Role::Says(Section::Queries) => self.take_query(alloc, line),
            Role::Says(Section::Schedule) => self.take_turns(line),
        }
    }

    /// Takes a line.
    pub(crate) fn take_line(&mut self, alloc: Global, octets: &[u8]) -> Result<(), LineError>
        ensures ok { OnOk result
            ((fault self.old octets.now ≡ None) × (self.new ≡ with_line self.old octets.now)) }
        ensures err { IfErr result (λ e. Tells e (fault self.old octets.now)) }
    {
        let line = Line::new(octets);
        let role = role(self.section, &line);
        self.take_in_role(alloc, role, &line)
    }

    /// What is wrong behind the last line.
    pub(crate) fn end_fault(&self) -> Option<Reason>
        ensures { result ≡ end_fault self.now }
    {
        if self.ports.len() == 0 {
            Some(Reason::Section)
        } else {
            None
        }
    }

    /// The scenario that the lines describe, which keeps the rules.
    pub(crate) fn finish(self) -> Result<Scenario, NoMemory>
        requires { IsScenario (scenario_of self) }
        ensures { IfOk result (λ s. s ≡ scenario_of self) }
    {
        let Draft {
            section: _,
            named: _,
            options,
            defaults: _,
            clocks,
            ports,
            records,
            former: _,
            queries,
            turns,
        } = self;
        Ok(Scenario {
            options,
            clocks: or_plain(clocks)?,
            ports,
            records,
            queries,
            turns,
        })
    }

    /// How many clocks there are: where no clock section stands, there is one.
    pub(crate) fn clock_count(&self) -> usize
        ensures count { result ≡ length (clocks_of self.now.clocks) }
        ensures few { result ≤ CLOCKS_MAX }
    {
        match self.clocks.items() {
            [] => 1,
            clocks => clocks.len(),
        }
    }
}
