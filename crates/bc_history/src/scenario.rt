ghost use Rattle.bc_history.specs.Scenario.ScenarioRules.{IsScenario};

use model_clock::ClockState;
use ptp_base::{ClockId, Items, Octets, PortConf};
use std::marker::Model;

/// The clocks of a scenario as they begin, from clock 0 on.
pub type ClockStates = Items<ClockState>;
/// The ports of a scenario, from port 1 on.
pub type PortConfs = Items<PortConf>;
/// The records of a scenario, in the order of its text.
pub type RecordList = Items<Record>;
/// The queries of a scenario, in the order of its text.
pub type AskedList = Items<Asked>;
/// The schedule of a scenario, in the order of its text.
pub type TurnsList = Items<Turns>;

/// The options of a scenario. Times are in ns.
#[derive(Clone, Copy, Debug, PartialEq, Eq)]
pub struct Options {
    /// The own clock's identity (defaultDS.clockIdentity).
    pub clock_identity: ClockId,
    /// domainNumber, 0 to 127.
    pub domain_number: u8,
    /// priority1 of the own clock.
    pub priority1: u8,
    /// priority2 of the own clock.
    pub priority2: u8,
    /// clockClass of the own clock.
    pub clock_class: u8,
    /// clockAccuracy of the own clock.
    pub clock_accuracy: u8,
    /// offsetScaledLogVariance of the own clock.
    pub offset_scaled_log_variance: u16,
    /// currentUtcOffset of the own clock, in seconds, 0 to 32,767.
    pub utc_offset: i16,
    /// The six time flags of the own clock.
    pub time_flags: u8,
    /// timeSource of the own clock.
    pub time_source: u8,
    /// Whether the ports may be on different clocks ("just a bunch of devices").
    pub boundary_clock_jbod: bool,
    /// The greatest magnitude of a frequency, in ppb, 1 to 900,000,000.
    pub max_frequency: u32,
    /// The offset above which a servo that runs begins anew; 0 for never.
    pub step_threshold: u64,
    /// The offset above which a servo steps as it first locks; 0 for never.
    pub first_step_threshold: u64,
    /// The servo's proportional gain, in thousandths, 0 to 10,000.
    pub servo_kp: u32,
    /// The servo's integral gain, in thousandths, 0 to 10,000.
    pub servo_ki: u32,
    /// Of how many delays the median is taken, 1 to `DELAYS_MAX`.
    pub delay_filter_length: u8,
    /// The end of the run.
    pub duration: u64,
    /// The length of the windows in which threads run.
    pub window: u64,
    /// How often a follower takes its turn.
    pub follow_interval: u64,
    /// How long a subscription lasts.
    pub subscribe_duration: u64,
    /// After how long a follower subscribes anew.
    pub subscribe_renew: u64,
    /// How many entries a clock's log may have, 1 to `ROWS_MAX`.
    pub seat_rows: u32,
}

/// Options of which none is set yet. The table of options has what each is where a text names none.
pub const NO_OPTIONS: Options = Options {
    clock_identity: ClockId { id: 0 },
    domain_number: 0,
    priority1: 0,
    priority2: 0,
    clock_class: 0,
    clock_accuracy: 0,
    offset_scaled_log_variance: 0,
    utc_offset: 0,
    time_flags: 0,
    time_source: 0,
    boundary_clock_jbod: false,
    max_frequency: 0,
    step_threshold: 0,
    first_step_threshold: 0,
    servo_kp: 0,
    servo_ki: 0,
    delay_filter_length: 0,
    duration: 0,
    window: 0,
    follow_interval: 0,
    subscribe_duration: 0,
    subscribe_renew: 0,
    seat_rows: 0,
};

/// What happens to a port from outside.
#[derive(Debug, Drop)]
pub enum Happening {
    /// A frame of at least one octet arrives.
    Frame(Octets),
    /// The link goes down.
    Down,
    /// The link comes up.
    Up,
}

/// What happens to a port, and at which tick.
#[derive(Debug, Drop)]
pub struct Record {
    /// The port's number, from 1.
    pub port: u16,
    /// When, in ns, at most `TICK_MAX`.
    pub tick: u64,
    /// What happens.
    pub what: Happening,
}

/// A management query and its tick.
#[derive(Debug, Drop)]
pub struct Asked {
    /// When, in ns, at most `TICK_MAX`.
    pub tick: u64,
    /// The text of the query.
    pub text: Octets,
}

/// Whose turn it is.
#[derive(Clone, Copy, Debug, PartialEq, Eq)]
pub enum Turner {
    /// The actor that the default rule names.
    Default,
    /// A port, by its number, from 1.
    Port(u16),
    /// The follower of a clock.
    Clock(u8),
    /// What asks the queries of the scenario.
    Queries,
}

/// So many turns in a row.
#[derive(Clone, Copy, Debug, PartialEq, Eq)]
pub struct Turns {
    /// Whose turns they are.
    pub who: Turner,
    /// How many.
    pub count: u32,
}

/// What a run is made from. Every scenario keeps the rules: its numbers are in the ranges of their
/// options, it has 1 to `CLOCKS_MAX` clocks and 1 to `PORTS_MAX` ports, what it says is of clocks and
/// ports that it has, and the ticks of a port's records don't fall, nor those of the queries.
#[derive(Debug, Drop)]
pub struct Scenario {
    /// The options of the whole.
    pub options: Options,
    /// 1 to `CLOCKS_MAX` clocks.
    pub clocks: ClockStates,
    /// 1 to `PORTS_MAX` ports.
    pub ports: PortConfs,
    /// What happens to the ports; of each port by rising tick.
    pub records: RecordList,
    /// What is asked, by rising tick.
    pub queries: AskedList,
    /// Whose turns they are, in order; the default rule names the others.
    pub turns: TurnsList,
}

impl Model for Scenario {
    ghost use Rattle.bc_history.specs.Scenario.Scenario.{Scenario as Said};

    ghost Value = { Said };

    ghost use Rattle.bc_history.specs.Scenario.ScenarioRules.{IsScenario, said};

    ghost view = { said };

    ghost invariant = { λ s. IsScenario (said s) };
}

impl Scenario {
    /// Says that the scenario keeps the rules, as every scenario does. It does nothing: who calls
    /// it is told so.
    pub fn rules(&self)
        ensures { IsScenario self.now }
    {
        let _ = &self.options;
    }
}
