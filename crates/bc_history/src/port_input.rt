use crate::entry::Outcome;
use ptp_base::{Octets, PortId};
use ptp_profile::{Action, Held, Timer};

/// What happens to a port at an event.
#[derive(Debug, Drop)]
pub enum PortHappening {
    /// A frame arrives.
    Frame(Octets),
    /// A timer fires.
    Timed(Timer),
    /// The link goes down.
    Down,
    /// The link comes up.
    Up,
    /// The port says what became of its last measure, which was made in generation `gener`: what the
    /// servo asked, and what the exchange gave.
    Report {
        gener: u32,
        action: Action,
        outcome: Outcome,
    },
}

/// An input of a port.
#[derive(Debug, Drop)]
pub struct PortInput {
    /// The port's number, from 1.
    pub number: u16,
    /// When, in ns of the scenario.
    pub tick: u64,
    /// What happens to the port.
    pub what: PortHappening,
}

/// An entry of a port: its input, and what the hub found for it.
#[derive(Debug, Drop)]
pub struct PortEntry {
    /// The port's input.
    pub input: PortInput,
    /// The port's clock with the stamp that its last order gave it.
    pub held: Held,
    /// What the port's clock reads, in ns from 0 to `TIME_MAX`; 0 where the input comes without a
    /// reading.
    pub reading: i64,
}

/// What an event of a port goes by besides the port and its input.
#[derive(Clone, Copy, Debug, PartialEq, Eq)]
pub struct EventContext {
    /// The moment of the event in ns of the scenario: the greatest tick so far.
    pub moment: u64,
    /// parentDS.parentPortIdentity before the event (IEEE 1588-2019, 8.2.3.2).
    pub parent: PortId,
    /// currentDS.stepsRemoved before the event (8.2.2.2).
    pub steps: u16,
    /// The port's clock with the stamp that its last order gave it.
    pub held: Held,
    /// What the port's clock reads, in ns from 0 to `TIME_MAX`; 0 where the input comes without a
    /// reading.
    pub reading: i64,
}
