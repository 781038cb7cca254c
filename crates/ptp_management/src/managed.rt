//! Management messages (IEEE 1588-2019, 15.4 and 15.5).

use ptp_base::{Octets, PortId};

/// What a management message is for: actionField (15.4.1.6), with its number.
#[derive(Clone, Copy, Debug, PartialEq, Eq)]
pub enum Action {
    /// 0: asks for values.
    Get = 0,
    /// 1: sets values.
    Set,
    /// 2: answers Get and Set.
    Response,
    /// 3: starts an event.
    Command,
    /// 4: answers Command.
    Acknowledge,
}

/// A management message (15.4.1). Its boundary hops are always 0.
#[derive(Debug, Drop)]
pub struct Managed {
    /// sourcePortIdentity.
    pub sender: PortId,
    /// targetPortIdentity. The clock of eight octets 0xFF stands for all clocks, the port 65,535
    /// for all ports.
    pub target: PortId,
    /// sequenceId.
    pub seq: u16,
    /// actionField.
    pub action: Action,
    /// The one TLV.
    pub tlv: Tlv,
}

/// The TLV of a management message (15.5.2 and 15.5.4).
#[derive(Debug, Drop)]
pub enum Tlv {
    /// MANAGEMENT: managementId, and the octets of the data field, at most 65,481.
    Management { id: u16, octets: Octets },
    /// MANAGEMENT_ERROR_STATUS: managementErrorId, and the managementId that it is about.
    Error { error: u16, id: u16 },
}

/// Why octets are not read.
#[derive(Clone, Copy, Debug, PartialEq, Eq)]
pub enum ReadError {
    /// They are no management message of the domain.
    Bad,
    /// Memory ran out.
    NoMemory,
}
