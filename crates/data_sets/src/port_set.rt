use ptp_base::{Items, PortId, PortState};

/// The data set of one port: portDS (IEEE 1588-2019, 8.2.15). Each `log_` is the logarithm to
/// base 2 of an interval in seconds, from -7 to 10 (7.7.2).
#[derive(Clone, Copy, Debug, PartialEq, Eq)]
pub struct PortSet {
    /// portIdentity.
    pub id: PortId,
    /// portState.
    pub state: PortState,
    /// logAnnounceInterval.
    pub log_announce: i8,
    /// logSyncInterval.
    pub log_sync: i8,
    /// logMinDelayReqInterval.
    pub log_delay: i8,
    /// announceReceiptTimeout, in announce intervals, from 2 to 255.
    pub receipt: u8,
}

/// The data sets of ports, by rising port.
pub type PortSets = Items<PortSet>;
