/// What a scenario says of one port. Each `log_` is the logarithm to base 2 of an interval in
/// seconds, from -7 to 10 (IEEE 1588-2019, 7.7.2).
#[derive(Clone, Copy, Debug, PartialEq, Eq)]
pub struct PortConf {
    /// The hardware clock that the port's frames are stamped by, from 0.
    pub clock: u8,
    /// logAnnounceInterval.
    pub log_announce: i8,
    /// logSyncInterval.
    pub log_sync: i8,
    /// logMinDelayReqInterval.
    pub log_delay: i8,
    /// announceReceiptTimeout: after how many announce intervals without an Announce a port gives
    /// up its master, from 2 to 255.
    pub receipt: u8,
}
