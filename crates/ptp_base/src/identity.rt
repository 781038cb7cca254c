/// The identity of a clock: eight octets, read big-endian (IEEE 1588-2019, 7.5.2.2).
#[derive(Clone, Copy, Debug, PartialEq, Eq, PartialOrd, Ord, Hash)]
pub struct ClockId {
    /// The eight octets as one number, the first octet the highest.
    pub id: u64,
}

/// The identity of a port, ordered by clock and then by port number (IEEE 1588-2019, 7.5.2).
#[derive(Clone, Copy, Debug, PartialEq, Eq, PartialOrd, Ord, Hash)]
pub struct PortId {
    /// The clock that the port belongs to.
    pub clock: ClockId,
    /// The number of the port, from 1; 0 stands for the clock itself.
    pub port: u16,
}
