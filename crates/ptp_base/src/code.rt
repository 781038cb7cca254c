/// What the state decision says of a port (IEEE 1588-2019, 9.3.3 and figure 33). `Stay` is this
/// project's name for a port of which nothing is decided.
#[derive(Clone, Copy, Debug, PartialEq, Eq)]
pub enum Code {
    /// Nothing is decided.
    Stay,
    /// Master, because the own clock's class is 1 to 127 and it is better than what the port hears.
    M1,
    /// Master, because the own clock is the best.
    M2,
    /// Master, because the best clock is heard on another port.
    M3,
    /// Passive, because the own clock's class is 1 to 127 and the port hears a better clock.
    P1,
    /// Passive, because another port has the shorter path to the same grandmaster.
    P2,
    /// Slave: the best clock is heard on this port.
    S1,
}
