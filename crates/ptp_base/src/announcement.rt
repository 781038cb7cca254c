use crate::identity::{ClockId, PortId};

/// The quality of a clock, in the order in which it is compared (IEEE 1588-2019, 7.6.2 and 9.3.4).
/// Of each attribute the lower value is the better one.
#[derive(Clone, Copy, Debug, PartialEq, Eq)]
pub struct Quality {
    /// priority1, set by the operator.
    pub priority1: u8,
    /// clockClass: what the time of the clock is traceable to.
    pub class: u8,
    /// clockAccuracy, by the table of the standard.
    pub accuracy: u8,
    /// offsetScaledLogVariance: how stable the clock is.
    pub variance: u16,
    /// priority2, set by the operator.
    pub priority2: u8,
}

/// The time properties that an Announce carries (IEEE 1588-2019, 8.2.4).
#[derive(Clone, Copy, Debug, PartialEq, Eq)]
pub struct TimeProps {
    /// currentUtcOffset: TAI less UTC, in seconds.
    pub utc_offset: i16,
    /// The low six bits of the flag field: leap61, leap59, currentUtcOffsetValid, ptpTimescale,
    /// timeTraceable and frequencyTraceable.
    pub flags: u8,
    /// timeSource, by the table of the standard.
    pub source: u8,
}

/// An Announce as the port that received it sees it; the comparison takes these
/// (IEEE 1588-2019, 9.3.4).
#[derive(Clone, Copy, Debug, PartialEq, Eq)]
pub struct Announcement {
    /// grandmasterIdentity.
    pub grandmaster: ClockId,
    /// The quality of the grandmaster.
    pub quality: Quality,
    /// stepsRemoved: boundary clocks between the sender and the grandmaster.
    pub steps: u16,
    /// sourcePortIdentity: the port that sent it.
    pub sender: PortId,
    /// The port that received it.
    pub receiver: PortId,
    /// What the sender says of the timescale.
    pub time: TimeProps,
    /// The flag alternateMaster.
    pub alternate: bool,
}
