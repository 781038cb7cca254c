use ptp_base::{ClockId, PortId, Quality};

/// A message of the five types of this profile (IEEE 1588-2019, 13.3).
#[derive(Clone, Copy, Debug, PartialEq, Eq)]
pub struct Message {
    /// domainNumber.
    pub domain: u8,
    /// The flag field, masked with `0x073F`: octet 6 is the high one.
    pub flags: u16,
    /// correctionField, in ns times 65,536.
    pub correction: i64,
    /// sourcePortIdentity.
    pub sender: PortId,
    /// sequenceId.
    pub seq: u16,
    /// logMessageInterval.
    pub log_interval: i8,
    /// What differs by the message's type.
    pub body: Body,
}

/// What differs by the message's type. Times are in ns, from 0 to `TIME_MAX`.
#[derive(Clone, Copy, Debug, PartialEq, Eq)]
pub enum Body {
    /// Sync (13.6): originTimestamp.
    Sync { origin: i64 },
    /// Delay_Req (13.6): originTimestamp.
    DelayReq { origin: i64 },
    /// Follow_Up (13.7): preciseOriginTimestamp.
    FollowUp { precise: i64 },
    /// Delay_Resp (13.8): receiveTimestamp and requestingPortIdentity.
    DelayResp { receive: i64, requesting: PortId },
    /// Announce (13.5): originTimestamp, and what it says of the grandmaster.
    Announce { origin: i64, said: Said },
}

/// What an Announce says of its grandmaster (13.5).
#[derive(Clone, Copy, Debug, PartialEq, Eq)]
pub struct Said {
    /// grandmasterIdentity.
    pub grandmaster: ClockId,
    /// grandmasterPriority1, grandmasterClockQuality and grandmasterPriority2.
    pub quality: Quality,
    /// stepsRemoved.
    pub steps: u16,
    /// currentUtcOffset, in seconds.
    pub utc_offset: i16,
    /// timeSource.
    pub source: u8,
}

/// Why a frame is dropped: the first of these that holds, in this order.
#[derive(Clone, Copy, Debug, PartialEq, Eq)]
pub enum Reject {
    /// Fewer than 34 octets.
    Short,
    /// versionPTP isn't 2.
    Version,
    /// domainNumber is another, or majorSdoId isn't 0.
    Domain,
    /// messageType is none of the five.
    Type_,
    /// messageLength is beyond the octets, or below the type's length.
    Length,
    /// A timestamp has 10^9 nanoseconds or more.
    Nanos,
    /// A timestamp has 2^33 seconds or more.
    TimeRange,
}
