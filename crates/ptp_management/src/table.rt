//! The management messages that this clock knows, and their fields (IEEE 1588-2019, 15.5.2.3 and
//! 15.5.3).

/// The management messages that this clock answers, by managementId (15.5.2.3).
#[derive(Clone, Copy, PartialEq, Eq)]
pub enum ManagementId {
    /// NULL_MANAGEMENT, 0x0000.
    NullManagement,
    /// DEFAULT_DATA_SET, 0x2000.
    DefaultDataSet,
    /// CURRENT_DATA_SET, 0x2001.
    CurrentDataSet,
    /// PARENT_DATA_SET, 0x2002.
    ParentDataSet,
    /// TIME_PROPERTIES_DATA_SET, 0x2003.
    TimePropertiesDataSet,
    /// PORT_DATA_SET, 0x2004.
    PortDataSet,
    /// PRIORITY1, 0x2005.
    Priority1,
    /// PRIORITY2, 0x2006.
    Priority2,
    /// DOMAIN, 0x2007.
    Domain,
}

/// All of them, in the order of their numbers.
pub const MANAGEMENT_IDS: [ManagementId; 9] = [
    ManagementId::NullManagement,
    ManagementId::DefaultDataSet,
    ManagementId::CurrentDataSet,
    ManagementId::ParentDataSet,
    ManagementId::TimePropertiesDataSet,
    ManagementId::PortDataSet,
    ManagementId::Priority1,
    ManagementId::Priority2,
    ManagementId::Domain,
];

/// A field in the data of a management message (15.5.3).
#[derive(Clone, Copy)]
pub enum Field {
    /// Octets without meaning.
    Reserved,
    // Of defaultDS (15.5.3.3.1).
    /// The flags of defaultDS; the lowest bit is twoStepFlag.
    TwoStepFlag,
    /// numberPorts.
    NumberPorts,
    /// priority1.
    Priority1,
    /// clockQuality.clockClass.
    ClockClass,
    /// clockQuality.clockAccuracy.
    ClockAccuracy,
    /// clockQuality.offsetScaledLogVariance.
    OffsetScaledLogVariance,
    /// priority2.
    Priority2,
    /// clockIdentity.
    ClockIdentity,
    /// domainNumber.
    DomainNumber,
    // Of currentDS (15.5.3.4.1).
    /// stepsRemoved.
    StepsRemoved,
    /// offsetFromMaster, in ns times 65,536.
    OffsetFromMaster,
    /// meanDelay, in ns times 65,536.
    MeanPathDelay,
    // Of parentDS (15.5.3.5.1).
    /// parentPortIdentity.
    ParentPortIdentity,
    /// The flags of parentDS; the lowest bit is parentStats.
    ParentStats,
    /// observedParentOffsetScaledLogVariance.
    ObservedVariance,
    /// observedParentClockPhaseChangeRate.
    ObservedPhaseChangeRate,
    /// grandmasterPriority1.
    GrandmasterPriority1,
    /// grandmasterClockQuality.clockClass.
    GrandmasterClass,
    /// grandmasterClockQuality.clockAccuracy.
    GrandmasterAccuracy,
    /// grandmasterClockQuality.offsetScaledLogVariance.
    GrandmasterVariance,
    /// grandmasterPriority2.
    GrandmasterPriority2,
    /// grandmasterIdentity.
    GrandmasterIdentity,
    // Of timePropertiesDS (15.5.3.6.1).
    /// currentUtcOffset, in seconds.
    CurrentUtcOffset,
    /// The six time flags.
    TimeFlags,
    /// timeSource.
    TimeSource,
    // Of portDS (15.5.3.7.1).
    /// portIdentity.
    PortIdentity,
    /// portState, by its number.
    PortState,
    /// logMinDelayReqInterval.
    LogMinDelayReqInterval,
    /// meanLinkDelay, in ns times 65,536.
    PeerMeanPathDelay,
    /// logAnnounceInterval.
    LogAnnounceInterval,
    /// announceReceiptTimeout.
    AnnounceReceiptTimeout,
    /// logSyncInterval.
    LogSyncInterval,
    /// delayMechanism.
    DelayMechanism,
    /// logMinPdelayReqInterval.
    LogMinPdelayReqInterval,
    /// versionNumber.
    VersionNumber,
}

/// How a field is printed.
#[derive(Clone, Copy)]
pub enum Form {
    /// Not at all.
    Silent,
    /// 0 or 1: the lowest bit.
    Flag,
    /// Decimal, without a sign.
    Decimal,
    /// Decimal, with a minus sign where it is negative.
    Signed,
    /// `0x` and two hex digits an octet.
    Hex,
    /// The identity of a clock.
    Clock,
    /// The identity of a port.
    Port,
    /// The name of a port's state.
    State,
}
