//! Where the fields stand (IEEE 1588-2019, clause 13), counted in octets from the
//! first one of the message. Numbers stand with the high octet first.

ghost use Rattle.std.specs.Prelude.{◌≡◌};
ghost use Rattle.ptp_profile.specs.Wire.MessageFormat.{length_of};

// The header (13.3), which `ptp_base` writes.

/// majorSdoId in the high four bits, messageType in the low four.
pub const MESSAGE_TYPE: usize = 0;

/// minorVersionPTP in the high four bits, versionPTP in the low four.
pub const VERSION: usize = 1;

/// messageLength, two octets.
pub const MESSAGE_LENGTH: usize = 2;

/// domainNumber. Behind it stands minorSdoId: written 0, and free where it is read.
pub const DOMAIN_NUMBER: usize = 4;

/// flagField, two octets.
pub const FLAG_FIELD: usize = 6;

/// correctionField, eight octets, signed, in ns times 65,536. Behind it stand four octets of
/// messageTypeSpecific: written 0, and free where they are read.
pub const CORRECTION_FIELD: usize = 8;

/// sourcePortIdentity: clockIdentity in eight octets, portNumber in two.
pub const SOURCE_PORT_IDENTITY: usize = 20;

/// sequenceId, two octets. Behind it stands controlField: written by the type, and free where it
/// is read.
pub const SEQUENCE_ID: usize = 30;

/// logMessageInterval, signed.
pub const LOG_MESSAGE_INTERVAL: usize = 33;

/// Where the header ends and the body begins.
pub const BODY: usize = 34;

// The timestamp that each of the five types begins with (5.3.3): originTimestamp of Sync and
// Delay_Req (13.6) and of Announce (13.5), preciseOriginTimestamp of Follow_Up (13.7),
// receiveTimestamp of Delay_Resp (13.8).

/// secondsField, six octets.
pub const SECONDS: usize = 34;

/// nanosecondsField, four octets.
pub const NANOSECONDS: usize = 40;

// Delay_Resp (13.8).

/// requestingPortIdentity: clockIdentity in eight octets, portNumber in two.
pub const REQUESTING_PORT_IDENTITY: usize = 44;

// Announce (13.5).

/// currentUtcOffset, two octets, signed. Behind it stands a reserved octet: written 0, and free
/// where it is read.
pub const CURRENT_UTC_OFFSET: usize = 44;

/// grandmasterPriority1.
pub const GRANDMASTER_PRIORITY1: usize = 47;

/// clockClass of grandmasterClockQuality (5.3.7).
pub const CLOCK_CLASS: usize = 48;

/// clockAccuracy of grandmasterClockQuality.
pub const CLOCK_ACCURACY: usize = 49;

/// offsetScaledLogVariance of grandmasterClockQuality, two octets.
pub const OFFSET_SCALED_LOG_VARIANCE: usize = 50;

/// grandmasterPriority2.
pub const GRANDMASTER_PRIORITY2: usize = 52;

/// grandmasterIdentity, eight octets.
pub const GRANDMASTER_IDENTITY: usize = 53;

/// stepsRemoved, two octets.
pub const STEPS_REMOVED: usize = 61;

/// timeSource.
pub const TIME_SOURCE: usize = 63;

/// messageType of a Sync (13.3.2.3, table 36).
pub const SYNC: u8 = 0x0;

/// messageType of a Delay_Req (13.3.2.3, table 36).
pub const DELAY_REQ: u8 = 0x1;

/// messageType of a Follow_Up (13.3.2.3, table 36).
pub const FOLLOW_UP: u8 = 0x8;

/// messageType of a Delay_Resp (13.3.2.3, table 36).
pub const DELAY_RESP: u8 = 0x9;

/// messageType of an Announce (13.3.2.3, table 36).
pub const ANNOUNCE: u8 = 0xb;

/// The octets that a message of a type has at least (13.5 to 13.8), 0 where it is none of the five.
pub fn length_of(kind: u8) -> u16
    ensures { result ≡ length_of kind }
{
    match kind {
        SYNC | DELAY_REQ | FOLLOW_UP => 44,
        DELAY_RESP => 54,
        ANNOUNCE => 64,
        _ => 0,
    }
}
