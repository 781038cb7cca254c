//! Octets as a message.

ghost use Rattle.std.specs.Prelude.{◌≡◌, ◌≢◌, ◌≤◌, ◌<◌, ◌^◌, ◌+◌, ◌≤ℤ◌, pos, length, IfOk, IfErr, IfNone, Some, Ok, Err};
ghost use Rattle.ptp_profile.specs.declared.message.Message.{Message};
ghost use Rattle.ptp_profile.specs.declared.message.Reject.{Reject};
ghost use Rattle.ptp_base.specs.declared.time.TheConstants.{TIME_MAX};
ghost use Rattle.ptp_profile.specs.Wire.MessageFormat.{number_at, port_at, time_at, said_at, length_of, body_at, message_at, first_fault, decode_result, time_in, IsFaultless, IsSpelled, Reads};

use crate::fields::*;
use crate::flags::known_flags;
use ptp_base::{ClockId, Quality};
use ptp_profile::big_endian::{port_at, u16_at, u32_at, u48_at, u64_at};
use ptp_profile::{Body, Message, Reject, Said};

// The timestamp in ns (5.3.3).
fn time_at(octets: &[u8]) -> i64
    requires long { 44 ≤ length octets.now }
    requires nanos { number_at 40 4 octets.now < 1000000000 }
    requires seconds { number_at 34 6 octets.now < 2 ^ 33 }
    ensures time { result ≡ time_at octets.now }
    ensures early { pos 0 ≤ℤ result }
    ensures late { result ≤ℤ TIME_MAX }
{
    let seconds = u48_at(octets, SECONDS);
    let nanos = u32_at(octets, NANOSECONDS);
    (seconds * 1_000_000_000 + nanos as u64) as i64
}

// What an Announce says of its grandmaster (13.5).
fn said_at(octets: &[u8]) -> Said
    requires { 64 ≤ length octets.now }
    ensures { result ≡ said_at octets.now }
{
    Said {
        grandmaster: ClockId {
            id: u64_at(octets, GRANDMASTER_IDENTITY),
        },
        quality: Quality {
            priority1: octets[GRANDMASTER_PRIORITY1],
            class: octets[CLOCK_CLASS],
            accuracy: octets[CLOCK_ACCURACY],
            variance: u16_at(octets, OFFSET_SCALED_LOG_VARIANCE),
            priority2: octets[GRANDMASTER_PRIORITY2],
        },
        steps: u16_at(octets, STEPS_REMOVED),
        utc_offset: u16_at(octets, CURRENT_UTC_OFFSET).cast_signed(),
        source: octets[TIME_SOURCE],
    }
}

// What is wrong first. All up to messageLength stand in the header, and every type has a timestamp.
fn first_fault(octets: &[u8], domain: u8) -> Option<Reject>
    ensures first { result ≡ first_fault domain octets.now }
    ensures none { IfNone result (IsFaultless domain octets.now) }
{
    if octets.len() < BODY {
        return Some(Reject::Short);
    }
    if octets[VERSION] % 16 != 2 {
        return Some(Reject::Version);
    }
    if octets[DOMAIN_NUMBER] != domain || octets[MESSAGE_TYPE] / 16 != 0 {
        return Some(Reject::Domain);
    }
    let least = length_of(octets[MESSAGE_TYPE] % 16);
    if least == 0 {
        return Some(Reject::Type_);
    }
    let length = u16_at(octets, MESSAGE_LENGTH);
    if octets.len() < length as usize || length < least {
        return Some(Reject::Length);
    }
    if u32_at(octets, NANOSECONDS) >= 1_000_000_000 {
        return Some(Reject::Nanos);
    }
    if u48_at(octets, SECONDS) >= 1 << 33 {
        return Some(Reject::TimeRange);
    }
    None
}

// The body of a type (13.5 to 13.8).
fn body_at(kind: u8, octets: &[u8]) -> Body
    requires long { length_of kind ≤ length octets.now }
    requires kind { length_of kind ≢ 0 }
    requires nanos { number_at 40 4 octets.now < 1000000000 }
    requires seconds { number_at 34 6 octets.now < 2 ^ 33 }
    ensures body { result ≡ body_at kind octets.now }
    ensures early { pos 0 ≤ℤ time_in result }
    ensures late { time_in result ≤ℤ TIME_MAX }
{
    let time = time_at(octets);
    match kind {
        SYNC => Body::Sync { origin: time },
        DELAY_REQ => Body::DelayReq { origin: time },
        FOLLOW_UP => Body::FollowUp { precise: time },
        DELAY_RESP => Body::DelayResp {
            receive: time,
            requesting: port_at(octets, REQUESTING_PORT_IDENTITY),
        },
        _ => Body::Announce {
            origin: time,
            said: said_at(octets),
        },
    }
}

// The message, where nothing is wrong (13.3).
fn message_at(octets: &[u8], domain: u8) -> Message
    requires { IsFaultless domain octets.now }
    ensures message { result ≡ message_at octets.now }
    ensures spelled { IsSpelled result }
{
    Message {
        domain: octets[DOMAIN_NUMBER],
        flags: known_flags(u16_at(octets, FLAG_FIELD)),
        correction: u64_at(octets, CORRECTION_FIELD).cast_signed(),
        sender: port_at(octets, SOURCE_PORT_IDENTITY),
        seq: u16_at(octets, SEQUENCE_ID),
        log_interval: octets[LOG_MESSAGE_INTERVAL].cast_signed(),
        body: body_at(octets[MESSAGE_TYPE] % 16, octets),
    }
}

/// The message that stands in the octets of a frame, for a port of a domain
/// (IEEE 1588-2019, 13.3 and 13.5 to 13.8), or what is wrong first. Does not allocate.
///
/// Times are in ns, corrections in ns times 65,536. What is reserved, minorVersionPTP, minorSdoId,
/// messageTypeSpecific, controlField, the flags that the profile does not know, and all octets
/// behind the type's length are free.
pub fn decode(octets: &[u8], domain: u8) -> Result<Message, Reject>
    ensures exact { result ≡ decode_result domain octets.now }

    // What is read stands there, and what stands there is read.
    ensures ok { IfOk result (λ m. Reads octets.now domain m) }
    ensures only { (m : Message) → Reads octets.now domain m → result ≡ Ok m }

    // The first fault is given, and no other.
    ensures err { IfErr result (λ fault. first_fault domain octets.now ≡ Some fault) }
    ensures first { (fault : Reject) → first_fault domain octets.now ≡ Some fault →
        result ≡ Err fault }

    // Its time is from 0 to `TIME_MAX`, and it has no flag beyond the profile's.
    ensures spelled { IfOk result (λ m. IsSpelled m) }
{
    if let Some(fault) = first_fault(octets, domain) {
        return Err(fault);
    }
    Ok(message_at(octets, domain))
}
