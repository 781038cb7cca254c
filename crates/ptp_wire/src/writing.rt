//! A message as octets.

ghost use Rattle.std.specs.Prelude.{◌≡◌, ◌≤◌, ◌+◌, ◌-◌, ◌≤ℤ◌, pos, ◌++◌, length, drop, List, ℕ, OnOk, OnErr, unsigned_abs};
ghost use Rattle.ptp_base.specs.declared.limits.TheConstants.{SENT_MAX};
ghost use Rattle.ptp_base.specs.declared.time.TheConstants.{TIME_MAX};
ghost use Rattle.ptp_profile.specs.Wire.MessageFormat.{time_octets, said_octets, body_octets, time_in, head_of, IsSpelled, Reads, message_octets};

use crate::fields::*;
use byteorder::{BigEndian, ByteOrder};
use ptp_base::{Head, NoMemory, Octets, Room, SENT_MAX, eight, head_put, port_put, two};
use ptp_profile::{Body, Message, Said, holds_numbers};

// A time in ns as seconds and nanoseconds (5.3.3).
fn stamp_put(time: u64, out: &mut [u8])
    requires long { 10 ≤ length out.old }
    requires late { time ≤ unsigned_abs TIME_MAX }
    ensures { out.new ≡ time_octets time ++ drop 10 out.old }
{
    BigEndian::write_u48(out, time / 1_000_000_000);
    BigEndian::write_u32(
        &mut out[NANOSECONDS - SECONDS..],
        (time % 1_000_000_000) as u32,
    );
}

fn time_put(time: &i64, out: &mut [u8])
    requires long { 10 ≤ length out.old }
    requires early { pos 0 ≤ℤ time.now }
    requires late { time.now ≤ℤ TIME_MAX }
    ensures { out.new ≡ time_octets (unsigned_abs time.now) ++ drop 10 out.old }
{
    stamp_put(*time as u64, out);
}

// From currentUtcOffset on (13.5), field by field, with the reserved octet 0.
fn said_put(said: &Said, out: &mut [u8])
    requires { 20 ≤ length out.old }
    ensures { out.new ≡ said_octets said.now ++ drop 20 out.old }
{
    let [u0, u1] = two(said.utc_offset.cast_unsigned());
    let [v0, v1] = two(said.quality.variance);
    let [i0, i1, i2, i3, i4, i5, i6, i7] = eight(said.grandmaster.id);
    let [s0, s1] = two(said.steps);
    out[..TIME_SOURCE + 1 - CURRENT_UTC_OFFSET].copy_from_slice(&[
        u0,
        u1,
        0,
        said.quality.priority1,
        said.quality.class,
        said.quality.accuracy,
        v0,
        v1,
        said.quality.priority2,
        i0,
        i1,
        i2,
        i3,
        i4,
        i5,
        i6,
        i7,
        s0,
        s1,
        said.source,
    ]);
}

// What stands behind the header (13.5 to 13.8), and how many octets it has.
fn body_put(body: &Body, out: &mut [u8]) -> usize
    requires long { 30 ≤ length out.old }
    requires early { pos 0 ≤ℤ time_in body.now }
    requires late { time_in body.now ≤ℤ TIME_MAX }
    ensures octets { out.new ≡ body_octets body.now ++ drop result out.old }
    ensures length { result ≡ length (body_octets body.now) }
    ensures short { result ≤ 30 }
{
    match body {
        Body::Sync { origin } => {
            time_put(origin, out);
            10
        }
        Body::DelayReq { origin } => {
            time_put(origin, out);
            10
        }
        Body::FollowUp { precise } => {
            time_put(precise, out);
            10
        }
        Body::DelayResp {
            receive,
            requesting,
        } => {
            time_put(receive, out);
            port_put(requesting, &mut out[REQUESTING_PORT_IDENTITY - BODY..]);
            20
        }
        Body::Announce { origin, said } => {
            time_put(origin, out);
            said_put(said, &mut out[CURRENT_UTC_OFFSET - BODY..]);
            30
        }
    }
}

// The header of a message, with messageType and controlField by its body (13.3).
fn head_of(m: &Message) -> Head
    ensures { result ≡ head_of m.now }
{
    let (kind, control) = match m.body {
        Body::Sync { .. } => (SYNC, 0),
        Body::DelayReq { .. } => (DELAY_REQ, 1),
        Body::FollowUp { .. } => (FOLLOW_UP, 2),
        Body::DelayResp { .. } => (DELAY_RESP, 3),
        Body::Announce { .. } => (ANNOUNCE, 5),
    };
    Head {
        kind,
        length: length_of(kind),
        domain: m.domain,
        flags: m.flags,
        correction: m.correction,
        sender: m.sender,
        seq: m.seq,
        control,
        log_interval: m.log_interval,
    }
}

// Writes the message, and says how many octets it has.
fn frame_put(m: &Message, out: &mut [u8]) -> usize
    requires long { SENT_MAX ≤ length out.old }
    requires fits { IsSpelled m.now }
    ensures octets { out.new ≡ message_octets m.now ++ drop result out.old }
    ensures length { result ≡ length (message_octets m.now) }
    ensures short { result ≤ SENT_MAX }
{
    head_put(&head_of(m), out);
    BODY + body_put(&m.body, &mut out[BODY..])
}

/// How many octets the one spelling of the message has: 44, 54 or 64 (IEEE 1588-2019, 13.5 to
/// 13.8). Does not allocate.
pub fn written_length(m: &Message) -> usize
    ensures length { result ≡ length (message_octets m.now) }
    ensures short { result ≤ SENT_MAX }
{
    head_of(m).length as usize
}

/// Appends the one spelling of the message (IEEE 1588-2019, 13.3 and 13.5 to 13.8), or nothing where
/// memory runs out.
pub fn encode(m: &Message, out: &mut Octets) -> Result<(), NoMemory>
    // Its time is from 0 to `TIME_MAX`, and it has no flag beyond the profile's.
    requires { IsSpelled m.now }
    ensures ok { OnOk result (out.new ≡ out.old ++ message_octets m.now) }
    ensures err { OnErr result (out.new ≡ out.old) }

    // What is appended is read again, whatever stands behind it.
    ensures again { OnOk result
        ((rest : List ℕ) → Reads (message_octets m.now ++ rest) m.now.domain m.now) }
{
    holds_numbers(m);
    let mut frame = [0; SENT_MAX];
    let length = frame_put(m, &mut frame);
    out.append(&frame[..length])
}

/// Appends the one spelling of the message (IEEE 1588-2019, 13.3 and 13.5 to 13.8) in reserved
/// places, so it cannot fail. Does not allocate.
pub fn encode_reserved(m: &Message, out: &mut Room<u8>)
    requires fits { IsSpelled m.now }
    requires room { length (message_octets m.now) ≤ out.old.spare }
    ensures { out.new
        ≡ record {
          items = out.old.items ++ message_octets m.now;
          spare = out.old.spare - length (message_octets m.now);
        } }
{
    let mut frame = [0; SENT_MAX];
    let length = frame_put(m, &mut frame);
    out.append(&frame[..length]);
}
