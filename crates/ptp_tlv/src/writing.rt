//! A management message as octets.

ghost use Rattle.std.specs.Prelude.{◌≡◌, ◌≤◌, ◌+◌, ◌++◌, ℕ, List, length, OnOk, OnErr, Some};
ghost use Rattle.ptp_base.specs.Header.{header_octets};
ghost use Rattle.ptp_management.specs.ManagementMessages.{action_number, managed_head, managed_octets, managed_read, purpose_octets, tlv_octets, tlv_length, IsShort};

use ptp_base::{Head, NoMemory, Octets, eight, head_put, two};
use ptp_management::{Action, Managed, Tlv, holds_management_numbers};
use std::alloc::Global;

// actionField (IEEE 1588-2019, 15.4.1.6).
fn action_number(action: Action) -> u8
    ensures { result ≡ action_number action }
{
    match action {
        Action::Get => 0,
        Action::Set => 1,
        Action::Response => 2,
        Action::Command => 3,
        Action::Acknowledge => 4,
    }
}

// How many octets the TLV has, its type and length included (15.5.2 and 15.5.4).
fn tlv_length(tlv: &Tlv) -> u16
    requires { IsShort tlv.now }
    ensures length { result ≡ tlv_length tlv.now }
    ensures short { result ≤ 65487 }
{
    match tlv {
        Tlv::Management { octets, .. } => 6 + octets.items().len() as u16,
        Tlv::Error { .. } => 12,
    }
}

// The header (13.3): type 13, control 4, logMessageInterval 0x7F.
fn header(m: &Managed, domain: u8) -> [u8; 34]
    requires { IsShort m.now.tlv }
    ensures { result ≡ header_octets (managed_head domain m.now) }
{
    let mut octets = [0; 34];
    let head = Head {
        kind: 13,
        length: 48 + tlv_length(&m.tlv),
        domain,
        flags: 0,
        correction: 0,
        sender: m.sender,
        seq: m.seq,
        control: 4,
        log_interval: 0x7F,
    };
    head_put(&head, &mut octets);
    octets
}

// Whom it is for, no boundary hops, what it is for (15.4.1).
fn purpose(m: &Managed) -> [u8; 14]
    ensures { result ≡ purpose_octets m.now }
{
    let [i0, i1, i2, i3, i4, i5, i6, i7] = eight(m.target.clock.id);
    let [p0, p1] = two(m.target.port);
    [
        i0,
        i1,
        i2,
        i3,
        i4,
        i5,
        i6,
        i7,
        p0,
        p1,
        0,
        0,
        action_number(m.action),
        0,
    ]
}

// The TLV (15.5.2 and 15.5.4).
fn append_tlv(tlv: &Tlv, out: &mut Octets) -> Result<(), NoMemory>
    requires { IsShort tlv.now }
    ensures { OnOk result (out.new ≡ out.old ++ tlv_octets tlv.now) }
{
    match tlv {
        Tlv::Management { id, octets } => {
            let [l0, l1] = two(2 + octets.items().len() as u16);
            let [i0, i1] = two(*id);
            out.append(&[0, 1, l0, l1, i0, i1])?;
            out.append(octets.items())
        }
        Tlv::Error { error, id } => {
            let [e0, e1] = two(*error);
            let [i0, i1] = two(*id);
            out.append(&[0, 2, 0, 8, e0, e1, i0, i1, 0, 0, 0, 0])
        }
    }
}

/// Appends the one spelling of the management message in a domain (IEEE 1588-2019, 13.3 and
/// 15.4.1), with no boundary hops, or nothing where memory runs out.
pub fn write(alloc: Global, m: &Managed, domain: u8, out: &mut Octets) -> Result<(), NoMemory>
    // A management TLV has at most 65,481 octets.
    requires { IsShort m.now.tlv }
    ensures ok { OnOk result (out.new ≡ out.old ++ managed_octets domain m.now) }
    ensures err { OnErr result (out.new ≡ out.old) }

    // What is appended is read again, whatever stands behind it.
    ensures again { OnOk result
        ((rest : List ℕ) →
        managed_read domain (managed_octets domain m.now ++ rest) ≡ Some m.now) }
{
    holds_management_numbers(m);
    let mut message = Octets::new(alloc);
    message.append(&header(m, domain))?;
    message.append(&purpose(m))?;
    append_tlv(&m.tlv, &mut message)?;
    out.append(message.items())
}
