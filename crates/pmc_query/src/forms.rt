//! How values are printed.

ghost use Rattle.std.specs.Prelude.{◌≡◌, ◌≤◌, ◌++◌, length, OnOk, IsTrue};
ghost use Rattle.std.specs.Fmt.{decimal, signed_decimal};
ghost use Rattle.hex.specs.Hex.{encode_lower};
ghost use Rattle.ptp_profile.specs.Port.PrintedNames.{identity_text, port_text, state_name};
ghost use Rattle.ptp_management.specs.ManagementFields.{fits_form, form_text, state_numbered};

use byteorder::{BigEndian, ByteOrder};
use ptp_base::{NoMemory, Octets, PortId, PortState, eight};
use ptp_management::Form;
use ptp_profile::big_endian::port_at;
use std::alloc::Global;

/// Appends a number in decimal.
pub fn add_decimal(alloc: Global, number: u64, out: &mut Octets) -> Result<(), NoMemory>
    ensures { OnOk result (out.new ≡ out.old ++ decimal number) }
{
    let text = format!(in alloc; "{number}")?;
    out.append(text.as_bytes())
}

// Appends a number in decimal, with a minus sign where it is negative.
fn add_signed(alloc: Global, number: i64, out: &mut Octets) -> Result<(), NoMemory>
    ensures { OnOk result (out.new ≡ out.old ++ signed_decimal number) }
{
    let text = format!(in alloc; "{number}")?;
    out.append(text.as_bytes())
}

/// Appends two hex digits an octet.
pub fn add_hex(alloc: Global, octets: &[u8], out: &mut Octets) -> Result<(), NoMemory>
    ensures { OnOk result (out.new ≡ out.old ++ encode_lower octets.now) }
{
    let digits = hex::encode(alloc, octets)?;
    out.append(digits.as_bytes())
}

// Appends the sixteen digits of a clock's identity, in three groups.
fn add_groups(digits: &[u8], out: &mut Octets) -> Result<(), NoMemory>
    requires { 10 ≤ length digits.now }
    ensures { OnOk result (out.new ≡ out.old ++ identity_text digits.now) }
{
    out.append(&digits[..6])?;
    out.append(b".")?;
    out.append(&digits[6..10])?;
    out.append(b".")?;
    out.append(&digits[10..])
}

// Appends the identity of a clock, from its octets.
fn add_clock(alloc: Global, octets: &[u8], out: &mut Octets) -> Result<(), NoMemory>
    requires { length octets.now ≡ 8 }
    ensures { OnOk result (out.new ≡ out.old ++ identity_text (encode_lower octets.now)) }
{
    let digits = hex::encode(alloc, octets)?;
    add_groups(digits.as_bytes(), out)
}

/// Appends the identity of a port: that of its clock, and its number.
pub fn add_port(alloc: Global, port: &PortId, out: &mut Octets) -> Result<(), NoMemory>
    ensures { OnOk result (out.new ≡ out.old ++ port_text port.now) }
{
    add_clock(alloc, &eight(port.clock.id), out)?;
    out.append(b"-")?;
    add_decimal(alloc, port.port as u64, out)
}

/// The name of a port's state (IEEE 1588-2019, 8.2.15.3.1). Does not allocate.
pub fn state_name(state: &PortState) -> &'static str
    ensures { result.now ≡ state_name state.now }
{
    match state {
        PortState::Initializing => "INITIALIZING",
        PortState::Faulty => "FAULTY",
        PortState::Disabled => "DISABLED",
        PortState::Listening => "LISTENING",
        PortState::PreMaster => "PRE_MASTER",
        PortState::Master => "MASTER",
        PortState::Passive => "PASSIVE",
        PortState::Uncalibrated => "UNCALIBRATED",
        PortState::Slave => "SLAVE",
    }
}

// The state of a number from 1 to 9 (IEEE 1588-2019, 8.2.15.3.1).
fn state_of(number: u8) -> PortState
    ensures { result ≡ state_numbered number }
{
    match number {
        1 => PortState::Initializing,
        2 => PortState::Faulty,
        3 => PortState::Disabled,
        4 => PortState::Listening,
        5 => PortState::PreMaster,
        6 => PortState::Master,
        7 => PortState::Passive,
        8 => PortState::Uncalibrated,
        _ => PortState::Slave,
    }
}

/// Appends a value, from the octets of its field.
pub fn add_value(alloc: Global, form: Form, piece: &[u8], out: &mut Octets) -> Result<(), NoMemory>
    requires { IsTrue (fits_form form (length piece.now)) }
    ensures { OnOk result (out.new ≡ out.old ++ form_text form piece.now) }
{
    match form {
        Form::Silent => Ok(()),
        Form::Flag => add_decimal(alloc, (piece[0] % 2) as u64, out),
        Form::Decimal => add_decimal(alloc, BigEndian::read_uint(piece, piece.len()), out),
        Form::Signed => add_signed(alloc, BigEndian::read_int(piece, piece.len()), out),
        Form::Hex => {
            out.append(b"0x")?;
            add_hex(alloc, piece, out)
        }
        Form::Clock => add_clock(alloc, piece, out),
        Form::Port => add_port(alloc, &port_at(piece, 0), out),
        Form::State => out.append(state_name(&state_of(piece[0])).as_bytes()),
    }
}
