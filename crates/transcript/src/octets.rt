ghost use Rattle.std.specs.Prelude.{◌≡◌, ◌≤◌, length, Some, IfOk};
ghost use Rattle.transcript.specs.WordReaders.{octets_of, digits_of, identity_in, port_of};

use crate::numbers::number16;
use byteorder::{BigEndian, ByteOrder};
use hex::FromHexError;
use ptp_base::{ClockId, NoMemory, Octets, PortId};
use std::alloc::Global;

/// The octets that hex digits stand for.
pub fn hex_octets(alloc: Global, word: &[u8]) -> Result<Option<Octets>, NoMemory>
    ensures { IfOk result (λ read. read ≡ octets_of word.now) }
{
    match hex::decode(alloc, word) {
        Ok(octets) => Ok(Some(Octets::from_vec(octets))),
        Err(FromHexError::OutOfMemory) => Err(NoMemory),
        Err(_) => Ok(None),
    }
}

/// The hex digits of the identity of a clock, without the points among them.
fn digits(alloc: Global, word: &[u8]) -> Result<Octets, NoMemory>
    requires { 18 ≤ length word.now }
    ensures { IfOk result (λ read. read ≡ digits_of word.now) }
{
    let mut digits = Octets::new(alloc);
    digits.append(&word[..6])?;
    digits.append(&word[7..11])?;
    digits.append(&word[12..18])?;
    Ok(digits)
}

/// The identity of a clock in its eight octets.
fn identity_in(octets: &Octets) -> Option<u64>
    ensures { result ≡ identity_in (Some octets.now) }
{
    let octets = octets.items();
    if octets.len() == 8 {
        Some(BigEndian::read_u64(octets))
    } else {
        None
    }
}

/// The identity of a clock.
fn identity(alloc: Global, word: &[u8]) -> Result<Option<u64>, NoMemory>
    requires { 18 ≤ length word.now }
    ensures { IfOk result (λ read. read ≡ identity_in (octets_of (digits_of word.now))) }
{
    let digits = digits(alloc, word)?;
    match hex_octets(alloc, digits.items())? {
        Some(octets) => Ok(identity_in(&octets)),
        None => Ok(None),
    }
}

/// The identity of a port: that of its clock, a dash, and its number.
pub fn port(alloc: Global, word: &[u8]) -> Result<Option<PortId>, NoMemory>
    ensures { IfOk result (λ read. read ≡ port_of word.now) }
{
    if word.len() <= 18 {
        return Ok(None);
    }
    let Some(id) = identity(alloc, word)? else {
        return Ok(None);
    };
    let Some(port) = number16(&word[19..]) else {
        return Ok(None);
    };
    let clock = ClockId { id };
    Ok(Some(PortId { clock, port }))
}
