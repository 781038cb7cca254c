//! Numbers and identities at a place, the high octet first.

ghost use Rattle.std.specs.Prelude.{◌≡◌, ◌≤◌, ◌+◌, length};
ghost use Rattle.ptp_profile.specs.Wire.MessageFormat.{number_at, port_at};

use byteorder::{BigEndian, ByteOrder};
use ptp_base::{ClockId, PortId};

/// The number in two octets.
#[tactic(auto, unfolding(crate::specs::Wire::MessageFormat::number_at))]
pub fn u16_at(octets: &[u8], at: usize) -> u16
    requires { at + 2 ≤ length octets.now }
    ensures { result ≡ number_at at 2 octets.now }
{
    BigEndian::read_u16(&octets[at..])
}

/// The number in four octets.
#[tactic(auto, unfolding(crate::specs::Wire::MessageFormat::number_at))]
pub fn u32_at(octets: &[u8], at: usize) -> u32
    requires { at + 4 ≤ length octets.now }
    ensures { result ≡ number_at at 4 octets.now }
{
    BigEndian::read_u32(&octets[at..])
}

/// The number in six octets.
#[tactic(auto, unfolding(crate::specs::Wire::MessageFormat::number_at))]
pub fn u48_at(octets: &[u8], at: usize) -> u64
    requires { at + 6 ≤ length octets.now }
    ensures { result ≡ number_at at 6 octets.now }
{
    BigEndian::read_u48(&octets[at..])
}

/// The number in eight octets.
#[tactic(auto, unfolding(crate::specs::Wire::MessageFormat::number_at))]
pub fn u64_at(octets: &[u8], at: usize) -> u64
    requires { at + 8 ≤ length octets.now }
    ensures { result ≡ number_at at 8 octets.now }
{
    BigEndian::read_u64(&octets[at..])
}

/// clockIdentity and portNumber, in ten octets (IEEE 1588-2019, 5.3.5).
pub fn port_at(octets: &[u8], at: usize) -> PortId
    requires { at + 10 ≤ length octets.now }
    ensures { result ≡ port_at at octets.now }
{
    PortId {
        clock: ClockId {
            id: u64_at(octets, at),
        },
        port: u16_at(octets, at + 8),
    }
}
