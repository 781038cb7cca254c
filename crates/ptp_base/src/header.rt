ghost use Rattle.std.specs.Prelude.{◌≡◌, ◌≤◌, ◌<◌, ◌++◌, length, drop};
ghost use Rattle.ptp_base.specs.Header.{header_octets, port_octets};
ghost use Rattle.byteorder.specs.Endian.{big_bytes};

use crate::identity::PortId;
use byteorder::{BigEndian, ByteOrder};

/// What stands in the header of a message (IEEE 1588-2019, 13.3).
#[derive(Clone, Copy, Debug, PartialEq, Eq)]
pub struct Head {
    /// messageType, below 16.
    pub kind: u8,
    /// messageLength, in octets.
    pub length: u16,
    /// domainNumber.
    pub domain: u8,
    /// flagField: octet 6 is the high one.
    pub flags: u16,
    /// correctionField, in ns times 65,536.
    pub correction: i64,
    /// sourcePortIdentity.
    pub sender: PortId,
    /// sequenceId.
    pub seq: u16,
    /// controlField.
    pub control: u8,
    /// logMessageInterval.
    pub log_interval: i8,
}

/// A number in two octets, the high one first.
pub fn two(n: u16) -> [u8; 2]
    ensures { result ≡ big_bytes 2 n }
{
    let mut octets = [0; 2];
    BigEndian::write_u16(&mut octets, n);
    octets
}

/// A number in eight octets, the high one first.
pub fn eight(n: u64) -> [u8; 8]
    ensures { result ≡ big_bytes 8 n }
{
    let mut octets = [0; 8];
    BigEndian::write_u64(&mut octets, n);
    octets
}

/// Writes a port's identity in ten octets: clockIdentity, then portNumber (IEEE 1588-2019, 5.3.5).
pub fn port_put(port: &PortId, out: &mut [u8])
    requires { 10 ≤ length out.old }
    ensures { out.new ≡ port_octets port.now ++ drop 10 out.old }
{
    BigEndian::write_u64(out, port.clock.id);
    BigEndian::write_u16(&mut out[8..], port.port);
}

/// Writes the 34 octets of the header, with majorSdoId 0, minorVersionPTP 1, versionPTP 2,
/// minorSdoId 0 and messageTypeSpecific 0. What stands behind them stays.
pub fn head_put(h: &Head, out: &mut [u8])
    requires long { 34 ≤ length out.old }
    requires kind { h.now.kind < 16 }
    ensures { out.new ≡ header_octets h.now ++ drop 34 out.old }
{
    let [l0, l1] = two(h.length);
    let [f0, f1] = two(h.flags);
    let [c0, c1, c2, c3, c4, c5, c6, c7] = eight(h.correction.cast_unsigned());
    let [i0, i1, i2, i3, i4, i5, i6, i7] = eight(h.sender.clock.id);
    let [p0, p1] = two(h.sender.port);
    let [s0, s1] = two(h.seq);
    let log_interval = h.log_interval.cast_unsigned();
    out[..34].copy_from_slice(&[
        h.kind,
        0x12,
        l0,
        l1,
        h.domain,
        0,
        f0,
        f1,
        c0,
        c1,
        c2,
        c3,
        c4,
        c5,
        c6,
        c7,
        0,
        0,
        0,
        0,
        i0,
        i1,
        i2,
        i3,
        i4,
        i5,
        i6,
        i7,
        p0,
        p1,
        s0,
        s1,
        h.control,
        log_interval,
    ]);
}
