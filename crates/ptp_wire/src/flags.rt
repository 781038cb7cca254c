//! The flag field of the header (IEEE 1588-2019, 13.3.2.8), octet 6 as the high one.

ghost use Rattle.std.specs.Prelude.{⊤, ◌≡◌, [], ◌∷◌, codes, bit_and};

use bitflags::{Flag, Flags, bitflag_items};

/// The flags that the profile knows.
#[derive(Clone, Copy, PartialEq, Eq)]
pub struct HeaderFlags(u16);

bitflag_items! {
    impl HeaderFlags: u16 {
        const ALTERNATE_MASTER = 0x0100;
        const TWO_STEP = 0x0200;
        const UNICAST = 0x0400;
        const LEAP61 = 0x0001;
        const LEAP59 = 0x0002;
        const CURRENT_UTC_OFFSET_VALID = 0x0004;
        const PTP_TIMESCALE = 0x0008;
        const TIME_TRACEABLE = 0x0010;
        const FREQUENCY_TRACEABLE = 0x0020;
    }
}

// Written out, since a clause can then name the bits.
impl Flags for HeaderFlags {
    type Bits = u16;

    ghost exact = { ⊤ };

    ghost table = { (codes "ALTERNATE_MASTER", 0x0100) ∷ (codes "TWO_STEP", 0x0200) ∷ (codes "UNICAST", 0x0400) ∷ (codes "LEAP61", 0x0001) ∷ (codes "LEAP59", 0x0002) ∷ (codes "CURRENT_UTC_OFFSET_VALID", 0x0004) ∷ (codes "PTP_TIMESCALE", 0x0008) ∷ (codes "TIME_TRACEABLE", 0x0010) ∷ (codes "FREQUENCY_TRACEABLE", 0x0020) ∷ [] };

    ghost set_of = { λ p. p.0 };

    fn flags<'a>() -> &'a [Flag<HeaderFlags>] {
        HeaderFlags::FLAGS
    }

    fn bits(&self) -> u16 {
        self.0
    }

    fn from_bits_retain(bits: u16) -> HeaderFlags {
        HeaderFlags(bits)
    }
}

/// A flag field without the bits that the profile does not know.
#[tactic(auto, unfolding(bitflags::proofs::OnLiterals::bitflags_on_literals))]
pub fn known_flags(bits: u16) -> u16
    ensures { result ≡ bit_and bits 0x073F }
{
    HeaderFlags::from_bits_truncate(bits).bits()
}
