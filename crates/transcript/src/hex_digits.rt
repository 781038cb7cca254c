//! Hex digits of a frame or an answer, which are written a piece at a time: the digits of a piece
//! stand in a local array, so that nothing but the text itself allocates.

ghost use Rattle.std.specs.Prelude.{◌≡◌, ◌≤◌, ◌++◌, length, OnOk};
ghost use Rattle.hex.specs.Hex.{encode_lower};

use ptp_base::{NoMemory, Octets};

// How many octets a piece has at most.
const PIECE: usize = 32;

/// Appends two lower-case digits for each octet. Where it finds no memory, the digits of the first
/// pieces may stand at the end.
pub(crate) fn append_hex(octets: &[u8], text: &mut Octets) -> Result<(), NoMemory>
    ensures { OnOk result (text.new ≡ text.old ++ encode_lower octets.now) }
{
    for piece in octets.chunks(PIECE) {
        append_piece(piece, text)?;
    }
    Ok(())
}

// Appends the digits of one piece.
fn append_piece(piece: &[u8], text: &mut Octets) -> Result<(), NoMemory>
    requires { length piece.now ≤ PIECE }
    ensures { OnOk result (text.new ≡ text.old ++ encode_lower piece.now) }
{
    let mut places = [0u8; 2 * PIECE];
    let digits = &mut places[..2 * piece.len()];
    // It refuses only another number of places than two an octet.
    let _ = hex::encode_to_slice(piece, digits);
    text.append(digits)
}
