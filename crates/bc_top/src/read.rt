ghost use Rattle.std.specs.Prelude.{◌≡◌, ℕ, ◌+◌, ◌-◌, ◌*◌, ◌^◌, ◌<◌, ◌≤◌, List, [], ◌++◌, length, Some, None, IfOk, IfErr};
ghost use Rattle.bc_top.specs.ReadToEnd.{IsReadWhole, IsReadError, reads_of};

use ptp_base::TEXT_MAX;
use std::alloc::Global;
use text_io::Source;

/// Why a source was not read to its end.
#[derive(Clone, Copy)]
pub enum ReadError {
    /// A read failed.
    Fault,
    /// The source gave one octet more than a text may have.
    TooLong,
    /// There was no memory.
    NoMemory,
}

/// How many octets one read asks for.
const PIECE: usize = 65_536;

/// All that is left in the source. No octet behind the first one that is too many is read.
pub fn read_to_end<S: Source>(alloc: Global, source: &mut S) -> Result<Vec<u8>, ReadError>
    ensures whole { IfOk result (λ text. IsReadWhole
        (reads_of (S.left source.old) (S.left source.new)
        (S.faults source.old) (S.faults source.new)) text.items) }
    ensures error { IfErr result (IsReadError
        (reads_of (S.left source.old) (S.left source.new)
        (S.faults source.old) (S.faults source.new))) }
{
    let mut text = Vec::new(alloc);
    let mut buffer = [0u8; PIECE];
    while text.len() <= TEXT_MAX {
        let room = (TEXT_MAX + 1 - text.len()).min(PIECE);
        match source.read(&mut buffer[..room]) {
            Err(_) => return Err(ReadError::Fault),
            Ok(0) => return Ok(text),
            Ok(n) => {
                if text.extend_from_slice(&buffer[..n]).is_err() {
                    return Err(ReadError::NoMemory);
                }
            }
        }
    }
    Err(ReadError::TooLong)
}
