ghost use Rattle.std.specs.Prelude.{◌≡◌, ℕ, List, IfOk, MatchOption};
ghost use Rattle.ptp_management.specs.ManagementQueries.{lines_text};
ghost use Rattle.transcript.specs.ShownLines.{IsLine, AreLines, BeginsWith};

use ptp_base::{Items, NoMemory, Octets};
use std::alloc::Global;

/// The first line of a text without its newline, and what stands behind it; none where the text has
/// no newline.
pub(crate) fn first_line(text: &[u8]) -> Option<(&[u8], &[u8])>
    ensures { MatchOption result (IsLine text.now)
        (λ found. BeginsWith text.now found.0.now found.1.now) }
{
    let at = text.iter().position(|octet| *octet == b'\n')?;
    Some((&text[..at], &text[at + 1..]))
}

/// The lines of a text in which each ends with a newline.
pub(crate) fn lines_in(alloc: Global, text: &[u8]) -> Result<Items<Octets>, NoMemory>
    ensures { IfOk result (λ found. (lines : List (List ℕ)) → AreLines lines →
        text.now ≡ lines_text lines → found ≡ lines) }
{
    let mut found = Items::new(alloc);
    let mut rest = text;
    while let Some((line, behind)) = first_line(rest) {
        found.push(Octets::from_vec(Vec::from_slice(alloc, line)?))?;
        rest = behind;
    }
    Ok(found)
}
