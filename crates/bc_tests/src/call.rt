//! The parts of a call of the program, its words and its source, and what tests ask of a scenario.
ghost use Rattle.std.specs.Prelude.{◌≡◌, length};

use bc_history::Scenario;
use bc_top::{End, offline};
use ptp_base::Octets;
use std::alloc::Global;
use std::test::Fail;
use text_io::{MemSink, MemSource, SureSource};
use transcript::{read, write};

/// A source with this text.
pub fn source(alloc: Global, text: &[u8]) -> Result<MemSource, Fail> {
    Ok(MemSource::new(Vec::from_slice(alloc, text)?))
}

/// The words of a line.
pub fn words(alloc: Global, line: &str) -> Result<Vec<String>, Fail> {
    let mut words = Vec::new(alloc);
    for word in line.split_ascii_whitespace() {
        words.push(String::from_str(alloc, word)?)?;
    }
    Ok(words)
}

/// The whole transcript of a text, read back to its run, and the text of that run again. Nothing,
/// where there is no transcript, or none that is read.
pub fn transcript(alloc: Global, text: &str) -> Result<Vec<u8>, Fail> {
    let (end, out) = replayed(alloc, text)?;
    match end {
        End::Done => written_again(alloc, &out),
        _ => Ok(Vec::new(alloc)),
    }
}

/// The text of the run that a transcript is read to; nothing, where it is read to none.
fn written_again(alloc: Global, out: &[u8]) -> Result<Vec<u8>, Fail> {
    let mut again = Octets::new(alloc);
    if out.len() < 4_294_967_295 {
        if let Ok(run) = read(alloc, out) {
            write(alloc, &run, &mut again)?;
        }
    }
    Ok(again.into_vec())
}

/// How a replay ends, and what it wrote.
pub fn replayed(alloc: Global, text: &str) -> Result<(End, Vec<u8>), Fail> {
    let replay = words(alloc, "replay")?;
    let mut from = SureSource::new(Vec::from_slice(alloc, text.as_bytes())?);
    let mut to = MemSink::new(alloc);
    let end = offline(alloc, &replay, &mut from, &mut to);
    Ok((end, Vec::from_slice(alloc, to.octets())?))
}

/// The number of the ports of a scenario.
pub fn port_count(s: &Scenario) -> usize
    ensures { result ≡ length s.now.ports }
{
    s.ports.len()
}
