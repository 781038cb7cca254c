ghost use Rattle.std.specs.Prelude.{◌≡◌, ◌+◌, ◌-◌, ◌<◌};

use crate::source_and_sink::{Failed, Sink, Source};
use std::io::{Read, Write};

/// Standard input, or another reader, with a count of its errors. It tells what its reader tells:
/// standard input tells no content.
#[derive(Drop)]
pub struct InAdapter<R: Read + Drop> {
    reader: R,
    count: u64,
}

impl<R: Read + Drop> InAdapter<R> {
    /// No read has failed yet.
    pub fn new(reader: R) -> InAdapter<R>
        ensures left { ⟦<InAdapter<R> as Source>⟧.left result ≡ R.remaining reader }
        ensures faults { ⟦<InAdapter<R> as Source>⟧.faults result ≡ 0 }
    {
        InAdapter { reader, count: 0 }
    }
}

impl<R: Read + Drop> Source for InAdapter<R> {
    ghost left = { λ s. R.remaining s.reader };

    ghost faults = { λ s. s.count };

    fn read(&mut self, into: &mut [u8]) -> Result<usize, Failed> {
        match self.reader.read(into) {
            Ok(n) => Ok(n),
            Err(_) => {
                self.count = self.count.saturating_add(1);
                Err(Failed)
            }
        }
    }
}

/// Standard output, or another writer, with a count of its errors. It tells what its writer tells:
/// standard output tells no content.
#[derive(Drop)]
pub struct OutAdapter<W: Write + Drop> {
    writer: W,
    count: u64,
}

impl<W: Write + Drop> OutAdapter<W> {
    /// No write has failed yet.
    pub fn new(writer: W) -> OutAdapter<W>
        ensures written { ⟦<OutAdapter<W> as Sink>⟧.written result ≡ W.contents writer }
        ensures faults { ⟦<OutAdapter<W> as Sink>⟧.faults result ≡ 0 }
    {
        OutAdapter { writer, count: 0 }
    }
}

impl<W: Write + Drop> Sink for OutAdapter<W> {
    ghost written = { λ s. W.contents s.writer };

    ghost faults = { λ s. s.count };

    fn write(&mut self, piece: &[u8]) -> Result<usize, Failed> {
        match self.writer.write(piece) {
            Ok(n) if n > 0 || piece.is_empty() => Ok(n),
            _ => {
                self.count = self.count.saturating_add(1);
                Err(Failed)
            }
        }
    }
}
