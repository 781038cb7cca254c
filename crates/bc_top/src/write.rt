ghost use Rattle.std.specs.Prelude.{◌≡◌, ℕ, ◌+◌, ◌-◌, ◌^◌, ◌<◌, ◌≤◌, ◌++◌, List, length, take, OnOk, OnErr};
ghost use Rattle.bc_top.specs.WriteAll.{IsWritten, IsWriteFault, writes_of};

use text_io::{Failed, Sink};

/// Writes all of the text.
pub fn write_all<K: Sink>(sink: &mut K, text: &[u8]) -> Result<(), Failed>
    ensures ok { OnOk result (IsWritten (writes_of (K.written sink.old) (K.written sink.new)
        (K.faults sink.old) (K.faults sink.new)) text.now) }
    ensures err { OnErr result (IsWriteFault (writes_of (K.written sink.old) (K.written sink.new)
        (K.faults sink.old) (K.faults sink.new)) text.now) }
{
    let mut at = 0;
    while at < text.len() {
        at += sink.write(&text[at..])?;
    }
    Ok(())
}
