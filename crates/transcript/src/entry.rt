ghost use Rattle.std.specs.Prelude.{◌≡◌, ℕ, List, ◌++◌, OnOk};
ghost use Rattle.bc_history.specs.Run.Transcript.{entry_text, entries_text};

use crate::effects::push_effects;
use crate::line_text;
use crate::writer::Writer;
use bc_history::Entry;
use ptp_base::NoMemory;

/// Adds the lines of the entry of a number.
fn push_entry(out: &mut Writer, number: usize, entry: &Entry) -> Result<(), NoMemory>
    ensures { OnOk result (out.new ≡ out.old ++ entry_text number entry.now) }
{
    line_text::push_event(
        out,
        &(number as u64),
        &entry.moment,
        &entry.input,
        &entry.seen,
    )?;
    write!(out, "\n")?;
    push_effects(out, &entry.effects)?;
    Ok(())
}

/// Adds the lines of the entries, numbered from 1.
pub fn push_entries(out: &mut Writer, entries: &[Entry]) -> Result<(), NoMemory>
    ensures { OnOk result (out.new ≡ out.old ++ entries_text 1 entries.now) }
{
    for (i, entry) in entries.iter().enumerate() {
        push_entry(out, i + 1, entry)?;
    }
    Ok(())
}
