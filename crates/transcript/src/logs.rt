ghost use Rattle.std.specs.Prelude.{◌≡◌, ℕ, List, ◌++◌, OnOk};
ghost use Rattle.bc_history.specs.Run.Transcript.{log_entry_text, log_entries_text, log_text, logs_text};

use crate::line_text;
use crate::writer::Writer;
use ptp_base::NoMemory;
use ptp_profile::{Log, LogEntry};

/// Adds the line of an entry of a clock's log.
#[tactic(auto, unfolding(crate::specs::TranscriptLines::line_text))]
fn push_log_entry(
    out: &mut Writer,
    clock: u8,
    number: usize,
    entry: &LogEntry,
) -> Result<(), NoMemory>
    ensures { OnOk result (out.new ≡ out.old ++ log_entry_text clock number entry.now) }
{
    line_text::push_logged(out, &clock, &(number as u64), entry)?;
    write!(out, "\n")
}

/// Adds the lines of the entries of a clock's log, numbered from 1.
fn push_log_entries(out: &mut Writer, clock: u8, entries: &[LogEntry]) -> Result<(), NoMemory>
    ensures { OnOk result (out.new ≡ out.old ++ log_entries_text clock 1 entries.now) }
{
    for (i, entry) in entries.iter().enumerate() {
        push_log_entry(out, clock, i + 1, entry)?;
    }
    Ok(())
}

/// Adds the lines of a clock: how it began, and its log.
fn push_log(out: &mut Writer, log: &Log) -> Result<(), NoMemory>
    ensures { OnOk result (out.new ≡ out.old ++ log_text log.now) }
{
    let opening = &log.opening;
    line_text::push_clock(out, &log.clock, &opening.time, &opening.drift)?;
    write!(out, "\n")?;
    push_log_entries(out, log.clock, log.entries.items())?;
    Ok(())
}

/// Adds the lines of the clocks.
pub fn push_logs(out: &mut Writer, logs: &[Log]) -> Result<(), NoMemory>
    ensures { OnOk result (out.new ≡ out.old ++ logs_text logs.now) }
{
    for log in logs {
        push_log(out, log)?;
    }
    Ok(())
}
