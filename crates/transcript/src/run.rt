ghost use Rattle.std.specs.Prelude.{◌≡◌, ◌<◌, ◌++◌, List, IfOk, IfErr, IfSome, IfNone, OnOk, OnErr, length};
ghost use Rattle.ptp_profile.specs.declared.seats.Log.{Log};
ghost use Rattle.bc_history.specs.declared.entry.Entry.{Entry};
ghost use Rattle.transcript.specs.declared.progress.Progress.TheVariants.{Ended};
ghost use Rattle.bc_history.specs.Run.Transcript.{text_of};
ghost use Rattle.transcript.specs.NextLines.{IsReadOn};
ghost use Rattle.transcript.specs.TranscriptFaults.{IsTextOf, IsRefused};

use crate::entry::push_entries;
use crate::logs::push_logs;
use crate::progress::Progress;
use crate::reader::read_line;
use crate::split::first_line;
use crate::take::take;
use crate::text_error::TextError;
use crate::writer::Writer;
use bc_history::Run;
use ptp_base::{NoMemory, Octets};
use std::alloc::Global;

/// The text of a run.
fn text_of(alloc: Global, run: &Run) -> Result<Octets, NoMemory>
    ensures { IfOk result (λ text. text ≡ text_of run.now) }
{
    let mut out = Writer::new(alloc);
    write!(out, "bc-transcript 1\n")?;
    push_entries(&mut out, run.entries.items())?;
    push_logs(&mut out, run.logs.items())?;
    write!(out, "end {}\n", run.entries.len())?;
    Ok(out.into_octets())
}

/// Appends the text of a run, or nothing where memory runs out.
pub fn write(alloc: Global, run: &Run, out: &mut Octets) -> Result<(), NoMemory>
    ensures ok { OnOk result (out.new ≡ out.old ++ text_of run.now) }
    ensures err { OnErr result (out.new ≡ out.old) }
{
    let text = text_of(alloc, run)?;
    if out.items().is_empty() {
        // Where nothing stands before it, the text is not copied.
        *out = text;
        return Ok(());
    }
    out.append(text.items())
}

/// The run that a text shows, or the first line of the text that no formed run continues. The text
/// has fewer than 4,294,967,295 octets.
pub fn read(alloc: Global, text: &[u8]) -> Result<Run, TextError>
    requires { length text.now < 4294967295 }
    ensures read { IfOk result (λ run. IsTextOf text.now run) }
    ensures refused { IfErr result (λ error. IsRefused text.now error) }
{
    let mut progress = Progress::Start;
    let mut rest = text;
    let mut number = 1;
    while let Some((octets, behind)) = first_line(rest) {
        match read_on(alloc, progress, octets) {
            Err(_) => return Err(TextError::NoMemory),
            Ok(None) => return Err(TextError::Line { line: number }),
            Ok(Some(after)) => progress = after,
        }
        rest = behind;
        number += 1;
    }
    if !rest.is_empty() {
        return Err(TextError::Line { line: number });
    }
    match ended(progress) {
        Some(run) => Ok(run),
        None => Err(TextError::Line { line: number }),
    }
}

/// The run that was read, where its last line was.
fn ended(progress: Progress) -> Option<Run>
    ensures some { IfSome result (λ run. progress ≡ Ended run.entries run.logs) }
    ensures none { IfNone result ((entries : List Entry) (logs : List Log) →
        progress ≡ Ended entries logs → ⊥) }
{
    match progress {
        Progress::Ended(entries, logs) => Some(Run { entries, logs }),
        Progress::Start => None,
        Progress::Opened => None,
        Progress::InEntry(_, _, _) => None,
        Progress::InLog(_, _, _) => None,
    }
}

/// What was read, with a line more; none where its octets are no line that may stand there.
fn read_on(alloc: Global, before: Progress, octets: &[u8]) -> Result<Option<Progress>, NoMemory>
    ensures { IfOk result (λ after. IsReadOn octets.now before after) }
{
    match read_line(alloc, octets)? {
        None => Ok(None),
        Some(line) => {
            let after = take(alloc, before, line)?;
            Ok(after)
        }
    }
}
