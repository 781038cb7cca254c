ghost use Rattle.std.specs.Prelude.{◌≡◌, IfOk};
ghost use Rattle.transcript.specs.NextLines.{next, with_head, with_printed, with_effect_line, with_effect, affected, shown_behind};

use crate::begin::{bare_entry, bare_log, with_clock, with_end, with_event, with_logged};
use crate::effect_lines::{shown_behind, with_effect};
use crate::line::Line;
use crate::progress::Progress;
use bc_history::{Entries, Entry};
use ptp_base::NoMemory;
use std::alloc::Global;

/// With the first line.
fn with_head(before: Progress) -> Option<Progress>
    ensures { result ≡ with_head before }
{
    match before {
        Progress::Start => Some(Progress::Opened),
        Progress::Opened => None,
        Progress::InEntry(_, _, _) => None,
        Progress::InLog(_, _, _) => None,
        Progress::Ended(_, _) => None,
    }
}

/// With a line that prints an answer.
fn with_printed(before: Progress, text: &[u8]) -> Option<Progress>
    ensures { result ≡ with_printed before text.now }
{
    match before {
        Progress::InEntry(entries, entry, shown) => {
            let shown = shown.take(text)?;
            Some(Progress::InEntry(entries, entry, shown))
        }
        Progress::Start => None,
        Progress::Opened => None,
        Progress::InLog(_, _, _) => None,
        Progress::Ended(_, _) => None,
    }
}

/// With a line of the effects of an entry.
fn affected(
    alloc: Global,
    entries: Entries,
    entry: Entry,
    line: Line,
) -> Result<Option<Progress>, NoMemory>
    ensures { IfOk result (λ after. after ≡ affected entries entry (shown_behind line)
        (with_effect entry.input entry.effects line)) }
{
    let shown = shown_behind(alloc, &line)?;
    let Entry {
        input,
        moment,
        seen,
        effects,
    } = entry;
    match with_effect(&input, effects, line)? {
        None => Ok(None),
        Some(effects) => {
            let entry = Entry {
                input,
                moment,
                seen,
                effects,
            };
            Ok(Some(Progress::InEntry(entries, entry, shown)))
        }
    }
}

/// With a line of the effects of the entry that is being read.
fn with_effect_line(
    alloc: Global,
    before: Progress,
    line: Line,
) -> Result<Option<Progress>, NoMemory>
    ensures { IfOk result (λ after. after ≡ with_effect_line before line) }
{
    match before {
        Progress::InEntry(entries, entry, shown) => {
            if !shown.is_done() {
                return Ok(None);
            }
            affected(alloc, entries, entry, line)
        }
        Progress::Start => Ok(None),
        Progress::Opened => Ok(None),
        Progress::InLog(_, _, _) => Ok(None),
        Progress::Ended(_, _) => Ok(None),
    }
}

/// What was read, with a line more; none where the line may not stand there.
pub(crate) fn take(
    alloc: Global,
    before: Progress,
    line: Line,
) -> Result<Option<Progress>, NoMemory>
    ensures { IfOk result (λ after. after ≡ next before line) }
{
    match line {
        Line::Head => Ok(with_head(before)),
        Line::Event {
            number,
            moment,
            input,
            seen,
        } => with_event(
            alloc,
            before,
            number,
            bare_entry(alloc, moment, input, seen),
        ),
        Line::Clock { clock, time, drift } => {
            with_clock(alloc, before, bare_log(alloc, clock, time, drift))
        }
        Line::Logged {
            clock,
            number,
            entry,
        } => with_logged(before, clock, number, entry),
        Line::End { number } => with_end(alloc, before, number),
        Line::Printed(text) => Ok(with_printed(before, text.items())),
        effect => with_effect_line(alloc, before, effect),
    }
}
