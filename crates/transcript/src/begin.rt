ghost use Rattle.std.specs.Prelude.{◌≡◌, ◌+◌, ◌∷◌, ◌++◌, ◌==◌, [], IfOk, Some, None, length};
ghost use Rattle.transcript.specs.NextLines.{so_far, with_event, with_clock, with_logged, with_end, is_above, bare_entry, bare_log};

use crate::progress::Progress;
use crate::shown::Shown;
use bc_history::{Effects, Entry, Input, Run, Seen};
use model_clock::ClockState;
use ptp_base::{Items, NoMemory};
use ptp_profile::{Log, LogEntry};
use std::alloc::Global;

/// An entry of whose lines the first stands.
pub(crate) fn bare_entry(alloc: Global, moment: u64, input: Input, seen: Option<Seen>) -> Entry
    ensures { result ≡ bare_entry moment input seen }
{
    Entry {
        input,
        moment,
        seen,
        effects: Effects {
            fate: None,
            states: Items::new(alloc),
            parent: None,
            orders: Items::new(alloc),
            measure: None,
            frames: Items::new(alloc),
            told: None,
            asked: None,
            answers: Items::new(alloc),
        },
    }
}

/// The log of a clock of whose lines the first stands.
pub(crate) fn bare_log(alloc: Global, clock: u8, time: i64, drift: i64) -> Log
    ensures { result ≡ bare_log clock time drift }
{
    let opening = ClockState {
        tick: 0,
        time,
        freq: 0,
        drift,
    };
    Log {
        clock,
        opening,
        entries: Items::new(alloc),
    }
}

/// The run so far, where nothing that has begun has to go on.
fn so_far(alloc: Global, before: Progress) -> Result<Option<Run>, NoMemory>
    ensures { IfOk result (λ run. run ≡ so_far before) }
{
    match before {
        Progress::Start => Ok(None),
        Progress::Opened => Ok(Some(Run {
            entries: Items::new(alloc),
            logs: Items::new(alloc),
        })),
        Progress::InEntry(mut entries, entry, shown) => {
            if !shown.is_done() {
                return Ok(None);
            }
            entries.push(entry)?;
            Ok(Some(Run {
                entries,
                logs: Items::new(alloc),
            }))
        }
        Progress::InLog(entries, mut logs, log) => {
            logs.push(log)?;
            Ok(Some(Run { entries, logs }))
        }
        Progress::Ended(_, _) => Ok(None),
    }
}

/// Whether a number is that of the element behind so many.
fn is_after(number: u64, count: usize) -> bool
    ensures { result ≡ (number == count + 1) }
{
    number >= 1 && number - 1 == count as u64
}

/// With an entry that begins.
pub(crate) fn with_event(
    alloc: Global,
    before: Progress,
    number: u64,
    entry: Entry,
) -> Result<Option<Progress>, NoMemory>
    ensures { IfOk result (λ after. after ≡ with_event (so_far before) number entry) }
{
    match so_far(alloc, before)? {
        None => Ok(None),
        Some(run) => {
            if run.logs.len() == 0 && is_after(number, run.entries.len()) {
                let shown = Shown::none(alloc);
                Ok(Some(Progress::InEntry(run.entries, entry, shown)))
            } else {
                Ok(None)
            }
        }
    }
}

/// Whether a clock is above those of the logs, which rise.
fn is_above(logs: &[Log], clock: u8) -> bool
    ensures { result ≡ is_above logs.now clock }
{
    match logs {
        [] => true,
        [.., last] => last.clock < clock,
    }
}

/// With a clock's log that begins.
pub(crate) fn with_clock(
    alloc: Global,
    before: Progress,
    log: Log,
) -> Result<Option<Progress>, NoMemory>
    ensures { IfOk result (λ after. after ≡ with_clock (so_far before) log) }
{
    match so_far(alloc, before)? {
        None => Ok(None),
        Some(run) => {
            if is_above(run.logs.items(), log.clock) {
                Ok(Some(Progress::InLog(run.entries, run.logs, log)))
            } else {
                Ok(None)
            }
        }
    }
}

/// With an entry of the log that began last.
pub(crate) fn with_logged(
    before: Progress,
    clock: u8,
    number: u64,
    entry: LogEntry,
) -> Result<Option<Progress>, NoMemory>
    ensures { IfOk result (λ after. after ≡ with_logged before clock number entry) }
{
    match before {
        Progress::InLog(entries, logs, mut log) => {
            if clock != log.clock || !is_after(number, log.entries.len()) {
                return Ok(None);
            }
            log.entries.push(entry)?;
            Ok(Some(Progress::InLog(entries, logs, log)))
        }
        Progress::Start => Ok(None),
        Progress::Opened => Ok(None),
        Progress::InEntry(_, _, _) => Ok(None),
        Progress::Ended(_, _) => Ok(None),
    }
}

/// With the last line.
pub(crate) fn with_end(
    alloc: Global,
    before: Progress,
    number: u64,
) -> Result<Option<Progress>, NoMemory>
    ensures { IfOk result (λ after. after ≡ with_end (so_far before) number) }
{
    match so_far(alloc, before)? {
        None => Ok(None),
        Some(run) => {
            if number == run.entries.len() as u64 {
                Ok(Some(Progress::Ended(run.entries, run.logs)))
            } else {
                Ok(None)
            }
        }
    }
}
