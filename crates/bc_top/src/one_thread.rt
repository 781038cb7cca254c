ghost use Rattle.std.specs.Prelude.{◌≤◌, length, map, Some, IfOk, IfErr, string_bytes};
ghost use Rattle.ptp_base.specs.declared.limits.TheConstants.{TEXT_MAX};
ghost use Rattle.bc_top.specs.declared.words.Command.TheVariants.{Replay};
ghost use Rattle.bc_top.specs.CommandWords.{offline_command};
ghost use Rattle.bc_top.specs.ReadToEnd.{reads_of};
ghost use Rattle.bc_top.specs.WriteAll.{writes_of};
ghost use Rattle.bc_top.specs.Call.{IsTranscriptOf, IsWithout, call_of};
ghost use Rattle.bc_top.specs.EndCauses.{IsCaused};
ghost use Rattle.bc_top.specs.EndCompleteness.{IsComplete};

use crate::call::{conclude, scenario_of, text_in, text_of};
use crate::made::serve_gen;
use crate::outcome::{End, NoTranscript};
use crate::words::{Command, command_of};
use bc_replay::{ReplayError, replay};
use ptp_base::Octets;
use std::alloc::Global;
use text_io::{Sink, Source};

/// The transcript of the run by turns of the scenario that the text stands for. The text goes
/// before the run is made.
fn transcript_by_turns(alloc: Global, text: Vec<u8>) -> Result<Octets, NoTranscript>
    requires short { length text.items ≤ TEXT_MAX }
    ensures transcript { IfOk result (λ out. IsTranscriptOf Replay text.items out) }
    ensures without { IfErr result (IsWithout Replay text.items) }
{
    let s = scenario_of(alloc, &text)?;
    drop(text);
    match replay(alloc, &s) {
        Ok(run) => text_of(alloc, &run),
        Err(ReplayError::NoMemory) => Err(NoTranscript::NoMemory),
        Err(ReplayError::Events) => Err(NoTranscript::Events),
        Err(ReplayError::NotDue { turn }) => Err(NoTranscript::NotDue { turn }),
    }
}

/// Reads a scenario and writes the transcript of its run by turns.
fn serve_replay<S: Source, K: Sink>(alloc: Global, source: &mut S, sink: &mut K) -> End
    ensures caused { IsCaused (call_of (Some Replay)
        (reads_of (S.left source.old) (S.left source.new)
        (S.faults source.old) (S.faults source.new))
        (writes_of (K.written sink.old) (K.written sink.new)
        (K.faults sink.old) (K.faults sink.new))) result }
    ensures complete { IsComplete (call_of (Some Replay)
        (reads_of (S.left source.old) (S.left source.new)
        (S.faults source.old) (S.faults source.new))
        (writes_of (K.written sink.old) (K.written sink.new)
        (K.faults sink.old) (K.faults sink.new))) result }
{
    match text_in(alloc, source) {
        Ok(text) => conclude(&transcript_by_turns(alloc, text), sink),
        Err(end) => end,
    }
}

/// What the program does on one thread. At the one word `replay` it reads the source to its end,
/// makes the run of the scenario that the text stands for and the whole text of that run, and then
/// writes it. At the word `gen` and a number it makes the run of the scenario that the number makes,
/// and then writes what the run comes to, in one line; nothing is read. Nothing is written unless it
/// ends with `Done` or `WriteFault`. All other words are `Usage`.
pub fn offline<S: Source, K: Sink>(
    alloc: Global,
    words: &[String],
    source: &mut S,
    sink: &mut K,
) -> End
    ensures caused { IsCaused (call_of (offline_command (map string_bytes words.now))
        (reads_of (S.left source.old) (S.left source.new)
        (S.faults source.old) (S.faults source.new))
        (writes_of (K.written sink.old) (K.written sink.new)
        (K.faults sink.old) (K.faults sink.new))) result }
    ensures complete { IsComplete (call_of (offline_command (map string_bytes words.now))
        (reads_of (S.left source.old) (S.left source.new)
        (S.faults source.old) (S.faults source.new))
        (writes_of (K.written sink.old) (K.written sink.new)
        (K.faults sink.old) (K.faults sink.new))) result }
{
    match command_of(words) {
        Some(Command::Replay) => serve_replay(alloc, source, sink),
        Some(Command::Gen(n)) => serve_gen(alloc, n, sink),
        _ => End::Usage,
    }
}
