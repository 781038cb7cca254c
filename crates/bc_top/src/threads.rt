ghost use Rattle.std.specs.Prelude.{◌≤◌, length, map, Some, IfOk, IfErr, string_bytes};
ghost use Rattle.ptp_base.specs.declared.limits.TheConstants.{TEXT_MAX};
ghost use Rattle.bc_top.specs.declared.words.Command.TheVariants.{Run as By_threads};
ghost use Rattle.bc_top.specs.CommandWords.{top_command};
ghost use Rattle.bc_top.specs.ReadToEnd.{reads_of};
ghost use Rattle.bc_top.specs.WriteAll.{writes_of};
ghost use Rattle.bc_top.specs.Call.{IsTranscriptOf, IsWithout, call_of};
ghost use Rattle.bc_top.specs.EndCauses.{IsCaused};
ghost use Rattle.bc_top.specs.EndCompleteness.{IsComplete};

use crate::call::{conclude, scenario_of, text_in, text_of};
use crate::one_thread::offline;
use crate::outcome::{End, NoTranscript};
use crate::words::{Command, command_of};
use bc_actors::{Gate, RunError, run_windows};
use ptp_base::Octets;
use std::alloc::Global;
use std::sync::Wait;
use std::thread::Threads;
use text_io::{Sink, Source};

/// The transcript of a run by threads of the scenario that the text stands for. The text goes
/// before the run is made.
fn transcript_by_threads<R: Threads + Wait + Sync, G: Gate + Sync>(
    rt: &R,
    alloc: Global,
    text: Vec<u8>,
    gate: &G,
) -> Result<Octets, NoTranscript>
    requires short { length text.items ≤ TEXT_MAX }
    ensures transcript { IfOk result (λ out. IsTranscriptOf By_threads text.items out) }
    ensures without { IfErr result (IsWithout By_threads text.items) }
{
    let s = scenario_of(alloc, &text)?;
    drop(text);
    match run_windows(rt, alloc, &s, gate) {
        Ok(run) => text_of(alloc, &run),
        Err(RunError::NoMemory) => Err(NoTranscript::NoMemory),
        Err(RunError::Events { .. }) => Err(NoTranscript::Events),
    }
}

/// Reads a scenario and writes the transcript of a run of it by threads.
fn serve_run<R: Threads + Wait + Sync, S: Source, K: Sink, G: Gate + Sync>(
    rt: &R,
    alloc: Global,
    source: &mut S,
    sink: &mut K,
    gate: &G,
) -> End
    ensures caused { IsCaused (call_of (Some By_threads)
        (reads_of (S.left source.old) (S.left source.new)
        (S.faults source.old) (S.faults source.new))
        (writes_of (K.written sink.old) (K.written sink.new)
        (K.faults sink.old) (K.faults sink.new))) result }
    ensures complete { IsComplete (call_of (Some By_threads)
        (reads_of (S.left source.old) (S.left source.new)
        (S.faults source.old) (S.faults source.new))
        (writes_of (K.written sink.old) (K.written sink.new)
        (K.faults sink.old) (K.faults sink.new))) result }
{
    match text_in(alloc, source) {
        Ok(text) => conclude(&transcript_by_threads(rt, alloc, text, gate), sink),
        Err(end) => end,
    }
}

/// All that the program does. At the one word `run` it reads the source to its end, makes a run of
/// the scenario that the text stands for, with a thread for each actor, and the whole text of that
/// run, and then writes it. Nothing is written unless it ends with `Done` or `WriteFault`. At all
/// other words it is `offline`. The gate is for `run` alone.
pub fn top<R: Threads + Wait + Sync, S: Source, K: Sink, G: Gate + Sync>(
    rt: &R,
    alloc: Global,
    words: &[String],
    source: &mut S,
    sink: &mut K,
    gate: &G,
) -> End
    ensures caused { IsCaused (call_of (top_command (map string_bytes words.now))
        (reads_of (S.left source.old) (S.left source.new)
        (S.faults source.old) (S.faults source.new))
        (writes_of (K.written sink.old) (K.written sink.new)
        (K.faults sink.old) (K.faults sink.new))) result }
    ensures complete { IsComplete (call_of (top_command (map string_bytes words.now))
        (reads_of (S.left source.old) (S.left source.new)
        (S.faults source.old) (S.faults source.new))
        (writes_of (K.written sink.old) (K.written sink.new)
        (K.faults sink.old) (K.faults sink.new))) result }
{
    match command_of(words) {
        Some(Command::Run) => serve_run(rt, alloc, source, sink, gate),
        _ => offline(alloc, words, source, sink),
    }
}
