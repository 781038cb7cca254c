//! What the commands share: the text is read and stands for a scenario, a run has a transcript, and
//! what is owed is written.
ghost use Rattle.std.specs.Prelude.{◌≡◌, ℕ, ◌≤◌, List, length, Some, IfOk, IfErr};
ghost use Rattle.bc_history.specs.Run.Transcript.{text_of};
ghost use Rattle.bc_history.specs.Scenario.LineFaults.{Stands};
ghost use Rattle.ptp_base.specs.declared.limits.TheConstants.{TEXT_MAX};
ghost use Rattle.bc_top.specs.declared.words.Command.{Command};
ghost use Rattle.bc_top.specs.declared.outcome.NoTranscript.TheVariants.{NoMemory};
ghost use Rattle.bc_top.specs.ReadToEnd.{Reads, IsReadWhole, reads_of};
ghost use Rattle.bc_top.specs.WriteAll.{Writes, IsUnwritten, writes_of};
ghost use Rattle.bc_top.specs.Call.{IsExcused, IsOfText, IsOwed, IsWithout, call_of};
ghost use Rattle.bc_top.specs.EndCauses.{IsCaused};

use crate::outcome::{End, NoTranscript};
use crate::read::{ReadError, read_to_end};
use crate::write::write_all;
use bc_config::{Refusal, scenario};
use bc_history::{Run, Scenario};
use ptp_base::Octets;
use std::alloc::Global;
use text_io::{Sink, Source};
use transcript::write;

/// All that is left in the source, or how a call ends that has read no text.
pub fn text_in<S: Source>(alloc: Global, source: &mut S) -> Result<Vec<u8>, End>
    ensures whole { IfOk result (λ text. IsReadWhole
        (reads_of (S.left source.old) (S.left source.new)
        (S.faults source.old) (S.faults source.new)) text.items) }
    ensures caused { IfErr result (λ end. (command : Command) (w : Writes) → IsOfText command →
        IsUnwritten w → IsCaused (call_of (Some command)
        (reads_of (S.left source.old) (S.left source.new)
        (S.faults source.old) (S.faults source.new)) w) end) }
{
    match read_to_end(alloc, source) {
        Ok(text) => Ok(text),
        Err(ReadError::Fault) => Err(End::ReadFault),
        Err(ReadError::TooLong) => Err(End::TooLong),
        Err(ReadError::NoMemory) => Err(End::NoMemory),
    }
}

/// The scenario that the text stands for, or why no command has a transcript of the text.
pub fn scenario_of(alloc: Global, text: &[u8]) -> Result<Scenario, NoTranscript>
    requires short { length text.now ≤ TEXT_MAX }
    ensures stands { IfOk result (λ s. Stands text.now s) }
    ensures without { IfErr result (λ why. (command : Command) → IsWithout command text.now why) }
{
    match scenario(alloc, text) {
        Ok(s) => Ok(s),
        Err(Refusal::Line { line, reason }) => Err(NoTranscript::Refused { line, reason }),
        Err(Refusal::NoMemory) => Err(NoTranscript::NoMemory),
    }
}

/// The whole text of a run.
pub fn text_of(alloc: Global, run: &Run) -> Result<Octets, NoTranscript>
    ensures text { IfOk result (λ out. out ≡ text_of run.now) }
    ensures error { IfErr result (λ why. why ≡ NoMemory) }
{
    let mut out = Octets::new(alloc);
    match write(alloc, run, &mut out) {
        Ok(()) => Ok(out),
        Err(_) => Err(NoTranscript::NoMemory),
    }
}

/// The end of a call: what its command owes is written, or it owes nothing. Where that is so by a
/// command and by what was read, the end has its cause.
pub fn conclude<K: Sink>(made: &Result<Octets, NoTranscript>, sink: &mut K) -> End
    ensures { (command : Command) (r : Reads) →
        IfOk made.now (λ out. IsOwed command r out) →
        IfErr made.now (IsExcused command r) →
        IsCaused (call_of (Some command) r
        (writes_of (K.written sink.old) (K.written sink.new)
        (K.faults sink.old) (K.faults sink.new))) result }
{
    match made {
        Ok(out) => match write_all(sink, out.items()) {
            Ok(()) => End::Done,
            Err(_) => End::WriteFault,
        },
        Err(without) => without.end(),
    }
}
