//! The word `gen`: the scenario that a number makes is replayed, and what its run comes to is written.
ghost use Rattle.std.specs.Prelude.{◌≡◌, ℕ, Some, IfOk, IfErr};
ghost use Rattle.bc_gen.specs.MadeScenario.{made_scenario};
ghost use Rattle.bc_top.specs.declared.words.Command.TheVariants.{Gen};
ghost use Rattle.bc_top.specs.declared.outcome.NoTranscript.TheVariants.{NoMemory};
ghost use Rattle.bc_top.specs.ReadToEnd.{Reads, IsUnread};
ghost use Rattle.bc_top.specs.WriteAll.{writes_of};
ghost use Rattle.bc_top.specs.Summary.{IsSummaryOf};
ghost use Rattle.bc_top.specs.Call.{IsWithoutSummary, call_of};
ghost use Rattle.bc_top.specs.EndCauses.{IsCaused};

use crate::call::{conclude, scenario_of};
use crate::outcome::{End, NoTranscript};
use crate::summary::summary;
use bc_gen::{text, texts_stand_for_scenarios};
use bc_history::Scenario;
use bc_replay::{ReplayError, replay};
use ptp_base::Octets;
use std::alloc::Global;
use text_io::Sink;

/// The scenario of number `n`, read from the text that the number makes.
fn made(alloc: Global, n: u32) -> Result<Scenario, NoTranscript>
    ensures scenario { IfOk result (λ s. s ≡ made_scenario n) }
    ensures error { IfErr result (λ why. why ≡ NoMemory) }
{
    texts_stand_for_scenarios();
    match text(alloc, n) {
        Ok(text) => scenario_of(alloc, text.items()),
        Err(_) => Err(NoTranscript::NoMemory),
    }
}

/// The summary of the run by turns of scenario `n`.
fn made_summary(alloc: Global, n: u32) -> Result<Octets, NoTranscript>
    ensures summary { IfOk result (λ out. IsSummaryOf n out) }
    ensures without { IfErr result (IsWithoutSummary n) }
{
    let s = made(alloc, n)?;
    match replay(alloc, &s) {
        Ok(run) => match summary(alloc, n, &s, &run) {
            Ok(out) => Ok(out),
            Err(_) => Err(NoTranscript::NoMemory),
        },
        Err(ReplayError::NoMemory) => Err(NoTranscript::NoMemory),
        Err(ReplayError::Events) => Err(NoTranscript::Events),
        Err(ReplayError::NotDue { turn }) => Err(NoTranscript::NotDue { turn }),
    }
}

/// Writes the summary of the run by turns of scenario `n`.
pub fn serve_gen<K: Sink>(alloc: Global, n: u32, sink: &mut K) -> End
    ensures { (r : Reads) → IsUnread r → IsCaused (call_of (Some (Gen n)) r
        (writes_of (K.written sink.old) (K.written sink.new)
        (K.faults sink.old) (K.faults sink.new))) result }
{
    conclude(&made_summary(alloc, n), sink)
}
