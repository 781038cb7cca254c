//! What a run comes to, in one line.
ghost use Rattle.std.specs.Prelude.{◌≡◌, ℕ, ◌^◌, ◌<◌, IfOk, count_by, length, not, reverse};
ghost use Rattle.std.specs.List.{sum_by};
ghost use Rattle.ptp_profile.specs.Roles.SeatLogs.{is_order};
ghost use Rattle.bc_history.specs.declared.entry.Entry.{Entry};
ghost use Rattle.bc_history.specs.declared.scenario.Scenario.{Scenario};
ghost use Rattle.bc_history.specs.Run.History.{Continues};
ghost use Rattle.run_legal.specs.Runs.LegalRuns.{IsLegal};
ghost use Rattle.bc_top.specs.Summary.{change_count, changes_of, counts_line, entry_count, is_superseded, last_generation, refused_count, summary_line, tells_superseded};

use bc_history::{Input, Outcome, Run, Scenario};
use ptp_base::{NoMemory, Octets};
use ptp_profile::{Log, LogEntry};
use std::alloc::Global;

/// The line of what a run of scenario `n` comes to.
pub fn summary(alloc: Global, n: u32, s: &Scenario, run: &Run) -> Result<Octets, NoMemory>
    requires legal { IsLegal s.now run.now }
    ensures { IfOk result (λ out. out ≡ summary_line n s.now run.now) }
{
    s.rules();
    let events = run.entries.len();
    let generations = last_generation(run);
    let changes = change_count(run);
    let refused = refused_count(run);
    line(alloc, n, events, generations, changes, refused)
}

/// The line of these counts.
#[tactic(auto, unfolding(crate::specs::Summary::counts_line))]
fn line(
    alloc: Global,
    n: u32,
    events: usize,
    generations: u32,
    changes: u64,
    refused: usize,
) -> Result<Octets, NoMemory>
    ensures { IfOk result (λ out. out ≡ counts_line n events generations changes refused) }
{
    let mut out = Octets::new(alloc);
    let text = format!(in alloc;
        "gen {n} events {events} generations {generations} changes {changes} refused {refused}\n"
    )?;
    out.append(text.as_bytes())?;
    Ok(out)
}

/// The generation of the last order of a run, 0 where there is none. Where the entries are a history
/// that is the generation in which it ends.
fn last_generation(run: &Run) -> u32
    ensures { (s : Scenario) → Continues s (reverse run.now.entries) →
        result ≡ last_generation s run.now }
{
    let mut generation = 0;
    for entry in run.entries.items() {
        if let Some(order) = entry.effects.orders.items().first() {
            generation = order.gener;
        }
    }
    generation
}

/// How many changes the logs of a run have.
fn change_count(run: &Run) -> u64
    requires few { change_count run.now < 2 ^ 64 }
    ensures { result ≡ change_count run.now }
{
    let mut count = 0;
    for log in run.logs.items() {
        count += changes_of(log) as u64;
    }
    count
}

/// How many changes a log has.
fn changes_of(log: &Log) -> usize
    ensures { result ≡ changes_of log.now }
{
    let mut count = 0;
    for entry in log.entries.items() {
        if is_change(entry) {
            count += 1;
        }
    }
    count
}

/// The entry of a log is a change.
fn is_change(entry: &LogEntry) -> bool
    ensures { result ≡ not (is_order entry.now) }
{
    match entry {
        LogEntry::Order { .. } => false,
        LogEntry::Change { .. } => true,
    }
}

/// How many reports and samples of a run tell that an exchange was refused for a newer generation.
fn refused_count(run: &Run) -> usize
    ensures { result ≡ refused_count run.now }
{
    let mut count = 0;
    for entry in run.entries.items() {
        if tells_superseded(&entry.input) {
            count += 1;
        }
    }
    count
}

/// A report or a sample tells so.
fn tells_superseded(input: &Input) -> bool
    ensures { result ≡ tells_superseded input.now }
{
    match input {
        Input::Report { outcome, .. } => is_superseded(outcome),
        Input::Sampled { outcome, .. } => is_superseded(outcome),
        Input::Frame { .. } => false,
        Input::Timed { .. } => false,
        Input::Down { .. } => false,
        Input::Up { .. } => false,
        Input::Turn { .. } => false,
        Input::Query { .. } => false,
    }
}

/// An exchange was refused, since a newer generation was in force.
fn is_superseded(outcome: &Outcome) -> bool
    ensures { result ≡ is_superseded outcome.now }
{
    match outcome {
        Outcome::Superseded { .. } => true,
        Outcome::Unlocked => false,
        Outcome::Changed { .. } => false,
        Outcome::Spent { .. } => false,
    }
}
