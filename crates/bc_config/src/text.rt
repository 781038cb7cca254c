ghost use Rattle.std.specs.Prelude.{◌≡◌, ◌<◌, ◌≤◌, ◌+◌, None, Some, IfOk, IfErr, length};
ghost use Rattle.text_io.specs.TextLines.{lines_of_text};
ghost use Rattle.bc_history.specs.Scenario.LineFaults.{fault, with_line, end_fault, Stands};
ghost use Rattle.bc_config.specs.Refusal.{IsRefusedBy, refusal_at};

use crate::draft::Draft;
use crate::refusal::{LineError, Refusal};
use bc_history::Scenario;
use std::alloc::Global;
use text_io::lines_in;

/// The refusal of a line that was not taken.
fn refused(line: u32, error: LineError) -> Refusal
    ensures { result ≡ refusal_at line error }
{
    match error {
        LineError::Fault(reason) => Refusal::Line { line, reason },
        LineError::NoMemory => Refusal::NoMemory,
    }
}

/// The scenario that a text stands for, or its first faulty line. The text has fewer than
/// 4,294,967,295 octets. That the scenario keeps the rules, its type says ([`Scenario::rules`]).
pub fn scenario(alloc: Global, text: &[u8]) -> Result<Scenario, Refusal>
    requires { length text.now < 4294967295 }
    ensures stands { IfOk result (λ s. Stands text.now s) }
    ensures refused { IfErr result (λ refusal. IsRefusedBy text.now refusal) }
{
    let mut draft = Draft::new(alloc);
    let mut lines = lines_in(text);
    let mut number = 0;
    while let Some(line) = lines.next() {
        number += 1;
        if let Err(error) = draft.take_line(alloc, line) {
            return Err(refused(number, error));
        }
    }
    if let Some(reason) = draft.end_fault() {
        return Err(Refusal::Line {
            line: number + 1,
            reason,
        });
    }
    match draft.finish() {
        Ok(scenario) => Ok(scenario),
        Err(_) => Err(Refusal::NoMemory),
    }
}
