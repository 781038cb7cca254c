ghost use Rattle.std.specs.Prelude.{◌≡◌, ℕ, List, ◌++◌, OnOk};
ghost use Rattle.bstr.specs.Text.{lines_of};
ghost use Rattle.bc_history.specs.Run.Transcript.{answer_lines, answers_text, indented};
ghost use Rattle.transcript.specs.PrintedLines.{answer_text, margined};

use crate::line_text;
use crate::writer::Writer;
use bstr::ByteSlice;
use pmc_query::shows;
use ptp_base::{NoMemory, Octets};

/// Adds the lines of each answer to a query.
pub fn push_answers(out: &mut Writer, answers: &[Octets]) -> Result<(), NoMemory>
    ensures { OnOk result (out.new ≡ out.old ++ answers_text answers.now) }
{
    for answer in answers {
        push_answer(out, answer)?;
    }
    Ok(())
}

/// Adds the line of an answer, and the lines that print it where it can be printed.
fn push_answer(out: &mut Writer, answer: &Octets) -> Result<(), NoMemory>
    ensures { OnOk result (out.new ≡ out.old ++ answer_text answer.now) }
{
    line_text::push_answer(out, answer)?;
    write!(out, "\n")?;
    push_printed(out, answer.items())?;
    Ok(())
}

/// Adds the lines that print an answer, where it can be printed.
fn push_printed(out: &mut Writer, answer: &[u8]) -> Result<(), NoMemory>
    ensures { OnOk result (out.new ≡ out.old ++ indented (answer_lines answer.now)) }
{
    if !shows(answer) {
        return Ok(());
    }
    let text = out.printed(answer)?;
    push_margined(out, text.items())?;
    Ok(())
}

/// Adds the lines of a text, each behind four spaces.
fn push_margined(out: &mut Writer, text: &[u8]) -> Result<(), NoMemory>
    ensures { OnOk result (out.new ≡ out.old ++ margined (lines_of text.now)) }
{
    let mut lines = text.lines_with_terminator();
    while let Some(line) = lines.next() {
        write!(out, "    ")?;
        out.octets(line)?;
    }
    Ok(())
}
