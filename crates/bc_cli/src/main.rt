//! Reads a scenario from standard input and writes the transcript of its run to standard output: at
//! the word `replay` of the run by turns, at the word `run` of a run by threads. At the word `gen` and
//! a number it reads nothing, and writes what the run of the scenario comes to that the number makes.
#![tactic(auto)]

use bc_actors::NoGate;
use bc_top::{End, top};
use std::process::ExitCode;
use std::{env, io};
use text_io::{InAdapter, OutAdapter};

/// The words of the command line, without the program's name.
fn words(rt: &HostRuntime) -> io::Result<Vec<String>> {
    let mut words = Vec::new(rt.alloc());
    for word in env::args(rt)?.skip(1) {
        words.push(word)?;
    }
    Ok(words)
}

/// How the program ends where its words cannot be had.
fn end_without_words(error: &io::Error) -> End {
    match error.kind() {
        io::ErrorKind::OutOfMemory => End::NoMemory,
        // A word that is not UTF-8 is none of the program's.
        _ => End::Usage,
    }
}

/// Says on standard error why what was asked for was not written.
fn report(rt: &HostRuntime, end: &End) -> io::Result<()> {
    match end {
        End::Done => Ok(()),
        End::Usage => eprintln!(rt; "usage"),
        End::Refused { line, reason } => eprintln!(rt; "line {line}: {reason}"),
        End::ReadFault => eprintln!(rt; "read failed"),
        End::WriteFault => eprintln!(rt; "write failed"),
        End::Events => eprintln!(rt; "too many events"),
        End::NoMemory => eprintln!(rt; "no memory"),
        End::NotDue { turn } => eprintln!(rt; "turn {turn}: nothing due"),
        End::TooLong => eprintln!(rt; "input too long"),
    }
}

/// Does what the words of the command line ask for. No thread of a run is delayed.
fn main(rt: HostRuntime) -> ExitCode {
    let end = match words(&rt) {
        Ok(words) => {
            let mut source = InAdapter::new(rt.reader());
            let mut sink = OutAdapter::new(io::writer(&rt));
            top(&rt, rt.alloc(), &words, &mut source, &mut sink, &NoGate)
        }
        Err(error) => end_without_words(&error),
    };
    // Where standard error takes nothing, the status still tells the end.
    let _ = report(&rt, &end);
    ExitCode::from(end.status())
}
