use crate::words::{Command, command_of};
use crate::{End, offline, top};
use bc_actors::NoGate;
use std::alloc::Global;
use std::test::Fail;
use text_io::{MemSink, MemSource, Reason};

#[test]
fn each_end_has_its_status(rt: HostRuntime) {
    let refused = End::Refused {
        line: 1,
        reason: Reason::Section,
    };
    for (end, status) in [
        (End::Done, 0),
        (End::Usage, 1),
        (refused, 2),
        (End::ReadFault, 3),
        (End::WriteFault, 4),
        (End::Events, 5),
        (End::NoMemory, 6),
        (End::NotDue { turn: 1 }, 7),
        (End::TooLong, 8),
    ] {
        assert_eq!(rt; end.status(), status);
    }
}

/// The words of a line.
fn words(alloc: Global, line: &str) -> Result<Vec<String>, Fail> {
    let mut words = Vec::new(alloc);
    for word in line.split_ascii_whitespace() {
        words.push(String::from_str(alloc, word)?)?;
    }
    Ok(words)
}

#[test]
fn words_name_commands(rt: HostRuntime) -> Result<(), Fail> {
    for (line, command) in [
        ("replay", Some(Command::Replay)),
        ("run", Some(Command::Run)),
        ("gen 1", Some(Command::Gen(1))),
        ("gen 01", Some(Command::Gen(1))),
        ("gen 4294967295", Some(Command::Gen(4_294_967_295))),
        ("gen 4294967296", None),
        ("gen 0000000001", Some(Command::Gen(1))),
        ("gen 00000000001", None),
        ("gen", None),
        ("gen -1", None),
        ("gen 1 2", None),
        ("gen 1x", None),
        ("replay 1", None),
    ] {
        let words = words(rt.alloc(), line)?;
        assert_eq!(rt; command_of(&words), command, "{line}");
    }
    Ok(())
}

#[test]
fn top_takes_the_word_run_and_offline_does_not(rt: HostRuntime) -> Result<(), Fail> {
    let alloc = rt.alloc();
    let text = b"[port 1]\n[ports]\n";
    let refused = End::Refused {
        line: 2,
        reason: Reason::Section,
    };
    for (line, by_top, on_one_thread) in [
        ("replay", refused, refused),
        ("run", refused, End::Usage),
        ("", End::Usage, End::Usage),
        ("Run", End::Usage, End::Usage),
        ("run run", End::Usage, End::Usage),
        ("replay run", End::Usage, End::Usage),
        ("gen 4294967296", End::Usage, End::Usage),
    ] {
        let words = words(alloc, line)?;
        let mut to = MemSink::new(alloc);
        let mut from = MemSource::new(Vec::from_slice(alloc, text)?);
        let end = top(&rt, alloc, &words, &mut from, &mut to, &NoGate);
        assert_eq!(rt; end, by_top, "top at {line}");
        let mut from = MemSource::new(Vec::from_slice(alloc, text)?);
        let end = offline(alloc, &words, &mut from, &mut to);
        assert_eq!(rt; end, on_one_thread, "offline at {line}");
        assert_eq!(rt; to.octets(), b"".as_slice());
    }
    Ok(())
}
