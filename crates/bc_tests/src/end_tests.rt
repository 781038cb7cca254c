//! How calls end: at words, at sources and sinks that fail, and for want of memory.
use crate::call::{source, words};
use bc_top::{End, offline};
use std::test::Fail;
use text_io::{MemSink, Reason, SureSource};

const FIVE_SECONDS: &[u8] = b"[global]\nduration 5\n[port 1]\n[port 2]\n[records]\n";

const SIX_SECONDS: &[u8] = b"[global]\nduration 6\n[port 1]\n[port 2]\n[records]\n";

const OUT: &[u8] =
    b"bc-transcript 1\nevent 1 6000000000 port 1 timer 6000000000 announce_receipt seen 0 6000000000 0\n  state 1 LISTENING MASTER\nevent 2 6000000000 port 2 timer 6000000000 announce_receipt seen 0 6000000000 0\n  state 2 LISTENING MASTER\nclock 0 0 0\nend 2\n";

#[test]
fn ports_are_silent_for_five_seconds(rt: HostRuntime) -> Result<(), Fail> {
    let replay = words(rt.alloc(), "replay")?;
    let mut from = source(rt.alloc(), FIVE_SECONDS)?;
    let mut to = MemSink::new(rt.alloc());
    let end = offline(rt.alloc(), &replay, &mut from, &mut to);
    assert_eq!(rt; end, End::Done);
    assert_eq!(rt;
        to.octets(),
        b"bc-transcript 1\nclock 0 0 0\nend 0\n".as_slice()
    );
    Ok(())
}

#[test]
fn two_ports_become_masters(rt: HostRuntime) -> Result<(), Fail> {
    let replay = words(rt.alloc(), "replay")?;
    let mut from = source(rt.alloc(), SIX_SECONDS)?.with_most(1);
    let mut to = MemSink::new(rt.alloc());
    let end = offline(rt.alloc(), &replay, &mut from, &mut to);
    assert_eq!(rt; end, End::Done);
    assert_eq!(rt; to.octets(), OUT);
    Ok(())
}

#[test]
fn a_second_write_fails(rt: HostRuntime) -> Result<(), Fail> {
    let replay = words(rt.alloc(), "replay")?;
    let mut from = source(rt.alloc(), SIX_SECONDS)?;
    let second = vec![in rt.alloc(); 2u64]?;
    let mut to = MemSink::new(rt.alloc()).with_most(10).with_failing(second);
    let end = offline(rt.alloc(), &replay, &mut from, &mut to);
    assert_eq!(rt; end, End::WriteFault);
    assert_eq!(rt; to.octets(), b"bc-transcr".as_slice());
    Ok(())
}

#[test]
fn a_first_read_fails(rt: HostRuntime) -> Result<(), Fail> {
    let replay = words(rt.alloc(), "replay")?;
    let first = vec![in rt.alloc(); 1u64]?;
    let mut from = source(rt.alloc(), SIX_SECONDS)?.with_failing(first);
    let mut to = MemSink::new(rt.alloc());
    let end = offline(rt.alloc(), &replay, &mut from, &mut to);
    assert_eq!(rt; end, End::ReadFault);
    assert_eq!(rt; to.octets(), b"".as_slice());
    Ok(())
}

#[test]
fn other_words_are_none(rt: HostRuntime) -> Result<(), Fail> {
    for line in [
        "",
        "run",
        "gen",
        "gen -1",
        "gen 3 3",
        "gen 4294967296",
        "--help",
        "Replay",
        "replay replay",
    ] {
        let other = words(rt.alloc(), line)?;
        let mut from = source(rt.alloc(), SIX_SECONDS)?;
        let mut to = MemSink::new(rt.alloc());
        let end = offline(rt.alloc(), &other, &mut from, &mut to);
        assert_eq!(rt; end, End::Usage);
        assert_eq!(rt; to.octets(), b"".as_slice());
    }
    Ok(())
}

#[test]
fn a_text_is_too_long(rt: HostRuntime) -> Result<(), Fail> {
    let replay = words(rt.alloc(), "replay")?;
    // One line of a comment has no port: the text is faulty behind it.
    let portless = End::Refused {
        line: 2,
        reason: Reason::Section,
    };
    for (length, due) in [(33_554_432usize, portless), (33_554_433, End::TooLong)] {
        let octets = vec![in rt.alloc(); b'#'; length]?;
        let mut from = SureSource::new(octets);
        let mut to = MemSink::new(rt.alloc());
        let end = offline(rt.alloc(), &replay, &mut from, &mut to);
        assert_eq!(rt; end, due);
        assert_eq!(rt; to.octets(), b"".as_slice());
    }
    Ok(())
}

/// With any one allocation of the call failing, it ends with `NoMemory` or the right transcript. A
/// sink that finds no memory fails.
#[test]
fn want_of_memory_is_told(rt: HostRuntime) -> Result<(), Fail> {
    let replay = words(rt.alloc(), "replay")?;
    let mut from = source(rt.alloc(), SIX_SECONDS)?;
    let mut to = MemSink::new(rt.alloc()).with_most(100);
    let end = offline(rt.alloc(), &replay, &mut from, &mut to);
    match end {
        End::Done => assert_eq!(rt; to.octets(), OUT),
        End::WriteFault => assert!(rt; OUT.starts_with(to.octets())),
        _ => {
            assert_eq!(rt; end, End::NoMemory);
            assert_eq!(rt; to.octets(), b"".as_slice());
        }
    }
    Ok(())
}
