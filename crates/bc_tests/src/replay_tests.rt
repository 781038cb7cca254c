//! What is refused, and where the events of a replay end.
use crate::call::{port_count, source, words};
use bc_config::scenario;
use bc_top::{End, offline};
use hub_core::Hub;
use ptp_profile::Timer;
use std::alloc::Global;
use std::test::Fail;
use text_io::{MemSink, Reason, SureSink, SureSource};

/// How a call ends at a text. What it writes is dropped.
fn end_at(alloc: Global, text: &[u8]) -> Result<End, Fail> {
    let replay = words(alloc, "replay")?;
    let mut from = SureSource::new(Vec::from_slice(alloc, text)?).with_most(7);
    let mut to = SureSink::new().with_most(7);
    Ok(offline(alloc, &replay, &mut from, &mut to))
}

#[test]
fn the_first_faulty_line_is_told(rt: HostRuntime) -> Result<(), Fail> {
    for (text, line, reason) in [
        ("", 1, Reason::Section),
        (
            "[clock 0]\n[clock 1]\n[port 1]\n[port 2 clock 1]\n",
            4,
            Reason::Jbod,
        ),
        (
            "[port 1]\n[records]\n2000 1 down\n1000 1 up\n",
            4,
            Reason::Order,
        ),
        ("[port 1]\n[records]\n1000 1 0b1\n", 3, Reason::Value),
        (
            "[port 1]\n[records]\n100000000000001 1 down\n",
            3,
            Reason::Limit,
        ),
        ("[port 1]\nfoo 1\n", 2, Reason::UnknownOption),
        (
            "[global]\npriority1 1\npriority1 300\n",
            3,
            Reason::Repeated,
        ),
    ] {
        let end = end_at(rt.alloc(), text.as_bytes())?;
        assert_eq!(rt; end, End::Refused { line, reason });
    }
    Ok(())
}

#[test]
fn sections_may_be_empty(rt: HostRuntime) -> Result<(), Fail> {
    for text in [
        "[global]\nduration 1\n[port 1]\n[queries]\n[schedule]\n",
        "[global]\nduration 1\nboundary_clock_jbod 1\n[clock 0]\n[clock 1]\n[port 1]\n[port 2 clock 1]\n",
        "[global]\nduration 1\n[clock 0]\n[port 1]\n",
    ] {
        assert_eq!(rt; end_at(rt.alloc(), text.as_bytes())?, End::Done);
    }
    Ok(())
}

/// The text of a port to which one frame comes.
fn with_frame(alloc: Global, frame: &str) -> Result<String, Fail> {
    Ok(format!(in alloc;
        "[global]\nduration 1\n[port 1]\n[records]\n1000 1 down\n1000 1 {frame}\n"
    )?)
}

/// A Sync, a Follow_Up, a Delay_Resp, a Delay_Req, an Announce, a Sync of another domain, and a Sync
/// that is cut off.
#[test]
fn each_frame_is_built(rt: HostRuntime) -> Result<(), Fail> {
    for frame in [
        "0002002c000000000000000000000000000000000a0b0c0d0e0f010200010001000000000000000000000000",
        "0802002c000000000000000000000000000000000a0b0c0d0e0f010200010001020000000000000000000000",
        "09020036000000000000000000000000000000000a0b0c0d0e0f0102000100010300000000000000000000000a0b0c0d0e0f01020001",
        "0102002c000000000000000000000000000000000a0b0c0d0e0f010200010001010000000000000000000000",
        "0b020040000000000000000000000000000000000a0b0c0d0e0f01020001000105000000000000000000000000250080f8feffff800a0b0c0d0e0f01020000a0",
        "0002002c010000000000000000000000000000000a0b0c0d0e0f010200010001000000000000000000000000",
        "0002002c000000000000000000000000000000000a0b0c0d0e0f0102000100010000000000000000000000",
    ] {
        let text = with_frame(rt.alloc(), frame)?;
        assert_eq!(rt; end_at(rt.alloc(), text.as_bytes())?, End::Done);
    }
    Ok(())
}

const DROPPED: &[u8] = b"[global]\nduration 6\n[port 1]\n[port 2]\n[records]\n1000 1 0b12\n";

const DROPPED_OUT: &[u8] =
    b"bc-transcript 1\nevent 1 1000 port 1 frame 1000 0b12 seen 0 1000 0\n  fate short\nevent 2 6000000000 port 1 timer 6000000000 announce_receipt seen 0 6000000000 0\n  state 1 LISTENING MASTER\nevent 3 6000000000 port 2 timer 6000000000 announce_receipt seen 0 6000000000 0\n  state 2 LISTENING MASTER\nclock 0 0 0\nend 3\n";

#[test]
fn a_frame_is_dropped(rt: HostRuntime) -> Result<(), Fail> {
    let replay = words(rt.alloc(), "replay")?;
    let mut from = source(rt.alloc(), DROPPED)?;
    let mut to = MemSink::new(rt.alloc());
    let end = offline(rt.alloc(), &replay, &mut from, &mut to);
    assert_eq!(rt; end, End::Done);
    assert_eq!(rt; to.octets(), DROPPED_OUT);
    Ok(())
}

/// The text of a port to which so many frames come at tick 0.
fn with_frames(alloc: Global, count: u32) -> Result<Vec<u8>, Fail> {
    let mut text = Vec::from_slice(alloc, b"[global]\nduration 0\n[port 1]\n[records]\n")?;
    for _ in 0..count {
        text.extend_from_slice(b"0 1 00\n")?;
    }
    Ok(text)
}

#[test]
fn events_are_limited(rt: HostRuntime) -> Result<(), Fail> {
    for (count, due) in [(131_071, End::Done), (131_072, End::Events)] {
        let text = with_frames(rt.alloc(), count)?;
        let replay = words(rt.alloc(), "replay")?;
        let mut from = SureSource::new(text);
        let mut to = SureSink::new();
        assert_eq!(rt; offline(rt.alloc(), &replay, &mut from, &mut to), due);
    }
    Ok(())
}

/// Before its first event a hub has no entry, and its port waits for Announces.
#[test]
fn a_hub_begins_with_no_entry(rt: HostRuntime) -> Result<(), Fail> {
    let Ok(s) = scenario(rt.alloc(), b"[port 1]\n") else {
        assert!(rt; false);
        return Ok(());
    };
    let Ok(hub) = Hub::new(rt.alloc(), &s) else {
        assert!(rt; false);
        return Ok(());
    };
    assert_eq!(rt; hub.entries().len(), 0);
    assert_eq!(rt; hub.asked(), 0);
    if port_count(&s) >= 1 {
        assert_eq!(rt; hub.due(1), Some((6_000_000_000, Timer::AnnounceReceipt)));
    }
    Ok(())
}
