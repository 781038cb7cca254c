use crate::*;
use bc_history::Happening;
use model_clock::ClockState;
use ptp_base::{ClockId, PortConf};
use std::alloc::{AllocError, Global};
use std::test::Fail;

/// The line and the reason of a refused text.
fn refusal(alloc: Global, text: &[u8]) -> Option<(u32, Reason)> {
    if text.len() > 1_000_000 {
        return None;
    }
    match scenario(alloc, text) {
        Err(Refusal::Line { line, reason }) => Some((line, reason)),
        _ => None,
    }
}

/// A head, so many times a piece, and a tail.
fn long_text(
    alloc: Global,
    head: &[u8],
    piece: &[u8],
    times: u16,
    tail: &[u8],
) -> Result<Vec<u8>, AllocError> {
    let mut text = Vec::from_slice(alloc, head)?;
    for _ in 0..times {
        text.extend_from_slice(piece)?;
    }
    text.extend_from_slice(tail)?;
    Ok(text)
}

#[test]
fn headers_are_refused(rt: HostRuntime) {
    for (text, line, reason) in [
        (b"".as_slice(), 1, Reason::Section),
        (b"# no port".as_slice(), 2, Reason::Section),
        (b"[global]\n".as_slice(), 2, Reason::Section),
        (b"duration 1\n[port 1]".as_slice(), 1, Reason::Section),
        (b"[port 1 ]".as_slice(), 1, Reason::Section),
        (
            b"[port 000000000000000000001]".as_slice(),
            1,
            Reason::Section,
        ),
        (b"[port 1]\n[ports]".as_slice(), 2, Reason::Section),
        (
            b"[port 1]\r\n\t\r\n[port 3]\r\n".as_slice(),
            3,
            Reason::Order,
        ),
        (b"[port 0]".as_slice(), 1, Reason::Order),
        (b"[clock 1]".as_slice(), 1, Reason::Order),
        (b"[global]\n[global]".as_slice(), 2, Reason::Order),
        (b"[port 1]\n[clock 0]".as_slice(), 2, Reason::Order),
        (
            b"[port 1]\n[queries]\n[records]".as_slice(),
            3,
            Reason::Order,
        ),
        (
            b"[port 1]\n[schedule]\n[schedule]".as_slice(),
            3,
            Reason::Order,
        ),
        (b"[port 1 clock 1]".as_slice(), 1, Reason::Value),
        (
            b"[clock 0]\n[clock 1]\n[port 1]\n[port 2 clock 1]".as_slice(),
            4,
            Reason::Jbod,
        ),
        (b"[port 1]\r\r\n".as_slice(), 1, Reason::Section),
        (b"[port 1]\r".as_slice(), 1, Reason::Section),
    ] {
        assert_eq!(rt; refusal(rt.alloc(), text), Some((line, reason)));
    }
}

#[test]
fn options_are_refused(rt: HostRuntime) {
    for (text, line, reason) in [
        (b"[global]\ntime 1".as_slice(), 2, Reason::UnknownOption),
        (
            b"[clock 0]\nduration 1".as_slice(),
            2,
            Reason::UnknownOption,
        ),
        (
            b"[port 1]\npriority1 1".as_slice(),
            2,
            Reason::UnknownOption,
        ),
        (
            b"[global]\nwindow 1\nwindow".as_slice(),
            3,
            Reason::Repeated,
        ),
        (b"[clock 0]\ntime 1\ntime 1".as_slice(), 3, Reason::Repeated),
        (
            b"[port 1]\nlogSyncInterval 1\nlogSyncInterval 1".as_slice(),
            3,
            Reason::Repeated,
        ),
        (b"[global]\nwindow".as_slice(), 2, Reason::Value),
        (b"[global]\nwindow 1 2".as_slice(), 2, Reason::Value),
        (b"[global]\nwindow 0.0009".as_slice(), 2, Reason::Value),
        (
            b"[global]\nduration 1.0000000001".as_slice(),
            2,
            Reason::Value,
        ),
        (b"[global]\ndomainNumber 128".as_slice(), 2, Reason::Value),
        (
            b"[global]\nservo_kp 000000000000000000001".as_slice(),
            2,
            Reason::Value,
        ),
        (b"[clock 0]\ntime -0".as_slice(), 2, Reason::Value),
        (b"[clock 0]\ndrift 10000001".as_slice(), 2, Reason::Value),
        (
            b"[port 1]\nannounceReceiptTimeout 1".as_slice(),
            2,
            Reason::Value,
        ),
        (b"[port 1]\nlogSyncInterval 11".as_slice(), 2, Reason::Value),
        (
            b"[port 1]\nlogSyncInterval 1\r".as_slice(),
            2,
            Reason::Value,
        ),
    ] {
        assert_eq!(rt; refusal(rt.alloc(), text), Some((line, reason)));
    }
}

#[test]
fn lines_are_refused(rt: HostRuntime) {
    for (text, line, reason) in [
        (
            b"[port 1]\n[records]\n8 1 up\n7 1\n7 1".as_slice(),
            4,
            Reason::Order,
        ),
        (b"[port 1]\n[queries]\n8 x\n7".as_slice(), 4, Reason::Order),
        (b"[port 1]\n[records]\n8 2 up".as_slice(), 3, Reason::Value),
        (b"[port 1]\n[records]\n8 1 Up".as_slice(), 3, Reason::Value),
        (b"[port 1]\n[records]\n8 1 0g".as_slice(), 3, Reason::Value),
        (
            b"[port 1]\n[records]\n8 1 up up".as_slice(),
            3,
            Reason::Value,
        ),
        (
            b"[port 1]\n[records]\n100000000000001 1 000".as_slice(),
            3,
            Reason::Value,
        ),
        (
            b"[port 1]\n[records]\n100000000000001 1 00".as_slice(),
            3,
            Reason::Limit,
        ),
        (b"[port 1]\n[queries]\n1".as_slice(), 3, Reason::Value),
        (
            b"[port 1]\n[queries]\n1 \xC3\xA4".as_slice(),
            3,
            Reason::Value,
        ),
        (
            b"[port 1]\n[queries]\n100000000000001 x".as_slice(),
            3,
            Reason::Limit,
        ),
        (
            b"[port 1]\n[schedule]\ndefault 0".as_slice(),
            3,
            Reason::Value,
        ),
        (
            b"[port 1]\n[schedule]\ndefault 1000001".as_slice(),
            3,
            Reason::Value,
        ),
        (
            b"[port 1]\n[schedule]\nport 2 1".as_slice(),
            3,
            Reason::Value,
        ),
        (
            b"[port 1]\n[schedule]\nclock 0 1".as_slice(),
            3,
            Reason::Value,
        ),
        (
            b"[port 1]\n[schedule]\nqueries".as_slice(),
            3,
            Reason::Value,
        ),
    ] {
        assert_eq!(rt; refusal(rt.alloc(), text), Some((line, reason)));
    }
}

/// Sixteen clocks.
const CLOCKS: &[u8] =
    b"[clock 0]\n[clock 1]\n[clock 2]\n[clock 3]\n[clock 4]\n[clock 5]\n[clock 6]\n[clock 7]\n[clock 8]\n[clock 9]\n[clock 10]\n[clock 11]\n[clock 12]\n[clock 13]\n[clock 14]\n[clock 15]\n";
/// Thirty-two ports.
const PORTS: &[u8] =
    b"[port 1]\n[port 2]\n[port 3]\n[port 4]\n[port 5]\n[port 6]\n[port 7]\n[port 8]\n[port 9]\n[port 10]\n[port 11]\n[port 12]\n[port 13]\n[port 14]\n[port 15]\n[port 16]\n[port 17]\n[port 18]\n[port 19]\n[port 20]\n[port 21]\n[port 22]\n[port 23]\n[port 24]\n[port 25]\n[port 26]\n[port 27]\n[port 28]\n[port 29]\n[port 30]\n[port 31]\n[port 32]\n";

#[test]
fn too_many_are_refused(rt: HostRuntime) -> Result<(), Fail> {
    for (head, tail, fault) in [
        (CLOCKS, b"[clock 16]".as_slice(), Some((17, Reason::Limit))),
        (CLOCKS, b"[clock 17]".as_slice(), Some((17, Reason::Order))),
        (CLOCKS, b"[port 1]".as_slice(), None),
        (
            PORTS,
            b"[port 33 clock 99]".as_slice(),
            Some((33, Reason::Value)),
        ),
        (PORTS, b"[port 33]".as_slice(), Some((33, Reason::Limit))),
        (PORTS, b"[port 34]".as_slice(), Some((33, Reason::Order))),
        (PORTS, b"[schedule]".as_slice(), None),
    ] {
        let text = long_text(rt.alloc(), head, tail, 1, b"")?;
        assert_eq!(rt; refusal(rt.alloc(), text.as_slice()), fault);
    }
    Ok(())
}

#[test]
fn long_lines_are_refused(rt: HostRuntime) -> Result<(), Fail> {
    let frames = b"[port 1]\n[records]\n1 1 ".as_slice();
    let queries = b"[port 1]\n[queries]\n1 ".as_slice();
    for (head, piece, times, tail, fault) in [
        (frames, b"0A".as_slice(), 1500, b"".as_slice(), None),
        (
            frames,
            b"0A".as_slice(),
            1501,
            b"".as_slice(),
            Some((3, Reason::Limit)),
        ),
        (
            frames,
            b"0A".as_slice(),
            1501,
            b"0".as_slice(),
            Some((3, Reason::Value)),
        ),
        (queries, b"a".as_slice(), 100, b"".as_slice(), None),
        (
            queries,
            b"a".as_slice(),
            101,
            b"".as_slice(),
            Some((3, Reason::Limit)),
        ),
        (queries, b" \ta".as_slice(), 50, b"".as_slice(), None),
        (
            queries,
            b" \ta".as_slice(),
            51,
            b"".as_slice(),
            Some((3, Reason::Limit)),
        ),
    ] {
        let text = long_text(rt.alloc(), head, piece, times, tail)?;
        assert_eq!(rt; refusal(rt.alloc(), text.as_slice()), fault);
    }
    Ok(())
}

fn accepted(alloc: Global, text: &[u8]) -> Option<Scenario> {
    if text.len() > 1_000_000 {
        return None;
    }
    scenario(alloc, text).ok()
}

/// What happens, as the last word of its line has it, but for frames.
fn octets(what: &Happening) -> &[u8] {
    match what {
        Happening::Frame(octets) => octets.items(),
        Happening::Down => b"down",
        Happening::Up => b"up",
    }
}

const DEFAULTS: Options = Options {
    clock_identity: ClockId {
        id: 0x020000_fffe_000001,
    },
    domain_number: 0,
    priority1: 128,
    priority2: 128,
    clock_class: 248,
    clock_accuracy: 254,
    offset_scaled_log_variance: 65_535,
    utc_offset: 37,
    time_flags: 8,
    time_source: 160,
    boundary_clock_jbod: false,
    max_frequency: 900_000_000,
    step_threshold: 0,
    first_step_threshold: 20_000,
    servo_kp: 700,
    servo_ki: 300,
    delay_filter_length: 10,
    duration: 20_000_000_000,
    window: 125_000_000,
    follow_interval: 1_000_000_000,
    subscribe_duration: 180_000_000_000,
    subscribe_renew: 60_000_000_000,
    seat_rows: 65_536,
};

const OTHERS: Options = Options {
    clock_identity: ClockId {
        id: 0xABCDEF_0123_456789,
    },
    domain_number: 127,
    priority1: 255,
    priority2: 0,
    clock_class: 6,
    clock_accuracy: 33,
    offset_scaled_log_variance: 20_061,
    utc_offset: 32_767,
    time_flags: 63,
    time_source: 32,
    boundary_clock_jbod: true,
    max_frequency: 1,
    step_threshold: 1_000_000_000_000_000,
    first_step_threshold: 100_000_000,
    servo_kp: 10_000,
    servo_ki: 0,
    delay_filter_length: 32,
    duration: 100_000_000_000_000,
    window: 1_000_000,
    follow_interval: 10_000_000,
    subscribe_duration: 123_456_789,
    subscribe_renew: 0,
    seat_rows: 262_143,
};

const PLAIN_CLOCK: ClockState = ClockState {
    tick: 0,
    time: 0,
    freq: 0,
    drift: 0,
};

const PLAIN_PORT: PortConf = PortConf {
    clock: 0,
    log_announce: 1,
    log_sync: 0,
    log_delay: 0,
    receipt: 3,
};

#[test]
fn defaults_are_taken(rt: HostRuntime) -> Result<(), Fail> {
    let s = accepted(rt.alloc(), b"#\x00\n\t[port\t01]\r\n").ok_or("refused")?;
    s.rules();
    assert_eq!(rt; s.options, DEFAULTS);
    assert_eq!(rt; s.clocks.items(), [PLAIN_CLOCK].as_slice());
    assert_eq!(rt; s.ports.items(), [PLAIN_PORT].as_slice());
    assert_eq!(rt; s.records.len(), 0);
    assert_eq!(rt; s.queries.len(), 0);
    assert_eq!(rt; s.turns.items(), [].as_slice());
    Ok(())
}

#[test]
fn options_are_taken(rt: HostRuntime) -> Result<(), Fail> {
    let text =
        b"[global]\nclockIdentity ABCDEF.0123.456789\ndomainNumber 127\npriority1 255\npriority2 0\nclockClass 6\nclockAccuracy 0x21\noffsetScaledLogVariance 0x4E5d\nutc_offset 32767\ntime_flags 063\ntimeSource 32\nboundary_clock_jbod 1\nmax_frequency 1\nstep_threshold 1000000\nfirst_step_threshold 0.1\nservo_kp 10000\nservo_ki 0\ndelay_filter_length 32\nduration 100000.000000000\nwindow 0.001\nfollow_interval 0.01\nsubscribe_duration 0.123456789\nsubscribe_renew 0\nseat_rows 262143\nlogSyncInterval -7\n[clock 0]\ntime 8589934591999999999\n[clock 1]\ndrift -10000000\n[port 1]\n[port 2 clock 1]\nlogAnnounceInterval 10\nlogSyncInterval -0\nlogMinDelayReqInterval -1\nannounceReceiptTimeout 255\n";
    let s = accepted(rt.alloc(), text).ok_or("refused")?;
    assert_eq!(rt; s.options, OTHERS);
    let first = ClockState {
        time: 8_589_934_591_999_999_999,
        ..PLAIN_CLOCK
    };
    let second = ClockState {
        drift: -655_360_000_000,
        ..PLAIN_CLOCK
    };
    assert_eq!(rt; s.clocks.items(), [first, second].as_slice());
    let first = PortConf {
        log_sync: -7,
        ..PLAIN_PORT
    };
    let second = PortConf {
        clock: 1,
        log_announce: 10,
        log_sync: 0,
        log_delay: -1,
        receipt: 255,
    };
    assert_eq!(rt; s.ports.items(), [first, second].as_slice());
    Ok(())
}

#[test]
fn lines_are_taken(rt: HostRuntime) -> Result<(), Fail> {
    let text =
        b"[clock 0]\n[clock 1]\n[port 1]\n[port 2]\n[records]\n07 2 0aF0\n7 1 down\n7 2 up\n[queries]\n3 GET  X\t1\n100000000000000 x\n[schedule]\ndefault 1\nport 2 1000000\nclock 1 2\nqueries 3";
    let s = accepted(rt.alloc(), text).ok_or("refused")?;
    assert_eq!(rt; s.records.len(), 3);
    for (record, (port, tick, what)) in s.records.items().iter().zip([
        (2, 7, b"\x0A\xF0".as_slice()),
        (1, 7, b"down".as_slice()),
        (2, 7, b"up".as_slice()),
    ]) {
        assert_eq!(rt; (record.port, record.tick), (port, tick));
        assert_eq!(rt; octets(&record.what), what);
    }
    assert_eq!(rt; s.queries.len(), 2);
    for (query, (tick, text)) in s.queries.items().iter().zip([
        (3, b"GET X 1".as_slice()),
        (100_000_000_000_000, b"x".as_slice()),
    ]) {
        assert_eq!(rt; query.tick, tick);
        assert_eq!(rt; query.text.items(), text);
    }
    let turns = |who, count| Turns { who, count };
    assert_eq!(rt;
        s.turns.items(),
        [
            turns(Turner::Default, 1),
            turns(Turner::Port(2), 1_000_000),
            turns(Turner::Clock(1), 2),
            turns(Turner::Queries, 3),
        ]
        .as_slice()
    );
    Ok(())
}
