use crate::{TextError, read, write};
use ptp_base::{NoMemory, Octets};
use std::alloc::Global;
use std::test::Fail;

/// A made-up transcript, in which each input and each effect but an answer stands.
const TEXT: &[u8] = b"bc-transcript 1
event 1 5 port 1 frame 5 0bfe seen 3 -7 -65536
  fate nanos
  state 1 LISTENING UNCALIBRATED
  state 1 UNCALIBRATED SLAVE
  parent 001122.fffe.334455-1
  order 0 1 1
  order 2 1 129
  measure 1 0 -98304 65536 12
  send 2 ab
  send 3 00
event 2 9 port 2 timer 9 qualification seen 0 9 0
event 3 9 port 3 down 8
event 4 10 port 3 up 10
event 5 11 port 1 report 11 4 jump -5 131072 superseded 6 7
event 6 12 clock 2 turn 12
  fate kept
  told 4 0 missed 2
event 7 13 clock 2 sampled 13 4 0 theirs 1 20 0 own 2 -30 -9 jump 0 0 none
event 8 14 query 14 get X
  told none missed 0
  asked unknown
clock 0 5 -2
log 0 1 order 1 1
log 0 2 change 1 1 11 -5 131072
clock 1 0 1
end 8
";

/// A transcript with an answer, whose printed lines stand behind it.
const SHOWN: &[u8] = b"bc-transcript 1
event 1 1 query 1 GET PRIORITY1
  answer 0d12003800000000000000000000000000000000020000fffe00000100000000047f00000000000000000001000002000001000420058000
    020000.fffe.000001-0 seq 0 RESPONSE MANAGEMENT PRIORITY1
    priority1 128
end 1
";

/// The text of the run that a text shows.
fn again(alloc: Global, text: &[u8]) -> Result<Octets, NoMemory> {
    if text.len() >= 4294967295 {
        return Err(NoMemory);
    }
    match read(alloc, text) {
        Ok(run) => {
            let mut out = Octets::new(alloc);
            write(alloc, &run, &mut out)?;
            Ok(out)
        }
        Err(_) => Err(NoMemory),
    }
}

/// The line at which a text is refused, 0 where it is read.
fn refused(alloc: Global, text: &[u8]) -> u32 {
    if text.len() >= 4294967295 {
        return 0;
    }
    match read(alloc, text) {
        Err(TextError::Line { line }) => line,
        _ => 0,
    }
}

#[test]
fn a_transcript_is_read_back(rt: HostRuntime) -> Result<(), Fail> {
    let out = again(rt.alloc(), TEXT).ok().ok_or("no run")?;
    assert_eq!(rt; out.items(), TEXT);
    Ok(())
}

#[test]
fn an_answer_is_read_back(rt: HostRuntime) -> Result<(), Fail> {
    let out = again(rt.alloc(), SHOWN).ok().ok_or("no run")?;
    assert_eq!(rt; out.items(), SHOWN);
    Ok(())
}

#[test]
fn a_wrong_number_is_refused(rt: HostRuntime) -> Result<(), Fail> {
    let text: &[u8] =
        b"bc-transcript 1\nevent 1 6000000000 port 1 timer 6000000000 announce_receipt seen 0 6000000000 0\n  state 1 LISTENING MASTER\nevent 3 6000000000 port 2 timer 6000000000 announce_receipt seen 0 6000000000 0\n  state 2 LISTENING MASTER\nclock 0 0 0\nend 2\n";
    assert_eq!(rt; refused(rt.alloc(), text), 4);
    assert_eq!(rt; refused(rt.alloc(), b"bc-transcript 1\nend 1\n"), 2);
    assert_eq!(rt;
        refused(
            rt.alloc(),
            b"bc-transcript 1\nclock 0 0 0\nlog 0 2 order 1 1\nend 0\n"
        ),
        3
    );
    Ok(())
}

#[test]
fn an_early_end_is_refused_behind_the_last_newline(rt: HostRuntime) -> Result<(), Fail> {
    assert_eq!(rt; refused(rt.alloc(), b""), 1);
    assert_eq!(rt; refused(rt.alloc(), b"bc-transcript 1"), 1);
    assert_eq!(rt; refused(rt.alloc(), b"bc-transcript 1\n"), 2);
    assert_eq!(rt; refused(rt.alloc(), b"bc-transcript 1\nclock 0 0 0\n"), 3);
    assert_eq!(rt;
        refused(rt.alloc(), b"bc-transcript 1\nclock 0 0 0\nend 0"),
        3
    );
    assert_eq!(rt; refused(rt.alloc(), b"bc-transcript 1\nend 0\n"), 0);
    assert_eq!(rt; refused(rt.alloc(), b"bc-transcript 1\nend 0\n\n"), 3);
    Ok(())
}

#[test]
fn effects_stand_in_order(rt: HostRuntime) -> Result<(), Fail> {
    let late: &[u8] =
        b"bc-transcript 1\nevent 1 5 port 1 down 5\n  order 0 1 1\n  parent 001122.fffe.334455-1\nend 1\n";
    let falling: &[u8] =
        b"bc-transcript 1\nevent 1 5 port 1 down 5\n  state 2 SLAVE FAULTY\n  state 1 SLAVE FAULTY\nend 1\n";
    let thrice: &[u8] =
        b"bc-transcript 1\nevent 1 5 port 1 down 5\n  state 1 SLAVE FAULTY\n  state 1 SLAVE FAULTY\n  state 1 SLAVE FAULTY\nend 1\n";
    let word: &[u8] = b"bc-transcript 1\nevent 1 5 port 1 down 5\n  fade kept\nend 1\n";
    assert_eq!(rt; refused(rt.alloc(), late), 4);
    assert_eq!(rt; refused(rt.alloc(), falling), 4);
    assert_eq!(rt; refused(rt.alloc(), thrice), 5);
    assert_eq!(rt; refused(rt.alloc(), word), 3);
    Ok(())
}

#[test]
fn a_measure_is_of_a_port_that_can_be_a_controller(rt: HostRuntime) -> Result<(), Fail> {
    let most: &[u8] = b"bc-transcript 1\nevent 1 5 port 255 down 5\n  measure 1 0 0 0 0\nend 1\n";
    let more: &[u8] = b"bc-transcript 1\nevent 1 5 port 256 down 5\n  measure 1 0 0 0 0\nend 1\n";
    let none: &[u8] = b"bc-transcript 1\nevent 1 5 clock 0 turn 5\n  measure 1 0 0 0 0\nend 1\n";
    assert_eq!(rt; refused(rt.alloc(), most), 0);
    assert_eq!(rt; refused(rt.alloc(), more), 3);
    assert_eq!(rt; refused(rt.alloc(), none), 3);
    Ok(())
}

#[test]
fn logs_stand_behind_their_clocks(rt: HostRuntime) -> Result<(), Fail> {
    let other: &[u8] = b"bc-transcript 1\nclock 0 0 0\nlog 1 1 order 1 1\nend 0\n";
    let falling: &[u8] = b"bc-transcript 1\nclock 1 0 0\nclock 0 0 0\nend 0\n";
    let late: &[u8] = b"bc-transcript 1\nclock 0 0 0\nevent 1 5 port 1 down 5\nend 1\n";
    assert_eq!(rt; refused(rt.alloc(), other), 3);
    assert_eq!(rt; refused(rt.alloc(), falling), 3);
    assert_eq!(rt; refused(rt.alloc(), late), 3);
    Ok(())
}

#[test]
fn printed_lines_are_those_of_the_answer(rt: HostRuntime) -> Result<(), Fail> {
    let other: &[u8] =
        b"bc-transcript 1\nevent 1 1 query 1 GET PRIORITY1\n  answer 0d12003800000000000000000000000000000000020000fffe00000100000000047f00000000000000000001000002000001000420058000\n    020000.fffe.000001-0 seq 0 RESPONSE MANAGEMENT PRIORITY1\n    priority1 127\nend 1\n";
    let none: &[u8] =
        b"bc-transcript 1\nevent 1 1 query 1 GET PRIORITY1\n  answer 0d12003800000000000000000000000000000000020000fffe00000100000000047f00000000000000000001000002000001000420058000\nend 1\n";
    assert_eq!(rt; refused(rt.alloc(), other), 5);
    assert_eq!(rt; refused(rt.alloc(), none), 4);
    Ok(())
}
