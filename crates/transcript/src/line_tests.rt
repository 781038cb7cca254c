use crate::line::Line;
use crate::line_text::line_text;
use crate::reader::read_line;
use bc_history::Input;
use ptp_profile::RoleOrder;
use std::alloc::Global;
use std::test::Fail;

/// Whether a text is read, and printed again as it was.
fn is_read(alloc: Global, text: &[u8]) -> Result<bool, Fail> {
    let Some(line) = read_line(alloc, text).ok().ok_or("memory")? else {
        return Ok(false);
    };
    let printed = line_text(alloc, &line).ok().ok_or("memory")?;
    Ok(printed.items() == text)
}

/// Whether a text is no line's.
fn is_refused(alloc: Global, text: &[u8]) -> Result<bool, Fail> {
    Ok(read_line(alloc, text).ok().ok_or("memory")?.is_none())
}

#[test]
fn events_of_ports(rt: HostRuntime) -> Result<(), Fail> {
    for text in [
        b"event 1 5 port 1 frame 5 0bfe seen 3 -7 -65536".as_slice(),
        b"event 2 9 port 2 timer 9 qualification seen 0 9 0",
        b"event 3 9 port 3 down 8",
        b"event 4 10 port 65535 up 18446744073709551615",
        b"event 5 11 port 1 report 11 4 jump -5 131072 superseded 6 7",
        b"event 5 11 port 1 report 11 4294967295 unlocked none",
        b"event 5 11 port 1 report 11 4 locked -9223372036854775808 spent 131071",
    ] {
        assert_eq!(rt; is_read(rt.alloc(), text)?, true);
    }
    Ok(())
}

#[test]
fn events_of_clocks_and_queries(rt: HostRuntime) -> Result<(), Fail> {
    for text in [
        b"event 6 12 clock 255 turn 12".as_slice(),
        b"event 7 13 clock 2 sampled 13 4 0 theirs 1 20 0 own 2 -30 -9 locked -77 changed 8",
        b"event 8 14 query 14 GET PRIORITY1",
        b"event 8 14 query 14 frame frame timer ~!",
    ] {
        assert_eq!(rt; is_read(rt.alloc(), text)?, true);
    }
    Ok(())
}

#[test]
fn effects(rt: HostRuntime) -> Result<(), Fail> {
    for text in [
        b"  fate timerange".as_slice(),
        b"  state 1 UNCALIBRATED SLAVE",
        b"  parent 001122.fffe.334455-1",
        b"  order 2 1 129",
        b"  measure 1 0 -170141183460469231731687303715884105728 65536 12",
        b"  send 2 ab00",
        b"  told 4 0 missed 2",
        b"  told none missed 0",
        b"  asked unknown",
        b"  answer 0d12003800000000000000000000000000000000020000fffe00000100000000047f00000000000000000001000002000001000420058000",
        b"    priority1 128",
        b"    ",
    ] {
        assert_eq!(rt; is_read(rt.alloc(), text)?, true);
    }
    Ok(())
}

#[test]
fn logs_and_ends(rt: HostRuntime) -> Result<(), Fail> {
    for text in [
        b"bc-transcript 1".as_slice(),
        b"clock 0 5 -2",
        b"clock 0 5 140737488355327",
        b"log 0 1 order 1 1",
        b"log 0 2 change 1 1 11 -5 131072",
        b"end 0",
    ] {
        assert_eq!(rt; is_read(rt.alloc(), text)?, true);
    }
    Ok(())
}

#[test]
fn numbers_with_another_spelling_are_refused(rt: HostRuntime) -> Result<(), Fail> {
    for text in [
        b"end 01".as_slice(),
        b"end +1",
        b"end -1",
        b"end ",
        b"end 1a",
        b"clock 0 -0 1",
        b"clock 0 +1 1",
        b"clock 0 -01 1",
        b"clock 0 - 1",
        b"event 1 1 clock 00 turn 1",
    ] {
        assert_eq!(rt; is_refused(rt.alloc(), text)?, true);
    }
    Ok(())
}

#[test]
fn numbers_beyond_their_types_are_refused(rt: HostRuntime) -> Result<(), Fail> {
    for text in [
        b"end 18446744073709551616".as_slice(),
        b"event 1 1 clock 256 turn 1",
        b"event 1 1 port 65536 up 1",
        b"log 0 1 order 4294967296 1",
        b"clock 0 9223372036854775808 1",
        b"clock 0 -9223372036854775809 1",
        b"clock 0 1 140737488355328",
        b"  measure 1 0 170141183460469231731687303715884105728 1 1",
        b"  measure 1 0 1 -170141183460469231731687303715884105729 1",
    ] {
        assert_eq!(rt; is_refused(rt.alloc(), text)?, true);
    }
    Ok(())
}

#[test]
fn words_with_other_spaces_are_refused(rt: HostRuntime) -> Result<(), Fail> {
    for text in [
        b"".as_slice(),
        b"end  1",
        b"end 1 ",
        b" end 1",
        b"end 1\r",
        b"end\t1",
        b"   fate own",
        b"event 8 14 query 14 GET  X",
        b"event 8 14 query 14 GET ",
        b"event 8 14 query 14 ",
        b"event 8 14 query 14 GET\tX",
        b"    a\nb",
    ] {
        assert_eq!(rt; is_refused(rt.alloc(), text)?, true);
    }
    Ok(())
}

#[test]
fn other_hex_is_refused(rt: HostRuntime) -> Result<(), Fail> {
    for text in [
        b"  send 2 AB".as_slice(),
        b"  send 2 abc",
        b"  send 2 ",
        b"  send 2",
        b"  send 2 0x",
        b"event 1 5 port 1 frame 5  seen 3 7 7",
        b"  answer 0d0e",
        b"  parent 001122.FFFE.334455-1",
        b"  parent 001122:fffe.334455-1",
        b"  parent 001122.fffe.334455-01",
    ] {
        assert_eq!(rt; is_refused(rt.alloc(), text)?, true);
    }
    Ok(())
}

#[test]
fn other_words_are_refused(rt: HostRuntime) -> Result<(), Fail> {
    for text in [
        b"bc-transcript 2".as_slice(),
        b"bc-transcript",
        b"  fate lost",
        b"  state 1 SLAVE",
        b"  state 1 SLAVE MASTER 1",
        b"  told none missed",
        b"  told none lost 0",
        b"event 3 9 port 3 down 8 seen 1 1 1",
        b"event 3 9 port 3 frame 8 00",
        b"event 3 9 link 3 down 8",
        b"log 0 1 order 1",
        b"end 1 1",
    ] {
        assert_eq!(rt; is_refused(rt.alloc(), text)?, true);
    }
    Ok(())
}

#[test]
fn a_line_has_the_values_that_it_shows(rt: HostRuntime) -> Result<(), Fail> {
    let line = read_line(rt.alloc(), b"event 4 10 port 3 up 9")
        .ok()
        .ok_or("memory")?;
    let is_up = matches!(
        line,
        Some(Line::Event {
            number: 4,
            moment: 10,
            input: Input::Up { port: 3, tick: 9 },
            seen: None,
        })
    );
    assert_eq!(rt; is_up, true);
    let line = read_line(rt.alloc(), b"  order 2 1 129")
        .ok()
        .ok_or("memory")?;
    let is_order = matches!(
        line,
        Some(Line::Order(RoleOrder {
            clock: 2,
            gener: 1,
            ctrl: 129,
        }))
    );
    assert_eq!(rt; is_order, true);
    Ok(())
}

#[test]
fn a_clock_has_its_drift_scaled(rt: HostRuntime) -> Result<(), Fail> {
    let line = read_line(rt.alloc(), b"clock 0 5 -2").ok().ok_or("memory")?;
    let is_clock = matches!(
        line,
        Some(Line::Clock {
            clock: 0,
            time: 5,
            drift: -131072,
        })
    );
    assert_eq!(rt; is_clock, true);
    Ok(())
}
