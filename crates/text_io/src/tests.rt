use crate::*;
use std::alloc::Global;
use std::test::Fail;

fn octets(alloc: Global, count: u8) -> Result<Vec<u8>, Fail> {
    let mut octets = Vec::new(alloc);
    for octet in 1..=count {
        octets.push(octet)?;
    }
    Ok(octets)
}

#[test]
fn reads_give_what_is_left(rt: HostRuntime) -> Result<(), Fail> {
    let failing = vec![in rt.alloc(); 2u64]?;
    let mut source = MemSource::new(octets(rt.alloc(), 5)?)
        .with_most(3)
        .with_failing(failing);
    let mut buffer = [0; 4];
    for (given, filled) in [
        (Ok(3), [1, 2, 3, 0]),
        (Err(Failed), [1, 2, 3, 0]),
        (Ok(2), [4, 5, 3, 0]),
        (Ok(0), [4, 5, 3, 0]),
    ] {
        assert_eq!(rt; source.read(&mut buffer), given);
        assert_eq!(rt; buffer, filled);
    }
    Ok(())
}

#[test]
fn a_sure_source_gives_all(rt: HostRuntime) -> Result<(), Fail> {
    let mut source = SureSource::new(octets(rt.alloc(), 3)?).with_most(2);
    let mut buffer = [0; 4];
    for (given, filled) in [(2, [1, 2, 0, 0]), (1, [3, 2, 0, 0]), (0, [3, 2, 0, 0])] {
        assert_eq!(rt; source.read(&mut buffer), Ok(given));
        assert_eq!(rt; buffer, filled);
    }
    Ok(())
}

#[test]
fn writes_append(rt: HostRuntime) -> Result<(), Fail> {
    let failing = vec![in rt.alloc(); 2u64]?;
    let mut sink = MemSink::new(rt.alloc()).with_most(2).with_failing(failing);
    for (taken, written) in [
        (Ok(2), b"ab".as_slice()),
        (Err(Failed), b"ab".as_slice()),
        (Ok(2), b"abab".as_slice()),
    ] {
        assert_eq!(rt; sink.write(b"abc"), taken);
        assert_eq!(rt; sink.octets(), written);
    }
    assert_eq!(rt; sink.write(b""), Ok(0));
    Ok(())
}

#[test]
fn a_sure_sink_takes_all(rt: HostRuntime) {
    let mut sink = SureSink::new();
    assert_eq!(rt; sink.write(b"abc"), Ok(3));
    let mut sink = sink.with_most(2);
    assert_eq!(rt; sink.write(b"abc"), Ok(2));
}

#[test]
fn adapters_count_errors(rt: HostRuntime) -> Result<(), Fail> {
    let mut source = InAdapter::new([7u8, 8].as_slice());
    let mut buffer = [0; 3];
    assert_eq!(rt; source.read(&mut buffer), Ok(2));
    assert_eq!(rt; buffer, [7, 8, 0]);
    let mut sink = OutAdapter::new(Vec::new(rt.alloc()));
    assert_eq!(rt; sink.write(b"ab"), Ok(2));
    Ok(())
}

#[test]
fn reasons_are_words(rt: HostRuntime) -> Result<(), Fail> {
    for (reason, word) in [
        (Reason::Section, "section"),
        (Reason::Order, "order"),
        (Reason::UnknownOption, "option"),
        (Reason::Repeated, "repeated"),
        (Reason::Value, "value"),
        (Reason::Limit, "limit"),
        (Reason::Jbod, "jbod"),
    ] {
        let printed = format!(in rt.alloc(); "{reason}")?;
        assert_eq!(rt; printed.as_str(), word);
    }
    Ok(())
}

#[test]
fn lines_end_with_newlines(rt: HostRuntime) -> Result<(), Fail> {
    let mut given = 0;
    for line in lines_in(b"a\r\n\n\r\r\nb\r") {
        let wanted: [&[u8]; 4] = [b"a", b"", b"\r", b"b\r"];
        assert_eq!(rt; given < 4, true);
        if given < 4 {
            assert_eq!(rt; line, wanted[given]);
            given += 1;
        }
    }
    assert_eq!(rt; given, 4);
    Ok(())
}

#[test]
fn words_are_parted_by_blanks(rt: HostRuntime) -> Result<(), Fail> {
    let mut words = words_in(b" \t[port  2]\t");
    assert_eq!(rt; words.next(), Some(b"[port".as_slice()));
    assert_eq!(rt; words.next(), Some(b"2]".as_slice()));
    assert_eq!(rt; words.next(), None);
    Ok(())
}

#[test]
fn octets_that_show(rt: HostRuntime) {
    for (line, printable) in [
        (b"\t ~".as_slice(), true),
        (b"", true),
        (b"a\r", false),
        (b"\x7f", false),
        (b"\x1f", false),
        (b"\xc3\xa4", false),
    ] {
        assert_eq!(rt; is_printable(line), printable);
    }
}

#[test]
fn numbers(rt: HostRuntime) {
    for (word, value) in [
        (b"0".as_slice(), Some(0)),
        (b"007", Some(7)),
        (b"99999999999999999999", Some(99_999_999_999_999_999_999)),
        (b"00000000000000000001", Some(1)),
        (b"000000000000000000001", None),
        (b"", None),
        (b"+1", None),
        (b"-1", None),
        (b"1a", None),
    ] {
        assert_eq!(rt; number(word), value);
    }
}

#[test]
fn signed_numbers(rt: HostRuntime) {
    for (word, value) in [
        (b"-0".as_slice(), Some(0)),
        (b"-07", Some(-7)),
        (b"12", Some(12)),
        (b"-", None),
        (b"--1", None),
        (b"-000000000000000000001", None),
    ] {
        assert_eq!(rt; signed(word), value);
    }
}

#[test]
fn hex_numbers(rt: HostRuntime) {
    for (word, value) in [
        (b"0xFf".as_slice(), Some(255)),
        (b"0x0", Some(0)),
        (b"0x", None),
        (b"0XFF", None),
        (b"0x0ff", None),
        (b"ff", None),
    ] {
        assert_eq!(rt; hex_number(word, 2), value);
    }
}

#[test]
fn seconds_are_ns(rt: HostRuntime) {
    for (word, value) in [
        (b"20".as_slice(), Some(20_000_000_000)),
        (b"0.5", Some(500_000_000)),
        (b"0.00002", Some(20_000)),
        (b"01.000000001", Some(1_000_000_001)),
        (b"1.", None),
        (b".5", None),
        (b"1.0000000001", None),
        (b"1.2.3", None),
        (b"-1.0", None),
    ] {
        assert_eq!(rt; seconds(word), value);
    }
}

#[test]
fn identities(rt: HostRuntime) {
    for (word, value) in [
        (
            b"020000.fffe.000001".as_slice(),
            Some(0x0200_00ff_fe00_0001),
        ),
        (b"ABCDEF.0123.456789", Some(0xabcd_ef01_2345_6789)),
        (b"020000.fffe.00001", None),
        (b"020000.fffe.0000001", None),
        (b"020000fffe.0000001", None),
        (b"02000g.fffe.000001", None),
    ] {
        assert_eq!(rt; identity(word), value);
    }
}
