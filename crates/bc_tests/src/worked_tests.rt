//! Worked examples of whole runs, with figures from outside: what ports do, which frames they send, and
//! what drives each clock.
use crate::call::{replayed, transcript};
use bc_top::End;
use std::alloc::Global;
use std::test::Fail;
use text_io::{lines_in, words_in};

const FIRST: &str = "000a00fffe000001";

const SECOND: &str = "000b00fffe000002";

const OWN: &str = "020000fffe000001";

/// An Announce of port 1 of a clock: class 6, no alternateMaster.
fn announce(
    alloc: Global,
    sender: &str,
    seq: u16,
    priority1: u8,
    grandmaster: &str,
    steps: u16,
) -> Result<String, Fail> {
    Ok(format!(in alloc;
        "0b12004000000008000000000000000000000000{sender}0001{seq:04x}050100000000000000000000002500{priority1:02x}06214e5d80{grandmaster}{steps:04x}20"
    )?)
}

/// A record of a frame.
fn heard(alloc: Global, text: &mut String, tick: u64, port: u16, frame: &str) -> Result<(), Fail> {
    text.push_str(format!(in alloc; "{tick} {port} {frame}\n")?.as_str())?;
    Ok(())
}

/// Whether the line begins so.
fn begins(line: &[u8], starts: &[&str]) -> bool {
    for start in starts {
        if line.starts_with(start.as_bytes()) {
            return true;
        }
    }
    false
}

/// The lines of a transcript that begin so, those of an event's effects behind its moment.
fn told(alloc: Global, text: &str, starts: &[&str]) -> Result<Vec<u8>, Fail> {
    let out = transcript(alloc, text)?;
    let mut moment = Vec::new(alloc);
    let mut kept = Vec::new(alloc);
    for line in lines_in(&out) {
        if line.starts_with(b"event ") {
            let mut words = words_in(line);
            let _ = words.next();
            let _ = words.next();
            if let Some(word) = words.next() {
                moment.clear();
                moment.extend_from_slice(word)?;
            }
        }
        if begins(line, starts) {
            if line.starts_with(b" ") {
                kept.extend_from_slice(&moment)?;
            }
            kept.extend_from_slice(line)?;
            kept.push(b'\n')?;
        }
    }
    Ok(kept)
}

/// One port hears two Announces of a better clock.
fn better_master(alloc: Global, head: &str) -> Result<String, Fail> {
    let mut text = String::from_str(alloc, head)?;
    let first = announce(alloc, FIRST, 0, 100, FIRST, 0)?;
    let second = announce(alloc, FIRST, 1, 100, FIRST, 0)?;
    heard(alloc, &mut text, 1_000_000_000, 1, &first)?;
    heard(alloc, &mut text, 3_000_000_000, 1, &second)?;
    Ok(text)
}

#[test]
fn a_clock_of_class_127_is_passive(rt: HostRuntime) -> Result<(), Fail> {
    let text = better_master(
        rt.alloc(),
        "[global]\nduration 9\nclockClass 127\n[port 1]\n[records]\n",
    )?;
    let due = b"bc-transcript 1
event 1 1000000000 port 1 frame 1000000000 0b12004000000008000000000000000000000000000a00fffe000001000100000501000000000000000000000025006406214e5d80000a00fffe000001000020 seen 0 1000000000 0
  fate kept
event 2 3000000000 port 1 frame 3000000000 0b12004000000008000000000000000000000000000a00fffe000001000100010501000000000000000000000025006406214e5d80000a00fffe000001000020 seen 0 3000000000 0
  fate kept
  state 1 LISTENING PASSIVE
event 3 9000000000 port 1 timer 9000000000 announce_receipt seen 0 9000000000 0
  state 1 PASSIVE MASTER
clock 0 0 0
end 3
";
    assert_eq!(rt; transcript(rt.alloc(), &text)?.as_slice(), due.as_slice());
    Ok(())
}

#[test]
fn a_port_follows_a_better_master(rt: HostRuntime) -> Result<(), Fail> {
    let text = better_master(rt.alloc(), "[global]\nduration 4\n[port 1]\n[records]\n")?;
    let due = b"bc-transcript 1
event 1 1000000000 port 1 frame 1000000000 0b12004000000008000000000000000000000000000a00fffe000001000100000501000000000000000000000025006406214e5d80000a00fffe000001000020 seen 0 1000000000 0
  fate kept
event 2 3000000000 port 1 frame 3000000000 0b12004000000008000000000000000000000000000a00fffe000001000100010501000000000000000000000025006406214e5d80000a00fffe000001000020 seen 0 3000000000 0
  fate kept
  state 1 LISTENING UNCALIBRATED
  parent 000a00.fffe.000001-1
  order 0 1 1
event 3 4000000000 port 1 timer 4000000000 delay_request seen 1 4000000000 0
  send 1 0112002c00000000000000000000000000000000020000fffe00000100010000017f00000000000000000000
clock 0 0 0
log 0 1 order 1 1
end 3
";
    assert_eq!(rt; transcript(rt.alloc(), &text)?.as_slice(), due.as_slice());
    Ok(())
}

#[test]
fn a_master_sends(rt: HostRuntime) -> Result<(), Fail> {
    let due = b"bc-transcript 1
event 1 6000000000 port 1 timer 6000000000 announce_receipt seen 0 6000000000 0
  state 1 LISTENING MASTER
event 2 7000000000 port 1 timer 7000000000 sync_send seen 0 7000000000 0
  send 1 0012002c00000200000000000000000000000000020000fffe00000100010000000000000000000000000000
  send 1 0812002c00000000000000000000000000000000020000fffe00000100010000020000000000000700000000
event 3 8000000000 port 1 timer 8000000000 announce_send seen 0 8000000000 0
  send 1 0b12004000000008000000000000000000000000020000fffe0000010001000005010000000000000000000000250080f8feffff80020000fffe0000010000a0
event 4 8000000000 port 1 timer 8000000000 sync_send seen 0 8000000000 0
  send 1 0012002c00000200000000000000000000000000020000fffe00000100010001000000000000000000000000
  send 1 0812002c00000000000000000000000000000000020000fffe00000100010001020000000000000800000000
clock 0 0 0
end 4
";
    let out = transcript(rt.alloc(), "[global]\nduration 8\n[port 1]\n")?;
    assert_eq!(rt; out.as_slice(), due.as_slice());
    let fallen = transcript(
        rt.alloc(),
        "[global]\nduration 8\n[port 1]\n[records]\n6500000000 1 down\n",
    )?;
    assert_eq!(rt;
        fallen.as_slice(),
        b"bc-transcript 1
event 1 6000000000 port 1 timer 6000000000 announce_receipt seen 0 6000000000 0
  state 1 LISTENING MASTER
event 2 6500000000 port 1 down 6500000000
  state 1 MASTER FAULTY
clock 0 0 0
end 2
"
            .as_slice()
    );
    Ok(())
}

#[test]
fn each_port_counts_its_own_frames(rt: HostRuntime) -> Result<(), Fail> {
    let out = told(
        rt.alloc(),
        "[global]\nduration 7\n[port 1]\n[port 2]\n",
        &["  send"],
    )?;
    assert_eq!(rt;
        out.as_slice(),
        b"7000000000  send 1 0012002c00000200000000000000000000000000020000fffe00000100010000000000000000000000000000
7000000000  send 1 0812002c00000000000000000000000000000000020000fffe00000100010000020000000000000700000000
7000000000  send 2 0012002c00000200000000000000000000000000020000fffe00000100020000000000000000000000000000
7000000000  send 2 0812002c00000000000000000000000000000000020000fffe00000100020000020000000000000700000000
"
            .as_slice()
    );
    Ok(())
}

/// A Delay_Req is answered by a MASTER alone, with its sequence, its correction and its sender.
#[test]
fn a_master_answers(rt: HostRuntime) -> Result<(), Fail> {
    let out = told(
        rt.alloc(),
        "[global]\nduration 7\nlogSyncInterval 3\n[port 1]\n[records]
1000000000 1 0112002c00000000000000000001000000000000000c00fffe00000500030007017f00000000000000000000
7000000000 1 0112002c00000000000000000001000000000000000c00fffe00000500030007017f00000000000000000000
",
        &["  fate", "  send"],
    )?;
    assert_eq!(rt;
        out.as_slice(),
        b"1000000000  fate ignored
7000000000  fate answered
7000000000  send 1 0912003600000000000000000001000000000000020000fffe00000100010007030000000000000700000000000c00fffe0000050003
"
            .as_slice()
    );
    Ok(())
}

/// One Announce qualifies nobody; the window is of four announce intervals, and open at its beginning.
#[test]
fn two_announces_within_the_window_qualify(rt: HostRuntime) -> Result<(), Fail> {
    let first = announce(rt.alloc(), FIRST, 0, 128, FIRST, 0)?;
    let second = announce(rt.alloc(), FIRST, 1, 128, FIRST, 0)?;
    for (tick, due) in [
        (None, b"6000000000  state 1 LISTENING MASTER\n".as_slice()),
        (
            Some(9_000_000_000u64),
            b"6000000000  state 1 LISTENING MASTER\n".as_slice(),
        ),
        (
            Some(8_999_999_999),
            b"6000000000  state 1 LISTENING MASTER\n8999999999  state 1 MASTER UNCALIBRATED\n".as_slice(),
        ),
    ] {
        let mut text = String::from_str(rt.alloc(), "[global]\nduration 9\n[port 1]\n[records]\n")?;
        heard(rt.alloc(), &mut text, 1_000_000_000, 1, &first)?;
        if let Some(tick) = tick {
            heard(rt.alloc(), &mut text, tick, 1, &second)?;
        }
        assert_eq!(rt; told(rt.alloc(), &text, &["  state"])?.as_slice(), due);
    }
    Ok(())
}

#[test]
fn announces_have_their_fates(rt: HostRuntime) -> Result<(), Fail> {
    let mut text = String::from_str(
        rt.alloc(),
        "[global]\nduration 2\nclockClass 127\n[port 1]\n[records]\n",
    )?;
    let own = announce(rt.alloc(), OWN, 0, 128, FIRST, 0)?;
    let far = announce(rt.alloc(), FIRST, 0, 128, FIRST, 255)?;
    let near = announce(rt.alloc(), FIRST, 0, 128, FIRST, 254)?;
    let alternate =
        "0b12004000000108000000000000000000000000000a00fffe000001000100000501000000000000000000000025008006214e5d80000a00fffe000001000020";
    for frame in [&own, &far, &near] {
        heard(rt.alloc(), &mut text, 1_000_000_000, 1, frame)?;
    }
    heard(rt.alloc(), &mut text, 1_000_000_000, 1, alternate)?;
    // With the clock that was kept these are 16 senders, and one more.
    for n in 0..16u16 {
        let sender = format!(in rt.alloc(); "000d00fffe00{n:04x}")?;
        let frame = announce(rt.alloc(), &sender, 0, 128, FIRST, 0)?;
        heard(rt.alloc(), &mut text, 2_000_000_000, 1, &frame)?;
    }
    let out = told(rt.alloc(), &text, &["  fate"])?;
    let mut due = Vec::from_slice(
        rt.alloc(),
        b"1000000000  fate own\n1000000000  fate far\n1000000000  fate kept\n1000000000  fate alternate\n",
    )?;
    for _ in 0..15u16 {
        due.extend_from_slice(b"2000000000  fate kept\n")?;
    }
    due.extend_from_slice(b"2000000000  fate crowded\n")?;
    assert_eq!(rt; out.as_slice(), due.as_slice());
    Ok(())
}

/// An Announce that is cut, too long, of another version, domain or type, or with a time that is none.
#[test]
fn frames_are_dropped(rt: HostRuntime) -> Result<(), Fail> {
    for (frame, fate) in [
        (
            "0b12004000000008000000000000000000000000000a00fffe000001000100000501000000000000000000000025008006214e5d80000a00fffe0000010000",
            "length",
        ),
        (
            "0b12003f00000008000000000000000000000000000a00fffe000001000100000501000000000000000000000025008006214e5d80000a00fffe000001000020",
            "length",
        ),
        (
            "0b12004000000008000000000000000000000000000a00fffe000001000100000501000000000000000000000025008006214e5d80000a00fffe0000010000200000000000000000",
            "kept",
        ),
        (
            "0b12004800000008000000000000000000000000000a00fffe000001000100000501000000000000000000000025008006214e5d80000a00fffe0000010000200000000000000000",
            "kept",
        ),
        (
            "0b12004000000008000000000000000000000000000a00fffe0000010001000005010000000000003b9aca000025008006214e5d80000a00fffe000001000020",
            "nanos",
        ),
        (
            "0b12004000000008000000000000000000000000000a00fffe000001000100000501000200000000000000000025008006214e5d80000a00fffe000001000020",
            "timerange",
        ),
        (
            "0b11004000000008000000000000000000000000000a00fffe000001000100000501000000000000000000000025008006214e5d80000a00fffe000001000020",
            "version",
        ),
        (
            "0b12004005000008000000000000000000000000000a00fffe000001000100000501000000000000000000000025008006214e5d80000a00fffe000001000020",
            "domain",
        ),
        (
            "0b12004000000008000000000000000000000000000a00fffe0000010001000005",
            "short",
        ),
        (
            "0c12004000000008000000000000000000000000000a00fffe000001000100000501000000000000000000000025008006214e5d80000a00fffe000001000020",
            "type",
        ),
    ] {
        let mut text = String::from_str(rt.alloc(), "[global]\nduration 2\n[port 1]\n[records]\n")?;
        heard(rt.alloc(), &mut text, 1_000_000_000, 1, frame)?;
        let due = format!(in rt.alloc(); "1000000000  fate {fate}\n")?;
        let out = told(rt.alloc(), &text, &["  fate", "  state"])?;
        assert_eq!(rt; out.as_slice(), due.as_bytes());
    }
    Ok(())
}

/// Port 1 follows a clock one step away from its grandmaster; port 2 hears a worse one, and becomes
/// MASTER after three announce intervals.
fn two_masters(alloc: Global, more: &str) -> Result<String, Fail> {
    let mut text = String::from_str(
        alloc,
        "[global]\nduration 12\n[port 1]\n[port 2]\n[records]\n",
    )?;
    for n in 0..6u16 {
        let frame = announce(alloc, FIRST, n, 128, "000c00fffe000001", 1)?;
        heard(
            alloc,
            &mut text,
            1_000_000_000 + n as u64 * 2_000_000_000,
            1,
            &frame,
        )?;
    }
    for n in 0..2u16 {
        let frame = announce(alloc, SECOND, n, 200, SECOND, 0)?;
        heard(
            alloc,
            &mut text,
            3_200_000_000 + n as u64 * 2_000_000_000,
            2,
            &frame,
        )?;
    }
    text.push_str(more)?;
    Ok(text)
}

#[test]
fn a_worse_master_is_waited_for(rt: HostRuntime) -> Result<(), Fail> {
    let text = two_masters(rt.alloc(), "")?;
    assert_eq!(rt;
        told(rt.alloc(), &text, &["  state"])?.as_slice(),
        b"3000000000  state 1 LISTENING UNCALIBRATED
5200000000  state 2 LISTENING PRE_MASTER
11200000000  state 2 PRE_MASTER MASTER
"
            .as_slice()
    );
    let mut alone = String::from_str(rt.alloc(), "[global]\nduration 4\n[port 1]\n[records]\n")?;
    for n in 0..2u16 {
        let frame = announce(rt.alloc(), SECOND, n, 200, SECOND, 0)?;
        heard(
            rt.alloc(),
            &mut alone,
            1_000_000_000 + n as u64 * 2_000_000_000,
            1,
            &frame,
        )?;
    }
    assert_eq!(rt;
        told(rt.alloc(), &alone, &["  state"])?.as_slice(),
        b"3000000000  state 1 LISTENING PRE_MASTER
3000000000  state 1 PRE_MASTER MASTER
"
            .as_slice()
    );
    Ok(())
}

/// Two ports on two clocks or on one: the second master is better, and then falls silent.
fn changing_roles(alloc: Global, head: &str) -> Result<String, Fail> {
    let mut text = String::from_str(alloc, head)?;
    for n in 0..7u16 {
        let frame = announce(alloc, FIRST, n, 128, FIRST, 0)?;
        heard(
            alloc,
            &mut text,
            1_000_000_000 + n as u64 * 2_000_000_000,
            1,
            &frame,
        )?;
    }
    for (n, tick) in [(0u16, 4_000_000_000u64), (1, 5_500_000_000)] {
        let frame = announce(alloc, SECOND, n, 100, SECOND, 0)?;
        heard(alloc, &mut text, tick, 2, &frame)?;
    }
    Ok(text)
}

#[test]
fn roles_go_back_and_forth(rt: HostRuntime) -> Result<(), Fail> {
    let starts = ["  state", "  parent", "  order", "log"];
    let two = changing_roles(
        rt.alloc(),
        "[global]\nduration 14\nboundary_clock_jbod 1\nfollow_interval 1000\n[clock 0]\n[clock 1]\n[port 1 clock 0]\n[port 2 clock 1]\n[records]\n",
    )?;
    assert_eq!(rt;
        told(rt.alloc(), &two, &starts)?.as_slice(),
        b"3000000000  state 1 LISTENING UNCALIBRATED
3000000000  parent 000a00.fffe.000001-1
3000000000  order 0 1 1
5500000000  state 1 UNCALIBRATED PRE_MASTER
5500000000  state 2 LISTENING UNCALIBRATED
5500000000  parent 000b00.fffe.000002-1
5500000000  order 0 2 0
5500000000  order 1 2 2
9500000000  state 1 PRE_MASTER MASTER
11500000000  state 1 MASTER UNCALIBRATED
11500000000  state 2 UNCALIBRATED MASTER
11500000000  parent 000a00.fffe.000001-1
11500000000  order 1 3 0
11500000000  order 0 3 1
log 0 1 order 1 1
log 0 2 order 2 0
log 0 3 order 3 1
log 1 1 order 2 2
log 1 2 order 3 0
"
            .as_slice()
    );
    let one = changing_roles(
        rt.alloc(),
        "[global]\nduration 14\nboundary_clock_jbod 1\n[port 1]\n[port 2]\n[records]\n",
    )?;
    assert_eq!(rt;
        told(rt.alloc(), &one, &["  order", "log"])?.as_slice(),
        b"3000000000  order 0 1 1
5500000000  order 0 2 0
5500000000  order 0 2 2
11500000000  order 0 3 0
11500000000  order 0 3 1
log 0 1 order 1 1
log 0 2 order 2 0
log 0 3 order 2 2
log 0 4 order 3 0
log 0 5 order 3 1
"
            .as_slice()
    );
    Ok(())
}

/// `down`, `up` and `down` on a port that listens, is passive, follows, waits to be master, or is
/// master. A port that follows loses its edge, and the parent stays.
#[test]
fn links_go_down_and_up(rt: HostRuntime) -> Result<(), Fail> {
    let alloc = rt.alloc();
    let listening =
        "[global]\nduration 4\n[port 1]\n[records]\n500000000 1 up\n1000000000 1 down\n1500000000 1 down\n2000000000 1 up\n3000000000 1 down\n";
    assert_eq!(rt;
        told(alloc, listening, &["  state"])?.as_slice(),
        b"1000000000  state 1 LISTENING FAULTY\n2000000000  state 1 FAULTY LISTENING\n3000000000  state 1 LISTENING FAULTY\n".as_slice()
    );
    let master =
        "[global]\nduration 6.9\n[port 1]\n[records]\n6500000000 1 down\n6600000000 1 up\n6700000000 1 down\n";
    assert_eq!(rt;
        told(alloc, master, &["  state"])?.as_slice(),
        b"6000000000  state 1 LISTENING MASTER\n6500000000  state 1 MASTER FAULTY\n6600000000  state 1 FAULTY LISTENING\n6700000000  state 1 LISTENING FAULTY\n".as_slice()
    );
    let mut passive = better_master(
        alloc,
        "[global]\nduration 7\nclockClass 127\n[port 1]\n[records]\n",
    )?;
    passive.push_str("4000000000 1 down\n5000000000 1 up\n6000000000 1 down\n")?;
    assert_eq!(rt;
        told(alloc, &passive, &["  state"])?.as_slice(),
        b"3000000000  state 1 LISTENING PASSIVE\n4000000000  state 1 PASSIVE FAULTY\n5000000000  state 1 FAULTY LISTENING\n6000000000  state 1 LISTENING FAULTY\n".as_slice()
    );
    let mut following = better_master(alloc, "[global]\nduration 7\n[port 1]\n[records]\n")?;
    following.push_str("3500000000 1 down\n5000000000 1 up\n6000000000 1 down\n")?;
    assert_eq!(rt;
        told(alloc, &following, &["  state", "  parent", "  order"])?.as_slice(),
        b"3000000000  state 1 LISTENING UNCALIBRATED
3000000000  parent 000a00.fffe.000001-1
3000000000  order 0 1 1
3500000000  state 1 UNCALIBRATED FAULTY
3500000000  order 0 2 0
5000000000  state 1 FAULTY LISTENING
6000000000  state 1 LISTENING FAULTY
"
            .as_slice()
    );
    let waiting = two_masters(
        alloc,
        "6000000000 2 down\n7000000000 2 up\n8000000000 2 down\n",
    )?;
    assert_eq!(rt;
        told(alloc, &waiting, &["  state 2"])?.as_slice(),
        b"5200000000  state 2 LISTENING PRE_MASTER\n6000000000  state 2 PRE_MASTER FAULTY\n7000000000  state 2 FAULTY LISTENING\n8000000000  state 2 LISTENING FAULTY\n".as_slice()
    );
    Ok(())
}

/// A clock that drifts by 1,000 ppb, and by one in a hundred either way up to the last tick.
#[test]
fn readings_follow_the_drift(rt: HostRuntime) -> Result<(), Fail> {
    for (drift, tick, value) in [
        (1_000i64, 1_000_000_000u64, 1_000_001_000u64),
        (-10_000_000, 100_000_000_000_000, 99_000_000_000_000),
        (10_000_000, 100_000_000_000_000, 101_000_000_000_000),
        (-1, 1, 0),
    ] {
        let text = format!(in rt.alloc();
            "[global]\nduration 100000\nlogAnnounceInterval 10\nlogSyncInterval 10\nannounceReceiptTimeout 255\n[clock 0]\ndrift {drift}\n[port 1]\n[records]\n{tick} 1 00\n"
        )?;
        let due = format!(in rt.alloc();
            "event 1 {tick} port 1 frame {tick} 00 seen 0 {value} 0\nclock 0 0 {drift}\n"
        )?;
        let out = told(rt.alloc(), &text, &["event", "clock"])?;
        assert_eq!(rt; out.as_slice(), due.as_bytes());
    }
    Ok(())
}

#[test]
fn a_flood_of_own_announces_changes_nothing(rt: HostRuntime) -> Result<(), Fail> {
    let mut text = String::from_str(rt.alloc(), "[global]\nduration 6\n[port 1]\n[records]\n")?;
    let own = announce(rt.alloc(), OWN, 0, 1, OWN, 0)?;
    let mut due = Vec::new(rt.alloc());
    for _ in 0..10_000u16 {
        heard(rt.alloc(), &mut text, 1_000_000_000, 1, &own)?;
        due.extend_from_slice(b"1000000000  fate own\n")?;
    }
    due.extend_from_slice(b"6000000000  state 1 LISTENING MASTER\n")?;
    let out = told(rt.alloc(), &text, &["  fate", "  state"])?;
    assert_eq!(rt; out.as_slice(), due.as_slice());
    Ok(())
}

/// 32 ports that send 128 Syncs a second come to 131,071 events.
#[test]
fn there_are_too_many_events(rt: HostRuntime) -> Result<(), Fail> {
    let mut text = String::from_str(rt.alloc(), "[global]\nduration 100\nlogSyncInterval -7\n")?;
    for port in 1..33u16 {
        text.push_str(format!(in rt.alloc(); "[port {port}]\n")?.as_str())?;
    }
    let (end, out) = replayed(rt.alloc(), &text)?;
    assert_eq!(rt; end, End::Events);
    assert_eq!(rt; out.as_slice(), b"".as_slice());
    Ok(())
}
