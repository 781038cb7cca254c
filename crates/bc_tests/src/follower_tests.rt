//! Worked examples of followers and of schedules. The figures were worked out by hand from the frames.
use crate::call::{replayed, transcript};
use bc_top::End;
use std::alloc::Global;
use std::test::Fail;
use text_io::{lines_in, words_in};

/// What a master tells port 1 that is 50,000 ns ahead and 1,000 ns away: four Announces, four Syncs, and
/// the answer to the first Delay_Req.
const RECORDS: &str = "[records]
1000000000 1 0b12004000000008000000000000000000000000000a00fffe000001000100000501000000000000000000000025008006214e5d80000a00fffe000001000020
3000000000 1 0b12004000000008000000000000000000000000000a00fffe000001000100010501000000000000000000000025008006214e5d80000a00fffe000001000020
3500000000 1 0012002c00000000000000000000000000000000000a00fffe0000010001000000000000000000031dce2468
4100000000 1 0912003600000000000000000000000000000000000a00fffe0000010001000003000000000000040000c738020000fffe0000010001
4500000000 1 0012002c00000000000000000000000000000000000a00fffe0000010001000100000000000000041dce2468
5000000000 1 0b12004000000008000000000000000000000000000a00fffe000001000100020501000000000000000000000025008006214e5d80000a00fffe000001000020
5500000000 1 0012002c00000000000000000000000000000000000a00fffe0000010001000200000000000000051dce2468
6500000000 1 0012002c00000000000000000000000000000000000a00fffe0000010001000300000000000000061dce2468
7000000000 1 0b12004000000008000000000000000000000000000a00fffe000001000100030501000000000000000000000025008006214e5d80000a00fffe000001000020
";

/// An Announce of a better master, of the sequences 0 and 1.
const BETTER: [&str; 2] = [
    "0b12004000000008000000000000000000000000000b00fffe000002000100000501000000000000000000000025006406214e5d80000b00fffe000002000020",
    "0b12004000000008000000000000000000000000000b00fffe000002000100010501000000000000000000000025006406214e5d80000b00fffe000002000020",
];

/// A scenario of two ports on clocks of their own: these options, and more records and a schedule.
pub fn two_clocks(alloc: Global, options: &str, more: &str) -> Result<String, Fail> {
    Ok(format!(in alloc;
        "[global]\nboundary_clock_jbod 1\n{options}[clock 0]\n[clock 1]\n[port 1]\n[port 2 clock 1]\n{RECORDS}{more}"
    )?)
}

/// Whether a line tells a state, an order, an entry of a log, or the end.
fn tells_roles(line: &[u8]) -> bool {
    line.starts_with(b"  state")
        || line.starts_with(b"  order")
        || line.starts_with(b"log")
        || line.starts_with(b"end")
}

/// Whether a line tells what a follower did: its sample, or whom it was told to copy.
fn tells_follower(line: &[u8]) -> bool {
    match words_in(line).nth(5) {
        Some(word) => word == b"sampled".as_slice(),
        None => line.starts_with(b"  told") && !line.starts_with(b"  told none missed 0"),
    }
}

/// Whether a line tells of a report.
fn tells_report(line: &[u8]) -> bool {
    match words_in(line).nth(5) {
        Some(word) => word == b"report".as_slice(),
        None => false,
    }
}

/// The lines of a transcript on states, orders, logs and the end.
fn roles(alloc: Global, text: &str) -> Result<Vec<u8>, Fail> {
    let out = transcript(alloc, text)?;
    let mut kept = Vec::new(alloc);
    for line in lines_in(&out) {
        if tells_roles(line) {
            kept.extend_from_slice(line)?;
            kept.push(b'\n')?;
        }
    }
    Ok(kept)
}

/// The lines of a transcript on followers, reports, logs and the end.
fn steering(alloc: Global, text: &str) -> Result<Vec<u8>, Fail> {
    let out = transcript(alloc, text)?;
    let mut kept = Vec::new(alloc);
    for line in lines_in(&out) {
        if tells_follower(line)
            || tells_report(line)
            || line.starts_with(b"log")
            || line.starts_with(b"end")
        {
            kept.extend_from_slice(line)?;
            kept.push(b'\n')?;
        }
    }
    Ok(kept)
}

// Port 1 steps its clock and locks; then the follower of clock 1 is told to copy clock 0, at 7 s, and
// steps its own clock at 8 s.
#[test]
fn a_follower_copies_the_slave_ports_clock(rt: HostRuntime) -> Result<(), Fail> {
    let text = two_clocks(rt.alloc(), "duration 8\n", "")?;
    let due = b"  state 1 LISTENING UNCALIBRATED
  order 0 1 1
  state 2 LISTENING MASTER
  state 1 UNCALIBRATED SLAVE
  order 1 2 128
log 0 1 order 1 1
log 0 2 change 1 1 5500000000 50000 0
log 0 3 change 1 1 6500000000 0 0
log 1 1 order 2 128
log 1 2 change 2 128 8000000000 50000 0
end 39
";
    assert_eq!(rt; roles(rt.alloc(), &text)?.as_slice(), due.as_slice());
    let due = b"event 15 4500000000 port 1 report 4500000000 1 unlocked none
event 21 5500000000 port 1 report 5500000000 1 jump 50000 0 changed 2
event 27 6500000000 port 1 report 6500000000 1 locked 0 changed 3
  told 2 0 missed 0
event 33 7000000000 clock 1 sampled 7000000000 2 0 theirs 3 7000050000 0 own 1 7000000000 0 unlocked none
  told 2 0 missed 0
event 39 8000000000 clock 1 sampled 8000000000 2 0 theirs 3 8000050000 0 own 1 8000000000 0 jump 50000 0 changed 2
log 0 1 order 1 1
log 0 2 change 1 1 5500000000 50000 0
log 0 3 change 1 1 6500000000 0 0
log 1 1 order 2 128
log 1 2 change 2 128 8000000000 50000 0
end 39
";
    assert_eq!(rt; steering(rt.alloc(), &text)?.as_slice(), due.as_slice());
    Ok(())
}

// With places for two entries the order and the step fill the log of clock 0: port 1 never locks, so
// clock 1 is never told to copy it.
#[test]
fn a_full_log_leaves_the_others_alone(rt: HostRuntime) -> Result<(), Fail> {
    let text = two_clocks(rt.alloc(), "duration 8\nseat_rows 2\n", "")?;
    let due = b"event 15 4500000000 port 1 report 4500000000 1 unlocked none
event 21 5500000000 port 1 report 5500000000 1 jump 50000 0 changed 2
event 27 6500000000 port 1 report 6500000000 1 locked 0 spent 2
log 0 1 order 1 1
log 0 2 change 1 1 5500000000 50000 0
end 37
";
    assert_eq!(rt; steering(rt.alloc(), &text)?.as_slice(), due.as_slice());
    Ok(())
}

// Generation 2 begins at 6.5 s. A subscription of 1 s that lasts for 3 s tells nothing of it; renewed
// from 7 s on, which is a turn's very tick, it tells it at 7 s; renewed from a nanosecond later on, at
// 8 s.
#[test]
fn a_subscription_runs_out_and_is_renewed(rt: HostRuntime) -> Result<(), Fail> {
    for (renew, due) in [
        ("10", "log 1 1 order 2 128\nend 37\n"),
        (
            "6",
            "log 1 1 order 2 128\nlog 1 2 change 2 128 8000000000 50000 0\nend 39\n",
        ),
        ("6.000000001", "log 1 1 order 2 128\nend 38\n"),
    ] {
        let options = format!(in rt.alloc();
            "duration 8\nsubscribe_duration 3\nsubscribe_renew {renew}\n"
        )?;
        let text = two_clocks(rt.alloc(), &options, "")?;
        let out = roles(rt.alloc(), &text)?;
        assert!(rt; out.ends_with(due.as_bytes()));
    }
    Ok(())
}

// Behind port 1's measure of 5.5 s port 2 hears a better master for the second time: clock 0 is revoked
// and clock 1 given to port 2 before port 1 comes to its exchange.
#[test]
fn a_role_changes_while_a_servo_computes(rt: HostRuntime) -> Result<(), Fail> {
    let [first, second] = BETTER;
    let more = format!(in rt.alloc();
        "4000000000 2 {first}\n5500000000 2 {second}\n[schedule]\ndefault 21\nport 2 1\n"
    )?;
    let text = two_clocks(rt.alloc(), "duration 5.9\n", &more)?;
    let due = b"event 16 4500000000 port 1 report 4500000000 1 unlocked none
event 23 5500000000 port 1 report 5500000000 1 jump 50000 0 superseded 2 2
log 0 1 order 1 1
log 0 2 order 2 0
log 1 1 order 2 2
end 23
";
    assert_eq!(rt; steering(rt.alloc(), &text)?.as_slice(), due.as_slice());
    Ok(())
}

// The follower of clock 1 is told at 8 s to copy clock 0, and reads it. Then port 2 hears a better
// master for the second time, which revokes both clocks and gives clock 1 to port 2. The follower goes
// on: it reads its own clock, the follower of clock 0 has its turn, and the exchange is refused.
#[test]
fn parts_of_a_followers_job_stand_far_apart(rt: HostRuntime) -> Result<(), Fail> {
    let [first, second] = BETTER;
    let more = format!(in rt.alloc();
        "7500000000 2 {first}\n8000000000 2 {second}\n[schedule]\ndefault 38\nclock 1 2\nport 2 1\nclock 1 1\nclock 0 1\nclock 1 1\n"
    )?;
    let text = two_clocks(rt.alloc(), "duration 8\n", &more)?;
    let due = b"event 15 4500000000 port 1 report 4500000000 1 unlocked none
event 21 5500000000 port 1 report 5500000000 1 jump 50000 0 changed 2
event 27 6500000000 port 1 report 6500000000 1 locked 0 changed 3
  told 2 0 missed 0
event 33 7000000000 clock 1 sampled 7000000000 2 0 theirs 3 7000050000 0 own 1 7000000000 0 unlocked none
  told 2 0 missed 0
event 38 8000000000 clock 1 sampled 8000000000 2 0 theirs 3 8000050000 0 own 3 8000000000 0 jump 50000 0 superseded 3 3
log 0 1 order 1 1
log 0 2 change 1 1 5500000000 50000 0
log 0 3 change 1 1 6500000000 0 0
log 0 4 order 3 0
log 1 1 order 2 128
log 1 2 order 3 0
log 1 3 order 3 2
end 38
";
    assert_eq!(rt; steering(rt.alloc(), &text)?.as_slice(), due.as_slice());
    Ok(())
}

/// An Announce, an Announce, a link that goes down, and one that comes up: two generations.
const EPISODE: [&str; 4] = [
    "0b12004000000008000000000000000000000000000a00fffe000001000100000501000000000000000000000025008006214e5d80000a00fffe000001000020",
    "0b12004000000008000000000000000000000000000a00fffe000001000100000501000000000000000000000025008006214e5d80000a00fffe000001000020",
    "down",
    "up",
];

/// The scenario of a port that has so many of these records, one each millisecond, between the first
/// turn of a follower and the second: every two begin a generation.
fn with_generations(alloc: Global, records: u32) -> Result<String, Fail> {
    let mut text = String::from_str(
        alloc,
        "[global]\nboundary_clock_jbod 1\nduration 1\nfollow_interval 0.5\nlogAnnounceInterval -7\nlogSyncInterval 10\nannounceReceiptTimeout 255\n[clock 0]\n[clock 1]\n[port 1]\n[records]\n",
    )?;
    for i in 0..records {
        let tick = 510 + u64::from(i);
        let what = EPISODE[(i % 4) as usize];
        let line = format!(in alloc; "{tick}000000 1 {what}\n")?;
        text.push_str(&line)?;
    }
    Ok(text)
}

// A ring has places for 64 notices: of 65 one is missed.
#[test]
fn the_oldest_of_65_notices_is_missed(rt: HostRuntime) -> Result<(), Fail> {
    for (records, missed) in [
        (128u32, "  told none missed 0\n"),
        (130, "  told none missed 1\n"),
    ] {
        let text = with_generations(rt.alloc(), records)?;
        let out = transcript(rt.alloc(), &text)?;
        let mut told = Vec::new(rt.alloc());
        for line in lines_in(&out) {
            if line.starts_with(b"  told") {
                told.extend_from_slice(line)?;
                told.push(b'\n')?;
            }
        }
        let none = "  told none missed 0\n";
        let due = format!(in rt.alloc(); "{none}{none}{missed}{missed}")?;
        assert_eq!(rt; told.as_slice(), due.as_bytes());
    }
    Ok(())
}

// As many clocks and ports as there may be: fifteen followers copy the clock of port 1.
#[test]
fn fifteen_followers_copy_one_clock(rt: HostRuntime) -> Result<(), Fail> {
    let mut text = String::from_str(rt.alloc(), "[global]\nboundary_clock_jbod 1\nduration 8\n")?;
    for c in 0..16 {
        text.push_str(&format!(in rt.alloc(); "[clock {c}]\n")?)?;
    }
    for i in 0..32u32 {
        let number = i + 1;
        let clock = i % 16;
        text.push_str(&format!(in rt.alloc(); "[port {number} clock {clock}]\n")?)?;
    }
    text.push_str(RECORDS)?;
    let out = transcript(rt.alloc(), &text)?;
    let mut due = String::from_str(
        rt.alloc(),
        "clock 0 0 0\nlog 0 1 order 1 1\nlog 0 2 change 1 1 5500000000 50000 0\nlog 0 3 change 1 1 6500000000 0 0\n",
    )?;
    for c in 1..16 {
        let copied = format!(in rt.alloc();
            "clock {c} 0 0\nlog {c} 1 order 2 128\nlog {c} 2 change 2 128 8000000000 50000 0\n"
        )?;
        due.push_str(&copied)?;
    }
    due.push_str("end 299\n")?;
    assert!(rt; out.ends_with(due.as_bytes()));
    Ok(())
}

// A turn of the schedule that names one who has no step, or where none has one: nothing is written.
#[test]
fn a_turn_without_a_step_ends_the_replay(rt: HostRuntime) -> Result<(), Fail> {
    for (schedule, turn) in [
        ("port 1 2\n", 2),
        ("default 2\ndefault 1\n", 3),
        ("port 2 1\nqueries 1\n", 2),
    ] {
        let text = format!(in rt.alloc();
            "[global]\nduration 6\n[port 1]\n[port 2]\n[records]\n[schedule]\n{schedule}"
        )?;
        let (end, out) = replayed(rt.alloc(), &text)?;
        assert_eq!(rt; end, End::NotDue { turn });
        assert_eq!(rt; out.len(), 0);
    }
    Ok(())
}
