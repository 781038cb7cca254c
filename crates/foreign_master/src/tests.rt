ghost use Rattle.std.specs.Prelude.{◌≡◌, ◌<◌, All, IfOk, length};
ghost use Rattle.foreign_master.specs.RecordCalls.{IsHeardBy};

use crate::*;
use ds_compare::Steps;
use ptp_base::{Announcement, ClockId, PortId, Quality, TimeProps};
use std::alloc::Global;
use std::marker::Brand;
use std::sync::ledger::{Blank, Ledger};
use std::test::Fail;

const OWN: u64 = 0x0200_00ff_fe00_0001;

const MASTER: u64 = 0x000a_00ff_fe00_0001;

/// Port 1 of the own clock, which hears all.
const HERE: PortId = PortId {
    clock: ClockId { id: OWN },
    port: 1,
};

/// In ns: four announce intervals of two seconds.
const WINDOW: u64 = 8_000_000_000;

const SECOND: u64 = 1_000_000_000;

/// What a grandmaster says by port 1 of this clock.
fn said(sender: u64, grandmaster: u64, priority1: u8, steps: u16) -> Announcement
    ensures { result.receiver ≡ HERE }
{
    Announcement {
        grandmaster: ClockId { id: grandmaster },
        quality: Quality {
            priority1,
            class: 6,
            accuracy: 0x21,
            variance: 0x4e5d,
            priority2: 128,
        },
        steps,
        sender: PortId {
            clock: ClockId { id: sender },
            port: 1,
        },
        receiver: HERE,
        time: TimeProps {
            utc_offset: 37,
            flags: 8,
            source: 0x20,
        },
        alternate: false,
    }
}

/// Empty records.
fn records(alloc: Global) -> Result<Records, Fail>
    ensures { IfOk result (λ r. r.receiver ≡ HERE) }
{
    match Records::new(alloc, HERE, WINDOW) {
        Ok(records) => Ok(records),
        Err(_) => Err("new".into()),
    }
}

/// Hears an Announce on that port, with a count of its own.
fn hear_counted<L: Ledger>(records: &mut Records, a: Announcement, at: u64, blank: Blank) -> Heard
    requires here { records.old.receiver ≡ HERE }
    requires name { blank.name ≡ L.name }
    requires parts { blank.parts ≡ L.parts }
    requires some { 0 < blank.parts }
    ensures { records.new.receiver ≡ HERE }
{
    let a = Announcement {
        receiver: HERE,
        ..a
    };
    records.hear(a, at, &mut Steps::<L>::start(blank))
}

/// Hears an Announce on that port, where nobody counts.
fn hear(records: &mut Records, a: Announcement, at: u64) -> Heard
    requires { records.old.receiver ≡ HERE }
    ensures { records.new.receiver ≡ HERE }
{
    hear_counted::<Brand>(records, a, at, Blank::new(1))
}

/// The best, with a count of its own.
fn best_counted<L: Ledger>(records: &Records, at: u64, blank: Blank) -> Option<Announcement>
    requires name { blank.name ≡ L.name }
    requires parts { blank.parts ≡ L.parts }
    requires some { 0 < blank.parts }
{
    records.best(at, &mut Steps::<L>::start(blank))
}

/// The best, where nobody counts.
fn best(records: &Records, at: u64) -> Option<Announcement> {
    best_counted::<Brand>(records, at, Blank::new(1))
}

/// Makes these calls, with a count of their own.
fn run_counted<L: Ledger>(
    records: &mut Records,
    calls: &[Call],
    answers: &mut [Answer],
    blank: Blank,
)
    requires heard_by { All (IsHeardBy records.old.receiver) calls.now }
    requires same_length { length answers.old ≡ length calls.now }
    requires name { blank.name ≡ L.name }
    requires parts { blank.parts ≡ L.parts }
    requires some { 0 < blank.parts }
{
    records.run(calls, answers, &mut Steps::<L>::start(blank));
}

/// Makes these calls, where nobody counts.
fn run(records: &mut Records, calls: &[Call], answers: &mut [Answer])
    requires heard_by { All (IsHeardBy records.old.receiver) calls.now }
    requires same_length { length answers.old ≡ length calls.now }
{
    run_counted::<Brand>(records, calls, answers, Blank::new(1));
}

/// Hears one Announce at 1 s from each of so many senders.
fn crowd(records: &mut Records, senders: u64)
    requires { records.old.receiver ≡ HERE }
    ensures { records.new.receiver ≡ HERE }
{
    for sender in 0..senders {
        hear(records, said(sender, MASTER, 128, 0), SECOND);
    }
}

#[test]
fn fates_of_announces(rt: HostRuntime) -> Result<(), Fail> {
    let near = said(MASTER, MASTER, 128, 0);
    let alternate = Announcement {
        alternate: true,
        ..near
    };
    for (name, senders, a, heard) in [
        ("own", 0, said(OWN, MASTER, 128, 255), Heard::Own),
        ("far", 0, said(MASTER, MASTER, 128, 255), Heard::Far),
        ("254 steps", 0, said(MASTER, MASTER, 128, 254), Heard::Kept),
        ("alternate", 0, alternate, Heard::Alternate),
        ("seventeenth", 16, near, Heard::Crowded),
        ("sixteenth", 15, near, Heard::Kept),
        ("known", 16, said(15, MASTER, 128, 0), Heard::Kept),
    ] {
        let mut records = records(rt.alloc())?;
        crowd(&mut records, senders);
        assert_eq!(rt; hear(&mut records, a, SECOND), heard, "{name}");
    }
    Ok(())
}

/// Sixteen were heard at 1 s, so they leave the window of 8 s at 9 s.
#[test]
fn a_new_sender_takes_the_place_of_one_that_left(rt: HostRuntime) -> Result<(), Fail> {
    let known = said(7, MASTER, 128, 0);
    let mut records = records(rt.alloc())?;
    crowd(&mut records, 16);
    let another = said(MASTER, MASTER, 128, 0);
    assert_eq!(rt; hear(&mut records, another, 8_999_999_999), Heard::Crowded);
    assert_eq!(rt; hear(&mut records, another, 9 * SECOND), Heard::Kept);
    assert_eq!(rt; hear(&mut records, another, 10 * SECOND), Heard::Kept);
    assert_eq!(rt; hear(&mut records, known, 10 * SECOND), Heard::Kept);
    assert_eq!(rt; best(&records, 10 * SECOND), Some(another));
    Ok(())
}

#[test]
fn two_in_the_window_qualify(rt: HostRuntime) -> Result<(), Fail> {
    let a = said(MASTER, MASTER, 128, 0);
    for (second, found) in [(8_999_999_999, Some(a)), (9_000_000_000, None)] {
        let mut records = records(rt.alloc())?;
        hear(&mut records, a, SECOND);
        assert_eq!(rt; best(&records, SECOND), None);
        hear(&mut records, a, second);
        assert_eq!(rt; best(&records, second), found, "at {second}");
    }
    Ok(())
}

/// Three announcements that win in a circle: the first against the second, the second against the
/// third, the third against the first. The winner depends on the order of their senders.
#[test]
fn the_pass_is_in_the_order_of_senders(rt: HostRuntime) -> Result<(), Fail> {
    for (first, second, third, found) in [(1, 2, 3, 30), (3, 1, 2, 10), (2, 3, 1, 20)] {
        let mut records = records(rt.alloc())?;
        let a = said(first, 7, 10, 5);
        let b = said(second, 8, 20, 0);
        let c = said(third, 7, 30, 0);
        hear(&mut records, a, SECOND);
        hear(&mut records, b, SECOND);
        hear(&mut records, c, SECOND);
        hear(&mut records, c, 3 * SECOND);
        hear(&mut records, b, 3 * SECOND);
        hear(&mut records, a, 3 * SECOND);
        let winner = best(&records, 3 * SECOND).map(|a| a.quality.priority1);
        assert_eq!(rt; winner, Some(found));
    }
    Ok(())
}

/// The better one was heard at 1 s and 3 s, so its record leaves the window of 8 s at 9 s; the other
/// was heard at 2 s and 4 s, and its record leaves at 10 s.
#[test]
fn the_next_best_follows_a_winner_that_leaves(rt: HostRuntime) -> Result<(), Fail> {
    let better = said(MASTER, MASTER, 10, 0);
    let other = said(1, 1, 128, 0);
    let mut records = records(rt.alloc())?;
    hear(&mut records, better, SECOND);
    hear(&mut records, other, 2 * SECOND);
    hear(&mut records, better, 3 * SECOND);
    hear(&mut records, other, 4 * SECOND);
    for (at, found) in [
        (4_000_000_000, Some(better)),
        (8_999_999_999, Some(better)),
        (9_000_000_000, Some(other)),
        (9_999_999_999, Some(other)),
        (10_000_000_000, None),
    ] {
        assert_eq!(rt; best(&records, at), found, "at {at}");
    }
    Ok(())
}

#[test]
fn calls_one_after_another(rt: HostRuntime) -> Result<(), Fail> {
    let mut records = records(rt.alloc())?;
    let a = said(MASTER, MASTER, 128, 0);
    let calls = [
        Call::Hear(a, SECOND),
        Call::Best(SECOND),
        Call::Hear(a, 3 * SECOND),
        Call::Best(3 * SECOND),
        Call::Reset,
        Call::Best(3 * SECOND),
    ];
    let mut answers = [Answer::Forgot; 6];
    run(&mut records, &calls, &mut answers);
    assert_eq!(rt; records.receiver(), HERE);
    assert_eq!(rt;
        answers,
        [
            Answer::Became(Heard::Kept),
            Answer::Found(None),
            Answer::Became(Heard::Kept),
            Answer::Found(Some(a)),
            Answer::Forgot,
            Answer::Found(None),
        ]
    );
    Ok(())
}
