//! Who acts at once, and in what order: a body without threads fails here.
use crate::gates::{Both, Ordered, Split};
use crate::texts::{RECORDS, SILENT, port_and_tick, scenario_of};
use bc_actors::run_windows;
use bc_history::Run;
use ptp_base::Octets;
use std::alloc::Global;
use std::sync::atomic::Ordering;
use std::test::Fail;
use text_io::lines_in;
use transcript::write;

/// An Announce of a better master, of the sequences 0 and 1.
const BETTER: [&str; 2] = [
    "0b12004000000008000000000000000000000000000b00fffe000002000100000501000000000000000000000025006406214e5d80000b00fffe000002000020",
    "0b12004000000008000000000000000000000000000b00fffe000002000100010501000000000000000000000025006406214e5d80000b00fffe000002000020",
];

// Each of two ports waits before its first turn until the other one is there.
#[test]
fn two_ports_at_once(rt: HostRuntime) -> Result<(), Fail> {
    let s = scenario_of(rt.alloc(), SILENT)?;
    let gate = Both::new();
    let Ok(run) = run_windows(&rt, rt.alloc(), &s, &gate) else {
        return Err(Fail::new("no run"));
    };
    assert_eq!(rt; gate.met.load(Ordering::SeqCst), 2);
    assert_eq!(rt; run.entries.len(), 2);
    Ok(())
}

// The port that is not held has the first entry, before the other one is let go.
#[test]
fn gate_orders_events(rt: HostRuntime) -> Result<(), Fail> {
    let s = scenario_of(rt.alloc(), SILENT)?;
    for (held, other) in [(1, 2), (2, 1)] {
        let gate = Ordered::new(rt.alloc(), held, other)?;
        let Ok(run) = run_windows(&rt, rt.alloc(), &s, &gate) else {
            return Err(Fail::new("no run"));
        };
        assert_eq!(rt; gate.waited.load(Ordering::SeqCst), 1);
        assert_eq!(rt; gate.early.load(Ordering::SeqCst), 1);
        assert_eq!(rt; gate.entry.load(Ordering::SeqCst), 1);
        let Some(first) = run.entries.items().first() else {
            return Err(Fail::new("no entry"));
        };
        assert_eq!(rt; port_and_tick(&first.input).0, u16::from(other));
        assert!(rt; gate.owners.are_those_of(&run));
    }
    Ok(())
}

/// Whether a line tells a report or an entry of a log.
fn tells_log(line: &[u8]) -> bool {
    line.starts_with(b"log ") || line.ends_with(b"superseded 2 2")
}

/// The reports that were refused and the logs of a run.
fn told(alloc: Global, run: &Run) -> Result<Vec<u8>, Fail> {
    let mut out = Octets::new(alloc);
    write(alloc, run, &mut out)?;
    let mut told = Vec::new(alloc);
    for line in lines_in(out.items()) {
        if tells_log(line) {
            told.extend_from_slice(line)?;
            told.push(b'\n')?;
        }
    }
    Ok(told)
}

// Between port 1's measure of 5.5 s and its exchange port 2 hears a better master for the second
// time: clock 0 is revoked, clock 1 given to port 2, and the exchange refused.
#[test]
fn gate_splits_a_job(rt: HostRuntime) -> Result<(), Fail> {
    let [first, second] = BETTER;
    let text = format!(in rt.alloc();
        "[global]\nboundary_clock_jbod 1\nduration 5.9\n[clock 0]\n[clock 1]\n[port 1]\n[port 2 clock 1]\n{RECORDS}4000000000 2 {first}\n5400000000 2 up\n5500000000 2 {second}\n"
    )?;
    let s = scenario_of(rt.alloc(), &text)?;
    let gate = Split::new(rt.alloc())?;
    let Ok(run) = run_windows(&rt, rt.alloc(), &s, &gate) else {
        return Err(Fail::new("no run"));
    };
    let due = b"event 24 5500000000 port 1 report 5500000000 1 jump 50000 0 superseded 2 2
log 0 1 order 1 1
log 0 2 order 2 0
log 1 1 order 2 2
";
    assert_eq!(rt; told(rt.alloc(), &run)?.as_slice(), due.as_slice());
    assert!(rt; gate.owners.are_those_of(&run));
    Ok(())
}
