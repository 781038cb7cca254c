//! Whole runs by the program's word `run`, read back.
use crate::texts::{RECORDS, SILENT, port_and_tick};
use bc_actors::NoGate;
use bc_top::{End, top};
use std::alloc::Global;
use std::sync::Wait;
use std::test::Fail;
use std::thread::Threads;
use text_io::{MemSink, SureSource};
use transcript::read;

/// The window of a tick, by the option's default of 125 ms.
fn window_at(tick: u64) -> u64 {
    tick.div_ceil(125_000_000)
}

/// Whether windows never fall along the entries of a transcript, of which there are so many.
fn is_windowed(alloc: Global, text: &[u8], count: usize) -> bool {
    if text.len() >= 4_294_967_295 {
        return false;
    }
    let Ok(run) = read(alloc, text) else {
        return false;
    };
    let mut last = 0;
    for entry in run.entries.items() {
        let window = window_at(port_and_tick(&entry.input).1);
        if window < last {
            return false;
        }
        last = window;
    }
    run.entries.len() == count
}

/// What the word `run` makes of a text.
fn run_of<R: Threads + Wait + Sync>(
    rt: &R,
    alloc: Global,
    text: &str,
) -> Result<(End, Vec<u8>), Fail> {
    let mut words = Vec::new(alloc);
    words.push(String::from_str(alloc, "run")?)?;
    let mut from = SureSource::new(Vec::from_slice(alloc, text.as_bytes())?);
    let mut to = MemSink::new(alloc);
    let end = top(rt, alloc, &words, &mut from, &mut to, &NoGate);
    Ok((end, Vec::from_slice(alloc, to.octets())?))
}

// The two events of 6 s stand in either order.
#[test]
fn silent_ports_run(rt: HostRuntime) -> Result<(), Fail> {
    let (end, out) = run_of(&rt, rt.alloc(), SILENT)?;
    assert_eq!(rt; end, End::Done);
    assert!(rt; is_windowed(rt.alloc(), out.as_slice(), 2));
    Ok(())
}

// A master steers the clock of port 1: 21 events, whoever goes first within a window.
#[test]
fn a_port_that_steers_runs(rt: HostRuntime) -> Result<(), Fail> {
    let text = format!(in rt.alloc(); "[global]\nduration 8\n[port 1]\n[port 2]\n{RECORDS}")?;
    let (end, out) = run_of(&rt, rt.alloc(), &text)?;
    assert_eq!(rt; end, End::Done);
    assert!(rt; is_windowed(rt.alloc(), out.as_slice(), 21));
    Ok(())
}

// One event more than a run may have: the windows end with all of them held.
#[test]
fn a_run_is_full(rt: HostRuntime) -> Result<(), Fail> {
    let text = format!(in rt.alloc();
        "[global]\nduration 100\nlogSyncInterval -7\n[port 1]\n[port 2]\n[port 3]\n[port 4]\n[port 5]\n[port 6]\n[port 7]\n[port 8]\n[port 9]\n[port 10]\n[port 11]\n[port 12]\n[port 13]\n[port 14]\n[port 15]\n[port 16]\n"
    )?;
    let (end, out) = run_of(&rt, rt.alloc(), &text)?;
    assert_eq!(rt; end, End::Events);
    assert_eq!(rt; out.len(), 0);
    Ok(())
}
