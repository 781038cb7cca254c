use crate::write;
use bc_history::{AskError, Effects, Entry, Input, Moved, Outcome, Run, Seen, Sent, Told};
use model_clock::ClockState;
use ptp_base::{ClockId, Items, Octets, PortId, PortState};
use ptp_profile::{Action, Fate, Held, Lead, Log, LogEntry, Measure, Reject, RoleOrder, Timer};
use std::alloc::Global;
use std::test::Fail;

const OUT: &[u8] = b"bc-transcript 1
event 1 5 port 1 frame 5 0bfe seen 3 -7 -65536
  fate nanos
  state 1 LISTENING UNCALIBRATED
  state 1 UNCALIBRATED SLAVE
  parent 001122.fffe.334455-1
  order 0 1 1
  order 2 1 129
  measure 1 0 -98304 65536 12
  send 2 ab
  send 3 00
event 2 9 port 2 timer 9 qualification seen 0 9 0
event 3 9 port 3 down 8
event 4 10 port 3 up 10
event 5 11 port 1 report 11 4 jump -5 131072 superseded 6 7
event 6 12 clock 2 turn 12
  told 4 0 missed 2
event 7 13 clock 2 sampled 13 4 0 theirs 1 20 0 own 2 -30 -9 locked -77 changed 8
event 8 14 query 14 get X
  told none missed 0
  asked unknown
  answer 0d0e
  answer ff
clock 0 5 -2
log 0 1 order 1 1
log 0 2 change 1 1 11 -5 131072
clock 1 0 1
end 8
";

fn octets(alloc: Global, octets: &[u8]) -> Result<Octets, Fail> {
    Ok(Octets::from_vec(Vec::from_slice(alloc, octets)?))
}

fn nothing(alloc: Global) -> Effects {
    Effects {
        fate: None,
        states: Items::new(alloc),
        parent: None,
        orders: Items::new(alloc),
        measure: None,
        frames: Items::new(alloc),
        told: None,
        asked: None,
        answers: Items::new(alloc),
    }
}

fn entry(alloc: Global, input: Input, moment: u64) -> Entry {
    Entry {
        input,
        moment,
        seen: None,
        effects: nothing(alloc),
    }
}

fn seen(number: u32, value: i64, freq: i64) -> Seen {
    Seen {
        number,
        value,
        freq,
    }
}

fn moved(old: PortState, new: PortState) -> Moved {
    Moved { port: 1, old, new }
}

fn order(clock: u8, ctrl: u8) -> RoleOrder {
    RoleOrder {
        clock,
        gener: 1,
        ctrl,
    }
}

fn frame(alloc: Global) -> Result<Entry, Fail> {
    let sent = vec![in alloc;
        Sent {
            port: 2,
            octets: octets(alloc, &[0xab])?
        },
        Sent {
            port: 3,
            octets: octets(alloc, &[0])?
        },
    ]?;
    let states = vec![in alloc;
        moved(PortState::Listening, PortState::Uncalibrated),
        moved(PortState::Uncalibrated, PortState::Slave),
    ]?;
    let measure = Measure {
        offset: -98304,
        delay: 65536,
        local: 12,
    };
    let held = Held {
        clock: 0,
        gener: 1,
        ctrl: 1,
    };
    Ok(Entry {
        input: Input::Frame {
            port: 1,
            tick: 5,
            octets: octets(alloc, &[0x0b, 0xfe])?,
        },
        moment: 5,
        seen: Some(seen(3, -7, -65536)),
        effects: Effects {
            fate: Some(Fate::Dropped(Reject::Nanos)),
            states: Items::from_vec(states),
            parent: Some(PortId {
                clock: ClockId {
                    id: 0x0011_22ff_fe33_4455,
                },
                port: 1,
            }),
            orders: Items::from_vec(vec![in alloc; order(0, 1), order(2, 129)]?),
            measure: Some((measure, held)),
            frames: Items::from_vec(sent),
            told: None,
            asked: None,
            answers: Items::new(alloc),
        },
    })
}

fn timer(alloc: Global) -> Entry {
    let input = Input::Timed {
        port: 2,
        tick: 9,
        timer: Timer::Qualification,
    };
    let mut entry = entry(alloc, input, 9);
    entry.seen = Some(seen(0, 9, 0));
    entry
}

fn report(alloc: Global) -> Entry {
    let input = Input::Report {
        port: 1,
        tick: 11,
        gener: 4,
        action: Action::Jump {
            step: -5,
            freq: 131072,
        },
        outcome: Outcome::Superseded { newer: 6, at: 7 },
    };
    entry(alloc, input, 11)
}

fn turn(alloc: Global, lead: Lead) -> Entry {
    let mut entry = entry(alloc, Input::Turn { clock: 2, tick: 12 }, 12);
    entry.effects.told = Some(Told {
        lead: Some(lead),
        missed: 2,
    });
    entry
}

fn sampled(alloc: Global, lead: Lead) -> Entry {
    let input = Input::Sampled {
        clock: 2,
        tick: 13,
        lead,
        theirs: seen(1, 20, 0),
        own: seen(2, -30, -9),
        action: Action::Locked { freq: -77 },
        outcome: Outcome::Changed { number: 8 },
    };
    entry(alloc, input, 13)
}

fn query(alloc: Global) -> Result<Entry, Fail> {
    let answers = vec![in alloc; octets(alloc, &[0x0d, 0x0e])?, octets(alloc, &[0xff])?]?;
    let text = octets(alloc, b"get X")?;
    let mut entry = entry(alloc, Input::Query { tick: 14, text }, 14);
    entry.effects.told = Some(Told {
        lead: None,
        missed: 0,
    });
    entry.effects.asked = Some(AskError::Unknown);
    entry.effects.answers = Items::from_vec(answers);
    Ok(entry)
}

fn log(clock: u8, time: i64, drift: i64, entries: Vec<LogEntry>) -> Log {
    Log {
        clock,
        opening: ClockState {
            tick: 0,
            time,
            freq: 0,
            drift,
        },
        entries: Items::from_vec(entries),
    }
}

/// A run that is made up, so that each input and each effect stands in it.
fn run(alloc: Global) -> Result<Run, Fail> {
    let lead = Lead {
        gener: 4,
        source: 0,
    };
    let entries = vec![in alloc;
        frame(alloc)?,
        timer(alloc),
        entry(alloc, Input::Down { port: 3, tick: 8 }, 9),
        entry(alloc, Input::Up { port: 3, tick: 10 }, 10),
        report(alloc),
        turn(alloc, lead),
        sampled(alloc, lead),
        query(alloc)?,
    ]?;
    let rows = vec![in alloc;
        LogEntry::Order { gener: 1, ctrl: 1 },
        LogEntry::Change {
            gener: 1,
            ctrl: 1,
            tick: 11,
            step: -5,
            freq: 131072
        },
    ]?;
    let logs = vec![in alloc; log(0, 5, -98304, rows), log(1, 0, 65536, Vec::new(alloc))]?;
    Ok(Run {
        entries: Items::from_vec(entries),
        logs: Items::from_vec(logs),
    })
}

#[test]
fn each_input_and_effect_is_written(rt: HostRuntime) -> Result<(), Fail> {
    let run = run(rt.alloc())?;
    let mut text = Octets::new(rt.alloc());
    write(rt.alloc(), &run, &mut text).ok().ok_or("transcript")?;
    assert_eq!(rt; text.items(), OUT);
    Ok(())
}

/// The response to a request for priority1, which is 128.
const ANSWER: [u8; 56] = [
    0x0d, 0x12, 0x00, 0x38, 0x00, 0x00, 0x00, 0x00, 0x00, 0x00, 0x00, 0x00, 0x00, 0x00, 0x00, 0x00,
    0x00, 0x00, 0x00, 0x00, 0x02, 0x00, 0x00, 0xff, 0xfe, 0x00, 0x00, 0x01, 0x00, 0x00, 0x00, 0x00,
    0x04, 0x7f, 0x00, 0x00, 0x00, 0x00, 0x00, 0x00, 0x00, 0x00, 0x00, 0x01, 0x00, 0x00, 0x02, 0x00,
    0x00, 0x01, 0x00, 0x04, 0x20, 0x05, 0x80, 0x00,
];

const SHOWN: &[u8] = b"bc-transcript 1
event 1 1 query 1 GET PRIORITY1
  answer 0d12003800000000000000000000000000000000020000fffe00000100000000047f00000000000000000001000002000001000420058000
    020000.fffe.000001-0 seq 0 RESPONSE MANAGEMENT PRIORITY1
    priority1 128
end 1
";

#[test]
fn an_answer_that_is_shown_prints_its_lines(rt: HostRuntime) -> Result<(), Fail> {
    let alloc = rt.alloc();
    let text = octets(alloc, b"GET PRIORITY1")?;
    let mut entry = entry(alloc, Input::Query { tick: 1, text }, 1);
    entry.effects.answers = Items::from_vec(vec![in alloc; octets(alloc, &ANSWER)?]?);
    let run = Run {
        entries: Items::from_vec(vec![in alloc; entry]?),
        logs: Items::new(alloc),
    };
    let mut text = Octets::new(alloc);
    write(alloc, &run, &mut text).ok().ok_or("transcript")?;
    assert_eq!(rt; text.items(), SHOWN);
    Ok(())
}
