//! The text of a made scenario.

ghost use Rattle.std.specs.Prelude.{◌≡◌, ◌<◌, ◌≤◌, ◌+◌, ◌++◌, ℕ, List, OnOk, IfOk, pos};
ghost use Rattle.std.specs.List.{flat_map, range_with_len};
ghost use Rattle.ptp_profile.specs.Wire.MessageFormat.{IsSpelled};
ghost use Rattle.bc_gen.specs.MadeNumbers.{number};
ghost use Rattle.bc_gen.specs.MadeRecords.{announces_in, syncs_in, delay_resps_in, records_in, records_of, made_records};
ghost use Rattle.bc_gen.specs.MadeText.{global_text, clock_section, clock_texts, port_header, port_headers, record_line, record_lines, master_texts, made_text};

use crate::numbers::{delay, drift, following};
use crate::records::{ANNOUNCE_EACH, MadeRecord, SECONDS, announce, delay_resp, sync};
use ptp_base::{NoMemory, Octets};
use ptp_wire::encode;
use std::alloc::Global;

/// How many clocks a made scenario has.
const CLOCKS: u8 = 16;

/// How many ports it has, and how many masters they hear.
const PORTS: u8 = 32;

/// The first of a master's seconds in which a Sync is heard.
const SYNC_FROM: u8 = 2;

/// The first of a master's seconds in which a Delay_Resp is heard.
const RESPONSE_FROM: u8 = 3;

/// The last of these.
const RESPONSE_TO: u8 = 18;

/// `[global]` and its options.
const GLOBAL: &str = "[global]\nboundary_clock_jbod 1\nduration 640\n";

/// Adds the section of clock `c`, with its drift in ppb.
#[tactic(auto, unfolding(crate::specs::MadeText::clock_section))]
fn push_clock(alloc: Global, c: u8, drift: &i64, out: &mut Octets) -> Result<(), NoMemory>
    ensures { OnOk result (out.new ≡ out.old ++ clock_section c drift.now) }
{
    let text = format!(in alloc; "[clock {c}]\ntime 0\ndrift {drift}\n")?;
    out.append(text.as_bytes())
}

/// Adds the sections of the clocks of scenario `n`, and gives the number that the last drift is of.
fn push_clocks(alloc: Global, n: u64, out: &mut Octets) -> Result<u64, NoMemory>
    ensures text { OnOk result (out.new ≡ out.old ++ clock_texts n) }
    ensures number { IfOk result (λ x. x ≡ number n 16) }
{
    let mut x = n;
    for c in 0..CLOCKS {
        x = following(x);
        push_clock(alloc, c, &drift(x), out)?;
    }
    Ok(x)
}

/// Adds the header of port `p`.
#[tactic(auto, unfolding(crate::specs::MadeText::port_header))]
fn push_port(alloc: Global, p: u8, out: &mut Octets) -> Result<(), NoMemory>
    requires { 1 ≤ p }
    ensures { OnOk result (out.new ≡ out.old ++ port_header p) }
{
    let clock = (p - 1) % CLOCKS;
    let text = format!(in alloc; "[port {p} clock {clock}]\n")?;
    out.append(text.as_bytes())
}

/// Adds the headers of the ports.
fn push_ports(alloc: Global, out: &mut Octets) -> Result<(), NoMemory>
    ensures { OnOk result (out.new ≡ out.old ++ port_headers) }
{
    for i in 0..PORTS {
        push_port(alloc, i + 1, out)?;
    }
    Ok(())
}

/// Adds the line of a record.
#[tactic(auto, unfolding(crate::specs::MadeText::record_line))]
fn push_record(alloc: Global, made: &MadeRecord, out: &mut Octets) -> Result<(), NoMemory>
    requires { IsSpelled made.now.message }
    ensures { OnOk result (out.new ≡ out.old ++ record_line made.now) }
{
    let mut frame = Octets::new(alloc);
    encode(&made.message, &mut frame)?;
    let digits = hex::encode(alloc, frame.items())?;
    let tick = made.tick;
    let port = made.port;
    let text = format!(in alloc; "{tick} {port} {digits}\n")?;
    out.append(text.as_bytes())
}

/// Adds the line of the Announce that master `e` sends in second `s`, where it sends one.
fn push_announce(alloc: Global, e: u8, s: u8, out: &mut Octets) -> Result<(), NoMemory>
    requires { e < 32 }
    ensures { OnOk result (out.new ≡ out.old ++ record_lines (announces_in e s)) }
{
    if s % ANNOUNCE_EACH == 0 {
        push_record(alloc, &announce(e, u16::from(s / ANNOUNCE_EACH)), out)
    } else {
        Ok(())
    }
}

/// Adds the line of the Sync that is heard of master `e` in second `s`, where one is.
fn push_sync(alloc: Global, e: u8, delay: u64, s: u8, out: &mut Octets) -> Result<(), NoMemory>
    requires { delay < 1500 }
    ensures { OnOk result (out.new ≡ out.old ++ record_lines (syncs_in e delay s)) }
{
    if s >= SYNC_FROM {
        push_record(alloc, &sync(e, delay, u16::from(s - SYNC_FROM)), out)
    } else {
        Ok(())
    }
}

/// Adds the line of the Delay_Resp that is heard of master `e` in second `s`, where one is.
fn push_delay_resp(
    alloc: Global,
    e: u8,
    delay: u64,
    s: u8,
    out: &mut Octets,
) -> Result<(), NoMemory>
    requires { delay < 1500 }
    ensures { OnOk result (out.new ≡ out.old ++ record_lines (delay_resps_in e delay s)) }
{
    if s >= RESPONSE_FROM && s <= RESPONSE_TO {
        push_record(
            alloc,
            &delay_resp(e, delay, u16::from(s - RESPONSE_FROM)),
            out,
        )
    } else {
        Ok(())
    }
}

/// Adds the lines of the records of master `e`, second by second.
fn push_master(alloc: Global, e: u8, delay: u64, out: &mut Octets) -> Result<(), NoMemory>
    requires master { e < 32 }
    requires delay { delay < 1500 }
    ensures { OnOk result (out.new ≡ out.old ++ record_lines (records_of e delay)) }
{
    for s in 0..SECONDS {
        push_announce(alloc, e, s, out)?;
        push_sync(alloc, e, delay, s, out)?;
        push_delay_resp(alloc, e, delay, s, out)?;
    }
    Ok(())
}

/// Adds the lines of the records of all masters, whose delays the numbers behind `last` give.
fn push_masters(alloc: Global, last: u64, out: &mut Octets) -> Result<(), NoMemory>
    ensures { OnOk result ((n : ℕ) → last ≡ number n 16 → out.new ≡ out.old ++ master_texts n) }
{
    let mut x = last;
    for e in 0..PORTS {
        x = following(x);
        push_master(alloc, e, delay(x), out)?;
    }
    Ok(())
}

/// The text of the scenario that number `n` makes. It answers `NoMemory` where memory runs out.
pub fn text(alloc: Global, n: u32) -> Result<Octets, NoMemory>
    ensures { IfOk result (λ out. out ≡ made_text n) }
{
    let mut out = Octets::new(alloc);
    out.append(GLOBAL.as_bytes())?;
    let last = push_clocks(alloc, u64::from(n), &mut out)?;
    push_ports(alloc, &mut out)?;
    out.append(b"[records]\n")?;
    push_masters(alloc, last, &mut out)?;
    Ok(out)
}
