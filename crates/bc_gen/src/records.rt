//! What the ports of a made scenario hear.

ghost use Rattle.std.specs.Prelude.{◌≡◌, ◌<◌, ◌≤◌};
ghost use Rattle.bc_gen.specs.MadeRecords.{beginning, made_sender, made_message, announce, sync, delay_resp};

use ptp_base::{ClockId, PortId, Quality};
use ptp_profile::{Body, Message, Said};

/// A second, in ns.
pub const SECOND: u64 = 1_000_000_000;

/// The identity of the clock of master 0; the others follow it.
pub const FIRST_MASTER: u64 = 0x000a_00ff_fe00_0100;

/// The identity of this clock, where a scenario names none.
pub const OWN_CLOCK: u64 = 0x0200_00ff_fe00_0001;

/// What the masters' clocks show at tick 0, in ns.
pub const EPOCH: u64 = 1_000_000_000_000;

/// For how many seconds a master is heard.
pub const SECONDS: u8 = 20;

/// How many seconds lie between two Announces of a master: its logAnnounceInterval is 1.
pub const ANNOUNCE_EACH: u8 = 2;

/// When the first Announce of a master is heard, in ns behind its beginning.
const ANNOUNCE_AT: u64 = 100_000_000;

/// When its first Sync is heard.
const SYNC_AT: u64 = 2_300_000_000;

/// When it receives the request that its first Delay_Resp answers, but for the delay.
const REQUEST_AT: u64 = 3_100_000_000;

/// When its first Delay_Resp is heard.
const RESPONSE_AT: u64 = 3_500_000_000;

/// ptpTimescale in the flag field (IEEE 1588-2019, 13.3.2.8).
const PTP_TIMESCALE: u16 = 0x0008;

/// priority1 of master 0; that of each other one is one lower than that of the one before.
const PRIORITY1: u8 = 127;

/// A message that a port hears.
#[derive(Clone, Copy, Debug, PartialEq, Eq)]
pub struct MadeRecord {
    /// When it is heard, in ns.
    pub tick: u64,
    /// The port that hears it, from 1 to 32.
    pub port: u16,
    /// What is heard.
    pub message: Message,
}

/// When master `e` begins, in ns.
fn beginning(e: u8) -> u64
    ensures { result ≡ beginning e }
{
    u64::from(SECONDS) * u64::from(e) * SECOND
}

/// The port of master `e`.
fn sender(e: u8) -> PortId
    ensures { result ≡ made_sender e }
{
    PortId {
        clock: ClockId {
            id: FIRST_MASTER + u64::from(e),
        },
        port: 1,
    }
}

/// A message of master `e`.
fn message(e: u8, flags: u16, seq: u16, log_interval: i8, body: Body) -> Message
    ensures { result ≡ made_message e flags seq log_interval body }
{
    Message {
        domain: 0,
        flags,
        correction: 0,
        sender: sender(e),
        seq,
        log_interval,
        body,
    }
}

/// Announce `j` of master `e`. Does not allocate.
pub fn announce(e: u8, j: u16) -> MadeRecord
    requires { e < 32 }
    ensures { result ≡ announce e j }
{
    let said = Said {
        grandmaster: sender(e).clock,
        quality: Quality {
            priority1: PRIORITY1 - e,
            class: 6,
            accuracy: 0x21,
            variance: 0x4e5d,
            priority2: 128,
        },
        steps: 0,
        utc_offset: 37,
        source: 0x20,
    };
    MadeRecord {
        tick: beginning(e) + (ANNOUNCE_AT + u64::from(ANNOUNCE_EACH) * u64::from(j) * SECOND),
        port: u16::from(e) + 1,
        message: message(e, PTP_TIMESCALE, j, 1, Body::Announce { origin: 0, said }),
    }
}

/// One-step Sync `j` of master `e`, which was under way for `delay` ns. Does not allocate.
pub fn sync(e: u8, delay: u64, j: u16) -> MadeRecord
    requires { delay < 1500 }
    ensures { result ≡ sync e delay j }
{
    let tick = beginning(e) + (SYNC_AT + u64::from(j) * SECOND);
    let origin = (EPOCH + tick - delay) as i64;
    MadeRecord {
        tick,
        port: u16::from(e) + 1,
        message: message(e, 0, j, 0, Body::Sync { origin }),
    }
}

/// Delay_Resp `j` of master `e`, to a request that was under way for `delay` ns. Does not allocate.
pub fn delay_resp(e: u8, delay: u64, j: u16) -> MadeRecord
    requires { delay < 1500 }
    ensures { result ≡ delay_resp e delay j }
{
    let start = beginning(e);
    let asked = start + (REQUEST_AT + u64::from(j) * SECOND);
    let receive = (EPOCH + asked + delay) as i64;
    let port = u16::from(e) + 1;
    let clock = ClockId { id: OWN_CLOCK };
    let requesting = PortId { clock, port };
    MadeRecord {
        tick: start + (RESPONSE_AT + u64::from(j) * SECOND),
        port,
        message: message(
            e,
            0,
            j,
            0,
            Body::DelayResp {
                receive,
                requesting,
            },
        ),
    }
}
