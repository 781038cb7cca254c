ghost use Rattle.std.specs.Prelude.{◌≤◌, length, IfOk};

use crate::*;
use data_sets::{DataSets, PortSet, PortSets};
use ptp_base::{Announcement, ClockId, Octets, PortId, PortState, Quality, TimeProps};
use ptp_tlv::read;
use std::alloc::Global;
use std::test::Fail;

const OWN: ClockId = ClockId {
    id: 0x0200_00ff_fe00_0001,
};

const MASTER: PortId = PortId {
    clock: ClockId {
        id: 0x000a_00ff_fe00_0001,
    },
    port: 3,
};

const QUALITY: Quality = Quality {
    priority1: 128,
    class: 248,
    accuracy: 0xfe,
    variance: 0xffff,
    priority2: 127,
};

const BETTER: Quality = Quality {
    priority1: 100,
    class: 6,
    accuracy: 0x21,
    variance: 0x4e5d,
    priority2: 126,
};

const TIME: TimeProps = TimeProps {
    utc_offset: -37,
    flags: 8,
    source: 0xa0,
};

fn port(number: u16, state: PortState) -> PortSet {
    PortSet {
        id: PortId {
            clock: OWN,
            port: number,
        },
        state,
        log_announce: 1,
        log_sync: -2,
        log_delay: -3,
        receipt: 3,
    }
}

// A clock that follows a master, on port 2.
fn sets(alloc: Global) -> Result<DataSets, Fail>
    ensures { IfOk result (λ d. length d.ports ≤ 65535) }
{
    let mut ports = PortSets::new(alloc);
    ports.push(port(1, PortState::Master)).ok().ok_or("port 1")?;
    ports.push(port(2, PortState::Slave)).ok().ok_or("port 2")?;
    let own = PortId {
        clock: OWN,
        port: 0,
    };
    let own = Announcement {
        grandmaster: OWN,
        quality: QUALITY,
        steps: 0,
        sender: own,
        receiver: own,
        time: TIME,
        alternate: false,
    };
    let mut d = DataSets::new(own, 5, TIME, ports);
    d.steps = 1;
    d.offset = -65_536;
    d.delay = 131_072;
    d.parent = MASTER;
    d.grandmaster = MASTER.clock;
    d.gm_quality = BETTER;
    Ok(d)
}

// What a text of sequence 7 asks: the answers of the clock in hex, a line each, and how they are
// printed.
const QUERIES: [(&str, &str, &str); 14] = [
    (
        "GET NULL_MANAGEMENT",
        "0d12003605000000000000000000000000000000020000fffe00000100000007047f0000000000000000000100000200000100020000\n",
        "020000.fffe.000001-0 seq 7 RESPONSE MANAGEMENT NULL_MANAGEMENT\n",
    ),
    (
        "get default_data_set",
        "0d12004a05000000000000000000000000000000020000fffe00000100000007047f00000000000000000001000002000001001620000100000280f8feffff7f020000fffe0000010500\n",
        "020000.fffe.000001-0 seq 7 RESPONSE MANAGEMENT DEFAULT_DATA_SET\ntwoStepFlag 1\nnumberPorts 2\npriority1 128\nclockClass 248\nclockAccuracy 0xfe\noffsetScaledLogVariance 0xffff\npriority2 127\nclockIdentity 020000.fffe.000001\ndomainNumber 5\n",
    ),
    (
        "Get CURRENT_DATA_SET *",
        "0d12004805000000000000000000000000000000020000fffe00000100000007047f00000000000000000001000002000001001420010001ffffffffffff00000000000000020000\n",
        "020000.fffe.000001-0 seq 7 RESPONSE MANAGEMENT CURRENT_DATA_SET\nstepsRemoved 1\noffsetFromMaster -65536\nmeanPathDelay 131072\n",
    ),
    (
        "GET PARENT_DATA_SET 65535",
        "0d12005605000000000000000000000000000000020000fffe00000100000007047f0000000000000000000100000200000100222002000a00fffe00000100030000ffff7fffffff6406214e5d7e000a00fffe000001\n",
        "020000.fffe.000001-0 seq 7 RESPONSE MANAGEMENT PARENT_DATA_SET\nparentPortIdentity 000a00.fffe.000001-3\ngrandmasterPriority1 100\ngm.ClockClass 6\ngm.ClockAccuracy 0x21\ngm.OffsetScaledLogVariance 0x4e5d\ngrandmasterPriority2 126\ngrandmasterIdentity 000a00.fffe.000001\n",
    ),
    (
        "GET TIME_PROPERTIES_DATA_SET",
        "0d12003a05000000000000000000000000000000020000fffe00000100000007047f0000000000000000000100000200000100062003ffdb08a0\n",
        "020000.fffe.000001-0 seq 7 RESPONSE MANAGEMENT TIME_PROPERTIES_DATA_SET\ncurrentUtcOffset -37\ntimeFlags 8\ntimeSource 0xa0\n",
    ),
    (
        "GET PORT_DATA_SET",
        "0d12005005000000000000000000000000000000020000fffe00000100010007047f00000000000000000001000002000001001c2004020000fffe000001000106fd00000000000000000103fe010002\n0d12005005000000000000000000000000000000020000fffe00000100020007047f00000000000000000001000002000001001c2004020000fffe000001000209fd00000000000000000103fe010002\n",
        "020000.fffe.000001-1 seq 7 RESPONSE MANAGEMENT PORT_DATA_SET\nportIdentity 020000.fffe.000001-1\nportState MASTER\nlogMinDelayReqInterval -3\nlogAnnounceInterval 1\nannounceReceiptTimeout 3\nlogSyncInterval -2\n020000.fffe.000001-2 seq 7 RESPONSE MANAGEMENT PORT_DATA_SET\nportIdentity 020000.fffe.000001-2\nportState SLAVE\nlogMinDelayReqInterval -3\nlogAnnounceInterval 1\nannounceReceiptTimeout 3\nlogSyncInterval -2\n",
    ),
    (
        "GET PORT_DATA_SET 02",
        "0d12005005000000000000000000000000000000020000fffe00000100020007047f00000000000000000001000002000001001c2004020000fffe000001000209fd00000000000000000103fe010002\n",
        "020000.fffe.000001-2 seq 7 RESPONSE MANAGEMENT PORT_DATA_SET\nportIdentity 020000.fffe.000001-2\nportState SLAVE\nlogMinDelayReqInterval -3\nlogAnnounceInterval 1\nannounceReceiptTimeout 3\nlogSyncInterval -2\n",
    ),
    ("GET PORT_DATA_SET 9", "", ""),
    (
        "GET PRIORITY1",
        "0d12003805000000000000000000000000000000020000fffe00000100000007047f00000000000000000001000002000001000420058000\n",
        "020000.fffe.000001-0 seq 7 RESPONSE MANAGEMENT PRIORITY1\npriority1 128\n",
    ),
    (
        "GET PRIORITY2",
        "0d12003805000000000000000000000000000000020000fffe00000100000007047f00000000000000000001000002000001000420067f00\n",
        "020000.fffe.000001-0 seq 7 RESPONSE MANAGEMENT PRIORITY2\npriority2 127\n",
    ),
    (
        "GET DOMAIN",
        "0d12003805000000000000000000000000000000020000fffe00000100000007047f00000000000000000001000002000001000420070500\n",
        "020000.fffe.000001-0 seq 7 RESPONSE MANAGEMENT DOMAIN\ndomainNumber 5\n",
    ),
    (
        "SET PRIORITY1 1",
        "0d12003c05000000000000000000000000000000020000fffe00000100000007047f0000000000000000000100000200000200080006200500000000\n",
        "020000.fffe.000001-0 seq 7 RESPONSE ERROR 6 PRIORITY1\n",
    ),
    (
        "SET NULL_MANAGEMENT",
        "0d12003c05000000000000000000000000000000020000fffe00000100000007047f0000000000000000000100000200000200080005000000000000\n",
        "020000.fffe.000001-0 seq 7 RESPONSE ERROR 5 NULL_MANAGEMENT\n",
    ),
    (
        "COMMAND PORT_DATA_SET x y",
        "0d12003c05000000000000000000000000000000020000fffe00000100000007047f0000000000000000000100000400000200080006200400000000\n",
        "020000.fffe.000001-0 seq 7 ACKNOWLEDGE ERROR 6 PORT_DATA_SET\n",
    ),
];

// Appends the answers to octets in hex, a line each, and how they are printed.
fn reply(
    alloc: Global,
    d: &DataSets,
    request: &[u8],
    hex: &mut Octets,
    printed: &mut Octets,
) -> Result<(), Fail>
    requires { length d.now.ports ≤ 65535 }
{
    let request = read(alloc, request, 5).ok().ok_or("read")?;
    let mut made = Answers::new(alloc);
    answer(alloc, d, &request, &mut made).ok().ok_or("answer")?;
    for octets in made.items() {
        let digits = hex::encode(alloc, octets.items())?;
        hex.append(digits.as_bytes()).ok().ok_or("hex")?;
        hex.append(b"\n").ok().ok_or("hex")?;
        if !shows(octets.items()) {
            return Err("shows")?;
        }
        print(alloc, octets.items(), printed).ok().ok_or("print")?;
    }
    Ok(())
}

#[test]
fn queries_are_answered(rt: HostRuntime) -> Result<(), Fail> {
    let d = sets(rt.alloc())?;
    for (text, answers, lines) in QUERIES {
        let request = ask(text.as_bytes()).ok().ok_or(text)?;
        let mut octets = Octets::new(rt.alloc());
        spell(rt.alloc(), &request, 7, 5, &mut octets)
            .ok()
            .ok_or(text)?;
        let mut hex = Octets::new(rt.alloc());
        let mut printed = Octets::new(rt.alloc());
        reply(rt.alloc(), &d, octets.items(), &mut hex, &mut printed)?;
        assert_eq!(rt; hex.items(), answers.as_bytes(), "{text}");
        assert_eq!(rt; printed.items(), lines.as_bytes(), "{text}");
    }
    Ok(())
}

// Asks every clock for PRIORITY1. Behind it stand six octets.
const REQUEST: [u8; 60] = [
    0x0d, 0x12, 0x00, 0x36, 0x05, 0x00, 0x00, 0x00, 0x00, 0x00, 0x00, 0x00, 0x00, 0x00, 0x00, 0x00,
    0x00, 0x00, 0x00, 0x00, 0x00, 0x00, 0x00, 0x00, 0x00, 0x00, 0x00, 0x00, 0x00, 0x01, 0x00, 0x07,
    0x04, 0x7f, 0xff, 0xff, 0xff, 0xff, 0xff, 0xff, 0xff, 0xff, 0xff, 0xff, 0x00, 0x00, 0x00, 0x00,
    0x00, 0x01, 0x00, 0x02, 0x20, 0x05, 0x00, 0x00, 0x00, 0x00, 0x00, 0x00,
];

// Changes of the request, how many octets of it there are, and the answers.
const REQUESTS: [(&str, &[(usize, u8)], usize, &str); 10] = [
    (
        "as it is",
        &[],
        54,
        "0d12003805000000000000000000000000000000020000fffe00000100000007047f00000000000000000001000002000001000420058000\n",
    ),
    (
        "one octet behind the id",
        &[(3, 55), (51, 3)],
        55,
        "0d12003c05000000000000000000000000000000020000fffe00000100000007047f0000000000000000000100000200000200080003200500000000\n",
    ),
    (
        "two octets behind the id",
        &[(3, 56), (51, 4)],
        56,
        "0d12003805000000000000000000000000000000020000fffe00000100000007047f00000000000000000001000002000001000420058000\n",
    ),
    (
        "an unknown id",
        &[(53, 8)],
        54,
        "0d12003c05000000000000000000000000000000020000fffe00000100000007047f0000000000000000000100000200000200080002200800000000\n",
    ),
    (
        "a command for an unknown id",
        &[(46, 3), (53, 8)],
        54,
        "0d12003c05000000000000000000000000000000020000fffe00000100000007047f0000000000000000000100000400000200080002200800000000\n",
    ),
    ("for another clock", &[(41, 0)], 54, ""),
    (
        "for this clock",
        &[
            (34, 2),
            (35, 0),
            (36, 0),
            (37, 255),
            (38, 254),
            (39, 0),
            (40, 0),
            (41, 1),
        ],
        54,
        "0d12003805000000000000000000000000000000020000fffe00000100000007047f00000000000000000001000002000001000420058000\n",
    ),
    ("a response", &[(46, 2)], 54, ""),
    ("an acknowledgement", &[(46, 4)], 54, ""),
    ("an error", &[(3, 60), (49, 2), (51, 8)], 60, ""),
];

// The request with some octets changed.
fn request_with(changes: &[(usize, u8)]) -> Option<[u8; 60]> {
    let mut octets = REQUEST;
    for (at, octet) in changes {
        *octets.get_mut(*at)? = *octet;
    }
    Some(octets)
}

#[test]
fn requests_are_answered(rt: HostRuntime) -> Result<(), Fail> {
    let d = sets(rt.alloc())?;
    for (what, changes, length, answers) in REQUESTS {
        let octets = request_with(changes).ok_or(what)?;
        let octets = octets.get(..length).ok_or(what)?;
        let mut hex = Octets::new(rt.alloc());
        let mut printed = Octets::new(rt.alloc());
        reply(rt.alloc(), &d, octets, &mut hex, &mut printed)?;
        assert_eq!(rt; hex.items(), answers.as_bytes(), "{what}");
    }
    Ok(())
}

// Texts that ask nothing, and why; and texts that ask a port.
const REFUSALS: [(&str, AskError); 9] = [
    ("", AskError::Action),
    ("PUT PRIORITY1", AskError::Action),
    ("GET", AskError::Unknown),
    ("GET NOTHING", AskError::Unknown),
    ("SET NOTHING x", AskError::Unknown),
    ("GET PORT_DATA_SET x", AskError::Target),
    ("GET PORT_DATA_SET 0", AskError::Target),
    ("GET PORT_DATA_SET 65536", AskError::Target),
    ("GET PRIORITY1 1 1", AskError::Target),
];

const TARGETS: [(&str, u16); 4] = [
    ("GET PRIORITY1 *", 65535),
    ("GET PRIORITY1 65535", 65535),
    ("GET PRIORITY1 00000000000000000007", 7),
    ("COMMAND PRIORITY1 7 8", 65535),
];

#[test]
fn texts_are_asked(rt: HostRuntime) -> Result<(), Fail> {
    for (text, error) in REFUSALS {
        assert_eq!(rt; ask(text.as_bytes()), Err(error), "{text}");
    }
    for (text, target) in TARGETS {
        assert_eq!(rt;
            ask(text.as_bytes()).ok().ok_or(text)?.target,
            target,
            "{text}"
        );
    }
    Ok(())
}
