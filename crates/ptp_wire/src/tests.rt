use crate::*;
use ptp_base::{ClockId, Octets, PortId, Quality, Room};
use std::test::Fail;

const GRANDMASTER: ClockId = ClockId {
    id: 0x000a_00ff_fe00_0001,
};

const MASTER: PortId = PortId {
    clock: GRANDMASTER,
    port: 1,
};

// An Announce of the master, and eight octets behind it.
const ANNOUNCE: [u8; 72] = [
    0x0b, 0x12, 0x00, 0x40, 0x00, 0x00, 0x00, 0x08, 0x00, 0x00, 0x00, 0x00, 0x00, 0x00, 0x00, 0x00,
    0x00, 0x00, 0x00, 0x00, 0x00, 0x0a, 0x00, 0xff, 0xfe, 0x00, 0x00, 0x01, 0x00, 0x01, 0x00, 0x00,
    0x05, 0x01, 0x00, 0x00, 0x00, 0x00, 0x00, 0x00, 0x00, 0x00, 0x00, 0x00, 0x00, 0x25, 0x00, 0x80,
    0x06, 0x21, 0x4e, 0x5d, 0x80, 0x00, 0x0a, 0x00, 0xff, 0xfe, 0x00, 0x00, 0x01, 0x00, 0x00, 0x20,
    0xee, 0xee, 0xee, 0xee, 0xee, 0xee, 0xee, 0xee,
];

const ANNOUNCED: Message = Message {
    domain: 0,
    flags: 0x0008,
    correction: 0,
    sender: MASTER,
    seq: 0,
    log_interval: 1,
    body: Body::Announce {
        origin: 0,
        said: Said {
            grandmaster: GRANDMASTER,
            quality: Quality {
                priority1: 128,
                class: 6,
                accuracy: 0x21,
                variance: 0x4e5d,
                priority2: 128,
            },
            steps: 0,
            utc_offset: 37,
            source: 0x20,
        },
    },
};

// A one-step Sync of 3.500049 s.
const SYNC: [u8; 44] = [
    0x00, 0x12, 0x00, 0x2c, 0x00, 0x00, 0x00, 0x00, 0x00, 0x00, 0x00, 0x00, 0x00, 0x00, 0x00, 0x00,
    0x00, 0x00, 0x00, 0x00, 0x00, 0x0a, 0x00, 0xff, 0xfe, 0x00, 0x00, 0x01, 0x00, 0x01, 0x00, 0x00,
    0x00, 0x00, 0x00, 0x00, 0x00, 0x00, 0x00, 0x03, 0x1d, 0xce, 0x24, 0x68,
];

const SYNCED: Message = Message {
    flags: 0,
    log_interval: 0,
    body: Body::Sync {
        origin: 3_500_049_000,
    },
    ..ANNOUNCED
};

// A Delay_Resp of 4.000051 s.
const DELAY_RESP: [u8; 54] = [
    0x09, 0x12, 0x00, 0x36, 0x00, 0x00, 0x00, 0x00, 0x00, 0x00, 0x00, 0x00, 0x00, 0x00, 0x00, 0x00,
    0x00, 0x00, 0x00, 0x00, 0x00, 0x0a, 0x00, 0xff, 0xfe, 0x00, 0x00, 0x01, 0x00, 0x01, 0x00, 0x00,
    0x03, 0x00, 0x00, 0x00, 0x00, 0x00, 0x00, 0x04, 0x00, 0x00, 0xc7, 0x38, 0x02, 0x00, 0x00, 0xff,
    0xfe, 0x00, 0x00, 0x01, 0x00, 0x01,
];

const ANSWERED: Message = Message {
    body: Body::DelayResp {
        receive: 4_000_051_000,
        requesting: PortId {
            clock: ClockId {
                id: 0x0200_00ff_fe00_0001,
            },
            port: 1,
        },
    },
    ..SYNCED
};

// A Follow_Up of 2^32 s and a half, in which no field of the header is 0 but the reserved ones.
const FOLLOW_UP: [u8; 44] = [
    0x08, 0x12, 0x00, 0x2c, 0x03, 0x00, 0x03, 0x3f, 0xff, 0xff, 0xff, 0xff, 0xff, 0xfe, 0x80, 0x00,
    0x00, 0x00, 0x00, 0x00, 0x11, 0x22, 0x33, 0x44, 0x55, 0x66, 0x77, 0x88, 0x99, 0xaa, 0x12, 0x34,
    0x02, 0xfc, 0x00, 0x01, 0x00, 0x00, 0x00, 0x00, 0x1d, 0xcd, 0x65, 0x00,
];

const FOLLOWED_UP: Message = Message {
    domain: 3,
    flags: 0x033f,
    correction: -98304,
    sender: PortId {
        clock: ClockId {
            id: 0x1122_3344_5566_7788,
        },
        port: 0x99aa,
    },
    seq: 0x1234,
    log_interval: -4,
    body: Body::FollowUp {
        precise: 4_294_967_296_500_000_000,
    },
};

// A Delay_Req of the last moment there is, one ns before 2^33 s.
const DELAY_REQ: [u8; 44] = [
    0x01, 0x12, 0x00, 0x2c, 0x7f, 0x00, 0x04, 0x00, 0x00, 0x00, 0x00, 0x00, 0x00, 0x01, 0x80, 0x00,
    0x00, 0x00, 0x00, 0x00, 0x02, 0x00, 0x00, 0xff, 0xfe, 0x00, 0x00, 0x02, 0x02, 0x03, 0xab, 0xcd,
    0x01, 0x7f, 0x00, 0x01, 0xff, 0xff, 0xff, 0xff, 0x3b, 0x9a, 0xc9, 0xff,
];

const ASKED: Message = Message {
    domain: 127,
    flags: 0x0400,
    correction: 98304,
    sender: PortId {
        clock: ClockId {
            id: 0x0200_00ff_fe00_0002,
        },
        port: 515,
    },
    seq: 43981,
    log_interval: 127,
    body: Body::DelayReq {
        origin: 8_589_934_591_999_999_999,
    },
};

// An Announce in which no field is 0 but the reserved ones.
const FAR_ANNOUNCE: [u8; 64] = [
    0x0b, 0x12, 0x00, 0x40, 0xff, 0x00, 0x01, 0x3c, 0x7f, 0xff, 0xff, 0xff, 0xff, 0xff, 0xff, 0xff,
    0x00, 0x00, 0x00, 0x00, 0xa1, 0xa2, 0xa3, 0xa4, 0xa5, 0xa6, 0xa7, 0xa8, 0xff, 0xfe, 0xff, 0xff,
    0x05, 0x80, 0x00, 0x00, 0x00, 0x00, 0x00, 0x01, 0x00, 0x00, 0x00, 0x02, 0xff, 0xdb, 0x00, 0xc1,
    0xc2, 0xc3, 0xc4, 0xc5, 0xc6, 0xd1, 0xd2, 0xd3, 0xd4, 0xd5, 0xd6, 0xd7, 0xd8, 0x01, 0x02, 0xe1,
];

const FAR_ANNOUNCED: Message = Message {
    domain: 255,
    flags: 0x013c,
    correction: i64::MAX,
    sender: PortId {
        clock: ClockId {
            id: 0xa1a2_a3a4_a5a6_a7a8,
        },
        port: 0xfffe,
    },
    seq: 0xffff,
    log_interval: -128,
    body: Body::Announce {
        origin: 1_000_000_002,
        said: Said {
            grandmaster: ClockId {
                id: 0xd1d2_d3d4_d5d6_d7d8,
            },
            quality: Quality {
                priority1: 0xc1,
                class: 0xc2,
                accuracy: 0xc3,
                variance: 0xc4c5,
                priority2: 0xc6,
            },
            steps: 258,
            utc_offset: -37,
            source: 0xe1,
        },
    },
};

#[test]
fn messages_stand_octet_by_octet(rt: HostRuntime) -> Result<(), Fail> {
    for (what, octets, domain, message) in [
        ("Announce", &ANNOUNCE[..64], 0, ANNOUNCED),
        ("Sync", SYNC.as_slice(), 0, SYNCED),
        ("Delay_Resp", DELAY_RESP.as_slice(), 0, ANSWERED),
        ("Follow_Up", FOLLOW_UP.as_slice(), 3, FOLLOWED_UP),
        ("Delay_Req", DELAY_REQ.as_slice(), 127, ASKED),
        ("far Announce", FAR_ANNOUNCE.as_slice(), 255, FAR_ANNOUNCED),
    ] {
        let read = decode(octets, domain).ok().ok_or(what)?;
        let mut written = Octets::new(rt.alloc());
        encode(&read, &mut written).ok().ok_or(what)?;
        let mut room = Room::with(rt.alloc(), written_length(&read))
            .ok()
            .ok_or(what)?;
        encode_reserved(&read, &mut room);
        assert_eq!(rt; read, message, "{what}");
        assert_eq!(rt; written.items(), octets, "{what}");
        assert_eq!(rt; room.items(), octets, "{what}");
    }
    Ok(())
}

// Changes of the Announce, how many octets of it there are, and what reading answers.
const READINGS: [(&str, &[(usize, u8)], usize, Result<Message, Reject>); 17] = [
    ("as it is", &[], 64, Ok(ANNOUNCED)),
    ("its last octet missing", &[], 63, Err(Reject::Length)),
    (
        "that, and messageLength 63",
        &[(3, 63)],
        63,
        Err(Reject::Length),
    ),
    ("messageLength 63", &[(3, 63)], 64, Err(Reject::Length)),
    ("eight octets more", &[], 72, Ok(ANNOUNCED)),
    ("those in messageLength", &[(3, 72)], 72, Ok(ANNOUNCED)),
    (
        "messageLength beyond them",
        &[(3, 73)],
        72,
        Err(Reject::Length),
    ),
    (
        "10^9 ns",
        &[(40, 0x3b), (41, 0x9a), (42, 0xca)],
        64,
        Err(Reject::Nanos),
    ),
    ("2^33 s", &[(35, 0x02)], 64, Err(Reject::TimeRange)),
    (
        "2^33 s and more than 10^9 ns",
        &[(35, 0x02), (40, 0xff)],
        64,
        Err(Reject::Nanos),
    ),
    ("version 1", &[(1, 0x11)], 64, Err(Reject::Version)),
    ("another domain", &[(4, 5)], 64, Err(Reject::Domain)),
    ("majorSdoId 1", &[(0, 0x1b)], 64, Err(Reject::Domain)),
    (
        "33 octets of version 1",
        &[(1, 0x11)],
        33,
        Err(Reject::Short),
    ),
    ("Signaling", &[(0, 0x0c)], 64, Err(Reject::Type_)),
    ("a bare header", &[(3, 34)], 34, Err(Reject::Length)),
    (
        "what is free",
        &[
            (1, 0xf2),
            (5, 0x55),
            (6, 0xf8),
            (7, 0xc8),
            (16, 1),
            (17, 2),
            (18, 3),
            (19, 4),
            (32, 9),
            (46, 0x77),
        ],
        64,
        Ok(ANNOUNCED),
    ),
];

// The Announce and what stands behind it, with some octets changed.
fn announce_with(changes: &[(usize, u8)]) -> Option<[u8; 72]> {
    let mut frame = ANNOUNCE;
    for (at, octet) in changes {
        *frame.get_mut(*at)? = *octet;
    }
    Some(frame)
}

#[test]
fn the_first_fault_is_given(rt: HostRuntime) -> Result<(), Fail> {
    for (what, changes, length, answer) in READINGS {
        let frame = announce_with(changes).ok_or(what)?;
        let octets = frame.get(..length).ok_or(what)?;
        assert_eq!(rt; decode(octets, 0), answer, "{what}");
    }
    Ok(())
}
