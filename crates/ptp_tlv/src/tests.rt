use crate::*;
use ptp_base::{ClockId, Octets, PortId};
use std::test::Fail;

const OWN: ClockId = ClockId {
    id: 0x0200_00ff_fe00_0001,
};

// A response of the own clock to port 1 of clock 0: PRIORITY1 is 128. Behind it stand four octets.
const ANSWER: [u8; 60] = [
    0x0d, 0x12, 0x00, 0x38, 0x00, 0x00, 0x00, 0x00, 0x00, 0x00, 0x00, 0x00, 0x00, 0x00, 0x00, 0x00,
    0x00, 0x00, 0x00, 0x00, 0x02, 0x00, 0x00, 0xff, 0xfe, 0x00, 0x00, 0x01, 0x00, 0x00, 0x00, 0x00,
    0x04, 0x7f, 0x00, 0x00, 0x00, 0x00, 0x00, 0x00, 0x00, 0x00, 0x00, 0x01, 0x00, 0x00, 0x02, 0x00,
    0x00, 0x01, 0x00, 0x04, 0x20, 0x05, 0x80, 0x00, 0x00, 0x00, 0x00, 0x00,
];

// An error that acknowledges a command: PRIORITY1 does not support it. Its domain is 5.
const ERROR: [u8; 60] = [
    0x0d, 0x12, 0x00, 0x3c, 0x05, 0x00, 0x00, 0x00, 0x00, 0x00, 0x00, 0x00, 0x00, 0x00, 0x00, 0x00,
    0x00, 0x00, 0x00, 0x00, 0x02, 0x00, 0x00, 0xff, 0xfe, 0x00, 0x00, 0x01, 0x00, 0x07, 0x01, 0x02,
    0x04, 0x7f, 0xa1, 0xa2, 0xa3, 0xa4, 0xa5, 0xa6, 0xa7, 0xa8, 0xff, 0xfe, 0x00, 0x00, 0x04, 0x00,
    0x00, 0x02, 0x00, 0x08, 0x00, 0x06, 0x20, 0x05, 0x00, 0x00, 0x00, 0x00,
];

#[test]
fn messages_are_read_and_written(rt: HostRuntime) -> Result<(), Fail> {
    let answer = read(rt.alloc(), &ANSWER[..56], 0).ok().ok_or("answer")?;
    let error = read(rt.alloc(), &ERROR, 5).ok().ok_or("error")?;
    let own = PortId {
        clock: OWN,
        port: 0,
    };
    assert_eq!(rt;
        (answer.sender, answer.seq, answer.action),
        (own, 0, Action::Response)
    );
    assert_eq!(rt; (answer.target.clock.id, answer.target.port), (0, 1));
    assert_eq!(rt;
        (error.sender.port, error.seq, error.action),
        (7, 0x0102, Action::Acknowledge)
    );
    assert_eq!(rt;
        (error.target.clock.id, error.target.port),
        (0xa1a2_a3a4_a5a6_a7a8, 0xfffe)
    );
    let Tlv::Management { id, octets } = &answer.tlv else {
        return Err("management")?;
    };
    assert_eq!(rt; (*id, octets.items()), (0x2005, [0x80, 0x00].as_slice()));
    assert!(rt;
        matches!(
            &error.tlv,
            Tlv::Error {
                error: 6,
                id: 0x2005
            }
        )
    );

    let mut written = Octets::new(rt.alloc());
    write(rt.alloc(), &error, 5, &mut written)
        .ok()
        .ok_or("write")?;
    assert_eq!(rt; written.items(), ERROR.as_slice());
    Ok(())
}

// Changes of the answer, how many octets of it there are, and whether they are a message.
const READINGS: [(&str, &[(usize, u8)], usize, bool); 17] = [
    ("as it is", &[], 56, true),
    ("octets behind it", &[], 60, true),
    ("its last octet missing", &[], 55, false),
    ("33 octets", &[], 33, false),
    ("version 1", &[(1, 0x11)], 56, false),
    ("majorSdoId 1", &[(0, 0x1d)], 56, false),
    ("Signaling", &[(0, 0x0c)], 56, false),
    ("another domain", &[(4, 1)], 56, false),
    ("messageLength 55", &[(3, 55)], 56, false),
    ("messageLength beyond the TLV", &[(3, 57)], 60, false),
    (
        "that, and an odd lengthField",
        &[(3, 57), (51, 5)],
        60,
        true,
    ),
    ("no managementId", &[(3, 52), (51, 0)], 56, false),
    ("lengthField 1", &[(3, 53), (51, 1)], 56, false),
    ("an error of another length", &[(49, 2)], 56, false),
    ("another TLV", &[(49, 3)], 56, false),
    ("action 5", &[(46, 5)], 56, false),
    (
        "what is free",
        &[
            (5, 9),
            (6, 9),
            (8, 9),
            (16, 9),
            (32, 9),
            (33, 9),
            (44, 9),
            (45, 9),
            (46, 0xf2),
            (47, 9),
        ],
        56,
        true,
    ),
];

// The answer with some octets changed.
fn answer_with(changes: &[(usize, u8)]) -> Option<[u8; 60]> {
    let mut octets = ANSWER;
    for (at, octet) in changes {
        *octets.get_mut(*at)? = *octet;
    }
    Some(octets)
}

#[test]
fn what_is_no_message_is_bad(rt: HostRuntime) -> Result<(), Fail> {
    for (what, changes, length, good) in READINGS {
        let octets = answer_with(changes).ok_or(what)?;
        let octets = octets.get(..length).ok_or(what)?;
        assert_eq!(rt; read(rt.alloc(), octets, 0).is_ok(), good, "{what}");
        assert_eq!(rt; lend(octets, 0).is_some(), good, "{what}");
    }
    Ok(())
}

// Name, number, octets and fields of each message.
const ROWS: [(&str, u16, usize, usize); 9] = [
    ("NULL_MANAGEMENT", 0x0000, 0, 0),
    ("DEFAULT_DATA_SET", 0x2000, 20, 11),
    ("CURRENT_DATA_SET", 0x2001, 18, 3),
    ("PARENT_DATA_SET", 0x2002, 32, 11),
    ("TIME_PROPERTIES_DATA_SET", 0x2003, 4, 3),
    ("PORT_DATA_SET", 0x2004, 26, 10),
    ("PRIORITY1", 0x2005, 2, 2),
    ("PRIORITY2", 0x2006, 2, 2),
    ("DOMAIN", 0x2007, 2, 2),
];

#[test]
fn the_table_is_as_it_stands(rt: HostRuntime) -> Result<(), Fail> {
    for (name, number, octets, fields) in ROWS {
        let id = numbered(number).ok_or(name)?;
        assert!(rt; named(name.as_bytes()) == Some(id));
        assert_eq!(rt; name_of(id), name);
        assert_eq!(rt; number_of(id), number);
        assert_eq!(rt; width_of(id), octets);
        assert_eq!(rt; fields_of(id).len(), fields);
    }
    assert!(rt; numbered(0x2008).is_none() && named(b"Domain") == Some(ManagementId::Domain));
    assert_eq!(rt; shape_of(Field::PortIdentity).width, 10);
    Ok(())
}
