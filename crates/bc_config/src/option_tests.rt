use crate::*;
use bc_history::{NO_OPTIONS, Scope};
use model_clock::ClockState;
use ptp_base::PortConf;

#[test]
fn options_have_names(rt: HostRuntime) {
    for (section, word, number) in [
        (Scope::Global, b"clockIdentity".as_slice(), Some(0)),
        (Scope::Global, b"seat_rows", Some(22)),
        (Scope::Global, b"logSyncInterval", Some(24)),
        (Scope::Port, b"announceReceiptTimeout", Some(26)),
        (Scope::Clock, b"drift", Some(28)),
        (Scope::Global, b"drift", None),
        (Scope::Port, b"priority1", None),
        (Scope::Port, b"time", None),
        (Scope::Clock, b"logSyncInterval", None),
        (Scope::Global, b"Priority1", None),
        (Scope::Global, b"priority", None),
    ] {
        assert_eq!(rt; option_named(section, word), number);
    }
}

#[test]
fn values_are_in_range(rt: HostRuntime) {
    for (section, name, word, value) in [
        (
            Scope::Global,
            b"clockIdentity".as_slice(),
            b"020000.fffe.000001".as_slice(),
            Some(0x0200_00ff_fe00_0001),
        ),
        (Scope::Global, b"domainNumber", b"127", Some(127)),
        (Scope::Global, b"domainNumber", b"128", None),
        (Scope::Global, b"priority1", b"-0", None),
        (Scope::Global, b"clockAccuracy", b"0xfE", Some(254)),
        (Scope::Global, b"clockAccuracy", b"254", Some(254)),
        (Scope::Global, b"clockAccuracy", b"0x0fe", None),
        (
            Scope::Global,
            b"offsetScaledLogVariance",
            b"0xFFFF",
            Some(65535),
        ),
        (Scope::Global, b"max_frequency", b"0", None),
        (Scope::Global, b"step_threshold", b"0.0", Some(0)),
        (
            Scope::Global,
            b"first_step_threshold",
            b"0.00002",
            Some(20_000),
        ),
        (Scope::Global, b"window", b"0.001", Some(1_000_000)),
        (Scope::Global, b"window", b"0.000999999", None),
        (
            Scope::Global,
            b"duration",
            b"100000",
            Some(100_000_000_000_000),
        ),
        (Scope::Global, b"duration", b"100000.000000001", None),
        (Scope::Port, b"announceReceiptTimeout", b"1", None),
        (Scope::Port, b"logSyncInterval", b"-7", Some(-7)),
        (Scope::Port, b"logSyncInterval", b"-8", None),
        (
            Scope::Clock,
            b"time",
            b"8589934591999999999",
            Some(8_589_934_591_999_999_999),
        ),
        (Scope::Clock, b"time", b"8589934592000000000", None),
        (Scope::Clock, b"drift", b"-0", Some(0)),
        (Scope::Clock, b"drift", b"-10000000", Some(-10_000_000)),
        (Scope::Clock, b"drift", b"-10000001", None),
    ] {
        assert_eq!(rt; value_named(section, name, word), value);
    }
}

/// The value that a word stands for as one of an option that is named.
fn value_named(section: Scope, name: &[u8], word: &[u8]) -> Option<i128> {
    option_value(option_named(section, name)?, word)
}

#[test]
fn options_are_set(rt: HostRuntime) {
    let mut options = NO_OPTIONS;
    if let Some(number) = option_named(Scope::Global, b"duration")
        && let Some(value) = option_value(number, b"6.5")
    {
        set_option(&mut options, number, value);
    }
    assert_eq!(rt; options.duration, 6_500_000_000);
    let mut port = PortConf {
        clock: 2,
        log_announce: 1,
        log_sync: 0,
        log_delay: 0,
        receipt: 3,
    };
    if let Some(number) = option_named(Scope::Port, b"logAnnounceInterval")
        && let Some(value) = option_value(number, b"-3")
    {
        set_port_option(&mut port, number, value);
    }
    assert_eq!(rt; port.log_announce, -3);
    let mut clock = ClockState {
        tick: 0,
        time: 0,
        freq: 0,
        drift: 0,
    };
    if let Some(number) = option_named(Scope::Clock, b"drift")
        && let Some(value) = option_value(number, b"-2")
    {
        set_clock_option(&mut clock, number, value);
    }
    assert_eq!(rt; clock.drift, -131_072);
}

#[test]
fn rows_have_defaults(rt: HostRuntime) {
    assert_eq!(rt; default_named(b"follow_interval"), Some(1_000_000_000));
    assert!(rt; row(28).is_some());
    assert!(rt; row(29).is_none());
}

/// The default of an option of `[global]`.
fn default_named(name: &[u8]) -> Option<i128> {
    let row = row(option_named(Scope::Global, name)?)?;
    Some(row.default)
}
