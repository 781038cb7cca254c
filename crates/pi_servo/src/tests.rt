use crate::*;
use ptp_base::TIME_MAX;

const SECOND: u64 = 1_000_000_000;

// A ppb of frequency.
const PPB: i64 = 65_536;

// It holds within 1,000 ppb, and steps as it first locks alone.
const CONF: ServoConf = ServoConf {
    kp: 700,
    ki: 300,
    max: 1000,
    step: 0,
    first_step: 20_000,
};

// It never steps, and has the given limit and gains.
fn plain(max: u32, gain: u32) -> ServoConf {
    ServoConf {
        kp: gain,
        ki: gain,
        max,
        step: 0,
        first_step: 0,
    }
}

// The magnitude of the frequency that is asked for.
fn asked(action: Action) -> u64 {
    match action {
        Action::Unlocked => 0,
        Action::Jump { freq, .. } => freq.unsigned_abs(),
        Action::Locked { freq } => freq.unsigned_abs(),
    }
}

fn locked(freq: i64) -> Action {
    Action::Locked { freq }
}

#[test]
fn a_servo_holds_at_its_limit_and_comes_back(rt: HostRuntime) {
    let mut servo = Servo::new(CONF, 0);
    assert_eq!(rt; servo.sample(100, SECOND), Action::Unlocked);
    assert_eq!(rt; servo.sample(100, 2 * SECOND), locked(0));
    assert_eq!(rt; servo.sample(1000, 3 * SECOND), locked(-1000 * PPB));
    assert_eq!(rt; servo.sample(1000, 4 * SECOND), locked(-1000 * PPB));
    assert_eq!(rt; servo.sample(0, 5 * SECOND), locked(-300 * PPB));
}

#[test]
fn a_servo_jumps_beyond_the_first_threshold(rt: HostRuntime) {
    let mut near = Servo::new(CONF, 0);
    assert_eq!(rt; near.sample(20_000, SECOND), Action::Unlocked);
    assert_eq!(rt; near.sample(20_000, 2 * SECOND), locked(0));
    let mut far = Servo::new(CONF, 0);
    assert_eq!(rt; far.sample(20_001, SECOND), Action::Unlocked);
    assert_eq!(rt;
        far.sample(20_001, 2 * SECOND),
        Action::Jump {
            step: -20_001,
            freq: 0,
        }
    );
    // It runs, and its other threshold is none.
    assert_eq!(rt; far.sample(-20_001, 3 * SECOND), locked(1000 * PPB));
}

#[test]
fn a_servo_waits_for_a_later_local_time(rt: HostRuntime) {
    let mut servo = Servo::new(CONF, 0);
    assert_eq!(rt; servo.sample(100, SECOND), Action::Unlocked);
    assert_eq!(rt; servo.sample(100, SECOND), Action::Unlocked);
    assert_eq!(rt; servo.sample(100, SECOND), Action::Unlocked);
    assert_eq!(rt; servo.sample(100, 2 * SECOND), locked(0));
}

#[test]
fn parts_and_estimates_are_rounded_down(rt: HostRuntime) {
    let mut servo = Servo::new(CONF, 0);
    assert_eq!(rt; servo.sample(0, SECOND), Action::Unlocked);
    assert_eq!(rt; servo.sample(0, 2 * SECOND), locked(0));
    // Of -45,875.2 and -19,660.8 the floors are -45,876 and -19,661.
    assert_eq!(rt; servo.sample(-1, 3 * SECOND), locked(65_537));
    assert_eq!(rt; servo.sample(0, 4 * SECOND), locked(19_661));
    // A third of 65,536,000 is 21,845,333.3.
    let mut falling = Servo::new(CONF, 0);
    assert_eq!(rt; falling.sample(0, SECOND), Action::Unlocked);
    assert_eq!(rt; falling.sample(-1000, 4 * SECOND), locked(21_845_334));
}

#[test]
fn the_greatest_offsets_stay_within_the_limit(rt: HostRuntime) {
    for (max, gain) in [
        (1, 0),
        (1, 10_000),
        (900_000_000, 0),
        (900_000_000, 10_000),
        (u32::MAX, u32::MAX),
    ] {
        let conf = plain(max, gain);
        let most = max as u64 * 65_536;
        let mut servo = Servo::new(conf, i64::MIN);
        assert_eq!(rt; servo.sample(-TIME_MAX, 0), Action::Unlocked);
        assert_eq!(rt; asked(servo.sample(TIME_MAX, 1)), most);
        assert!(rt; asked(servo.sample(TIME_MAX, 2)) <= most);
        assert!(rt; asked(servo.sample(-TIME_MAX, u64::MAX)) <= most);
    }
}

#[test]
fn a_generation_begins_at_the_frequency_of_its_first_sample(rt: HostRuntime) {
    let mut steerer = Steerer::new(CONF);
    assert_eq!(rt; steerer.sample(0, 100 * PPB, 50, SECOND), Action::Unlocked);
    assert_eq!(rt; steerer.sample(0, 0, 50, 2 * SECOND), locked(100 * PPB));
    assert_eq!(rt;
        steerer.sample(7, -5 * PPB, 50, 3 * SECOND),
        Action::Unlocked
    );
    assert_eq!(rt;
        steerer.sample(7, 900 * PPB, 50, 4 * SECOND),
        locked(-5 * PPB)
    );
    assert_eq!(rt;
        steerer.sample(0, 2000 * PPB, 50, 5 * SECOND),
        Action::Unlocked
    );
    assert_eq!(rt; steerer.sample(0, 0, 50, 6 * SECOND), locked(1000 * PPB));
}
