ghost use Rattle.model_clock.specs.Clock.{IsClock};
ghost use Rattle.ptp_base.specs.Floor.{IsWithin};
ghost use Rattle.ptp_base.specs.declared.time.TheConstants.{FREQ_MAX};

use crate::*;
use model_clock::ClockState;

const SECOND: u64 = 1_000_000_000;

/// 100 ppb of frequency.
const FAST: i64 = 6_553_600;

/// It holds within 1,000 ppb, and steps as it first locks alone.
const CONF: ServoConf = ServoConf {
    kp: 700,
    ki: 300,
    max: 1000,
    step: 0,
    first_step: 20_000,
};

/// A reading of a clock that showed a time at tick 0, in ns, and runs at a frequency.
fn reading(time: i64, freq: i64) -> Reading
    requires { IsWithin FREQ_MAX freq }
    ensures { IsClock result.state }
{
    Reading {
        number: 1,
        gener: 1,
        ctrl: 1,
        state: ClockState {
            tick: 0,
            time,
            freq,
            drift: 0,
        },
    }
}

#[test]
fn a_follower_locks_and_begins_anew_with_a_generation(rt: HostRuntime) {
    let mut follower = Follower::new(3, CONF);
    assert_eq!(rt; follower.clock(), 3);
    // The source shows the tick, the own clock 100 ns a second more than it showed at first.
    let theirs = reading(0, 0);
    for (gener, second, time, action) in [
        (1, 1, 49_900, Action::Unlocked),
        (
            1,
            2,
            49_800,
            Action::Jump {
                step: -50_000,
                freq: FAST,
            },
        ),
        (2, 3, 2_700, Action::Unlocked),
        (2, 4, 2_600, Action::Locked { freq: FAST }),
        // 10 ns ahead: 7 ppb and 3 ppb less.
        (2, 5, -490, Action::Locked { freq: 5_898_240 }),
    ] {
        let own = reading(time, FAST);
        let second: u8 = second;
        let tick = u64::from(second) * SECOND;
        assert_eq!(rt;
            follower.sample(Lead { gener, source: 1 }, &theirs, &own, tick),
            action,
            "{second}"
        );
    }
}
