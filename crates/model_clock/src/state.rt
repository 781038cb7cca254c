ghost use Rattle.std.specs.Prelude.{ℕ, ℤ, pos, ◌≡◌, ◌≤◌, ◌-◌, ◌+ℤ◌, ◌≤ℤ◌};
ghost use Rattle.model_clock.specs.Clock.{IsClock, held_time, time_gained, reading, after_change};
ghost use Rattle.ptp_base.specs.Floor.{IsWithin};

use ptp_base::{FREQ_MAX, TICK_MAX, TIME_MAX, floor_div};

/// What a frequency is divided by for the ratio that it means: 10^9 parts, each of them 65,536.
const WHOLE: i128 = 65_536_000_000_000;

/// A clock at a tick. Frequency and drift are in ppb times 65,536.
#[derive(Clone, Copy, Debug, PartialEq, Eq)]
pub struct ClockState {
    /// The tick of the last change, in ns of the scenario.
    pub tick: u64,
    /// What the clock read then, in ns.
    pub time: i64,
    /// How much faster than its own pace the clock was told to run.
    pub freq: i64,
    /// How much faster than the scenario's ticks the clock runs by itself.
    pub drift: i64,
}

// A time in ns, held within 0 and `TIME_MAX`.
fn held(time: i128) -> i64
    ensures value { result ≡ held_time time }
    ensures early { pos 0 ≤ℤ result }
    ensures late { result ≤ℤ TIME_MAX }
{
    if time > TIME_MAX as i128 {
        TIME_MAX
    } else if time < 0 {
        0
    } else {
        time as i64
    }
}

// A time in ns with a step, held likewise.
fn stepped(time: i64, step: i64) -> i64
    ensures { result ≡ held_time (time +ℤ step) }
{
    held(time as i128 + step as i128)
}

// How much time a clock counts at a rate while so many ns pass.
fn count(rate: i128, elapsed: u64) -> i128
    requires rate { IsWithin (pos 18446744073709551616) rate }
    requires elapsed { elapsed ≤ TICK_MAX }
    ensures value { result ≡ time_gained rate elapsed }
    ensures few { IsWithin (pos 1000000000000000000000000000000000000) result }
{
    let gained = floor_div(elapsed as i128 * rate, WHOLE);
    elapsed as i128 + gained
}

impl ClockState {
    // How much faster than the scenario's ticks the clock runs, in ppb times 65,536.
    fn rate(&self) -> i128
        ensures value { result ≡ self.now.drift +ℤ self.now.freq }
        ensures bound { IsWithin (pos 18446744073709551616) result }
    {
        self.drift as i128 + self.freq as i128
    }

    // The clock's time once it counted so much more.
    fn after(&self, counted: i128) -> i64
        requires { IsWithin (pos 1000000000000000000000000000000000000) counted }
        ensures value { result ≡ held_time (self.now.time +ℤ counted) }
        ensures early { pos 0 ≤ℤ result }
        ensures late { result ≤ℤ TIME_MAX }
    {
        held(self.time as i128 + counted)
    }

    /// What the clock reads at a tick, in ns from 0 to `TIME_MAX`. At a tick that isn't later than
    /// the state's it is what the clock read there.
    pub fn read(&self, tick: u64) -> i64
        requires asked { tick ≤ TICK_MAX }
        requires state { IsClock self.now }
        ensures value { result ≡ reading self.now tick }
        ensures early { pos 0 ≤ℤ result }
        ensures late { result ≤ℤ TIME_MAX }
    {
        let elapsed = tick.saturating_sub(self.tick);
        self.after(count(self.rate(), elapsed))
    }

    /// The state once `step` ns were added to the time and the frequency was set to `freq`, in ppb
    /// times 65,536, at `tick` or, where the state's own tick is later, at that.
    pub fn change(&self, tick: u64, step: i64, freq: i64) -> ClockState
        requires asked { tick ≤ TICK_MAX }
        requires state { IsClock self.now }
        requires step { IsWithin TIME_MAX step }
        requires freq { IsWithin FREQ_MAX freq }
        ensures value { result ≡ after_change self.now tick step freq }
        ensures again { IsClock result }
    {
        let at = tick.max(self.tick);
        ClockState {
            tick: at,
            time: stepped(self.read(at), step),
            freq,
            drift: self.drift,
        }
    }
}

/// A later tick never reads less, where the clock drifts by at most 10,000,000 ppb.
pub fn later_reads_no_less()
    ensures { (s : ClockState) (tick later : ℕ) → IsWithin FREQ_MAX s.freq →
        IsWithin (pos 655360000000) s.drift → tick ≤ later → reading s tick ≤ℤ reading s later }
{}
