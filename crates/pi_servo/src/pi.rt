ghost use Rattle.std.specs.Prelude.{ℕ, ℤ, pos, ◌≡◌, ◌<◌, ◌≤◌, ◌^◌, ◌+ℤ◌, ◌-ℤ◌, ◌*ℤ◌, ◌<ℤ◌, ◌≤ℤ◌, neg_ℤ, nat_lt, nat_abs, if◌then◌else◌};
ghost use Rattle.ptp_base.specs.Floor.{IsWithin, floor_of};
ghost use Rattle.ptp_profile.specs.declared.timing.Action.TheVariants.{Locked};
ghost use Rattle.ptp_profile.specs.Timing.Servo.{limit, held_within, part, is_beyond, estimate, counteraction, is_past_limit, is_stepped_away, first_action, IsGentle};
ghost use Rattle.pi_servo.specs.ServoView.{sample_at, IsDrift};

use ptp_base::{TIME_MAX, floor_div};
use ptp_profile::{Action, ServoConf};

/// What a frequency is divided by for the ratio that it means: 10^9 parts, each of them 65,536.
const WHOLE: i128 = 65_536_000_000_000;

/// The greatest magnitude of a frequency, in ppb times 65,536. It is below 2^48, whatever `max` is.
pub(crate) fn limit(conf: &ServoConf) -> u64
    ensures value { result ≡ limit conf.now }
    ensures few { result < 2 ^ 48 }
{
    conf.max as u64 * 65_536
}

/// A frequency in ppb times 65,536, held within a greatest magnitude. Both ends are within.
pub(crate) fn held_within(most: u64, freq: i128) -> i64
    requires { most < 2 ^ 48 }
    ensures value { result ≡ held_within most freq }
    ensures within { IsWithin (pos most) result }
{
    if freq > most as i128 {
        most as i64
    } else if freq < -(most as i128) {
        -(most as i64)
    } else {
        freq as i64
    }
}

/// Whether an offset in ns is above a threshold, of which 0 stands for none.
pub(crate) fn is_beyond(threshold: u64, offset: i64) -> bool
    ensures { result ≡ is_beyond threshold offset }
{
    threshold != 0 && offset.unsigned_abs() > threshold
}

/// An offset of the clock, and when it was measured.
#[derive(Clone, Copy)]
pub(crate) struct Point {
    /// How far the clock was ahead, in ns.
    pub offset: i64,
    /// The local time, in ns.
    pub local: u64,
}

impl Point {
    /// How much the offset grew since an earlier point, in ns.
    fn change_since(&self, first: &Point) -> i128
        ensures value { result ≡ (self.now.offset -ℤ first.now.offset) }
        ensures few { IsWithin (pos (2 ^ 64)) result }
    {
        self.offset as i128 - first.offset as i128
    }

    /// How long ago an earlier point was measured, in ns.
    fn elapsed_since(&self, first: &Point) -> i128
        requires { first.now.local < self.now.local }
        ensures value { result ≡ (pos self.now.local -ℤ pos first.now.local) }
        ensures positive { pos 0 <ℤ result }
    {
        self.local as i128 - first.local as i128
    }
}

/// The pace that a clock has without the drift, in parts of `WHOLE`.
fn pace_without(drift: i64) -> i128
    requires { IsWithin (pos (2 ^ 48)) drift }
    ensures value { result ≡ (pos 65536000000000 -ℤ drift) }
    ensures few { IsWithin (pos (2 ^ 49)) result }
{
    WHOLE - drift as i128
}

/// A change in ns at a pace.
fn paced(change: i128, pace: i128) -> i128
    requires change { IsWithin (pos (2 ^ 64)) change }
    requires pace { IsWithin (pos (2 ^ 49)) pace }
    ensures value { result ≡ (change *ℤ pace) }
    ensures few { IsWithin (pos (2 ^ 113)) result }
{
    change * pace
}

/// The drift beside the former one that a paced change in so many ns shows, rounded down.
fn shown(paced: i128, elapsed: i128) -> i128
    requires paced { IsWithin (pos (2 ^ 113)) paced }
    requires elapsed { pos 0 <ℤ elapsed }
    ensures value { result ≡ floor_of paced elapsed }
    ensures few { IsWithin (pos (2 ^ 113)) result }
{
    floor_div(paced, elapsed)
}

/// The drift that the change of the offset since the first point shows, in ppb times 65,536, held
/// within the limit.
pub(crate) fn estimate(conf: &ServoConf, first: &Point, point: &Point, drift: i64) -> i64
    requires order { first.now.local < point.now.local }
    requires drift { IsDrift conf.now drift }
    ensures value { (gener : ℕ) (freq : ℤ)
        → let x = sample_at gener freq point.now.offset point.now.local in
        result ≡ estimate conf.now x first.now.offset (pos first.now.local) drift }
    ensures within { IsDrift conf.now result }
    ensures few { IsWithin (pos (2 ^ 48)) result }
{
    let most = limit(conf);
    let paced = paced(point.change_since(first), pace_without(drift));
    let shown = shown(paced, point.elapsed_since(first));
    held_within(most, plus(drift, shown))
}

/// Whether the offset is stepped away as an estimate is made.
fn jumps(conf: &ServoConf, offset: i64, locked: bool) -> bool
    ensures { (gener : ℕ) (freq : ℤ) (local : ℕ)
        → result ≡ is_stepped_away conf.now (sample_at gener freq offset local) locked }
{
    !locked && is_beyond(conf.first_step, offset) || is_beyond(conf.step, offset)
}

/// The action at an offset in ns, after whose estimate the drift is as said. `locked` tells whether
/// the servo had locked before.
pub(crate) fn first_action(conf: &ServoConf, offset: i64, locked: bool, drift: i64) -> Action
    requires offset { IsWithin TIME_MAX offset }
    requires drift { IsDrift conf.now drift }
    requires few { IsWithin (pos (2 ^ 48)) drift }
    ensures value { (gener : ℕ) (freq : ℤ) (local : ℕ)
        → result ≡ first_action conf.now (sample_at gener freq offset local) locked drift }
    ensures gentle { IsGentle conf.now result }
{
    if jumps(conf, offset, locked) {
        Action::Jump {
            step: -offset,
            freq: -drift,
        }
    } else {
        Action::Locked { freq: -drift }
    }
}

/// An offset times a gain, in ppb times 65,536, and each of these in thousandths.
fn scaled(gain: u32, offset: i64) -> i128
    ensures { result ≡ ((pos gain *ℤ offset) *ℤ pos 65536) }
{
    gain as i128 * offset as i128 * 65_536
}

/// A ppb for each ns of the offset, times a gain in thousandths: in ppb times 65,536, rounded down.
/// It is on the offset's side of 0.
fn part(gain: u32, offset: i64) -> i128
    ensures value { result ≡ part gain offset }
    ensures few { IsWithin (pos (2 ^ 111)) result }
    ensures rises { pos 0 ≤ℤ offset → pos 0 ≤ℤ result }
    ensures falls { offset ≤ℤ pos 0 → result ≤ℤ pos 0 }
{
    floor_div(scaled(gain, offset), 1000)
}

/// The drift and what is added to it, in ppb times 65,536.
fn plus(drift: i64, part: i128) -> i128
    requires { IsWithin (pos (2 ^ 113)) part }
    ensures value { result ≡ (drift +ℤ part) }
    ensures few { IsWithin (pos (2 ^ 114)) result }
{
    drift as i128 + part
}

/// What is counteracted, before it is held: the drift, the proportional part and the integral part,
/// in ppb times 65,536.
fn wanted(conf: &ServoConf, offset: i64, drift: i64) -> i128
    ensures { (gener : ℕ) (freq : ℤ) (local : ℕ)
        → result ≡ counteraction conf.now (sample_at gener freq offset local) drift }
{
    plus(drift, part(conf.kp, offset)) + part(conf.ki, offset)
}

/// Whether a frequency passes an end of a greatest magnitude.
fn is_outside(most: u64, freq: i128) -> bool
    ensures { result ≡ nat_lt most (nat_abs freq) }
{
    freq.unsigned_abs() > most as u128
}

/// The drift and the integral part, where they don't pass an end.
fn with_integral(conf: &ServoConf, offset: i64, drift: i64) -> i64
    requires { IsWithin (pos (2 ^ 48)) (drift +ℤ part conf.now.ki offset) }
    ensures { result ≡ (drift +ℤ part conf.now.ki offset) }
{
    plus(drift, part(conf.ki, offset)) as i64
}

/// The drift of a servo that runs, once the integral part is added. It stays where the frequency is
/// held at an end: what the clock can't follow isn't to be summed up.
pub(crate) fn running_drift(conf: &ServoConf, offset: i64, drift: i64) -> i64
    requires { IsDrift conf.now drift }
    ensures value { (gener : ℕ) (freq : ℤ) (local : ℕ)
        → result ≡ (if is_past_limit conf.now (sample_at gener freq offset local) drift
        then drift else (drift +ℤ part conf.now.ki offset)) }
    ensures within { IsDrift conf.now result }
{
    if is_outside(limit(conf), wanted(conf, offset, drift)) {
        drift
    } else {
        with_integral(conf, offset, drift)
    }
}

/// The action of a servo that runs at an offset in ns, by the drift before it.
pub(crate) fn running_action(conf: &ServoConf, offset: i64, drift: i64) -> Action
    ensures value { (gener : ℕ) (freq : ℤ) (local : ℕ)
        → let freq_wanted = counteraction conf.now (sample_at gener freq offset local) drift in
        result ≡ Locked (neg_ℤ (held_within (limit conf.now) freq_wanted)) }
    ensures gentle { IsGentle conf.now result }
{
    let held = held_within(limit(conf), wanted(conf, offset, drift));
    Action::Locked { freq: -held }
}
