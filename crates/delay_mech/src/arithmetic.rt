ghost use Rattle.std.specs.Prelude.{◌≡◌, pos, ◌^◌, ◌+ℤ◌, ◌-ℤ◌, ◌*ℤ◌};
ghost use Rattle.ptp_base.specs.Floor.{IsWithin, floor_of};
ghost use Rattle.ptp_profile.specs.Timing.OffsetAndDelay.{delay_sum, delay_of};
ghost use Rattle.delay_mech.specs.DelaysView.{IsCorrection, IsDelay};

use ptp_base::{Scaled, Triple, floor_div, time_between};

/// Twice the delay (IEEE 1588-2019, 11.3.2), in ns times 65,536.
fn delay_sum(t: &Triple, sent: i64, received: i64, correction: i64) -> Scaled
    requires { IsCorrection t.now.correction }
    ensures exact { result ≡ delay_sum t.now sent received correction }
    ensures within { IsWithin (pos (2 ^ 82)) result }
{
    let there = time_between(sent, t.arrived);
    let back = time_between(t.origin, received);
    there + back - t.correction - i128::from(correction)
}

/// The floor of half a number.
pub(crate) fn half(sum: Scaled) -> Scaled
    ensures { result ≡ floor_of sum (pos 2) }
{
    floor_div(sum, 2)
}

/// The floor of the middle between two delays, in ns times 65,536.
pub(crate) fn halfway(a: Scaled, b: Scaled) -> Scaled
    requires first { IsDelay a }
    requires second { IsDelay b }
    ensures exact { result ≡ floor_of (a +ℤ b) (pos 2) }
    ensures within { IsDelay result }
{
    half(a + b)
}

/// The delay that a Sync, a Delay_Req and its Delay_Resp show (IEEE 1588-2019, 11.3.2), rounded
/// towards minus infinity, in ns times 65,536. `sent` and `received` are the times of the Delay_Req,
/// in ns, and `correction` is that of the Delay_Resp, in ns times 65,536.
pub(crate) fn delay(t: &Triple, sent: i64, received: i64, correction: i64) -> Scaled
    requires { IsCorrection t.now.correction }
    ensures exact { result ≡ delay_of t.now sent received correction }
    ensures within { IsDelay result }
{
    half(delay_sum(t, sent, received, correction))
}
