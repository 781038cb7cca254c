ghost use Rattle.std.specs.Prelude.{◌≡◌, ◌≢◌, [], All, IfSome};
ghost use Rattle.ptp_profile.specs.Timing.OffsetAndDelay.{median, middle};
ghost use Rattle.delay_mech.specs.DelaysView.{IsDelay};

use crate::arithmetic::halfway;
use ptp_base::Scaled;

/// Of numbers in rising order the middle one, or the floor of half the sum of the middle two.
fn middle(numbers: &[Scaled]) -> Scaled
    requires some { numbers.now ≢ [] }
    requires small { All IsDelay numbers.now }
    ensures exact { result ≡ middle numbers.now }
    ensures within { IsDelay result }
{
    let count = numbers.len();
    if count % 2 == 1 {
        numbers[count / 2]
    } else {
        halfway(numbers[count / 2 - 1], numbers[count / 2])
    }
}

/// The median of numbers, which are put in rising order, or None where there is none.
pub(crate) fn median(numbers: &mut [Scaled]) -> Option<Scaled>
    requires { All IsDelay numbers.old }
    ensures exact { result ≡ median numbers.old }
    ensures within { IfSome result IsDelay }
{
    if numbers.is_empty() {
        return None;
    }
    numbers.sort_unstable();
    Some(middle(numbers))
}
