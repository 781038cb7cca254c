ghost use Rattle.std.specs.Prelude.{◌≡◌};
ghost use Rattle.delay_mech.specs.DelaysView.{IsCorrection, IsDelay};
ghost use Rattle.ptp_profile.specs.Timing.OffsetAndDelay.{offset_of};

use ptp_base::{Scaled, Triple, time_between};

/// The offset from the master (IEEE 1588-2019, 11.2) with a mean delay, both in ns times 65,536.
pub(crate) fn offset(t: &Triple, mean: Scaled) -> Scaled
    requires correction { IsCorrection t.now.correction }
    requires mean { IsDelay mean }
    ensures { result ≡ offset_of t.now mean }
{
    time_between(t.origin, t.arrived) - mean - t.correction
}
