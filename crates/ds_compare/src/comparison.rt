ghost use Rattle.std.specs.Prelude.{◌≡◌};
ghost use Rattle.ptp_profile.specs.Best.Comparison.{order_of};

use crate::compare_masters::by_master;
use crate::compare_paths::by_path;
use ptp_base::Announcement;
use ptp_profile::Order;

/// Which of two announcements is better. Where their grandmasters differ, these are compared; else
/// the paths to the one grandmaster are (IEEE 1588-2019, 9.3.4, figures 34 and 35).
pub fn compare(a: &Announcement, b: &Announcement) -> Order
    ensures { result ≡ order_of a.now b.now }
{
    if a.grandmaster == b.grandmaster {
        by_path(a, b)
    } else {
        by_master(a, b)
    }
}
