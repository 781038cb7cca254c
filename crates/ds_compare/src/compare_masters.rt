ghost use Rattle.std.specs.Prelude.{◌≡◌};
ghost use Rattle.ptp_profile.specs.Best.Comparison.{by_master, quality_cmp};

use ptp_base::{Announcement, Quality};
use ptp_profile::Order;
use std::cmp::Ordering;

/// Compares qualities: the first attribute that differs decides
/// (IEEE 1588-2019, 9.3.4, figure 34).
fn quality_cmp(p: &Quality, q: &Quality) -> Ordering
    ensures { result ≡ quality_cmp p.now q.now }
{
    p.priority1
        .cmp(&q.priority1)
        .then(p.class.cmp(&q.class))
        .then(p.accuracy.cmp(&q.accuracy))
        .then(p.variance.cmp(&q.variance))
        .then(p.priority2.cmp(&q.priority2))
}

/// Compares announcements of different grandmasters: by the quality of these, and then by their
/// identity (IEEE 1588-2019, 9.3.4, figure 34).
pub(crate) fn by_master(a: &Announcement, b: &Announcement) -> Order
    ensures { result ≡ by_master a.now b.now }
{
    let masters = quality_cmp(&a.quality, &b.quality).then(a.grandmaster.cmp(&b.grandmaster));
    match masters {
        Ordering::Less => Order::ABetter,
        Ordering::Equal => Order::Same,
        Ordering::Greater => Order::BBetter,
    }
}
