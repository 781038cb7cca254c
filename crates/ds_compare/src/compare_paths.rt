ghost use Rattle.std.specs.Prelude.{◌≡◌, ◌+◌};
ghost use Rattle.ptp_profile.specs.Best.Comparison.{by_path, ends_cmp};

use ptp_base::Announcement;
use ptp_profile::Order;
use std::cmp::Ordering;

/// Compares the ends of two paths with equal steps: the senders, and then the port numbers of the
/// receivers (IEEE 1588-2019, 9.3.4, figure 35).
fn ends_cmp(a: &Announcement, b: &Announcement) -> Ordering
    ensures { result ≡ ends_cmp a.now b.now }
{
    let senders = a.sender.cmp(&b.sender);
    let receivers = a.receiver.port.cmp(&b.receiver.port);
    senders.then(receivers)
}

/// Compares announcements of one grandmaster: by the steps, where these differ by two or more, and
/// else by the ends of the paths (IEEE 1588-2019, 9.3.4, figure 35).
pub(crate) fn by_path(a: &Announcement, b: &Announcement) -> Order
    ensures { result ≡ by_path a.now b.now }
{
    // In u32, since one step more than the most is no u16.
    let steps = u32::from(a.steps);
    let other_steps = u32::from(b.steps);
    if steps + 1 < other_steps {
        return Order::ABetter;
    }
    if other_steps + 1 < steps {
        return Order::BBetter;
    }
    match steps.cmp(&other_steps) {
        // The steps differ by one: the ends of the longer path say whether topology alone decides.
        Ordering::Less => match b.receiver.cmp(&b.sender) {
            Ordering::Less => Order::ABetter,
            Ordering::Equal => Order::Same,
            Ordering::Greater => Order::ATopo,
        },
        Ordering::Greater => match a.receiver.cmp(&a.sender) {
            Ordering::Less => Order::BBetter,
            Ordering::Equal => Order::Same,
            Ordering::Greater => Order::BTopo,
        },
        Ordering::Equal => match ends_cmp(a, b) {
            Ordering::Less => Order::ATopo,
            Ordering::Equal => Order::Same,
            Ordering::Greater => Order::BTopo,
        },
    }
}
