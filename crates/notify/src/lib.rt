//! What the hub puts before a follower that has subscribed, until the follower takes it. It is the
//! project's own, after the subscriptions of phc2sys to ptp4l.
#![tactic(auto)]

mod calls;
mod ring;

pub use calls::{Answer, Call};
pub use ptp_profile::{Lead, Notice};
pub use ring::{PUT_MAX, Ring, Taken};

#[cfg(test)]
mod tests;
