//! The servo that keeps a clock to its master by its offsets from it. It is the project's own:
//! IEEE 1588-2019 leaves the servo to the clock.
#![tactic(auto)]

mod pi;
mod servo;
mod steerer;

pub use ptp_profile::{Action, ServoConf};
pub use servo::Servo;
pub use steerer::Steerer;

#[cfg(test)]
mod tests;
