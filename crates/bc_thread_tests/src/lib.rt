//! The tests of runs by threads: who acts at once, in what order, and what a whole run gives.
#![tactic(auto)]

#[cfg(test)]
mod gates;
#[cfg(test)]
mod order_tests;
#[cfg(test)]
mod run_tests;
#[cfg(test)]
mod texts;
