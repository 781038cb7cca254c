//! Histories that windows made: nothing falls behind a window, so windows keep their order.
#![tactic(auto)]

mod examples;
mod laws;

pub use examples::windows_make_a_history;
pub use laws::{finished_is_beyond_the_end, nothing_falls_behind, windows_keep_their_order};
