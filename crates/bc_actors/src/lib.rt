//! A scenario run by threads: a thread for each actor, over one lock.
#![tactic(auto)]

mod acting;
mod gate;
mod laws;
mod rounds;
mod run;

pub use gate::{Gate, NoGate};
pub use laws::runs_by_windows_are_windowed;
pub use run::{RunError, run_windows};
