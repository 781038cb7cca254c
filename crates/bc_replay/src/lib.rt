//! The run of a scenario: a loop over the actors, of whom at each turn one takes its next step.
#![tactic(auto)]

mod actors;
mod laws;
mod run;
mod step;
mod turn;

pub use actors::actors_of;
pub use laws::{the_default_turn_is_of_an_actor, the_loop_is_the_world};
pub use run::{ReplayError, replay};
pub use step::take_step;
