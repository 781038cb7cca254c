//! Which runs of a scenario are open and which are legal, with worked examples and laws.
#![tactic(auto)]

mod assembly;
mod event_laws;
mod examples;
mod formed_laws;
mod laws;
mod named_laws;
mod world_laws;

pub use assembly::assemble;
pub use bc_history::Run;
pub use event_laws::{events_stay_right, right_entries_keep_courses};
pub use examples::{
    each_item_is_judged, follows_legally, nothing_is_left_out, steers_legally, windows_are_judged,
};
pub use formed_laws::open_runs_are_formed;
pub use laws::{
    changes_keep_courses, logs_grow, newer_orders_keep_numbers, numbers_are_within_logs,
    numbers_of_an_actor_rise, open_by_steps, ordered_stamps_are_holders, orders_are_newer,
    port_exchanges_keep_courses, the_world_begins_right,
};
pub use named_laws::{
    changes_stay_named, free_steps_stay_right, legal_by_steps, nothing_is_due_at_the_end,
};
pub use world_laws::{next_inputs_are_of_actors, world_runs_are_legal};
