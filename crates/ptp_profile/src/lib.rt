//! The rules of one clock, one port and one message, as definitions that contracts cite, and the
//! data types that these speak of.
#![tactic(auto)]

mod best_laws;
pub mod big_endian;
mod comparison;
mod foreign_master;
mod message;
mod port_best;
mod port_event;
mod role_laws;
mod roles;
mod seats;
mod timing;
mod timing_laws;
mod wire_laws;

pub use best_laws::{
    announces_heard, best_wins, class_decides, coherent_sets, masters_compared, one_follows,
    pass_in_order, paths_compared, ports_decided, qualified_set, two_qualify,
};
pub use comparison::Order;
pub use foreign_master::{Heard, KeptAnnounce};
pub use message::{Body, Message, Reject, Said};
pub use port_best::PortBest;
pub use port_event::{Fate, PortEvent, Timer};
pub use role_laws::{
    a_change_bears_the_stamp_in_force, a_changed_clock_is_taken_and_given,
    a_generation_has_few_orders, a_lawful_log_has_the_last_stamp, a_new_parent_is_a_new_edge,
    a_part_of_a_forest_is_one, a_port_drives_the_other_clock, a_port_without_lock_keeps_its_clock,
    a_stamp_was_ordered, an_old_holder_is_superseded, copying_in_a_circle_is_no_forest,
    edges_make_a_forest, entries_are_numbered_from_one, lawful_logs_grow,
    one_port_drives_all_clocks, one_port_takes_over, orders_lead_to_the_new_edges,
    orders_leave_forests, orders_leave_parts, roles_change_sides, stamps_have_the_controllers,
    the_same_edges_are_equal, two_logs_are_lawful,
};
pub use roles::{Edge, Lead, Notice, RoleOrder, Stamp};
pub use seats::{Held, Log, LogEntries, LogEntry, Logs, Reading, Receipt, Refused};
pub use timing::{Action, Measure, ServoConf};
pub use timing_laws::{
    drift_is_estimated, examples_are_answered, examples_are_clocked, examples_are_measured,
    examples_are_paired, examples_are_steered, examples_are_steered_anew, median_is_of_all,
    steering_is_gentle,
};
pub use wire_laws::{
    decoded_is_what_is_read, examples_are_dropped, examples_are_read, examples_are_written,
    free_octets, holds_numbers, one_spelling, port_numbers_fit,
};
