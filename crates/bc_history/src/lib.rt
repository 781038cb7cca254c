//! What a scenario is, what a run is, and the definitions of a history that contracts cite.
#![tactic(auto)]

mod entry;
mod examples;
mod follower_laws;
mod formed_laws;
mod laws;
mod option;
mod option_laws;
mod place;
mod port_input;
mod port_laws;
mod rule_laws;
mod scenario;
mod section;
mod text_laws;

pub use entry::{
    Effects, Entries, Entry, Input, Moved, Moves, Outcome, RoleOrders, Run, Seen, Sends, Sent,
    Told, Who,
};
pub use examples::{
    class_decides, follows_a_master, follows_on_one_clock, frames_pair, handed_over, log_is_full,
    master_sends, qualification_waits, queries_are_answered, runs_are_finished, silent_ports,
    told_too_late, two_announces_qualify,
};
pub use follower_laws::{
    follower_places_are_by_leads, followers_are_told_by_their_own_entries,
    followers_keep_their_entries, followers_stay, leads_are_ordered,
};
pub use formed_laws::{entries_are_formed, openings_are_formed};
pub use laws::{
    at_most_one_follows, controllers_are_always_a_forest, edges_are_those_of_the_ports,
    entries_tell_by_their_kind, exchanges_agree, has_one_end, moments_never_fall,
    nothing_follows_the_end, ports_stay, readings_come_with_frames_and_timers,
};
pub use option::{Form, Scope};
pub use option_laws::{defaults_are_of_the_table, options_are_named};
pub use place::{FollowerPlace, PortPlace};
pub use port_input::{EventContext, PortEntry, PortHappening, PortInput};
pub use port_laws::{
    measures_bear_readings, measures_bear_their_ports_stamp, places_are_by_measures,
    ports_are_told_by_their_own_entries, ports_keep_their_entries,
};
pub use ptp_management::{Answers, AskError};
pub use ptp_profile::Logs;
pub use rule_laws::scenarios_keep_the_rules;
pub use scenario::{
    Asked, AskedList, ClockStates, Happening, NO_OPTIONS, Options, PortConfs, Record, RecordList,
    Scenario, Turner, Turns, TurnsList,
};
pub use section::{Header, Role, Section};
pub use text_laws::{
    a_text_stands_or_is_faulty, one_fault_is_first, one_scenario_stands, texts_are_judged,
};
