//! The types that all crates share, in the terms of IEEE 1588-2019, and the arithmetic of times.
#![tactic(auto)]

mod announcement;
mod code;
mod header;
mod identity;
mod items;
mod limits;
mod octets;
mod port_conf;
mod port_state;
mod room;
mod time;
mod triple;

pub use announcement::{Announcement, Quality, TimeProps};
pub use code::Code;
pub use header::{Head, eight, head_put, port_put, two};
pub use identity::{ClockId, PortId};
pub use items::Items;
pub use limits::{
    CLOCKS_MAX, CONTROLLER_PORTS, DELAYS_MAX, ENTRIES_MAX, FOLLOWER_BASE,
    FOREIGN_MASTER_TIME_WINDOW, FRAME_MAX, GENERATION_MAX, NOTICES_MAX, ORDERS_MAX, PORTS_MAX,
    QUERY_MAX, ROWS_MAX, SENDERS_MAX, SENT_MAX, STEPS_END, TEXT_MAX,
};
pub use octets::{NoMemory, Octets};
pub use port_conf::PortConf;
pub use port_state::PortState;
pub use room::Room;
pub use time::{FREQ_MAX, Scaled, TICK_MAX, TIME_MAX, floor_div, interval, time_between, to_ns};
pub use triple::Triple;

#[cfg(test)]
mod tests;
