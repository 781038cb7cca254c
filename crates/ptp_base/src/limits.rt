/// The most ports of a clock.
pub const PORTS_MAX: usize = 32;

/// The most clocks of a scenario.
pub const CLOCKS_MAX: usize = 16;

/// The most senders of a port whose Announces count at a time: the entries of foreignMasterDS, of
/// which IEEE 1588-2019, 9.3.2.4, asks for five at least.
pub const SENDERS_MAX: usize = 16;

/// How long an Announce counts for qualification, in announce intervals of the port that hears it
/// (IEEE 1588-2019, 9.3.2.4): two in the window qualify a sender, so that it may lose some of them.
pub const FOREIGN_MASTER_TIME_WINDOW: u64 = 4;

/// stepsRemoved from which on an Announce is never qualified (IEEE 1588-2019, 9.3.2.5).
pub const STEPS_END: u16 = 255;

/// The most delays of which a port takes the mean.
pub const DELAYS_MAX: u8 = 32;

/// The most entries of a history.
pub const ENTRIES_MAX: usize = 131_071;

/// The most rows of a clock's log: at so many entries it takes no change.
pub const ROWS_MAX: u32 = 262_143;

/// The last generation of roles.
pub const GENERATION_MAX: u32 = 262_143;

/// The most orders of a clock.
pub const ORDERS_MAX: usize = 262_142;

/// The last number of a port that may hold a clock as its controller.
pub const CONTROLLER_PORTS: u8 = 32;

/// The controller of a clock's own follower that copies clock s is this and s more.
pub const FOLLOWER_BASE: u8 = 128;

/// The most octets of a scenario text.
pub const TEXT_MAX: usize = 33_554_432;

/// The most octets of a frame that arrives.
pub const FRAME_MAX: usize = 1_500;

/// The most octets of the text of a query.
pub const QUERY_MAX: usize = 100;

/// The most octets of a frame that a port sends: those of an Announce (IEEE 1588-2019, 13.5).
pub const SENT_MAX: usize = 64;

/// The most notices that a follower has not taken; older ones are missed.
pub const NOTICES_MAX: usize = 64;
