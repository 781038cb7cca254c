/// The states of a port, with the numbers that management messages give them
/// (IEEE 1588-2019, 8.2.15.3.1 and 9.2.5).
#[derive(Clone, Copy, Debug, PartialEq, Eq)]
pub enum PortState {
    /// 1: the port is being set up. No port comes here.
    Initializing = 1,
    /// 2: after FAULT_DETECTED, until FAULT_CLEARED.
    Faulty,
    /// 3: the port takes no part. No port comes here.
    Disabled,
    /// 4: the port waits for Announces.
    Listening,
    /// 5: the port is to be master, and waits out the qualification timeout.
    PreMaster,
    /// 6: the port sends Announce and Sync.
    Master,
    /// 7: the port neither is master nor follows one.
    Passive,
    /// 8: the port follows a master, and its clock is not in step yet.
    Uncalibrated,
    /// 9: the port follows a master.
    Slave,
}
