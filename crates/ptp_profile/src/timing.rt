use ptp_base::Scaled;

/// An offset from the master, with the delay and the local time that it was made of
/// (IEEE 1588-2019, 11.2 and 11.3).
#[derive(Clone, Copy, Debug, PartialEq, Eq)]
pub struct Measure {
    /// offsetFromMaster, in ns times 65,536.
    pub offset: Scaled,
    /// The mean delay, in ns times 65,536.
    pub delay: Scaled,
    /// When the Sync arrived, in ns of the port's clock.
    pub local: i64,
}

/// What a servo asks of its clock. Steps are in ns, frequencies in ppb times 65,536.
#[derive(Clone, Copy, Debug, PartialEq, Eq)]
pub enum Action {
    /// Nothing yet.
    Unlocked,
    /// Step the time, and run at the frequency.
    Jump { step: i64, freq: i64 },
    /// Run at the frequency.
    Locked { freq: i64 },
}

/// What a servo is told of itself.
#[derive(Clone, Copy, Debug, PartialEq, Eq)]
pub struct ServoConf {
    /// The proportional gain, in thousandths.
    pub kp: u32,
    /// The integral gain, in thousandths.
    pub ki: u32,
    /// The greatest magnitude of a frequency, in ppb.
    pub max: u32,
    /// The offset in ns above which a servo that runs begins anew; 0 for never.
    pub step: u64,
    /// The offset in ns above which a servo steps as it first locks; 0 for never.
    pub first_step: u64,
}
