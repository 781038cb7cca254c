use crate::message::Reject;
use ptp_base::Code;

/// What may change the state of a port (IEEE 1588-2019, 9.2.6).
#[derive(Clone, Copy, Debug, PartialEq, Eq)]
pub enum PortEvent {
    /// FAULT_DETECTED.
    FaultDetected,
    /// FAULT_CLEARED.
    FaultCleared,
    /// ANNOUNCE_RECEIPT_TIMEOUT_EXPIRES.
    AnnounceTimeout,
    /// QUALIFICATION_TIMEOUT_EXPIRES.
    QualificationTimeout,
    /// MASTER_CLOCK_SELECTED.
    MasterClockSelected,
    /// SYNCHRONIZATION_FAULT.
    SynchronizationFault,
    /// The state decision, with its code.
    Decided(Code),
}

/// The timers of a port. Of two that are due at one moment the first in this order goes first.
#[derive(Clone, Copy, Debug, PartialEq, Eq)]
pub enum Timer {
    /// The announce receipt timeout (9.2.6.12).
    AnnounceReceipt,
    /// The qualification timeout (9.2.6.11).
    Qualification,
    /// The next Announce to send (9.5.8).
    AnnounceSend,
    /// The next Sync to send (9.5.9).
    SyncSend,
    /// The next Delay_Req to send (9.5.11).
    DelayRequest,
}

/// What became of a frame that a port received.
#[derive(Clone, Copy, Debug, PartialEq, Eq)]
pub enum Fate {
    /// The port is FAULTY.
    Asleep,
    /// It is no message of this profile.
    Dropped(Reject),
    /// The sender belongs to the own clock.
    Own,
    /// An Announce of 255 steps or more.
    Far,
    /// An Announce with the flag alternateMaster.
    Alternate,
    /// An Announce of a sender for which there is no place.
    Crowded,
    /// An Announce that counts from now on.
    Kept,
    /// A message that the port does not take in its state, or not from this sender.
    Ignored,
    /// A Sync or a Follow_Up whose partner is not here.
    Waiting,
    /// A Sync or a Follow_Up that gives both times.
    Paired,
    /// A Delay_Resp that answers the port's request.
    Matched,
    /// A Delay_Resp that answers another request.
    Unmatched,
    /// A Delay_Req that was answered.
    Answered,
}
