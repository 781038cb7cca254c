ghost use Rattle.std.specs.Prelude.{◌≡◌, Bool};
ghost use Rattle.ptp_profile.specs.Port.PortStates.{next};

use ptp_base::{Code, PortState};
use ptp_profile::PortEvent;

/// From FAULTY, which leads to LISTENING alone, once the fault is cleared (IEEE 1588-2019, 9.2.6).
fn from_faulty(e: PortEvent) -> PortState
    ensures { (new_parent : Bool) → result ≡ next PortState.Faulty e new_parent }
{
    match e {
        PortEvent::FaultCleared => PortState::Listening,
        PortEvent::FaultDetected
        | PortEvent::AnnounceTimeout
        | PortEvent::QualificationTimeout
        | PortEvent::MasterClockSelected
        | PortEvent::SynchronizationFault
        | PortEvent::Decided(
            Code::Stay | Code::M1 | Code::M2 | Code::M3 | Code::P1 | Code::P2 | Code::S1,
        ) => PortState::Faulty,
    }
}

/// From LISTENING: a decision of a master's code leads to PRE_MASTER, where it is qualified, and no
/// Announce in time leads to MASTER at once (IEEE 1588-2019, 9.2.6).
fn from_listening(e: PortEvent) -> PortState
    ensures { (new_parent : Bool) → result ≡ next PortState.Listening e new_parent }
{
    match e {
        PortEvent::FaultDetected => PortState::Faulty,
        PortEvent::AnnounceTimeout => PortState::Master,
        PortEvent::Decided(Code::M1 | Code::M2 | Code::M3) => PortState::PreMaster,
        PortEvent::Decided(Code::P1 | Code::P2) => PortState::Passive,
        PortEvent::Decided(Code::S1) => PortState::Uncalibrated,
        PortEvent::FaultCleared
        | PortEvent::QualificationTimeout
        | PortEvent::MasterClockSelected
        | PortEvent::SynchronizationFault
        | PortEvent::Decided(Code::Stay) => PortState::Listening,
    }
}

/// From PRE_MASTER: it becomes MASTER once it is qualified, and a master's code does not begin this
/// anew (IEEE 1588-2019, 9.2.6).
fn from_pre_master(e: PortEvent) -> PortState
    ensures { (new_parent : Bool) → result ≡ next PortState.PreMaster e new_parent }
{
    match e {
        PortEvent::FaultDetected => PortState::Faulty,
        PortEvent::QualificationTimeout => PortState::Master,
        PortEvent::Decided(Code::P1 | Code::P2) => PortState::Passive,
        PortEvent::Decided(Code::S1) => PortState::Uncalibrated,
        PortEvent::FaultCleared
        | PortEvent::AnnounceTimeout
        | PortEvent::MasterClockSelected
        | PortEvent::SynchronizationFault
        | PortEvent::Decided(Code::Stay | Code::M1 | Code::M2 | Code::M3) => PortState::PreMaster,
    }
}

/// From MASTER, which waits for no Announce: only a fault and a decision of another code end it
/// (IEEE 1588-2019, 9.2.6).
fn from_master(e: PortEvent) -> PortState
    ensures { (new_parent : Bool) → result ≡ next PortState.Master e new_parent }
{
    match e {
        PortEvent::FaultDetected => PortState::Faulty,
        PortEvent::Decided(Code::P1 | Code::P2) => PortState::Passive,
        PortEvent::Decided(Code::S1) => PortState::Uncalibrated,
        PortEvent::FaultCleared
        | PortEvent::AnnounceTimeout
        | PortEvent::QualificationTimeout
        | PortEvent::MasterClockSelected
        | PortEvent::SynchronizationFault
        | PortEvent::Decided(Code::Stay | Code::M1 | Code::M2 | Code::M3) => PortState::Master,
    }
}

/// From PASSIVE: as from LISTENING, but that its own codes change nothing (IEEE 1588-2019, 9.2.6).
fn from_passive(e: PortEvent) -> PortState
    ensures { (new_parent : Bool) → result ≡ next PortState.Passive e new_parent }
{
    match e {
        PortEvent::FaultDetected => PortState::Faulty,
        PortEvent::AnnounceTimeout => PortState::Master,
        PortEvent::Decided(Code::M1 | Code::M2 | Code::M3) => PortState::PreMaster,
        PortEvent::Decided(Code::S1) => PortState::Uncalibrated,
        PortEvent::FaultCleared
        | PortEvent::QualificationTimeout
        | PortEvent::MasterClockSelected
        | PortEvent::SynchronizationFault
        | PortEvent::Decided(Code::Stay | Code::P1 | Code::P2) => PortState::Passive,
    }
}

/// From UNCALIBRATED: it becomes SLAVE once its clock follows the master that was selected
/// (IEEE 1588-2019, 9.2.6).
fn from_uncalibrated(e: PortEvent) -> PortState
    ensures { (new_parent : Bool) → result ≡ next PortState.Uncalibrated e new_parent }
{
    match e {
        PortEvent::FaultDetected => PortState::Faulty,
        PortEvent::AnnounceTimeout => PortState::Master,
        PortEvent::MasterClockSelected => PortState::Slave,
        PortEvent::Decided(Code::M1 | Code::M2 | Code::M3) => PortState::PreMaster,
        PortEvent::Decided(Code::P1 | Code::P2) => PortState::Passive,
        PortEvent::FaultCleared
        | PortEvent::QualificationTimeout
        | PortEvent::SynchronizationFault
        | PortEvent::Decided(Code::Stay | Code::S1) => PortState::Uncalibrated,
    }
}

/// From SLAVE: it is calibrated to its parent alone, so a new one makes it UNCALIBRATED, as does a
/// synchronization fault (IEEE 1588-2019, 9.2.6).
fn from_slave(e: PortEvent, new_parent: bool) -> PortState
    ensures { result ≡ next PortState.Slave e new_parent }
{
    match e {
        PortEvent::FaultDetected => PortState::Faulty,
        PortEvent::AnnounceTimeout => PortState::Master,
        PortEvent::SynchronizationFault => PortState::Uncalibrated,
        PortEvent::Decided(Code::M1 | Code::M2 | Code::M3) => PortState::PreMaster,
        PortEvent::Decided(Code::P1 | Code::P2) => PortState::Passive,
        PortEvent::Decided(Code::S1) if new_parent => PortState::Uncalibrated,
        PortEvent::FaultCleared
        | PortEvent::QualificationTimeout
        | PortEvent::MasterClockSelected
        | PortEvent::Decided(Code::Stay | Code::S1) => PortState::Slave,
    }
}

/// The state of a port after an event (IEEE 1588-2019, 9.2.5, figure 30). `new_parent` says that
/// the best announcement comes from another sender than the port's parent. No event leads to
/// INITIALIZING or DISABLED, and none changes them; FAULT_CLEARED leads from FAULTY straight to
/// LISTENING (project). Does not allocate.
pub fn next(s: PortState, e: PortEvent, new_parent: bool) -> PortState
    ensures { result ≡ next s e new_parent }
{
    match s {
        PortState::Initializing => PortState::Initializing,
        PortState::Disabled => PortState::Disabled,
        PortState::Faulty => from_faulty(e),
        PortState::Listening => from_listening(e),
        PortState::PreMaster => from_pre_master(e),
        PortState::Master => from_master(e),
        PortState::Passive => from_passive(e),
        PortState::Uncalibrated => from_uncalibrated(e),
        PortState::Slave => from_slave(e, new_parent),
    }
}
