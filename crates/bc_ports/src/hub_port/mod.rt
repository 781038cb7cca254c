ghost use Rattle.ptp_base.specs.declared.limits.TheConstants.{STEPS_END};
ghost use Rattle.ptp_base.specs.declared.time.TheConstants.{TICK_MAX};
ghost use Rattle.std.specs.Prelude.{◌≡◌, ℕ, ◌+◌, ◌≤◌, ◌<◌, Option, Some, IfSome, false};
ghost use Rattle.bc_history.specs.Phases.PortPhase.{after_cause, forgets, kept_after};
ghost use Rattle.bc_history.specs.Phases.DecisionPhase.{best_of, with_renewal, newest_sender, is_sent_by};
ghost use Rattle.bc_history.specs.Phases.HubPort.{HubPort as Model};
ghost use Rattle.ptp_profile.specs.Port.Port.{after_event};
ghost use Rattle.ptp_profile.specs.Port.PortStates.{is_dependent};
ghost use Rattle.bc_ports.specs.DecisionCost.{may_pass};
ghost use Rattle.bc_ports.specs.Representation.{PortRepresents, IsSamePort};

pub(crate) mod frame;
pub(crate) mod input;

use bc_history::EventContext;
use foreign_master::{Records, Steps};
use port_engine::PortEngine;
use port_fsm::next;
use ptp_base::{Announcement, Code, PortId, PortState};
use ptp_profile::PortEvent;
use std::sync::ledger::Ledger;

/// What is kept of one port: its engine, and the Announces that it heard.
#[derive(Drop)]
pub struct HubPort {
    /// State, timers and measures.
    pub engine: PortEngine,
    /// The Announces that it heard, by sender.
    pub records: Records,
}

/// PASSIVE, UNCALIBRATED or SLAVE: the port counts on the Announces of another clock.
fn is_dependent(state: PortState) -> bool
    ensures { result ≡ is_dependent state }
{
    match state {
        PortState::Passive | PortState::Uncalibrated | PortState::Slave => true,
        PortState::Initializing
        | PortState::Faulty
        | PortState::Disabled
        | PortState::Listening
        | PortState::PreMaster
        | PortState::Master => false,
    }
}

/// Whether a port in a state forgets its Announces at an event: at a fault, and where it counts on
/// another clock and waited in vain.
fn forgets(cause: PortEvent, state: PortState) -> bool
    ensures { result ≡ forgets cause state }
{
    match cause {
        PortEvent::FaultDetected => true,
        PortEvent::AnnounceTimeout => is_dependent(state),
        PortEvent::FaultCleared
        | PortEvent::QualificationTimeout
        | PortEvent::MasterClockSelected
        | PortEvent::SynchronizationFault
        | PortEvent::Decided(_) => false,
    }
}

/// Whether the announcement is there, and comes from the sender.
fn is_sent_by(best: &Option<Announcement>, sender: PortId) -> bool
    ensures { result ≡ is_sent_by best.now (Some sender) }
{
    match best {
        None => false,
        Some(best) => best.sender == sender,
    }
}

impl HubPort {
    /// Erbest (IEEE 1588-2019, 9.3.2). It takes comparisons only where a record may have left.
    pub fn best<L: Ledger>(&self, moment: u64, steps: &mut Steps<L>) -> Option<Announcement>
        ensures best { (length : ℕ) (h : Model) → PortRepresents length moment self.now h →
            result ≡ best_of moment h }
        ensures near { IfSome result (λ a. a.steps < STEPS_END) }
        ensures settled { (length : ℕ) (h : Model) → PortRepresents length moment self.now h →
            may_pass moment h ≡ false → steps.new ≡ steps.old }
        ensures counted { steps.new ≤ steps.old + 15 }
    {
        self.records.best(moment, steps)
    }

    /// The Announces are forgotten, where the event asks for it.
    fn forget(&mut self, cause: PortEvent)
        ensures port { (length m : ℕ) (h : Model) → PortRepresents length m self.old h →
            PortRepresents length m self.new
            (record h { kept = kept_after cause h.port.state h.kept }) }
        ensures engine { self.new.engine ≡ self.old.engine }
        ensures same { IsSamePort self.old self.new }
    {
        if forgets(cause, self.engine.state()) {
            self.records.reset();
        }
    }

    /// The port's own event.
    pub fn act(&mut self, cause: PortEvent, context: &EventContext)
        requires { context.now.moment ≤ TICK_MAX }
        ensures port { (length : ℕ) (h : Model) →
            PortRepresents length context.now.moment self.old h →
            PortRepresents length context.now.moment self.new
            (after_cause context.now (Some cause) h) }
        ensures same { IsSamePort self.old self.new }
    {
        self.forget(cause);
        let new = next(self.engine.state(), cause, false);
        self.engine
            .enter(new, cause, false, context.moment, context.steps);
    }

    /// The port takes its code, with stepsRemoved of the data sets after the decision.
    pub fn decide(&mut self, code: Code, is_new: bool, moment: u64, steps: u16)
        requires { moment ≤ TICK_MAX }
        ensures port { (length : ℕ) (h : Model) → PortRepresents length moment self.old h →
            PortRepresents length moment self.new
            (record h { port = after_event moment steps (PortEvent.Decided code) is_new h.port }) }
        ensures same { IsSamePort self.old self.new }
    {
        let cause = PortEvent::Decided(code);
        let new = next(self.engine.state(), cause, is_new);
        self.engine.enter(new, cause, is_new, moment, steps);
    }

    /// After a kept Announce of the sender and its decision, by which this is the port's best.
    pub fn renew(&mut self, moment: u64, sender: PortId, best: &Option<Announcement>)
        requires moment { moment ≤ TICK_MAX }
        ensures port { (length : ℕ) (h : Model) → PortRepresents length moment self.old h →
            best.now ≡ best_of moment h → newest_sender h.kept ≡ Some sender →
            PortRepresents length moment self.new (with_renewal moment h) }
        ensures same { IsSamePort self.old self.new }
    {
        if is_dependent(self.engine.state()) && is_sent_by(best, sender) {
            self.engine.renew(moment);
        }
    }
}
