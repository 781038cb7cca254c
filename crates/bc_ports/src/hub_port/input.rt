ghost use Rattle.ptp_base.specs.declared.time.TheConstants.{TICK_MAX};
ghost use Rattle.std.specs.Prelude.{◌≡◌, ℕ, ◌+◌, ◌≤◌, List, Some, None, false};
ghost use Rattle.bc_history.specs.declared.scenario.Options.{Options};
ghost use Rattle.bc_history.specs.Phases.PortPhase.{after_cause, after_report, is_report_counted, report_event, timer_event};
ghost use Rattle.bc_history.specs.Phases.DecisionPhase.{is_kept};
ghost use Rattle.bc_history.specs.Phases.Inputs.{IsTime};
ghost use Rattle.bc_history.specs.Phases.HubPort.{HubPort as Model};
ghost use Rattle.bc_ports.specs.Representation.{PortRepresents, IsSamePort, IsClockOf};
ghost use Rattle.bc_ports.specs.PortYield.{PortYields, sender_of};

use crate::hub_port::HubPort;
use bc_history::{EventContext, Outcome, PortHappening, PortInput};
use data_sets::DataSets;
use foreign_master::Steps;
use port_engine::Frames;
use ptp_base::{Octets, PortId};
use ptp_profile::{Action, Fate, Measure, Message, PortEvent, Reject, Timer};
use ptp_wire::decode;
use std::sync::ledger::Ledger;

/// What a port made of an input, beside what the port is then and the frames that it sent.
#[derive(Clone, Copy)]
pub struct PortOutcome {
    /// What became of a frame.
    pub fate: Option<Fate>,
    /// The measure that a frame gave.
    pub measure: Option<Measure>,
    /// The sender of an Announce that was kept.
    pub sender: Option<PortId>,
    /// Whether a decision for all ports follows.
    pub raises: bool,
}

/// Of an input that is no frame.
fn outcome_without_frame(raises: bool) -> PortOutcome
    ensures { result ≡ record { fate = None; measure = None; sender = None; raises = raises } }
{
    PortOutcome {
        fate: None,
        measure: None,
        sender: None,
        raises,
    }
}

/// The event that a timer is for its port, if it is one.
fn timer_event(timer: Timer) -> Option<PortEvent>
    ensures { result ≡ timer_event timer }
{
    match timer {
        Timer::AnnounceReceipt => Some(PortEvent::AnnounceTimeout),
        Timer::Qualification => Some(PortEvent::QualificationTimeout),
        Timer::AnnounceSend | Timer::SyncSend | Timer::DelayRequest => None,
    }
}

/// The event that a report which counts is for its port, if it is one.
fn report_event(action: Action, outcome: Outcome) -> Option<PortEvent>
    ensures { result ≡ report_event action outcome }
{
    match (action, outcome) {
        (Action::Locked { .. }, Outcome::Changed { .. }) => Some(PortEvent::MasterClockSelected),
        (Action::Jump { .. }, Outcome::Changed { .. }) => Some(PortEvent::SynchronizationFault),
        (Action::Unlocked, Outcome::Changed { .. }) => None,
        (_, Outcome::Unlocked) | (_, Outcome::Spent { .. }) => Some(
            PortEvent::SynchronizationFault,
        ),
        (_, Outcome::Superseded { .. }) => None,
    }
}

/// The sender of a message that was read, where the frame was kept.
fn kept_sender(fate: Fate, read: &Result<Message, Reject>) -> Option<PortId>
    ensures { result ≡ sender_of fate read.now }
{
    match (fate, read) {
        (Fate::Kept, Ok(message)) => Some(message.sender),
        _ => None,
    }
}

/// Whether an Announce was kept.
fn is_kept(fate: Fate) -> bool
    ensures { result ≡ is_kept (Some fate) }
{
    matches!(fate, Fate::Kept)
}

impl HubPort {
    /// The port's own event, if there is one.
    fn act_on(&mut self, cause: Option<PortEvent>, context: &EventContext)
        requires { context.now.moment ≤ TICK_MAX }
        ensures port { (length : ℕ) (h : Model) →
            PortRepresents length context.now.moment self.old h →
            PortRepresents length context.now.moment self.new (after_cause context.now cause h) }
        ensures same { IsSamePort self.old self.new }
    {
        if let Some(cause) = cause {
            self.act(cause, context);
        }
    }

    /// Whether a report counts: it bears the stamp in force, which is one of this port.
    fn is_report_counted(&self, context: &EventContext, gener: u32) -> bool
        ensures { (length m : ℕ) (h : Model) → PortRepresents length m self.now h
            → result ≡ is_report_counted context.now h gener }
    {
        context.held.gener == gener && context.held.ctrl as u16 == self.records.receiver().port
    }

    /// After a step of the clock the times that were kept no longer hold.
    fn note_report(&mut self, action: Action, outcome: Outcome)
        ensures port { (length m : ℕ) (h : Model) → PortRepresents length m self.old h →
            PortRepresents length m self.new
            (record h { port = after_report action outcome h.port }) }
        ensures same { IsSamePort self.old self.new }
    {
        if let (Action::Jump { .. }, Outcome::Changed { .. }) = (action, outcome) {
            self.engine.jumped();
        }
    }

    /// A frame arrives.
    fn take_octets<L: Ledger>(
        &mut self,
        context: &EventContext,
        sets: &DataSets,
        octets: &Octets,
        frames: &mut Frames,
        steps: &mut Steps<L>,
    ) -> PortOutcome
        requires reading { IsTime context.now.reading }
        requires room { 2 ≤ frames.old.spare }
        ensures yields { (o : Options) (tick : ℕ) (h : Model) → IsClockOf o sets.now →
            PortRepresents o.delay_filter_length context.now.moment self.old h →
            PortYields o context.now sets.now tick (PortHappening.Frame octets.now) self.new
            frames.old.items frames.new.items result h }
        ensures same { IsSamePort self.old self.new }
        ensures uncounted { result.raises ≡ false → steps.new ≡ steps.old }
        ensures counted { steps.new ≤ steps.old + 15 }
    {
        let read = decode(octets.items(), sets.domain);
        let outcome = self.take_frame(context, &read, frames, steps);
        PortOutcome {
            fate: Some(outcome.fate),
            measure: outcome.measure,
            sender: kept_sender(outcome.fate, &read),
            raises: is_kept(outcome.fate),
        }
    }

    /// A timer fires, where it was set for its tick.
    fn take_timer(
        &mut self,
        context: &EventContext,
        sets: &DataSets,
        tick: u64,
        timer: Timer,
        frames: &mut Frames,
    ) -> PortOutcome
        requires moment { context.now.moment ≤ TICK_MAX }
        requires tick { tick ≤ TICK_MAX }
        requires reading { IsTime context.now.reading }
        requires room { 2 ≤ frames.old.spare }
        ensures yields { (o : Options) (h : Model) → IsClockOf o sets.now →
            PortRepresents o.delay_filter_length context.now.moment self.old h →
            PortYields o context.now sets.now tick (PortHappening.Timed timer) self.new
            frames.old.items frames.new.items result h }
        ensures same { IsSamePort self.old self.new }
    {
        if self.engine.at(timer) != Some(tick) {
            return outcome_without_frame(false);
        }
        match self.engine.fire(timer, context.reading, sets, frames) {
            Ok(()) => {}
            Err(_) => unreachable!(),
        }
        self.act_on(timer_event(timer), context);
        outcome_without_frame(matches!(timer, Timer::AnnounceReceipt))
    }

    /// The port's report of its last measure, which counts where it bears the stamp in force.
    fn take_report(
        &mut self,
        context: &EventContext,
        gener: u32,
        action: Action,
        outcome: Outcome,
    ) -> PortOutcome
        requires moment { context.now.moment ≤ TICK_MAX }
        ensures yields { (o : Options) (d : DataSets) (tick : ℕ) (frames : List (List ℕ))
            (h : Model) →
            PortRepresents o.delay_filter_length context.now.moment self.old h →
            PortYields o context.now d tick (PortHappening.Report gener action outcome) self.new
            frames frames result h }
        ensures same { IsSamePort self.old self.new }
    {
        if !self.is_report_counted(context, gener) {
            return outcome_without_frame(false);
        }
        self.note_report(action, outcome);
        self.act_on(report_event(action, outcome), context);
        outcome_without_frame(false)
    }

    /// The port takes an input of its own.
    pub fn take<L: Ledger>(
        &mut self,
        context: &EventContext,
        sets: &DataSets,
        input: &PortInput,
        frames: &mut Frames,
        steps: &mut Steps<L>,
    ) -> PortOutcome
        requires moment { context.now.moment ≤ TICK_MAX }
        requires tick { input.now.tick ≤ TICK_MAX }
        requires reading { IsTime context.now.reading }
        requires room { 2 ≤ frames.old.spare }
        ensures yields { (o : Options) (h : Model) → IsClockOf o sets.now →
            PortRepresents o.delay_filter_length context.now.moment self.old h →
            PortYields o context.now sets.now input.now.tick input.now.what self.new
            frames.old.items frames.new.items result h }
        ensures same { IsSamePort self.old self.new }
        ensures uncounted { result.raises ≡ false → steps.new ≡ steps.old }
        ensures counted { steps.new ≤ steps.old + 15 }
    {
        match &input.what {
            PortHappening::Frame(octets) => self.take_octets(context, sets, octets, frames, steps),
            PortHappening::Timed(timer) => {
                self.take_timer(context, sets, input.tick, *timer, frames)
            }
            PortHappening::Down => {
                self.act(PortEvent::FaultDetected, context);
                outcome_without_frame(true)
            }
            PortHappening::Up => {
                self.act(PortEvent::FaultCleared, context);
                outcome_without_frame(true)
            }
            PortHappening::Report {
                gener,
                action,
                outcome,
            } => self.take_report(context, *gener, *action, *outcome),
        }
    }
}
