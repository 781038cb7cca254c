ghost use Rattle.std.specs.Prelude.{◌≡◌, ◌≢◌, ℕ, ◌+◌, ◌≤◌, List, ◌++◌, None, IfOk};
ghost use Rattle.ptp_profile.specs.declared.port_event.Fate.{Fate};
ghost use Rattle.ptp_profile.specs.Best.ForeignMasters.{fate_of_hearing};
ghost use Rattle.ptp_profile.specs.Wire.MessageFormat.{IsSpelled};
ghost use Rattle.bc_history.specs.Phases.PortPhase.{announcement_of, frame_fate, with_frame, frame_measure};
ghost use Rattle.bc_history.specs.Phases.Inputs.{IsTime};
ghost use Rattle.bc_history.specs.Phases.HubPort.{HubPort as Model};
ghost use Rattle.bc_ports.specs.Representation.{PortRepresents, IsSamePort};
ghost use Rattle.bc_ports.specs.PortYield.{response_frames, BearsTime, MessageYields};

use crate::hub_port::HubPort;
use bc_history::EventContext;
use foreign_master::Steps;
use port_engine::Frames;
use ptp_base::{Announcement, PortId, PortState, TimeProps};
use ptp_profile::{Body, Fate, Heard, Measure, Message, Reject, Said};
use std::sync::ledger::Ledger;

/// What a frame gave its port.
#[derive(Clone, Copy)]
pub struct FrameOutcome {
    /// What became of the frame.
    pub fate: Fate,
    /// The measure that it gave, where it gave one.
    pub measure: Option<Measure>,
}

/// An Announce as the port that received it keeps it; alternateMaster is flag 0x0100
/// (IEEE 1588-2019, 13.3.2.8).
fn announcement_of(receiver: PortId, message: &Message, said: &Said) -> Announcement
    ensures { result ≡ announcement_of receiver message.now said.now }
{
    Announcement {
        grandmaster: said.grandmaster,
        quality: said.quality,
        steps: said.steps,
        sender: message.sender,
        receiver,
        time: TimeProps {
            utc_offset: said.utc_offset,
            flags: (message.flags % 64) as u8,
            source: said.source,
        },
        alternate: message.flags & 0x0100 != 0,
    }
}

/// The fate of an Announce that was heard so.
fn fate_of_hearing(heard: Heard) -> Fate
    ensures { result ≡ fate_of_hearing heard }
{
    match heard {
        Heard::Kept => Fate::Kept,
        Heard::Own => Fate::Own,
        Heard::Far => Fate::Far,
        Heard::Alternate => Fate::Alternate,
        Heard::Crowded => Fate::Crowded,
    }
}

/// A fate without a measure.
fn only(fate: Fate) -> FrameOutcome
    ensures fate { result.fate ≡ fate }
    ensures measure { result.measure ≡ None }
{
    FrameOutcome {
        fate,
        measure: None,
    }
}

impl HubPort {
    /// An Announce. The records tell one of this clock from others.
    fn hear<L: Ledger>(
        &mut self,
        context: &EventContext,
        message: &Message,
        origin: i64,
        said: &Said,
        steps: &mut Steps<L>,
    ) -> FrameOutcome
        requires body { message.now.body ≡ Body.Announce origin said.now }
        ensures yields { (length : ℕ) (frames : List (List ℕ)) (h : Model)
            → PortRepresents length context.now.moment self.old h
            → MessageYields length context.now message.now self.new frames frames result h }
        ensures same { IsSamePort self.old self.new }
        ensures uncounted { result.fate ≢ Fate.Kept → steps.new ≡ steps.old }
        ensures counted { steps.new ≤ steps.old + 15 }
    {
        let receiver = self.records.receiver();
        let a = announcement_of(receiver, message, said);
        let heard = self.records.hear(a, context.moment, steps);
        only(fate_of_hearing(heard))
    }

    /// A message of another clock, which is no Announce.
    fn time(
        &mut self,
        context: &EventContext,
        message: &Message,
        frames: &mut Frames,
    ) -> FrameOutcome
        requires timing { BearsTime message.now.body }
        requires other { self.old.records.receiver.clock.id ≢ message.now.sender.clock.id }
        requires spelled { IsSpelled message.now }
        requires reading { IsTime context.now.reading }
        requires room { 2 ≤ frames.old.spare }
        ensures yields { (length : ℕ) (h : Model)
            → PortRepresents length context.now.moment self.old h
            → MessageYields length context.now message.now self.new
            frames.old.items frames.new.items result h }
        ensures same { IsSamePort self.old self.new }
    {
        match self
            .engine
            .heard(message, context.reading, context.parent, frames)
        {
            Ok((fate, measure)) => FrameOutcome { fate, measure },
            Err(_) => unreachable!(),
        }
    }

    /// A message that a port which is not FAULTY received.
    fn take_message<L: Ledger>(
        &mut self,
        context: &EventContext,
        message: &Message,
        frames: &mut Frames,
        steps: &mut Steps<L>,
    ) -> FrameOutcome
        requires spelled { IsSpelled message.now }
        requires reading { IsTime context.now.reading }
        requires room { 2 ≤ frames.old.spare }
        ensures yields { (length : ℕ) (h : Model)
            → PortRepresents length context.now.moment self.old h
            → MessageYields length context.now message.now self.new
            frames.old.items frames.new.items result h }
        ensures same { IsSamePort self.old self.new }
        ensures uncounted { result.fate ≢ Fate.Kept → steps.new ≡ steps.old }
        ensures counted { steps.new ≤ steps.old + 15 }
    {
        match &message.body {
            Body::Announce { origin, said } => self.hear(context, message, *origin, said, steps),
            Body::Sync { .. }
            | Body::DelayReq { .. }
            | Body::FollowUp { .. }
            | Body::DelayResp { .. } => {
                if message.sender.clock == self.records.receiver().clock {
                    return only(Fate::Own);
                }
                self.time(context, message, frames)
            }
        }
    }

    /// A frame that was read.
    pub fn take_frame<L: Ledger>(
        &mut self,
        context: &EventContext,
        read: &Result<Message, Reject>,
        frames: &mut Frames,
        steps: &mut Steps<L>,
    ) -> FrameOutcome
        requires spelled { IfOk read.now IsSpelled }
        requires reading { IsTime context.now.reading }
        requires room { 2 ≤ frames.old.spare }
        ensures fate { (length : ℕ) (h : Model) →
            PortRepresents length context.now.moment self.old h →
            result.fate ≡ frame_fate context.now read.now h }
        ensures measure { (length : ℕ) (h : Model) →
            PortRepresents length context.now.moment self.old h →
            result.measure ≡ frame_measure length context.now read.now h }
        ensures port { (length : ℕ) (h : Model) →
            PortRepresents length context.now.moment self.old h →
            PortRepresents length context.now.moment self.new (with_frame context.now read.now h) }
        ensures frames { (length domain : ℕ) (h : Model) → IfOk read.now (λ m. m.domain ≡ domain) →
            PortRepresents length context.now.moment self.old h →
            frames.new.items
            ≡ frames.old.items
            ++ response_frames domain context.now.reading read.now result.fate h.port }
        ensures same { IsSamePort self.old self.new }
        ensures uncounted { result.fate ≢ Fate.Kept → steps.new ≡ steps.old }
        ensures counted { steps.new ≤ steps.old + 15 }
    {
        if self.engine.state() == PortState::Faulty {
            return only(Fate::Asleep);
        }
        match read {
            Err(reject) => only(Fate::Dropped(*reject)),
            Ok(message) => self.take_message(context, message, frames, steps),
        }
    }
}
