ghost use Rattle.std.specs.Prelude.{◌≡◌, ◌==◌, true, not, bit_and, ◌≤◌, ◌+◌, ◌≤ℤ◌, ℕ, ℤ, pos, ◌++◌, length, option_and_then, IfOk, IfSome, IsOk, OnErr, if◌then◌else◌};
ghost use Rattle.ptp_base.specs.declared.time.TheConstants.{TIME_MAX};
ghost use Rattle.ptp_base.specs.declared.identity.PortId.{PortId};
ghost use Rattle.ptp_profile.specs.Port.PortStates.{is_master};
ghost use Rattle.ptp_profile.specs.Timing.OffsetAndDelay.{measure_of, mean_of};
ghost use Rattle.ptp_profile.specs.Port.Port.{Port, takes_from, triple_of, with_piece, paired_fate, response_fate, request_answered_by, timing_fate, timing_measure, after_timing};
ghost use Rattle.ptp_profile.specs.Port.PortMessages.{delay_response_by};
ghost use Rattle.delay_mech.specs.DelaysView.{IsCorrection};
ghost use Rattle.port_engine.specs.EngineView.{EngineRepresents, frames_for, newest};

use crate::engine::PortEngine;
use crate::entering::is_following;
use crate::frames::Frames;
use crate::messages::TWO_STEP;
use crate::offset::offset;
use delay_mech::Response;
use ptp_base::{NoMemory, PortId, PortState, Triple};
use ptp_profile::{Fate, Measure};
use ptp_wire::{Body, Message};

/// Only a master answers requests.
fn is_master(state: PortState) -> bool
    ensures { result ≡ is_master state }
{
    matches!(state, PortState::Master)
}

/// The time of a Sync comes in its Follow_Up.
fn is_two_step(m: &Message) -> bool
    ensures { result ≡ not (bit_and m.now.flags 0x0200 == 0) }
{
    m.flags & TWO_STEP != 0
}

impl PortEngine {
    /// The port follows, and the sender is its parent.
    fn takes_from(&self, parent: PortId, sender: PortId) -> bool
        ensures { (length : ℕ) (p : Port) → EngineRepresents length self.now p →
            result ≡ takes_from parent sender p }
    {
        is_following(self.state) && sender == parent
    }

    /// What a Sync and its origin show, once there is a mean delay (IEEE 1588-2019, 11.2).
    fn measure(&self, t: &Triple) -> Option<Measure>
        requires { IsCorrection t.now.correction }
        ensures { (length : ℕ) (p : Port) → EngineRepresents length self.now p →
            result ≡ measure_of t.now (mean_of length p.delays) }
    {
        match self.delays.mean() {
            None => None,
            Some(delay) => Some(Measure {
                offset: offset(t, delay),
                delay,
                local: t.arrived,
            }),
        }
    }

    /// What the pairing gave is kept for the next delay.
    fn judge(&mut self, found: &Option<Triple>) -> (Fate, Option<Measure>)
        requires { IfSome found.now (λ t. IsCorrection t.correction) }
        ensures fate { result.0 ≡ paired_fate found.now }
        ensures measure { (length : ℕ) (p : Port) → EngineRepresents length self.old p
            → result.1 ≡ option_and_then (λ t. measure_of t (mean_of length p.delays)) found.now }
        ensures port { (length : ℕ) (p : Port) → EngineRepresents length self.old p
            → EngineRepresents length self.new (record p { triple = newest found.now p.triple }) }
    {
        match found {
            None => (Fate::Waiting, None),
            Some(t) => {
                let measure = self.measure(t);
                self.delays.triple(*t);
                (Fate::Paired, measure)
            }
        }
    }

    fn keep_sync(&mut self, m: &Message, origin: &i64, seen: i64) -> Option<Triple>
        requires { m.now.body ≡ Body.Sync origin.now }
        ensures small { IfSome result (λ t. IsCorrection t.correction) }
        ensures found { (length : ℕ) (p : Port) → EngineRepresents length self.old p →
            result ≡ triple_of m.now seen p }
        ensures port { (length : ℕ) (p : Port) → EngineRepresents length self.old p →
            EngineRepresents length self.new (with_piece m.now seen p) }
    {
        let two_step = is_two_step(m);
        self.pairing
            .sync(m.seq, two_step, *origin, seen, m.correction)
    }

    fn keep_follow_up(&mut self, m: &Message, precise: &i64) -> Option<Triple>
        requires { m.now.body ≡ Body.FollowUp precise.now }
        ensures small { IfSome result (λ t. IsCorrection t.correction) }
        ensures found { (length : ℕ) (p : Port) (seen : ℤ) → EngineRepresents length self.old p →
            result ≡ triple_of m.now seen p }
        ensures port { (length : ℕ) (p : Port) (seen : ℤ) → EngineRepresents length self.old p →
            EngineRepresents length self.new (with_piece m.now seen p) }
    {
        self.pairing.follow_up(m.seq, *precise, m.correction)
    }

    fn take_sync(&mut self, m: &Message, origin: &i64, seen: i64) -> (Fate, Option<Measure>)
        requires { m.now.body ≡ Body.Sync origin.now }
        ensures fate { (length : ℕ) (p : Port) → EngineRepresents length self.old p →
            result.0 ≡ paired_fate (triple_of m.now seen p) }
        ensures told { (length : ℕ) (p : Port) (parent : PortId) →
            EngineRepresents length self.old p → takes_from parent m.now.sender p ≡ true →
            result.0 ≡ timing_fate parent m.now seen p m.now.body }
        ensures measure { (length : ℕ) (p : Port) → EngineRepresents length self.old p →
            result.1 ≡ timing_measure length m.now seen result.0 p }
        ensures port { (length : ℕ) (p : Port) → EngineRepresents length self.old p →
            EngineRepresents length self.new (after_timing m.now seen result.0 p) }
    {
        let found = self.keep_sync(m, origin, seen);
        self.judge(&found)
    }

    fn take_follow_up(&mut self, m: &Message, precise: &i64, seen: i64) -> (Fate, Option<Measure>)
        requires { m.now.body ≡ Body.FollowUp precise.now }
        ensures fate { (length : ℕ) (p : Port) → EngineRepresents length self.old p →
            result.0 ≡ paired_fate (triple_of m.now seen p) }
        ensures told { (length : ℕ) (p : Port) (parent : PortId) →
            EngineRepresents length self.old p → takes_from parent m.now.sender p ≡ true →
            result.0 ≡ timing_fate parent m.now seen p m.now.body }
        ensures measure { (length : ℕ) (p : Port) → EngineRepresents length self.old p →
            result.1 ≡ timing_measure length m.now seen result.0 p }
        ensures port { (length : ℕ) (p : Port) → EngineRepresents length self.old p →
            EngineRepresents length self.new (after_timing m.now seen result.0 p) }
    {
        let found = self.keep_follow_up(m, precise);
        self.judge(&found)
    }

    fn take_response(&mut self, m: &Message, receive: &i64, requesting: &PortId) -> Fate
        requires { m.now.body ≡ Body.DelayResp receive.now requesting.now }
        ensures fate { (length : ℕ) (p : Port) → EngineRepresents length self.old p →
            result ≡ response_fate (request_answered_by m.now m.now.body p) }
        ensures told { (length : ℕ) (p : Port) (parent : PortId) (seen : ℤ) →
            EngineRepresents length self.old p → takes_from parent m.now.sender p ≡ true →
            result ≡ timing_fate parent m.now seen p m.now.body }
        ensures port { (length : ℕ) (p : Port) (seen : ℤ) → EngineRepresents length self.old p →
            EngineRepresents length self.new (after_timing m.now seen result p) }
        ensures measure { (length : ℕ) (p : Port) (seen : ℤ) →
            timing_measure length m.now seen result p ≡ None }
    {
        match self
            .delays
            .response(m.seq, *requesting, *receive, m.correction)
        {
            Response::Matched => Fate::Matched,
            Response::Unmatched => Fate::Unmatched,
        }
    }

    /// A request is answered in MASTER alone.
    fn answer(&self, request: &Message, seen: i64, frames: &mut Frames) -> Result<Fate, NoMemory>
        requires early { pos 0 ≤ℤ seen }
        requires late { seen ≤ℤ TIME_MAX }
        ensures fate { IfOk result
            (λ fate. fate ≡ (if is_master self.now.state then Fate.Answered else Fate.Ignored)) }
        ensures sent { (length : ℕ) (p : Port) → EngineRepresents length self.now p →
            IfOk result
            (λ fate.
            frames.new.items
            ≡ frames.old.items
            ++ frames_for fate
            (delay_response_by request.now.domain seen request.now p)) }
        ensures same_frames { OnErr result (frames.new ≡ frames.old) }
        ensures succeeds { 2 ≤ frames.old.spare → IsOk result }
        ensures room { 2 ≤ frames.old.spare →
            frames.new.spare + length frames.new.items
            ≡ frames.old.spare + length frames.old.items }
    {
        if !is_master(self.state) {
            return Ok(Fate::Ignored);
        }
        frames.reserve()?;
        let response = self.delay_response(request, seen);
        frames.put(&response);
        Ok(Fate::Answered)
    }

    /// Hears a message of another clock that is no Announce, with the reading `seen`, from 0 to
    /// `TIME_MAX`, and says what becomes of it, and what it measures. An Announce is passed over. A
    /// Delay_Req is answered in MASTER (IEEE 1588-2019, 9.5.12). A Sync, a Follow_Up and a Delay_Resp
    /// count where the port follows and `parent` sent them (9.5.4 to 9.5.7). Where two frames are
    /// reserved, it does not allocate.
    pub fn heard(
        &mut self,
        m: &Message,
        seen: i64,
        parent: PortId,
        frames: &mut Frames,
    ) -> Result<(Fate, Option<Measure>), NoMemory>
        requires early { pos 0 ≤ℤ seen }
        requires late { seen ≤ℤ TIME_MAX }
        ensures fate { (length : ℕ) (p : Port) → EngineRepresents length self.old p
            → IfOk result (λ r. r.0 ≡ timing_fate parent m.now seen p m.now.body) }
        ensures measure { (length : ℕ) (p : Port) → EngineRepresents length self.old p
            → IfOk result (λ r. r.1 ≡ timing_measure length m.now seen r.0 p) }
        ensures port { (length : ℕ) (p : Port) → EngineRepresents length self.old p
            → IfOk result (λ r. EngineRepresents length self.new (after_timing m.now seen r.0 p)) }
        ensures sent { (length : ℕ) (p : Port) → EngineRepresents length self.old p →
            IfOk result
            (λ r.
            frames.new.items
            ≡ frames.old.items
            ++ frames_for r.0 (delay_response_by m.now.domain seen m.now p)) }
        ensures same { OnErr result (self.new ≡ self.old) }
        ensures same_frames { OnErr result (frames.new ≡ frames.old) }

        // Where two frames are reserved, nothing is allocated, and each frame takes one of their places.
        ensures succeeds { 2 ≤ frames.old.spare → IsOk result }
        ensures room { 2 ≤ frames.old.spare →
            frames.new.spare + length frames.new.items
            ≡ frames.old.spare + length frames.old.items }
    {
        match &m.body {
            Body::DelayReq { .. } => Ok((self.answer(m, seen, frames)?, None)),
            _ if !self.takes_from(parent, m.sender) => Ok((Fate::Ignored, None)),
            Body::Sync { origin } => Ok(self.take_sync(m, origin, seen)),
            Body::FollowUp { precise } => Ok(self.take_follow_up(m, precise, seen)),
            Body::DelayResp {
                receive,
                requesting,
            } => Ok((self.take_response(m, receive, requesting), None)),
            Body::Announce { .. } => Ok((Fate::Ignored, None)),
        }
    }
}
