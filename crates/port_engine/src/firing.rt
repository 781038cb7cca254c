ghost use Rattle.std.specs.Prelude.{◌≡◌, ◌≤◌, ◌+◌, ◌%◌, ◌≤ℤ◌, ℕ, ℤ, pos, [], ◌∷◌, ◌++◌, map, length, IsOk, IsSomeAnd, OnOk, OnErr};
ghost use Rattle.ptp_base.specs.declared.time.TheConstants.{TICK_MAX, TIME_MAX};
ghost use Rattle.ptp_profile.specs.Port.PortTimers.{timer_at, with_timer};
ghost use Rattle.ptp_profile.specs.Port.Port.{Port, after_firing};
ghost use Rattle.ptp_profile.specs.Wire.MessageFormat.{message_octets};
ghost use Rattle.ptp_profile.specs.Port.PortMessages.{timer_messages, announce_by, sync_by, follow_up_by, delay_request_by};
ghost use Rattle.data_sets.specs.DataSetsView.{master_in};
ghost use Rattle.port_engine.specs.EngineView.{EngineRepresents};

use crate::engine::PortEngine;
use crate::frames::Frames;
use crate::intervals::interval_of;
use data_sets::DataSets;
use port_fsm::Timer;
use ptp_base::NoMemory;

/// The sequenceId behind another one: they count modulo 65,536 (IEEE 1588-2019, 7.3.7).
fn next_of(seq: u16) -> u16
    ensures { (n : ℕ) → seq ≡ n % 65536 → result ≡ (n + 1) % 65536 }
{
    seq.wrapping_add(1)
}

impl PortEngine {
    /// A timer that sends nothing is cleared.
    fn expire(&mut self, t: Timer)
        ensures { (length : ℕ) (p : Port) → EngineRepresents length self.old p
            → EngineRepresents length self.new (record p { timers = with_timer p.timers t None }) }
    {
        self.timers.clear(t);
    }

    /// The Announce of a timer that was set for `tick`, and the timer for the next one.
    fn send_announce(&mut self, tick: u64, d: &DataSets, frames: &mut Frames)
        requires early { tick ≤ TICK_MAX }
        requires room { 1 ≤ frames.old.spare }
        ensures port { (length : ℕ) (p : Port) (seen : ℤ) → EngineRepresents length self.old p
            → EngineRepresents length self.new (after_firing tick seen Timer.AnnounceSend p) }
        ensures sent { (length : ℕ) (p : Port) → EngineRepresents length self.old p →
            frames.new.items
            ≡ frames.old.items
            ++ message_octets (announce_by d.now.domain (master_in d.now) p) ∷ [] }
        ensures room { frames.new.spare + length frames.new.items
            ≡ frames.old.spare + length frames.old.items }
    {
        let message = self.announce(d);
        frames.put(&message);
        self.announces = next_of(self.announces);
        let at = tick + interval_of(self.conf.log_announce);
        self.timers.set(Timer::AnnounceSend, at);
    }

    /// The Sync of a timer that was set for `tick`, with its Follow_Up, which bears the reading `seen`.
    fn send_sync(&mut self, tick: u64, seen: i64, domain: u8, frames: &mut Frames)
        requires early { tick ≤ TICK_MAX }
        requires begun { pos 0 ≤ℤ seen }
        requires late { seen ≤ℤ TIME_MAX }
        requires room { 2 ≤ frames.old.spare }
        ensures port { (length : ℕ) (p : Port) → EngineRepresents length self.old p
            → EngineRepresents length self.new (after_firing tick seen Timer.SyncSend p) }
        ensures sent { (length : ℕ) (p : Port) → EngineRepresents length self.old p →
            frames.new.items
            ≡ frames.old.items
            ++ message_octets (sync_by domain p) ∷ message_octets (follow_up_by domain seen p)
            ∷ [] }
        ensures room { frames.new.spare + length frames.new.items
            ≡ frames.old.spare + length frames.old.items }
    {
        let message = self.sync(domain);
        frames.put(&message);
        let follow_up = self.follow_up(domain, seen);
        frames.put(&follow_up);
        self.syncs = next_of(self.syncs);
        let at = tick + interval_of(self.conf.log_sync);
        self.timers.set(Timer::SyncSend, at);
    }

    /// The Delay_Req of a timer that was set for `tick`. It waits for its response, with the reading
    /// `seen` as its departure.
    fn send_delay_request(&mut self, tick: u64, seen: i64, domain: u8, frames: &mut Frames)
        requires early { tick ≤ TICK_MAX }
        requires room { 1 ≤ frames.old.spare }
        ensures port { (length : ℕ) (p : Port) → EngineRepresents length self.old p
            → EngineRepresents length self.new (after_firing tick seen Timer.DelayRequest p) }
        ensures sent { (length : ℕ) (p : Port) → EngineRepresents length self.old p →
            frames.new.items ≡ frames.old.items ++ message_octets (delay_request_by domain p) ∷ [] }
        ensures room { frames.new.spare + length frames.new.items
            ≡ frames.old.spare + length frames.old.items }
    {
        let message = self.delay_request(domain);
        frames.put(&message);
        let seq = self.requests;
        self.delays.request(seq, seen);
        self.requests = next_of(seq);
        let at = tick + interval_of(self.conf.log_delay);
        self.timers.set(Timer::DelayRequest, at);
    }

    /// What a timer does that was set for `tick`.
    fn act(&mut self, t: Timer, tick: u64, seen: i64, d: &DataSets, frames: &mut Frames)
        requires early { tick ≤ TICK_MAX }
        requires begun { pos 0 ≤ℤ seen }
        requires late { seen ≤ℤ TIME_MAX }
        requires room { 2 ≤ frames.old.spare }
        ensures port { (length : ℕ) (p : Port) → EngineRepresents length self.old p →
            EngineRepresents length self.new (after_firing tick seen t p) }
        ensures sent { (length : ℕ) (p : Port) → EngineRepresents length self.old p →
            frames.new.items
            ≡ frames.old.items
            ++ map message_octets (timer_messages d.now.domain (master_in d.now) seen t p) }
        ensures room { frames.new.spare + length frames.new.items
            ≡ frames.old.spare + length frames.old.items }
    {
        match t {
            Timer::AnnounceReceipt => self.expire(Timer::AnnounceReceipt),
            Timer::Qualification => self.expire(Timer::Qualification),
            Timer::AnnounceSend => self.send_announce(tick, d, frames),
            Timer::SyncSend => self.send_sync(tick, seen, d.domain, frames),
            Timer::DelayRequest => self.send_delay_request(tick, seen, d.domain, frames),
        }
    }

    /// The timer `t`, which is set, fires with the reading `seen`, from 0 to `TIME_MAX`; the tick that
    /// it is set for is at most `TICK_MAX`. It is cleared, and one that sends appends its messages and is
    /// set for an interval after its own tick. Where two frames are reserved, it does not allocate.
    pub fn fire(
        &mut self,
        t: Timer,
        seen: i64,
        d: &DataSets,
        frames: &mut Frames,
    ) -> Result<(), NoMemory>
        requires set { IsSomeAnd (timer_at self.old.timers t) (λ tick. tick ≤ TICK_MAX) }
        requires begun { pos 0 ≤ℤ seen }
        requires late { seen ≤ℤ TIME_MAX }
        ensures port { (length : ℕ) (p : Port) (tick : ℕ) → EngineRepresents length self.old p →
            timer_at p.timers t ≡ Some tick →
            OnOk result (EngineRepresents length self.new (after_firing tick seen t p)) }
        ensures sent { (length : ℕ) (p : Port) → EngineRepresents length self.old p →
            OnOk result
            (frames.new.items
            ≡ frames.old.items
            ++ map message_octets
            (timer_messages d.now.domain (master_in d.now) seen t p)) }
        ensures same { OnErr result (self.new ≡ self.old) }
        ensures same_frames { OnErr result (frames.new ≡ frames.old) }

        // Where two frames are reserved, nothing is allocated, and each frame takes one of their places.
        ensures succeeds { 2 ≤ frames.old.spare → IsOk result }
        ensures room { 2 ≤ frames.old.spare →
            frames.new.spare + length frames.new.items
            ≡ frames.old.spare + length frames.old.items }
    {
        match self.timers.at(t) {
            None => unreachable!(),
            Some(tick) => {
                frames.reserve()?;
                self.act(t, tick, seen, d, frames);
                Ok(())
            }
        }
    }
}
