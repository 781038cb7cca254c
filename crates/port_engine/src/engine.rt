ghost use Rattle.std.specs.Prelude.{◌≡◌, ◌≤◌, ℕ, IfOk};
ghost use Rattle.ptp_base.specs.declared.limits.TheConstants.{DELAYS_MAX};
ghost use Rattle.ptp_base.specs.declared.time.TheConstants.{TICK_MAX};
ghost use Rattle.ptp_profile.specs.Port.PortTimers.{timer_at, due_of};
ghost use Rattle.ptp_profile.specs.Port.Port.{Port, open_port, with_receipt_renewed, after_clock_step, after_clearing};
ghost use Rattle.port_engine.specs.PortIntervals.{HasIntervals};
ghost use Rattle.port_engine.specs.EngineView.{EngineRepresents};

use crate::intervals::{receipt_time, waiting};
use delay_mech::Delays;
use port_fsm::{Timer, Timers};
use ptp_base::{NoMemory, PortConf, PortId, PortState};
use std::alloc::Global;
use std::marker::Model;
use sync_match::Pairing;

/// One port: its state and its timers (IEEE 1588-2019, 9.2), the pairing of Syncs and the delays
/// (11.2 and 11.3), and the sequences of what it sends (7.3.7). The Announces that it hears are kept
/// elsewhere. Moments are in ticks (ns), times in ns.
///
/// Contracts tell it by the port of the definitions that it stands for, which keeps whole lists.
#[derive(Drop)]
pub struct PortEngine {
    pub(crate) id: PortId,
    pub(crate) conf: PortConf,
    pub(crate) state: PortState,
    pub(crate) timers: Timers,
    pub(crate) pairing: Pairing,
    pub(crate) delays: Delays,
    /// The sequenceId of the next Announce.
    pub(crate) announces: u16,
    /// That of the next Sync and its Follow_Up.
    pub(crate) syncs: u16,
    /// That of the next Delay_Req.
    pub(crate) requests: u16,
}

impl Model for PortEngine {
    ghost use Rattle.port_engine.specs.EngineView.{Engine, IsSound};

    ghost Value = { Engine };

    ghost view = { λ e. record { id = e.id; conf = e.conf; state = e.state; timers = e.timers; pairing = e.pairing; delays = e.delays; announces = e.announces; syncs = e.syncs; requests = e.requests } };

    ghost invariant = { λ e. IsSound e.id e.conf e.delays };
}

impl PortEngine {
    /// The port `id` in LISTENING at moment 0, with a mean over `length` delays: from 1 to
    /// `DELAYS_MAX`.
    pub fn new(alloc: Global, c: &PortConf, id: PortId, length: u8) -> Result<PortEngine, NoMemory>
        requires intervals { HasIntervals c.now }
        requires some { 1 ≤ length }
        requires few { length ≤ DELAYS_MAX }
        ensures { IfOk result (λ e. EngineRepresents length e (open_port id c.now)) }
    {
        Ok(PortEngine {
            id,
            conf: *c,
            state: PortState::Listening,
            timers: waiting(c, 0),
            pairing: Pairing::new(),
            delays: Delays::new(alloc, id, length)?,
            announces: 0,
            syncs: 0,
            requests: 0,
        })
    }

    /// The state (IEEE 1588-2019, 9.2.5).
    pub fn state(&self) -> PortState
        ensures { result ≡ self.now.state }
    {
        self.state
    }

    /// The moment that a timer is set for, if it is set.
    pub fn at(&self, t: Timer) -> Option<u64>
        ensures { result ≡ timer_at self.now.timers t }
    {
        self.timers.at(t)
    }

    /// The timer that is due first, with its moment; None where none is set.
    pub fn due(&self) -> Option<(u64, Timer)>
        ensures { result ≡ due_of self.now.timers }
    {
        self.timers.due()
    }

    /// A kept Announce sets announce receipt anew at `moment`, at most `TICK_MAX`.
    pub fn renew(&mut self, moment: u64)
        requires { moment ≤ TICK_MAX }
        ensures { (length : ℕ) (p : Port) → EngineRepresents length self.old p →
            EngineRepresents length self.new (with_receipt_renewed moment p) }
    {
        self.timers
            .set(Timer::AnnounceReceipt, moment + receipt_time(&self.conf));
    }

    /// The clock was stepped: the times that were kept no longer hold. The delays stay.
    pub fn jumped(&mut self)
        ensures { (length : ℕ) (p : Port) → EngineRepresents length self.old p →
            EngineRepresents length self.new (after_clock_step p) }
    {
        self.pairing.clear();
        self.delays.flush();
    }

    /// Pairing and delays are cleared.
    pub(crate) fn clear(&mut self)
        ensures { (length : ℕ) (p : Port) → EngineRepresents length self.old p →
            EngineRepresents length self.new (after_clearing p) }
    {
        self.pairing.clear();
        self.delays.clear();
    }
}
