ghost use Rattle.std.specs.Prelude.{◌≡◌, ◌==◌, ◌≤◌, ℕ};
ghost use Rattle.ptp_base.specs.declared.time.TheConstants.{TICK_MAX};
ghost use Rattle.ptp_profile.specs.Port.PortStates.{next, is_following, state_number};
ghost use Rattle.ptp_profile.specs.Port.Port.{Port, after_event, after_entering, after_entering_uncalibrated, gets_parent, with_receipt_renewed, after_clearing};
ghost use Rattle.port_engine.specs.EngineView.{EngineRepresents};

use crate::engine::PortEngine;
use crate::intervals::{following, qualifying, sending, waiting};
use port_fsm::{PortEvent, Timers};
use ptp_base::{Code, PortState};

/// UNCALIBRATED and SLAVE take their time from a parent.
pub(crate) fn is_following(state: PortState) -> bool
    ensures { result ≡ is_following state }
{
    matches!(state, PortState::Uncalibrated | PortState::Slave)
}

/// By S1 with a new parent a port that follows already is to follow another one.
fn gets_parent(cause: PortEvent, new_parent: bool, state: PortState) -> bool
    ensures { result ≡ gets_parent cause new_parent state }
{
    new_parent && matches!(cause, PortEvent::Decided(Code::S1)) && is_following(state)
}

fn is_same(a: PortState, b: PortState) -> bool
    ensures { result ≡ (state_number a == state_number b) }
{
    a == b
}

impl PortEngine {
    /// Another state, and the timers as they are.
    fn set_state(&mut self, state: PortState)
        ensures { (length : ℕ) (p : Port) → EngineRepresents length self.old p →
            EngineRepresents length self.new (record p { state = state }) }
    {
        self.state = state;
    }

    /// Another state, and other timers.
    fn set(&mut self, state: PortState, timers: Timers)
        ensures { (length : ℕ) (p : Port) → EngineRepresents length self.old p
            → EngineRepresents length self.new (record p { state = state; timers = timers }) }
    {
        self.state = state;
        self.timers = timers;
    }

    /// UNCALIBRATED: by a decision the port begins to follow, by a synchronization fault it goes on.
    fn enter_uncalibrated(&mut self, cause: PortEvent, moment: u64)
        requires { moment ≤ TICK_MAX }
        ensures { (length : ℕ) (p : Port) → EngineRepresents length self.old p →
            EngineRepresents length self.new (after_entering_uncalibrated moment cause p) }
    {
        match cause {
            PortEvent::Decided(_) => {
                let timers = following(&self.conf, moment);
                self.clear();
                self.set(PortState::Uncalibrated, timers);
            }
            _ => self.set_state(PortState::Uncalibrated),
        }
    }

    /// Another state than the one before.
    fn enter_state(&mut self, new: PortState, cause: PortEvent, moment: u64, steps: u16)
        requires { moment ≤ TICK_MAX }
        ensures { (length : ℕ) (p : Port) → EngineRepresents length self.old p →
            EngineRepresents length self.new (after_entering moment steps cause new p) }
    {
        match new {
            PortState::Uncalibrated => self.enter_uncalibrated(cause, moment),
            PortState::Listening | PortState::Passive => {
                let timers = waiting(&self.conf, moment);
                self.set(new, timers);
            }
            PortState::PreMaster => {
                let timers = qualifying(&self.conf, moment, steps, cause);
                self.set(new, timers);
            }
            PortState::Master => {
                let timers = sending(&self.conf, moment);
                self.set(new, timers);
            }
            PortState::Faulty => self.set(new, Timers::none()),
            PortState::Slave | PortState::Initializing | PortState::Disabled => {
                self.set_state(new);
            }
        }
    }

    /// S1 with a new parent, where the port follows already.
    fn follow_another(&mut self, moment: u64)
        requires { moment ≤ TICK_MAX }
        ensures { (length : ℕ) (p : Port) → EngineRepresents length self.old p →
            EngineRepresents length self.new
            (with_receipt_renewed moment
            (record (after_clearing p) { state = PortState.Uncalibrated })) }
    {
        self.clear();
        self.set_state(PortState::Uncalibrated);
        self.renew(moment);
    }

    /// Enters the state `new`, which is what `next` gives for the port's state, the event `cause` and
    /// `new_parent`, at `moment`, at most `TICK_MAX`, with `steps` to the grandmaster. Where that is
    /// the state that the port has, nothing is entered; but S1 with a new parent, where the port
    /// follows already, sets announce receipt anew and clears pairing and delays. Does not
    /// allocate.
    pub fn enter(
        &mut self,
        new: PortState,
        cause: PortEvent,
        new_parent: bool,
        moment: u64,
        steps: u16,
    )
        requires next { new ≡ next self.old.state cause new_parent }
        requires early { moment ≤ TICK_MAX }
        ensures { (length : ℕ) (p : Port) → EngineRepresents length self.old p
            → EngineRepresents length self.new (after_event moment steps cause new_parent p) }
    {
        if gets_parent(cause, new_parent, self.state) {
            self.follow_another(moment);
        } else if !is_same(new, self.state) {
            self.enter_state(new, cause, moment, steps);
        }
    }
}
