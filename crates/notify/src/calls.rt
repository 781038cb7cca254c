ghost use Rattle.std.specs.Prelude.{◌≡◌, ◌+◌, ◌≤◌, ◌<◌, length};
ghost use Rattle.notify.specs.declared.ring.TheConstants.{PUT_MAX};
ghost use Rattle.notify.specs.RingView.{RingState, RingRepresents};
ghost use Rattle.notify.specs.RingCalls.{state_after, state_after_all, answer_of, answers_of};

use crate::ring::{Ring, Taken};
use ptp_profile::Notice;

/// A call of `Ring`. Moments are in ns.
#[derive(Clone, Copy, Debug, PartialEq, Eq)]
pub enum Call {
    /// Begins a subscription that ends with a moment.
    Subscribe(u64),
    /// Puts a notice at a moment.
    Post(u64, Notice),
    /// Takes all notices.
    Take,
}

/// What a call answers.
#[derive(Clone, Copy, Debug, PartialEq, Eq)]
pub enum Answer {
    /// A subscription began.
    Subscribed,
    /// Whether the notice was put.
    Posted(bool),
    /// What was there.
    Took(Taken),
}

impl Ring {
    // Makes one call.
    fn call(&mut self, call: &Call) -> Answer
        requires { self.old.put < PUT_MAX }
        ensures answer { (state : RingState) → RingRepresents self.old state →
            result ≡ answer_of state call.now }
        ensures represents { (state : RingState) → RingRepresents self.old state →
            RingRepresents self.new (state_after state call.now) }
        ensures put { self.new.put ≤ self.old.put + 1 }
    {
        match call {
            Call::Subscribe(until) => {
                self.subscribe(*until);
                Answer::Subscribed
            }
            Call::Post(at, notice) => Answer::Posted(self.post(*at, *notice)),
            Call::Take => Answer::Took(self.take()),
        }
    }

    /// Makes these calls, one after another, and writes their answers into `answers`: those that the
    /// whole list of notices put since the last take gives, whatever was called before. There are at
    /// most `PUT_MAX` of them, the notices that wait already counted in.
    pub fn run(&mut self, calls: &[Call], answers: &mut [Answer])
        requires few { self.old.put + length calls.now ≤ PUT_MAX }
        requires same_length { length answers.old ≡ length calls.now }
        ensures answers { (state : RingState) → RingRepresents self.old state →
            answers.new ≡ answers_of state calls.now }
        ensures represents { (state : RingState) → RingRepresents self.old state →
            RingRepresents self.new (state_after_all state calls.now) }
        ensures put { self.new.put ≤ self.old.put + length calls.now }
    {
        for (i, call) in calls.iter().enumerate() {
            answers[i] = self.call(call);
        }
    }
}
