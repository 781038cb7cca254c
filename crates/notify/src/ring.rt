ghost use Rattle.std.specs.Prelude.{◌≡◌, ◌<◌, [], IfOk, if◌then◌else◌};
ghost use Rattle.notify.specs.declared.ring.TheConstants.{PUT_MAX};
ghost use Rattle.notify.specs.RingView.{RingState, RingRepresents, unsubscribed, is_subscribed, with_notice, taken_from, taken_of, after_post};

use circular_buffer::HeapCircularBuffer;
use ptp_base::{NOTICES_MAX, NoMemory};
use ptp_profile::Notice;
use std::alloc::Global;
use std::marker::Model;

/// How many notices may be put between two takes.
pub const PUT_MAX: u32 = 4_294_967_295;

/// What a ring held when it was taken.
#[derive(Clone, Copy, Debug, PartialEq, Eq)]
pub struct Taken {
    /// The last notice that was put since the former take.
    pub last: Option<Notice>,
    /// How many notices were there, at most `NOTICES_MAX`.
    pub count: u32,
    /// How many older ones were lost since the former take.
    pub missed: u32,
}

/// The notices of one follower that it has not taken, and the end of its subscription. Of more than
/// `NOTICES_MAX` notices the oldest are lost. Only `new` allocates.
///
/// Contracts tell what it holds by the whole list of the notices that were put since the last take,
/// the newest first.
#[derive(Drop)]
pub struct Ring {
    // The last moment of the subscription, in ns.
    until: Option<u64>,
    // The newest first.
    notices: HeapCircularBuffer<Notice>,
    // How many were put since the last take.
    put: u32,
}

impl Model for Ring {
    ghost use Rattle.notify.specs.RingView.{RingView, IsSound};

    ghost Value = { RingView };

    ghost view = { λ r. record { until = r.until; notices = r.notices.items; put = r.put } };

    ghost invariant = { λ r. IsSound r.notices.items r.notices.capacity r.put };
}

impl Ring {
    /// A ring without notices and without a subscription, with places for `NOTICES_MAX` notices.
    pub fn new(alloc: Global) -> Result<Ring, NoMemory>
        ensures { IfOk result (λ r. RingRepresents r unsubscribed) }
    {
        Ok(Ring {
            until: None,
            notices: HeapCircularBuffer::with_capacity(alloc, NOTICES_MAX)?,
            put: 0,
        })
    }

    /// Begins a subscription that ends with the moment `until`, in ns, in place of the last one.
    pub fn subscribe(&mut self, until: u64)
        ensures exact { self.new ≡ record self.old { until = Some until } }
        ensures represents { (state : RingState) → RingRepresents self.old state →
            RingRepresents self.new (record state { until = Some until }) }
    {
        self.until = Some(until);
    }

    // Whether a subscription lasts at a moment, in ns.
    fn is_subscribed(&self, at: u64) -> bool
        ensures { result ≡ is_subscribed self.now.until at }
    {
        match self.until {
            Some(until) => at <= until,
            None => false,
        }
    }

    /// Puts a notice at the moment `at`, in ns, where a subscription lasts, and says whether it did:
    /// false exactly where there is no subscription, or `at` is past its end. Where all places are taken
    /// the oldest notice is lost. Fewer than `PUT_MAX` notices were put since the last take.
    pub fn post(&mut self, at: u64, notice: Notice) -> bool
        requires { self.old.put < PUT_MAX }
        ensures answer { result ≡ is_subscribed self.old.until at }
        ensures exact { self.new ≡ (if result then with_notice notice self.old else self.old) }
        ensures represents { (state : RingState) → RingRepresents self.old state →
            RingRepresents self.new (after_post at notice state) }
    {
        if !self.is_subscribed(at) {
            return false;
        }
        self.notices.push_front(notice);
        self.put += 1;
        true
    }

    /// Takes all notices: the last one, how many were there, and how many were lost since the former
    /// take. The subscription stays.
    pub fn take(&mut self) -> Taken
        ensures answer { (state : RingState) → RingRepresents self.old state →
            result ≡ taken_of state.notices }
        ensures taken { result ≡ taken_from self.old }
        ensures exact { self.new ≡ record self.old { notices = []; put = 0 } }
        ensures represents { (state : RingState) → RingRepresents self.old state →
            RingRepresents self.new (record state { notices = [] }) }
    {
        let count = self.notices.len() as u32;
        let taken = Taken {
            last: self.notices.front().copied(),
            count,
            missed: self.put - count,
        };
        self.notices.clear();
        self.put = 0;
        taken
    }
}
