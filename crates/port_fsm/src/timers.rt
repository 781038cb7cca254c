ghost use Rattle.std.specs.Prelude.{◌≡◌, ◌≤◌, ◌↔◌, ℕ, Some, None, IfSome};
ghost use Rattle.ptp_base.specs.Least.{lesser};
ghost use Rattle.ptp_profile.specs.declared.port_event.Timer.{Timer};
ghost use Rattle.ptp_profile.specs.Port.PortTimers.{no_timers, timer_at, with_timer, due_of};

use ptp_profile::Timer;
use std::marker::Model;

/// The timers of a port, each with the moment that it is set for, in ticks (ns), if it is set
/// (IEEE 1588-2019, 9.2.6 and 9.5). No call allocates.
#[derive(Clone, Copy, Debug, PartialEq, Eq)]
pub struct Timers {
    receipt: Option<u64>,
    qualification: Option<u64>,
    announce: Option<u64>,
    sync: Option<u64>,
    delay: Option<u64>,
    /// The one that is due first, so that who asks at each turn compares nothing.
    first: Option<(u64, Timer)>,
}

impl Model for Timers {
    ghost use Rattle.std.specs.Prelude.{◌≡◌};
    ghost use Rattle.std.proofs.Common.{sym};
    ghost use Rattle.ptp_profile.specs.Port.PortTimers.{Timers, due_of};

    ghost Value = { Timers };

    ghost view = { λ t. record { receipt = t.receipt; qualification = t.qualification; announce = t.announce; sync = t.sync; delay = t.delay } };

    ghost invariant = { λ t. t.first ≡ due_of (record { receipt = t.receipt; qualification = t.qualification; announce = t.announce; sync = t.sync; delay = t.delay }) };

    ghost inverse = { λ t. record { receipt = t.receipt; qualification = t.qualification; announce = t.announce; sync = t.sync; delay = t.delay; first = due_of t } };

    ghost inverse_ok = { λ t h i. record { receipt = t.receipt; qualification = t.qualification; announce = t.announce; sync = t.sync; delay = t.delay; first = sym h i } };
}

/// The one that is due first: a later one of the order only where its moment is less.
fn lesser(first: Option<(u64, Timer)>, later: (u64, Timer)) -> Option<(u64, Timer)>
    ensures { result ≡ lesser (λ (due : ℕ × Timer). due.0) first later }
{
    match first {
        Some(due) if due.0 <= later.0 => Some(due),
        _ => Some(later),
    }
}

/// The one that is due first, with a later one of the order, which is set or not.
fn with_later(first: Option<(u64, Timer)>, t: Timer, at: Option<u64>) -> Option<(u64, Timer)>
    ensures set { IfSome at
        (λ moment. result ≡ lesser (λ (due : ℕ × Timer). due.0) first (moment, t)) }
    ensures cleared { at ≡ None → result ≡ first }
{
    match at {
        Some(moment) => lesser(first, (moment, t)),
        None => first,
    }
}

/// The one that is due first of all, in the order in which they go at one moment (project).
fn first_of(
    receipt: Option<u64>,
    qualification: Option<u64>,
    announce: Option<u64>,
    sync: Option<u64>,
    delay: Option<u64>,
) -> Option<(u64, Timer)>
    ensures { result ≡ due_of (record {
      receipt = receipt;
      qualification = qualification;
      announce = announce;
      sync = sync;
      delay = delay;
    }) }
{
    let first = with_later(None, Timer::AnnounceReceipt, receipt);
    let first = with_later(first, Timer::Qualification, qualification);
    let first = with_later(first, Timer::AnnounceSend, announce);
    let first = with_later(first, Timer::SyncSend, sync);
    with_later(first, Timer::DelayRequest, delay)
}

impl Timers {
    /// No timer is set.
    pub fn none() -> Timers
        ensures { result ≡ no_timers }
    {
        Timers {
            receipt: None,
            qualification: None,
            announce: None,
            sync: None,
            delay: None,
            first: None,
        }
    }

    /// The moment that a timer is set for, in ticks (ns), if it is set.
    pub fn at(&self, t: Timer) -> Option<u64>
        ensures { result ≡ timer_at self.now t }
    {
        match t {
            Timer::AnnounceReceipt => self.receipt,
            Timer::Qualification => self.qualification,
            Timer::AnnounceSend => self.announce,
            Timer::SyncSend => self.sync,
            Timer::DelayRequest => self.delay,
        }
    }

    /// Sets a timer, or clears it.
    fn put(&mut self, t: Timer, at: Option<u64>)
        ensures { self.new ≡ with_timer self.old t at }
    {
        match t {
            Timer::AnnounceReceipt => self.receipt = at,
            Timer::Qualification => self.qualification = at,
            Timer::AnnounceSend => self.announce = at,
            Timer::SyncSend => self.sync = at,
            Timer::DelayRequest => self.delay = at,
        }
        self.first = first_of(
            self.receipt,
            self.qualification,
            self.announce,
            self.sync,
            self.delay,
        );
    }

    /// Sets a timer for the moment `at`, in ticks (ns), in place of the one before.
    pub fn set(&mut self, t: Timer, at: u64)
        ensures { self.new ≡ with_timer self.old t (Some at) }
    {
        self.put(t, Some(at));
    }

    /// Clears a timer.
    pub fn clear(&mut self, t: Timer)
        ensures { self.new ≡ with_timer self.old t None }
    {
        self.put(t, None);
    }

    /// The timer that is due first, with its moment in ticks (ns): the least moment, and of equal
    /// moments the first in the order of `Timer` (project). None where no timer is set.
    pub fn due(&self) -> Option<(u64, Timer)>
        ensures due { result ≡ due_of self.now }
        ensures set { IfSome result (λ due. timer_at self.now due.1 ≡ Some due.0) }
        ensures least { IfSome result
            (λ due. (t : Timer) (at : ℕ) → timer_at self.now t ≡ Some at → due.0 ≤ at) }
        ensures none { result ≡ None ↔ ((t : Timer) → timer_at self.now t ≡ None) }
    {
        self.first
    }
}
