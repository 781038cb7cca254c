ghost use Rattle.std.specs.Prelude.{◌≡◌, ℕ, ◌+◌, ◌-◌, ◌<◌, ◌≤◌, not, nat_lt, IfOk};
ghost use Rattle.ptp_base.specs.declared.limits.TheConstants.{NOTICES_MAX};
ghost use Rattle.ptp_base.specs.declared.time.TheConstants.{TICK_MAX};
ghost use Rattle.notify.specs.declared.ring.TheConstants.{PUT_MAX};
ghost use Rattle.bc_history.specs.declared.scenario.Options.{Options};
ghost use Rattle.bc_history.specs.Phases.Inputs.{holds};
ghost use Rattle.bc_history.specs.Phases.NoticePhase.{after_posting, after_subscription, after_taking, lead_of, told_at};
ghost use Rattle.bc_history.specs.Phases.OpeningState.{open_follower};
ghost use Rattle.bc_history.specs.Phases.State.{Follower as HistoryFollower};
ghost use Rattle.bc_notices.specs.FollowerView.{FollowerRepresents, lead_in, later, terms_of};

use bc_history::{Options, Told};
use notify::Ring;
use ptp_base::NoMemory;
use ptp_profile::{Lead, Notice};
use std::alloc::Global;

/// How long a subscription lasts, and after how long a follower subscribes anew.
#[derive(Clone, Copy, Debug, PartialEq, Eq)]
pub struct Terms {
    /// How long, from the subscription's moment on, in ns from 0 to `TICK_MAX`.
    pub duration: u64,
    /// After how long, from the subscription's tick on, in ns.
    pub renew: u64,
}

impl Terms {
    /// Those of a scenario's options.
    pub(crate) fn of(options: &Options) -> Terms
        ensures { result ≡ terms_of options.now }
    {
        Terms {
            duration: options.subscribe_duration,
            renew: options.subscribe_renew,
        }
    }
}

/// The follower of one clock: the notices that wait for it, with the end of its subscription, and the
/// last notice that it took.
#[derive(Drop)]
pub struct Follower {
    ring: Ring,
    last: Option<Notice>,
    // The tick of the last subscription, in ns.
    subscribed: Option<u64>,
}

/// The later of a notice and the one before it.
fn later(notice: Option<Notice>, former: Option<Notice>) -> Option<Notice>
    ensures { result ≡ later notice former }
{
    match notice {
        Some(notice) => Some(notice),
        None => former,
    }
}

/// What a notice tells to copy.
fn lead_in(notice: Option<Notice>) -> Option<Lead>
    ensures { result ≡ lead_in notice }
{
    match notice {
        Some(notice) => notice.lead,
        None => None,
    }
}

impl Follower {
    /// Before its first turn.
    pub(crate) fn new(alloc: Global) -> Result<Follower, NoMemory>
        ensures opened { IfOk result (λ f. (o : Options) → FollowerRepresents o f open_follower) }
        ensures put { IfOk result (λ f. f.ring.put ≡ 0) }
    {
        Ok(Follower {
            ring: Ring::new(alloc)?,
            last: None,
            subscribed: None,
        })
    }

    /// Puts a notice at a moment, in ns, where the subscription lasts. Fewer than `PUT_MAX` were put
    /// since the last turn.
    pub(crate) fn post(&mut self, moment: u64, notice: Notice)
        requires few { self.old.ring.put < PUT_MAX }
        ensures represents { (o : Options) (f : HistoryFollower) → FollowerRepresents o self.old f
            → FollowerRepresents o self.new (after_posting o moment notice f) }
        ensures put { self.new.ring.put ≤ self.old.ring.put + 1 }
    {
        self.ring.post(moment, notice);
    }

    /// Whether a turn at a tick, in ns, subscribes: the first one does, and one at which the last
    /// subscription is old.
    fn is_due(&self, terms: Terms, tick: u64) -> bool
        ensures { result
            ≡ not (holds (λ last. nat_lt tick (last + terms.renew)) self.now.subscribed) }
    {
        match self.subscribed {
            None => true,
            Some(last) => last <= tick && terms.renew <= tick - last,
        }
    }

    /// Subscribes at a tick and a moment, in ns, where that is due, and puts the notice.
    fn subscribe(&mut self, terms: Terms, tick: u64, moment: u64, notice: Notice)
        requires duration { terms.duration ≤ TICK_MAX }
        requires moment { moment ≤ TICK_MAX }
        requires few { self.old.ring.put < PUT_MAX }
        ensures represents { (o : Options) (f : HistoryFollower) → terms ≡ terms_of o
            → FollowerRepresents o self.old f
            → FollowerRepresents o self.new (after_subscription o moment tick notice f) }
    {
        if self.is_due(terms, tick) {
            self.ring.subscribe(moment + terms.duration);
            self.ring.post(moment, notice);
            self.subscribed = Some(tick);
        }
    }

    /// Takes all notices: what the last one tells to copy, and how many were missed.
    fn take(&mut self) -> Told
        ensures told { (o : Options) (f : HistoryFollower) → FollowerRepresents o self.old f
            → result ≡ record { lead = lead_of f; missed = f.put - NOTICES_MAX } }
        ensures represents { (o : Options) (f : HistoryFollower) (tick : ℕ)
            → FollowerRepresents o self.old f
            → FollowerRepresents o self.new (after_taking tick f) }
        ensures put { self.new.ring.put ≡ 0 }
    {
        let taken = self.ring.take();
        let last = later(taken.last, self.last);
        self.last = last;
        Told {
            lead: lead_in(last),
            missed: taken.missed,
        }
    }

    /// A turn at a tick and a moment, in ns: it subscribes where that is due, by which it is told the
    /// notice at once, and takes all notices.
    pub(crate) fn turn(&mut self, terms: Terms, tick: u64, moment: u64, notice: Notice) -> Told
        requires duration { terms.duration ≤ TICK_MAX }
        requires moment { moment ≤ TICK_MAX }
        requires few { self.old.ring.put < PUT_MAX }
        ensures told { (o : Options) (f : HistoryFollower) → terms ≡ terms_of o
            → FollowerRepresents o self.old f → result ≡ told_at o moment tick notice f }
        ensures represents { (o : Options) (f : HistoryFollower) → terms ≡ terms_of o
            → FollowerRepresents o self.old f
            → FollowerRepresents o self.new
            (after_taking tick (after_subscription o moment tick notice f)) }
        ensures put { self.new.ring.put ≡ 0 }
    {
        self.subscribe(terms, tick, moment, notice);
        self.take()
    }
}
