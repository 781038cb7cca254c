ghost use Rattle.std.specs.Prelude.{◌≡◌, ◌+◌, ◌<◌, ◌≤◌, List, Some, IfOk, length, option_map, replicate, slice_get};
ghost use Rattle.ptp_base.specs.declared.time.TheConstants.{TICK_MAX};
ghost use Rattle.notify.specs.declared.ring.TheConstants.{PUT_MAX};
ghost use Rattle.bc_history.specs.declared.entry.Input.TheVariants.{Turn};
ghost use Rattle.bc_history.specs.declared.scenario.Options.{Options};
ghost use Rattle.bc_history.specs.Phases.NoticePhase.{after_posting_from, after_turn, notice_for, told_at};
ghost use Rattle.bc_history.specs.Phases.OpeningState.{follower_count, open_follower, opening};
ghost use Rattle.bc_history.specs.Phases.State.{Core, Follower as HistoryFollower, Roles};
ghost use Rattle.bc_notices.specs.NoticesView.{FollowersRepresent, NoticesRepresent, most_put, notices_for};

use crate::follower::{Follower, Terms};
use bc_history::{Scenario, Told};
use ptp_base::NoMemory;
use ptp_profile::Notice;
use std::alloc::Global;
use std::marker::Model;

/// What waits for the followers of a run: one for each clock where there are two clocks or more, else
/// none. Only `new` allocates.
#[derive(Drop)]
pub struct Notices {
    terms: Terms,
    // By rising clock.
    followers: Vec<Follower>,
}

impl Model for Notices {
    ghost use Rattle.std.specs.Prelude.{◌≤◌};
    ghost use Rattle.ptp_base.specs.declared.time.TheConstants.{TICK_MAX};
    ghost use Rattle.bc_notices.specs.NoticesView.{NoticesView};

    ghost Value = { NoticesView };

    ghost view = { λ n. record { terms = n.terms; followers = n.followers.items } };

    ghost invariant = { λ n. n.terms.duration ≤ TICK_MAX };
}

/// How many followers a scenario has.
fn follower_count(s: &Scenario) -> usize
    ensures { result ≡ follower_count s.now }
{
    let clocks = s.clocks.len();
    if clocks >= 2 { clocks } else { 0 }
}

/// So many followers before their first turns.
fn open_followers(alloc: Global, count: usize) -> Result<Vec<Follower>, NoMemory>
    ensures opened { IfOk result (λ followers. (o : Options)
        → FollowersRepresent o followers.items (replicate count open_follower)) }
    ensures count { IfOk result (λ followers. length followers.items ≡ count) }
    ensures put { IfOk result (λ followers. most_put followers.items ≡ 0) }
{
    let mut followers = Vec::new(alloc);
    for _ in 0..count {
        followers.push(Follower::new(alloc)?)?;
    }
    Ok(followers)
}

/// Puts a notice for each follower at a moment, in ns.
fn post_each(followers: &mut Vec<Follower>, moment: u64, notices: &[Notice])
    requires same { length notices.now ≡ length followers.old.items }
    requires few { most_put followers.old.items < PUT_MAX }
    ensures represents { (o : Options) (c : Core) (r : Roles) (fs : List HistoryFollower)
        → FollowersRepresent o followers.old.items fs → moment ≡ c.moment
        → notices.now ≡ notices_for c r (length fs)
        → FollowersRepresent o followers.new.items (after_posting_from o c r 0 fs) }
    ensures put { most_put followers.new.items ≤ most_put followers.old.items + 1 }
    ensures length { length followers.new.items ≡ length followers.old.items }
{
    for i in 0..followers.len() {
        followers[i].post(moment, notices[i]);
    }
}

impl Notices {
    /// For so many followers.
    pub(crate) fn with(alloc: Global, terms: Terms, count: usize) -> Result<Notices, NoMemory>
        requires duration { terms.duration ≤ TICK_MAX }
        ensures terms { IfOk result (λ n. n.terms ≡ terms) }
        ensures followers { IfOk result (λ n. (o : Options)
            → FollowersRepresent o n.followers (replicate count open_follower)) }
        ensures count { IfOk result (λ n. length n.followers ≡ count) }
        ensures put { IfOk result (λ n. most_put n.followers ≡ 0) }
    {
        Ok(Notices {
            terms,
            followers: open_followers(alloc, count)?,
        })
    }

    /// Before the first entry of a run.
    pub fn new(alloc: Global, s: &Scenario) -> Result<Notices, NoMemory>
        ensures { IfOk result
            (λ n. NoticesRepresent s.now.options n (opening s.now).followers) }
    {
        s.rules();
        Notices::with(alloc, Terms::of(&s.options), follower_count(s))
    }

    /// How many followers there are. Does not allocate.
    pub fn count(&self) -> usize
        ensures { result ≡ length self.now.followers }
    {
        self.followers.len()
    }

    /// Puts a notice for each follower, by rising clock, at the moment `moment`, in ns: it waits for
    /// those whose subscription lasts. Fewer than `PUT_MAX` wait for any follower. Does not allocate.
    pub fn post(&mut self, moment: u64, notices: &[Notice])
        requires same { length notices.now ≡ length self.old.followers }
        requires few { most_put self.old.followers < PUT_MAX }
        ensures represents { (o : Options) (c : Core) (r : Roles) (fs : List HistoryFollower)
            → NoticesRepresent o self.old fs → moment ≡ c.moment
            → notices.now ≡ notices_for c r (length fs)
            → NoticesRepresent o self.new (after_posting_from o c r 0 fs) }
        ensures put { most_put self.new.followers ≤ most_put self.old.followers + 1 }
        ensures length { length self.new.followers ≡ length self.old.followers }
    {
        post_each(&mut self.followers, moment, notices);
    }

    /// The turn of a clock's follower at a tick and a moment, in ns, the moment at most `TICK_MAX`:
    /// what it is told, where `notice` is the present generation's. A turn that subscribes is told it
    /// at once; every turn takes all notices. The follower is there, and fewer than `PUT_MAX` notices
    /// wait for it. Does not allocate.
    pub fn turn(&mut self, clock: u8, tick: u64, moment: u64, notice: Notice) -> Told
        requires there { clock < length self.old.followers }
        requires moment { moment ≤ TICK_MAX }
        requires few { most_put self.old.followers < PUT_MAX }
        ensures told { (o : Options) (fs : List HistoryFollower) → NoticesRepresent o self.old fs
            → option_map (told_at o moment tick notice) (slice_get fs clock) ≡ Some result }
        ensures represents { (o : Options) (c : Core) (r : Roles) (fs : List HistoryFollower)
            → NoticesRepresent o self.old fs → moment ≡ c.moment → notice ≡ notice_for c r clock
            → NoticesRepresent o self.new (after_turn o c r (Turn clock tick) fs) }
        ensures put { most_put self.new.followers ≤ most_put self.old.followers }
        ensures length { length self.new.followers ≡ length self.old.followers }
    {
        let terms = self.terms;
        self.followers[clock as usize].turn(terms, tick, moment, notice)
    }
}
