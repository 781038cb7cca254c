ghost use Rattle.std.specs.Prelude.{◌≡◌, ◌+◌, ◌<◌, ◌≤◌, List, [], Option, true, length};
ghost use Rattle.ptp_base.specs.declared.limits.TheConstants.{CLOCKS_MAX};
ghost use Rattle.notify.specs.declared.ring.TheConstants.{PUT_MAX};
ghost use Rattle.ptp_profile.specs.Roles.Edges.{slave_port};
ghost use Rattle.bc_history.specs.declared.entry.Entry.{Entry};
ghost use Rattle.bc_history.specs.declared.entry.Told.{Told};
ghost use Rattle.bc_history.specs.declared.scenario.Options.{Options};
ghost use Rattle.bc_history.specs.declared.scenario.Scenario.{Scenario};
ghost use Rattle.bc_history.specs.Phases.NoticePhase.{after_notices, after_turn};
ghost use Rattle.bc_history.specs.Phases.EntryEffects.{told_by};
ghost use Rattle.bc_history.specs.Phases.RolePhase.{states_of};
ghost use Rattle.bc_history.specs.Phases.State.{Core, Follower, Roles as HistoryRoles};
ghost use Rattle.bc_history.specs.Phases.Step.{state_of};
ghost use Rattle.bc_history.specs.Run.NextInputs.{IsDue};
ghost use Rattle.bc_history.specs.Scenario.ScenarioRules.{IsScenario};
ghost use Rattle.bc_notices.specs.NoticesView.{NoticesRepresent, most_put, notices_for};
ghost use Rattle.bc_ports.specs.Representation.{CoreRepresents, IsSound};
ghost use Rattle.bc_roles.specs.RolesView.{RolesRepresent};
ghost use Rattle.hub_core.specs.EffectParts.{follower_entry};
ghost use Rattle.hub_core.specs.FollowerInputs.{IsTurnerThere, is_of_follower};
ghost use Rattle.hub_core.specs.HubParts.{IsAt, PartsRepresent, PartsYield};

use crate::effects::follower_entry;
use crate::hub_parts::HubParts;
use crate::own_input::tick_of;
use bc_history::{Entry, Input, Told};
use bc_notices::Notice;
use bc_roles::Roles;
use ptp_base::Room;
use std::alloc::Global;

/// The notices of the present generation to so many followers, where `slave` is the number of the
/// port in SLAVE, or 0, in reserved places. Does not allocate.
fn push_notices(roles: &Roles, slave: u16, count: usize, out: &mut Room<Notice>)
    requires there { count ≤ length roles.now.stamps }
    requires few { count ≤ CLOCKS_MAX }
    requires empty { out.old.items ≡ [] }
    requires places { count ≤ out.old.spare }
    ensures notices { (c : Core) (r : HistoryRoles) → RolesRepresent roles.now r
        → slave ≡ slave_port (states_of c.ports) → out.new.items ≡ notices_for c r count }
    ensures length { length out.new.items ≡ count }
    ensures places { out.old.spare ≤ length out.new.items + out.new.spare }
{
    for clock in 0..count {
        out.push(roles.notice(clock as u8, slave));
    }
}

impl HubParts {
    /// Puts the notices of the present generation, in reserved places, where it is another than
    /// `before`. Does not allocate.
    pub(crate) fn post(&mut self, before: u32)
        requires sound { IsSound self.old.core }
        requires there { length self.old.notices.followers ≤ length self.old.roles.stamps }
        requires clocks { length self.old.roles.stamps ≤ CLOCKS_MAX }
        requires few { most_put self.old.notices.followers < PUT_MAX }
        requires places { length self.old.notices.followers
            ≤ length self.old.drafts.items + self.old.drafts.spare }
        ensures posted { (o : Options) (c : Core) (r former : HistoryRoles) (fs : List Follower)
            → CoreRepresents o self.old.core c → RolesRepresent self.old.roles r
            → before ≡ former.gener → NoticesRepresent o self.old.notices fs
            → NoticesRepresent o self.new.notices (after_notices o c former r fs) }
        ensures same { self.new
            ≡ record self.old { notices = self.new.notices; drafts = self.new.drafts } }
        ensures places { length self.old.drafts.items + self.old.drafts.spare
            ≤ length self.new.drafts.items + self.new.drafts.spare }
    {
        if self.roles.generation() != before {
            self.drafts.clear();
            let count = self.notices.count();
            push_notices(&self.roles, self.core.slave(), count, &mut self.drafts);
            self.notices.post(self.core.moment, self.drafts.items());
        }
    }

    /// What the input of a follower is told: a turn is told what its follower is to copy. The moment
    /// is the input's. Does not allocate.
    fn told(&mut self, input: &Input) -> Option<Told>
        requires sound { IsSound self.old.core }
        requires turner { IsTurnerThere self.old.notices input.now }
        requires there { length self.old.notices.followers ≤ length self.old.roles.stamps }
        requires few { most_put self.old.notices.followers < PUT_MAX }
        ensures told { (o : Options) (c : Core) (r : HistoryRoles) (fs : List Follower)
            → CoreRepresents o self.old.core c → RolesRepresent self.old.roles r
            → NoticesRepresent o self.old.notices fs → result ≡ told_by o c r input.now fs }
        ensures notices { (o : Options) (c : Core) (r : HistoryRoles) (fs : List Follower)
            → CoreRepresents o self.old.core c → RolesRepresent self.old.roles r
            → NoticesRepresent o self.old.notices fs
            → NoticesRepresent o self.new.notices (after_turn o c r input.now fs) }
        ensures same { self.new ≡ record self.old { notices = self.new.notices } }
    {
        match input {
            Input::Turn { clock, tick } => {
                let notice = self.roles.notice(*clock, self.core.slave());
                let moment = self.core.moment;
                Some(self.notices.turn(*clock, *tick, moment, notice))
            }
            _ => None,
        }
    }

    /// All that an input of a follower does: the entry that it makes. Ports, data sets, roles and logs
    /// stay as they were, but for the moment. Does not allocate.
    pub(crate) fn follow(&mut self, alloc: Global, input: Input) -> Entry
        requires at { IsAt self.old input }
        requires own { is_of_follower input ≡ true }
        ensures served { (s : Scenario) (entries : List Entry) → IsScenario s
            → PartsRepresent s self.old (state_of s entries) → IsDue s (state_of s entries) input
            → PartsYield s entries self.old.roles.seats.logs input self.new result }
        ensures roles { self.new.roles ≡ self.old.roles }
        ensures bests { self.new.core.decider.bests ≡ self.old.core.decider.bests }
        ensures ports { self.new.core.ports.len ≡ self.old.core.ports.len }
        ensures told { (told : Option Told) × (result
            ≡ follower_entry input self.new.core.moment told) }
    {
        self.core.advance_moment(tick_of(&input));
        let told = self.told(&input);
        follower_entry(alloc, input, self.core.moment, told)
    }
}
