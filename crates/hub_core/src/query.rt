//! An event of a query.

ghost use Rattle.std.specs.Prelude.{◌≡◌, ◌<◌, length, IfOk, OnErr};
ghost use Rattle.ptp_base.specs.declared.limits.TheConstants.{ENTRIES_MAX};
ghost use Rattle.bc_history.specs.declared.entry.Input.TheVariants.{Query};
ghost use Rattle.bc_history.specs.Phases.Step.{state_of};
ghost use Rattle.bc_history.specs.Run.NextInputs.{IsDue};
ghost use Rattle.hub_core.specs.HubView.{HubYields, IsInWindow};

use crate::effects::{query_effects, query_entry};
use crate::hub::Hub;
use crate::reply::Reply;
use bc_history::{Effects, Input};
use ptp_base::{NoMemory, Octets};

impl Hub {
    /// The event of a query, where the history has a place for it: the data sets as they stand reply
    /// to it, and nothing changes but the moment, the number of queries, and that of requests.
    pub(crate) fn take_query(&mut self, tick: u64, text: Octets) -> Result<Effects, NoMemory>
        requires due { IsDue self.old.scenario (state_of self.old.scenario self.old.entries)
            (Query tick text) }
        requires within { IsInWindow self.old (Query tick text) }
        requires few { length self.old.entries < ENTRIES_MAX }
        ensures yields { IfOk result (HubYields self.old (Query tick text) self.new) }
        ensures same { OnErr result (self.new ≡ self.old) }
    {
        let sets = &self.machine.core.sets;
        let reply = Reply::to(self.alloc, sets, text.items(), self.sequence)?;
        let told = reply.copy(self.alloc)?;
        let sequence = reply.next_sequence(self.sequence);
        let moment = self.machine.core.moment.max(tick);
        let input = Input::Query { tick, text };
        self.entries
            .push(query_entry(self.alloc, input, moment, reply))?;
        self.machine.core.advance_moment(tick);
        self.asked += 1;
        self.sequence = sequence;
        Ok(query_effects(self.alloc, told))
    }
}
