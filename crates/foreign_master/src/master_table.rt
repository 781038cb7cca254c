ghost use Rattle.std.specs.Prelude.{◌≡◌, ◌<◌, ◌≤◌, not, List, [], ◌∷◌, false, true, length, vec_len, vec_capacity, IfOk};
ghost use Rattle.std.specs.List.{insert, position_or_len};
ghost use Rattle.ptp_base.specs.declared.limits.TheConstants.{SENDERS_MAX, STEPS_END};
ghost use Rattle.ptp_profile.specs.declared.foreign_master.KeptAnnounce.{KeptAnnounce};
ghost use Rattle.ptp_profile.specs.Best.ForeignMasters.{is_crowded};
ghost use Rattle.foreign_master.specs.ForeignMasterTable.{is_above, IsReached, AreNear, AreRising, MastersRepresent};

use crate::foreign_master::ForeignMaster;
use crate::search::{find_left, find_place, find_sender};
use ptp_base::{Announcement, NoMemory, SENDERS_MAX, STEPS_END};
use std::alloc::Global;
use std::marker::Model;

/// foreignMasterDS: at most `SENDERS_MAX` foreign masters, in strictly rising sender identity
/// (IEEE 1588-2019, 9.3.2.4; how many there are and their order is the project's). Only `with`
/// allocates.
#[derive(Drop)]
pub(crate) struct MasterTable {
    masters: Vec<ForeignMaster>,
}

impl Model for MasterTable {
    ghost use Rattle.std.specs.Prelude.{List, vec_capacity};
    ghost use Rattle.foreign_master.specs.declared.foreign_master.ForeignMaster.{ForeignMaster};
    ghost use Rattle.foreign_master.specs.ForeignMasterTable.{IsTable};

    ghost Value = { List ForeignMaster };

    ghost view = { λ t. t.masters.items };

    ghost invariant = { λ t. IsTable t.masters.items (vec_capacity t.masters) };
}

/// Puts a foreign master at its place, before the first one of a sender above its own.
fn insert(masters: &mut Vec<ForeignMaster>, new: ForeignMaster)
    requires { vec_len masters.old < vec_capacity masters.old }
    ensures items { masters.new.items ≡ insert masters.old.items
        (position_or_len (is_above new.said.sender) masters.old.items) new }
    ensures capacity { vec_capacity masters.old ≤ vec_capacity masters.new }
{
    let place = find_place(masters.as_slice(), new.said.sender);
    // There is a reserved place, so it takes no memory.
    let _ = masters.insert(place, new);
}

impl MasterTable {
    /// No foreign masters, with room for all.
    pub(crate) fn with(alloc: Global) -> Result<MasterTable, NoMemory>
        ensures { IfOk result (λ t. t ≡ []) }
    {
        Ok(MasterTable {
            masters: Vec::with_capacity(alloc, SENDERS_MAX)?,
        })
    }

    /// Takes an Announce that came at `at`, in ticks, unless it is crowded out. A known sender
    /// keeps its foreign master, so that its Announce before this one counts on. A new sender takes
    /// a free place, or that of one that has left the window, which is removed.
    pub(crate) fn take(&mut self, a: Announcement, at: u64, window: u64) -> bool
        requires { a.steps < STEPS_END }
        ensures same { result ≡ false → self.new ≡ self.old }
        ensures crowded { (kept : List KeptAnnounce) → MastersRepresent window self.old kept
            → IsReached at kept → result ≡ not (is_crowded window at kept a.sender) }
        ensures taken { (kept : List KeptAnnounce) → MastersRepresent window self.old kept
            → IsReached at kept → result ≡ true
            → MastersRepresent window self.new (record { at = at; said = a } ∷ kept) }
    {
        let masters = self.masters.as_slice();
        if let Some(known) = find_sender(masters, a.sender) {
            let before = Some(masters[known].last);
            self.masters[known] = ForeignMaster {
                said: a,
                last: at,
                before,
            };
            return true;
        }
        let new = ForeignMaster {
            said: a,
            last: at,
            before: None,
        };
        if masters.len() < SENDERS_MAX {
            insert(&mut self.masters, new);
            return true;
        }
        match find_left(masters, window, at) {
            Some(left) => {
                self.masters.remove(left);
                insert(&mut self.masters, new);
                true
            }
            None => false,
        }
    }

    /// Lends them.
    pub(crate) fn items(&self) -> &[ForeignMaster]
        ensures items { result.now ≡ self.now }
        ensures few { length self.now ≤ SENDERS_MAX }
        ensures rising { AreRising self.now }
        ensures near { AreNear self.now }
    {
        self.masters.as_slice()
    }

    /// Forgets all.
    pub(crate) fn clear(&mut self)
        ensures { self.new ≡ [] }
    {
        self.masters.clear();
    }
}
