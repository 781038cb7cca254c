ghost use Rattle.std.specs.Prelude.{◌≡◌, ◌≢◌, ◌+◌, ◌<◌, ◌≤◌, List, [], ◌∷◌, IfOk, IfSome, true};
ghost use Rattle.ptp_base.specs.declared.limits.TheConstants.{STEPS_END};
ghost use Rattle.ptp_profile.specs.declared.foreign_master.KeptAnnounce.{KeptAnnounce};
ghost use Rattle.ptp_profile.specs.Best.ForeignMasters.{hearing_of, erbest};
ghost use Rattle.foreign_master.specs.ForeignMasterTable.{IsReached};
ghost use Rattle.foreign_master.specs.RecordsView.{RecordsView, RecordsRepresent};
ghost use Rattle.foreign_master.specs.SettledRecords.{is_settled};

use crate::master_table::MasterTable;
use crate::pass::{Pass, no_pass, pass_over};
use crate::window::is_within;
use ds_compare::Steps;
use ptp_base::{Announcement, NoMemory, PortId, STEPS_END};
use ptp_profile::Heard;
use std::alloc::Global;
use std::marker::Model;
use std::sync::ledger::Ledger;

/// What one port keeps of the Announces that it hears, foreignMasterDS: at most `SENDERS_MAX` foreign
/// masters, each with the latest Announce of one sender. A new sender takes the entry of one that has
/// left the window (IEEE 1588-2019, 9.3.2.4; how many there are is the project's). Only `new`
/// allocates.
///
/// They are passed over once for each Announce that is kept. What the pass finds stands until one
/// of those that qualify leaves the window: nothing else changes the qualified set.
///
/// Contracts tell what it keeps by the whole list of the Announces that were kept since the last
/// reset, the newest first. Whoever calls must not let moments fall: of a moment below that of an
/// Announce in this list nothing is said.
#[derive(Drop)]
pub struct Records {
    receiver: PortId,
    window: u64,
    /// When the last kept Announce came, in ticks (ns).
    heard: u64,
    masters: MasterTable,
    /// The pass at that moment.
    pass: Pass,
}

impl Model for Records {
    ghost use Rattle.foreign_master.specs.RecordsView.{RecordsView, AreSound};

    ghost Value = { RecordsView };

    ghost view = { λ r. record {
      receiver = r.receiver;
      window = r.window;
      heard = r.heard;
      masters = r.masters;
    } };

    ghost invariant = { λ r. AreSound r.window r.heard r.masters r.pass };
}

impl Records {
    /// Empty records of the port `receiver`, with room for all foreign masters. The foreign master
    /// window has the length `window`, in ns: `FOREIGN_MASTER_TIME_WINDOW` of ptp_base in announce
    /// intervals of the port (IEEE 1588-2019, 9.3.2.5).
    pub fn new(alloc: Global, receiver: PortId, window: u64) -> Result<Records, NoMemory>
        ensures receiver { IfOk result (λ r. r.receiver ≡ receiver) }
        ensures window { IfOk result (λ r. r.window ≡ window) }
        ensures empty { IfOk result (λ r. RecordsRepresent r []) }
    {
        Ok(Records {
            receiver,
            window,
            heard: 0,
            masters: MasterTable::with(alloc)?,
            pass: no_pass(),
        })
    }

    /// Hears an Announce at `at`, in ticks, and says what becomes of it
    /// (IEEE 1588-2019, 9.3.2.5; `Crowded` is the project's). Unless it is kept, nothing changes,
    /// and nothing is compared. For one that is kept the foreign masters are passed over once, with
    /// fewer than `SENDERS_MAX` comparisons. Does not allocate.
    pub fn hear<L: Ledger>(&mut self, a: Announcement, at: u64, steps: &mut Steps<L>) -> Heard
        requires { a.receiver ≡ self.old.receiver }
        ensures answer { (kept : List KeptAnnounce) → RecordsRepresent self.old kept
            → IsReached at kept → result ≡ hearing_of self.old.window at kept a }
        ensures kept { (kept : List KeptAnnounce) → RecordsRepresent self.old kept
            → IsReached at kept → result ≡ Heard.Kept
            → RecordsRepresent self.new (record { at = at; said = a } ∷ kept) }
        ensures same { result ≢ Heard.Kept → self.new ≡ self.old }
        ensures window { self.new.window ≡ self.old.window }
        ensures receiver { self.new.receiver ≡ self.old.receiver }
        ensures uncounted { result ≢ Heard.Kept → steps.new ≡ steps.old }
        ensures counted { steps.new ≤ steps.old + 15 }
    {
        if a.sender.clock == self.receiver.clock {
            return Heard::Own;
        }
        if a.steps >= STEPS_END {
            return Heard::Far;
        }
        if a.alternate {
            return Heard::Alternate;
        }
        if !self.masters.take(a, at, self.window) {
            return Heard::Crowded;
        }
        self.heard = at;
        self.pass = pass_over(self.masters.items(), self.window, at, steps);
        Heard::Kept
    }

    /// The best announcement at `at`, in ticks, or None where no sender is qualified: Erbest
    /// (IEEE 1588-2019, 9.3.2; the order of the pass is the project's). It is of fewer than
    /// `STEPS_END` steps. Nothing is compared while those that qualify are those of the moment of
    /// the last kept Announce, nor where none qualifies; else there are fewer than `SENDERS_MAX`
    /// comparisons. Does not allocate.
    pub fn best<L: Ledger>(&self, at: u64, steps: &mut Steps<L>) -> Option<Announcement>
        ensures best { (kept : List KeptAnnounce) → RecordsRepresent self.now kept
            → IsReached at kept → result ≡ erbest self.now.window at kept }
        ensures near { IfSome result (λ a. a.steps < STEPS_END) }
        ensures settled { (kept : List KeptAnnounce) → RecordsRepresent self.now kept
            → IsReached at kept → is_settled self.now.window at kept ≡ true
            → steps.new ≡ steps.old }
        ensures counted { steps.new ≤ steps.old + 15 }
    {
        let masters = self.masters.items();
        if is_within(self.pass.oldest, self.window, at) {
            return self.pass.winner;
        }
        pass_over(masters, self.window, at, steps).winner
    }

    /// The port that hears. Does not allocate.
    pub fn receiver(&self) -> PortId
        ensures { result ≡ self.now.receiver }
    {
        self.receiver
    }

    /// Forgets all that was kept.
    pub fn reset(&mut self)
        ensures empty { RecordsRepresent self.new [] }
        ensures window { self.new.window ≡ self.old.window }
        ensures receiver { self.new.receiver ≡ self.old.receiver }
    {
        self.masters.clear();
        self.heard = 0;
        self.pass = no_pass();
    }
}
