ghost use Rattle.std.specs.Prelude.{◌≡◌, ◌+◌, ◌*◌, ◌≤◌, List, All, length};
ghost use Rattle.ptp_profile.specs.declared.foreign_master.KeptAnnounce.{KeptAnnounce};
ghost use Rattle.foreign_master.specs.RecordsView.{RecordsRepresent};
ghost use Rattle.foreign_master.specs.RecordCalls.{IsHeardBy, IsReachedBy, AreInTime, kept_after, kept_after_all, answer_of, answers_of};

use crate::records::Records;
use ds_compare::Steps;
use ptp_base::Announcement;
use ptp_profile::Heard;
use std::sync::ledger::Ledger;

/// A call of `Records`.
#[derive(Clone, Copy, Debug, PartialEq, Eq)]
pub enum Call {
    /// Hears an Announce at a moment, in ticks.
    Hear(Announcement, u64),
    /// Asks for the best at a moment, in ticks.
    Best(u64),
    /// Forgets all.
    Reset,
}

/// What a call answers.
#[derive(Clone, Copy, Debug, PartialEq, Eq)]
pub enum Answer {
    /// What became of the Announce.
    Became(Heard),
    /// The best announcement.
    Found(Option<Announcement>),
    /// All is forgotten.
    Forgot,
}

impl Records {
    /// Makes one call, with at most 15 comparisons.
    fn call<L: Ledger>(&mut self, call: &Call, steps: &mut Steps<L>) -> Answer
        requires { IsHeardBy self.old.receiver call.now }
        ensures answer { (kept : List KeptAnnounce) → RecordsRepresent self.old kept
            → IsReachedBy call.now kept → result ≡ answer_of self.old.window kept call.now }
        ensures kept { (kept : List KeptAnnounce) → RecordsRepresent self.old kept
            → IsReachedBy call.now kept
            → RecordsRepresent self.new (kept_after self.old.window kept call.now) }
        ensures window { self.new.window ≡ self.old.window }
        ensures receiver { self.new.receiver ≡ self.old.receiver }
        ensures counted { steps.new ≤ steps.old + 15 }
    {
        match call {
            Call::Hear(a, at) => Answer::Became(self.hear(*a, *at, steps)),
            Call::Best(at) => Answer::Found(self.best(*at, steps)),
            Call::Reset => {
                self.reset();
                Answer::Forgot
            }
        }
    }

    /// Makes these calls, one after another, and writes their answers into `answers`: those that the
    /// whole list of kept Announces gives, whatever was called before. Each makes at most 15
    /// comparisons.
    pub fn run<L: Ledger>(&mut self, calls: &[Call], answers: &mut [Answer], steps: &mut Steps<L>)
        requires heard_by { All (IsHeardBy self.old.receiver) calls.now }
        requires same_length { length answers.old ≡ length calls.now }
        ensures answers { (kept : List KeptAnnounce) → RecordsRepresent self.old kept
            → AreInTime self.old.window kept calls.now
            → answers.new ≡ answers_of self.old.window kept calls.now }
        ensures kept { (kept : List KeptAnnounce) → RecordsRepresent self.old kept
            → AreInTime self.old.window kept calls.now
            → RecordsRepresent self.new (kept_after_all self.old.window kept calls.now) }
        ensures window { self.new.window ≡ self.old.window }
        ensures receiver { self.new.receiver ≡ self.old.receiver }
        ensures counted { steps.new ≤ steps.old + 15 * length calls.now }
    {
        for (i, call) in calls.iter().enumerate() {
            answers[i] = self.call(call, steps);
        }
    }
}
