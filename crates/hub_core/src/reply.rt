//! What a query is told.

ghost use Rattle.std.specs.Prelude.{◌≡◌, ◌≤◌, ◌%◌, ℕ, List, length, IfOk};
ghost use Rattle.ptp_management.specs.ManagementQueries.{asked_by};
ghost use Rattle.bc_history.specs.Phases.QueryAnswers.{answers_of, counted_by, refusal_of};
ghost use Rattle.pmc_query.specs.AnsweredSets.{answering};

use bc_history::{Answers, AskError};
use data_sets::DataSets;
use pmc_query::{answer, ask, request};
use ptp_base::{NoMemory, Octets};
use std::alloc::Global;

/// What a query is told: why it makes no request, or what answers the request.
#[derive(Debug, Drop)]
pub struct Reply {
    /// Why it makes no request, where it makes none.
    pub asked: Option<AskError>,
    /// The answers to its request, each as octets.
    pub answers: Answers,
}

/// The answers again.
fn copied(alloc: Global, from: &[Octets]) -> Result<Answers, NoMemory>
    ensures { IfOk result (λ copy. copy ≡ from.now) }
{
    let mut copy = Answers::new(alloc);
    for octets in from {
        copy.push(octets.copy(alloc)?)?;
    }
    Ok(copy)
}

impl Reply {
    /// What the data sets reply to the query of a text, whose request has this sequence
    /// (IEEE 1588-2019, 15.4 and 15.5): the number of requests so far, modulo 65,536.
    pub fn to(alloc: Global, sets: &DataSets, text: &[u8], sequence: u16) -> Result<Reply, NoMemory>
        requires { length sets.now.ports ≤ 65535 }
        ensures asked { IfOk result (λ reply. reply.asked ≡ refusal_of (asked_by text.now)) }
        ensures answers { IfOk result (λ reply. (requests : ℕ) → sequence ≡ requests % 65536 →
            reply.answers ≡ answers_of (answering sets.now) requests (asked_by text.now)) }
    {
        let mut answers = Answers::new(alloc);
        let asked = match ask(text) {
            Err(error) => Some(error),
            Ok(r) => {
                answer(alloc, sets, &request(alloc, &r, sequence), &mut answers)?;
                None
            }
        };
        Ok(Reply { asked, answers })
    }

    /// The same again.
    pub fn copy(&self, alloc: Global) -> Result<Reply, NoMemory>
        ensures { IfOk result (λ copy. copy ≡ self.now) }
    {
        Ok(Reply {
            asked: self.asked,
            answers: copied(alloc, self.answers.items())?,
        })
    }

    /// The sequence of the next request, where this is the reply to a query of this sequence: only
    /// a request is counted. Does not allocate.
    pub fn next_sequence(&self, sequence: u16) -> u16
        ensures { (text : List ℕ) (requests : ℕ) → self.now.asked ≡ refusal_of (asked_by text) →
            sequence ≡ requests % 65536 →
            result ≡ counted_by (asked_by text) requests % 65536 }
    {
        match self.asked {
            None => sequence.wrapping_add(1),
            Some(_) => sequence,
        }
    }
}
