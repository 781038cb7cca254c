ghost use Rattle.std.specs.Prelude.{◌≡◌, ◌==◌, List, filter, IfOk};
ghost use Rattle.std.specs.Option.{option_copied};
ghost use Rattle.bc_history.specs.declared.scenario.Record.{Record};
ghost use Rattle.bc_steps.specs.RecordQueue.{last_of, left_after, upcoming_of, QueueRepresents};

use bc_history::{Happening, Record};
use ptp_base::NoMemory;
use std::alloc::Global;
use std::marker::Model;

/// The records of a port that are still to come. Contracts see them with the next one at the end.
#[derive(Drop)]
pub struct RecordQueue {
    records: Vec<Record>,
    // The tick of the next record, so that who asks when it comes need not touch it.
    upcoming: Option<u64>,
}

impl Model for RecordQueue {
    ghost use Rattle.std.specs.Prelude.{◌≡◌, List};
    ghost use Rattle.bc_history.specs.declared.scenario.Record.{Record};
    ghost use Rattle.bc_steps.specs.RecordQueue.{upcoming_of};

    ghost Value = { List Record };

    ghost view = { λ q. q.records.items };

    ghost invariant = { λ q. q.upcoming ≡ upcoming_of q.records.items };
}

impl RecordQueue {
    /// The tick of the next record, in ns of the scenario, if there is one.
    pub fn tick(&self) -> Option<u64>
        ensures { result ≡ upcoming_of self.now }
    {
        self.upcoming
    }

    /// The next record, if there is one.
    pub fn last(&self) -> Option<&Record>
        ensures { option_copied result ≡ last_of self.now }
    {
        self.records.last()
    }
}

/// A record again. The octets of a frame are copied.
fn copy_of(alloc: Global, kept: &Record) -> Result<Record, NoMemory>
    ensures { IfOk result (λ copy. copy ≡ kept.now) }
{
    Ok(Record {
        port: kept.port,
        tick: kept.tick,
        what: match &kept.what {
            Happening::Frame(octets) => Happening::Frame(octets.copy(alloc)?),
            Happening::Down => Happening::Down,
            Happening::Up => Happening::Up,
        },
    })
}

/// The tick of the record at the end, if there is one.
fn upcoming_of(records: &[Record]) -> Option<u64>
    ensures { result ≡ upcoming_of records.now }
{
    match records.last() {
        Some(record) => Some(record.tick),
        None => None,
    }
}

/// The records of a port, queued with the first one at the end.
pub fn queue_of(alloc: Global, records: &[Record], port: u16) -> Result<RecordQueue, NoMemory>
    ensures { IfOk result (λ queue.
        QueueRepresents queue (filter (λ (r : Record). r.port == port) records.now)) }
{
    let mut queue = Vec::new(alloc);
    let mut left = records.len();
    while left > 0 {
        left -= 1;
        let next = &records[left];
        if next.port == port {
            queue.push(copy_of(alloc, next)?)?;
        }
    }
    let upcoming = upcoming_of(&queue);
    Ok(RecordQueue {
        records: queue,
        upcoming,
    })
}

/// Takes the next record from a queue, where it is taken.
pub fn take_next(queue: &mut RecordQueue, is_taken: bool)
    ensures { (left : List Record) → QueueRepresents queue.old left →
        QueueRepresents queue.new (left_after is_taken left) }
{
    if is_taken {
        queue.records.pop();
        queue.upcoming = upcoming_of(&queue.records);
    }
}
