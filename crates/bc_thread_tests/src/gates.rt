//! Gates that hold an actor until another one is so far.
use crate::texts::port_and_tick;
use bc_actors::Gate;
use bc_history::Run;
use std::alloc::Global;
use std::sync::atomic::{AtomicU64, Ordering};
use std::test::Fail;

/// How often a gate looks before it gives up.
const LOOKS: u32 = 100_000_000;

/// Looks until a word is so much, or too often; whether it came to it.
pub fn comes_to(word: &AtomicU64, least: u64) -> bool {
    for _ in 0..LOOKS {
        if word.load(Ordering::SeqCst) >= least {
            return true;
        }
    }
    false
}

/// The actor that each entry was given for, by the entry's index from 1; 0 where none was.
#[derive(Drop)]
pub struct Owners {
    actors: Vec<AtomicU64>,
}

impl Owners {
    /// Places for so many entries.
    pub fn new(alloc: Global, most: usize) -> Result<Owners, Fail> {
        let mut actors = Vec::new(alloc);
        for _ in 0..most {
            actors.push(AtomicU64::new(0))?;
        }
        Ok(Owners { actors })
    }

    /// The actor was given this entry.
    pub fn note(&self, actor: u8, entry: u32) {
        if entry > 0 {
            if let Some(owner) = self.actors.get(entry as usize - 1) {
                owner.store(u64::from(actor), Ordering::SeqCst);
            }
        }
    }

    /// Whether each entry of a run that is a port's was given to that port.
    pub fn are_those_of(&self, run: &Run) -> bool {
        for (i, entry) in run.entries.items().iter().enumerate() {
            let (port, _) = port_and_tick(&entry.input);
            let Some(owner) = self.actors.get(i) else {
                return false;
            };
            if port > 0 && owner.load(Ordering::SeqCst) != u64::from(port) {
                return false;
            }
        }
        true
    }
}

/// Each of ports 1 and 2 raises its flag before its first turn and looks for the other's.
#[derive(Drop)]
pub struct Both {
    first: AtomicU64,
    second: AtomicU64,
    /// How many saw the other's flag.
    pub met: AtomicU64,
}

impl Both {
    /// No flag is raised.
    pub fn new() -> Both {
        Both {
            first: AtomicU64::new(0),
            second: AtomicU64::new(0),
            met: AtomicU64::new(0),
        }
    }

    fn raise(&self, own: &AtomicU64, other: &AtomicU64) {
        own.store(1, Ordering::SeqCst);
        if comes_to(other, 1) {
            self.met.fetch_add(1, Ordering::SeqCst);
        }
    }
}

impl Gate for Both {
    fn before(&self, actor: u8, turn: u64) {
        if turn == 1 && actor == 1 {
            self.raise(&self.first, &self.second);
        }
        if turn == 1 && actor == 2 {
            self.raise(&self.second, &self.first);
        }
    }

    fn after(&self, _actor: u8, _turn: u64, _entry: u32) {}
}

/// Holds one port before its first turn until another one had its first turn.
#[derive(Drop)]
pub struct Ordered {
    held: u8,
    other: u8,
    went: AtomicU64,
    left: AtomicU64,
    /// 1 where the held port saw that the other one went.
    pub waited: AtomicU64,
    /// 1 where the other one went before the held port was let go.
    pub early: AtomicU64,
    /// The entry of the other one's first turn.
    pub entry: AtomicU64,
    pub owners: Owners,
}

impl Ordered {
    /// Nobody had a turn.
    pub fn new(alloc: Global, held: u8, other: u8) -> Result<Ordered, Fail> {
        Ok(Ordered {
            held,
            other,
            went: AtomicU64::new(0),
            left: AtomicU64::new(0),
            waited: AtomicU64::new(0),
            early: AtomicU64::new(0),
            entry: AtomicU64::new(0),
            owners: Owners::new(alloc, 64)?,
        })
    }
}

impl Gate for Ordered {
    fn before(&self, actor: u8, turn: u64) {
        if actor == self.held && turn == 1 {
            if comes_to(&self.went, 1) {
                self.waited.store(1, Ordering::SeqCst);
            }
            self.left.store(1, Ordering::SeqCst);
        }
    }

    fn after(&self, actor: u8, turn: u64, entry: u32) {
        self.owners.note(actor, entry);
        if actor == self.other && turn == 1 {
            if self.left.load(Ordering::SeqCst) == 0 {
                self.early.store(1, Ordering::SeqCst);
            }
            self.entry.store(u64::from(entry), Ordering::SeqCst);
            self.went.store(1, Ordering::SeqCst);
        }
    }
}

/// Counts the entries of ports 1 and 2. Holds port 2 once it has two until port 1 has ten, and port 1
/// once it has ten until port 2 has three.
#[derive(Drop)]
pub struct Split {
    first: AtomicU64,
    second: AtomicU64,
    pub owners: Owners,
}

impl Split {
    /// Nobody has an entry.
    pub fn new(alloc: Global) -> Result<Split, Fail> {
        Ok(Split {
            first: AtomicU64::new(0),
            second: AtomicU64::new(0),
            owners: Owners::new(alloc, 64)?,
        })
    }
}

impl Gate for Split {
    fn before(&self, actor: u8, _turn: u64) {
        if actor == 2 && self.second.load(Ordering::SeqCst) == 2 {
            comes_to(&self.first, 10);
        }
        if actor == 1 && self.first.load(Ordering::SeqCst) == 10 {
            comes_to(&self.second, 3);
        }
    }

    fn after(&self, actor: u8, _turn: u64, entry: u32) {
        self.owners.note(actor, entry);
        if entry > 0 && actor == 1 {
            self.first.fetch_add(1, Ordering::SeqCst);
        }
        if entry > 0 && actor == 2 {
            self.second.fetch_add(1, Ordering::SeqCst);
        }
    }
}
