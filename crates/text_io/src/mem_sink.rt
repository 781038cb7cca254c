ghost use Rattle.std.specs.Prelude.{◌≡◌, ◌-◌, ◌^◌, ◌<◌, ◌≤◌, [], Some, IfOk, OnOk, OnErr, length, take, min};
ghost use Rattle.std.specs.List.{Contains};
ghost use Rattle.text_io.specs.SourceAndSink.{CountsFailures, TakesSome, WriteAppends};
ghost use Rattle.text_io.specs.MemEnds.{with_one_more, after_write, after_failed_write};

use crate::source_and_sink::{Failed, Sink};
use std::alloc::Global;
use std::marker::Model;

/// A sink in memory, which tells what was written. It keeps its allocator.
#[derive(Drop)]
pub struct MemSink {
    octets: Vec<u8>,
    most: usize,
    calls: u64,
    failing: Vec<u64>,
    count: u64,
}

impl Model for MemSink {
    ghost use Rattle.std.specs.Prelude.{◌<◌};
    ghost use Rattle.text_io.specs.MemEnds.{SinkView};

    ghost Value = { SinkView };

    ghost view = { λ s. record { written = s.octets.items; most = s.most; calls = s.calls; failing = s.failing.items; faults = s.count } };

    ghost invariant = { λ s. 0 < s.most };
}

impl MemSink {
    /// A sink with nothing written, which fails only where there is no memory. It takes none yet.
    pub fn new(alloc: Global) -> MemSink
        ensures { result
            ≡ record { written = []; most = 2 ^ 64 - 1; calls = 0; failing = []; faults = 0 } }
    {
        MemSink {
            octets: Vec::new(alloc),
            most: usize::MAX,
            calls: 0,
            failing: Vec::new(alloc),
            count: 0,
        }
    }

    /// One write then takes at most `most` octets, which is at least 1.
    pub fn with_most(self, most: usize) -> MemSink
        requires { 1 ≤ most }
        ensures { result ≡ record self { most = most } }
    {
        let mut sink = self;
        sink.most = most;
        sink
    }

    /// The writes of these numbers, counted from 1, then fail.
    pub fn with_failing(self, calls: Vec<u64>) -> MemSink
        ensures { result ≡ record self { failing = calls.items } }
    {
        let mut sink = self;
        sink.failing = calls;
        sink
    }

    /// Lends what was written.
    pub fn octets(&self) -> &[u8]
        ensures { result.now ≡ self.now.written }
    {
        self.octets.as_slice()
    }
}

impl Sink for MemSink {
    ghost written = { λ s. Some s.written };

    ghost faults = { λ s. s.faults };

    fn write(&mut self, piece: &[u8]) -> Result<usize, Failed>
        ensures bound { IfOk result (TakesSome (length piece.now)) }
        ensures bytes { WriteAppends (Some self.old.written) (Some self.new.written) result
            piece.now }
        ensures faults { CountsFailures self.old.faults self.new.faults result }
        ensures fails { Contains self.old.failing (with_one_more self.old.calls) → OnOk result ⊥ }
        ensures taken { IfOk result (λ n. n ≡ min self.old.most (length piece.now)) }
        ensures ok { IfOk result (λ n. self.new ≡ after_write self.old (take n piece.now)) }
        ensures err { OnErr result (self.new ≡ after_failed_write self.old) }
    {
        self.calls = self.calls.saturating_add(1);
        if self.failing.contains(&self.calls) {
            self.count = self.count.saturating_add(1);
            return Err(Failed);
        }
        let n = self.most.min(piece.len());
        if self.octets.extend_from_slice(&piece[..n]).is_err() {
            self.count = self.count.saturating_add(1);
            return Err(Failed);
        }
        Ok(n)
    }
}
