ghost use Rattle.std.specs.Prelude.{◌≡◌, ◌↔◌, ◌+◌, ◌-◌, ◌^◌, ◌<◌, ◌≤◌, [], Some, IfOk, OnErr, IsErr, drop, length, min, vec_len};
ghost use Rattle.std.specs.List.{Contains};
ghost use Rattle.text_io.specs.SourceAndSink.{CountsFailures, ReadConsumes};
ghost use Rattle.text_io.specs.MemEnds.{with_one_more, read_length, after_read, after_failed_read};

use crate::source_and_sink::{Failed, Source};
use std::marker::Model;

/// A source in memory, which tells what is left in it.
#[derive(Drop)]
pub struct MemSource {
    octets: Vec<u8>,
    at: usize,
    most: usize,
    calls: u64,
    failing: Vec<u64>,
    count: u64,
}

impl Model for MemSource {
    ghost use Rattle.std.specs.Prelude.{◌≤◌, ◌<◌, drop, vec_len};
    ghost use Rattle.text_io.specs.MemEnds.{SourceView};

    ghost Value = { SourceView };

    ghost view = { λ s. record { left = drop s.at s.octets.items; most = s.most; calls = s.calls; failing = s.failing.items; faults = s.count } };

    ghost invariant = { λ s. (s.at ≤ vec_len s.octets) × (0 < s.most) };
}

impl MemSource {
    /// A source of these octets, of which no read fails. It does not allocate.
    pub fn new(octets: Vec<u8>) -> MemSource
        ensures { result
            ≡ record {
              left = octets.items;
              most = 2 ^ 64 - 1;
              calls = 0;
              failing = [];
              faults = 0;
            } }
    {
        let alloc = *octets.allocator();
        MemSource {
            octets,
            at: 0,
            most: usize::MAX,
            calls: 0,
            failing: Vec::new(alloc),
            count: 0,
        }
    }

    /// One read then gives at most `most` octets, which is at least 1.
    pub fn with_most(self, most: usize) -> MemSource
        requires { 1 ≤ most }
        ensures { result ≡ record self { most = most } }
    {
        let mut source = self;
        source.most = most;
        source
    }

    /// The reads of these numbers, counted from 1, then fail.
    pub fn with_failing(self, calls: Vec<u64>) -> MemSource
        ensures { result ≡ record self { failing = calls.items } }
    {
        let mut source = self;
        source.failing = calls;
        source
    }
}

impl Source for MemSource {
    ghost left = { λ s. Some s.left };

    ghost faults = { λ s. s.faults };

    fn read(&mut self, into: &mut [u8]) -> Result<usize, Failed>
        ensures bound { IfOk result (λ n. n ≤ length into.new) }
        ensures bytes { ReadConsumes (Some self.old.left) (Some self.new.left) result into.new }
        ensures faults { CountsFailures self.old.faults self.new.faults result }
        ensures fails { IsErr result ↔ Contains self.old.failing (with_one_more self.old.calls) }
        ensures given { IfOk result (λ n. n ≡ read_length self.old.most self.old.left into.new) }
        ensures ok { IfOk result (λ n. self.new ≡ after_read self.old n) }
        ensures err { OnErr result (self.new ≡ after_failed_read self.old) }
    {
        self.calls = self.calls.saturating_add(1);
        if self.failing.contains(&self.calls) {
            self.count = self.count.saturating_add(1);
            return Err(Failed);
        }
        let there = self.octets.len() - self.at;
        let n = self.most.min(there).min(into.len());
        into[..n].copy_from_slice(&self.octets[self.at..self.at + n]);
        self.at += n;
        Ok(n)
    }
}
