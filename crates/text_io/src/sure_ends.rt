ghost use Rattle.std.specs.Prelude.{◌≡◌, ℕ, ◌+◌, ◌-◌, ◌^◌, ◌<◌, ◌≤◌, Some, None, Ok, IfOk, drop, length, min};
ghost use Rattle.text_io.specs.SourceAndSink.{CountsFailures, TakesSome, ReadConsumes, WriteAppends};
ghost use Rattle.text_io.specs.MemEnds.{read_length};

use crate::source_and_sink::{Failed, Sink, Source};
use std::marker::Model;

/// A source in memory that never fails: its count of faults is always 0.
#[derive(Drop)]
pub struct SureSource {
    octets: Vec<u8>,
    at: usize,
    most: usize,
}

impl Model for SureSource {
    ghost use Rattle.std.specs.Prelude.{◌≤◌, ◌<◌, drop, vec_len};
    ghost use Rattle.text_io.specs.MemEnds.{SureSourceView};

    ghost Value = { SureSourceView };

    ghost view = { λ s. record { left = drop s.at s.octets.items; most = s.most } };

    ghost invariant = { λ s. (s.at ≤ vec_len s.octets) × (0 < s.most) };
}

impl SureSource {
    /// A source of these octets. It does not allocate.
    pub fn new(octets: Vec<u8>) -> SureSource
        ensures { result ≡ record { left = octets.items; most = 2 ^ 64 - 1 } }
    {
        SureSource {
            octets,
            at: 0,
            most: usize::MAX,
        }
    }

    /// One read then gives at most `most` octets, which is at least 1.
    pub fn with_most(self, most: usize) -> SureSource
        requires { 1 ≤ most }
        ensures { result ≡ record self { most = most } }
    {
        let mut source = self;
        source.most = most;
        source
    }
}

impl Source for SureSource {
    ghost left = { λ s. Some s.left };

    ghost faults = { λ _. 0 };

    fn read(&mut self, into: &mut [u8]) -> Result<usize, Failed>
        ensures bound { IfOk result (λ n. n ≤ length into.new) }
        ensures bytes { ReadConsumes (Some self.old.left) (Some self.new.left) result into.new }
        ensures faults { CountsFailures 0 0 result }
        ensures given { result ≡ Ok (read_length self.old.most self.old.left into.new) }
        ensures left { IfOk result
            (λ n. self.new ≡ record self.old { left = drop n self.old.left }) }
    {
        let there = self.octets.len() - self.at;
        let n = self.most.min(there).min(into.len());
        into[..n].copy_from_slice(&self.octets[self.at..self.at + n]);
        self.at += n;
        Ok(n)
    }
}

/// A sink that never fails, and neither keeps nor tells what was written: its count of faults is
/// always 0, and it needs no memory.
#[derive(Drop)]
pub struct SureSink {
    most: usize,
}

impl Model for SureSink {
    ghost use Rattle.std.specs.Prelude.{◌<◌, ℕ};

    ghost Value = { ℕ };

    ghost view = { λ s. s.most };

    ghost invariant = { λ s. 0 < s.most };
}

impl SureSink {
    /// A sink that takes each piece whole.
    pub fn new() -> SureSink
        ensures { result ≡ 2 ^ 64 - 1 }
    {
        SureSink { most: usize::MAX }
    }

    /// One write then takes at most `most` octets, which is at least 1.
    pub fn with_most(self, most: usize) -> SureSink
        requires { 1 ≤ most }
        ensures { result ≡ most }
    {
        let mut sink = self;
        sink.most = most;
        sink
    }
}

impl Sink for SureSink {
    ghost written = { λ _. None };

    ghost faults = { λ _. 0 };

    fn write(&mut self, piece: &[u8]) -> Result<usize, Failed>
        ensures bound { IfOk result (TakesSome (length piece.now)) }
        ensures bytes { WriteAppends None None result piece.now }
        ensures faults { CountsFailures 0 0 result }
        ensures taken { result ≡ Ok (min self.old (length piece.now)) }
        ensures stays { self.new ≡ self.old }
    {
        Ok(self.most.min(piece.len()))
    }
}
