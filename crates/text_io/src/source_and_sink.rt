ghost use Rattle.std.specs.Prelude.{ℕ, ◌-◌, ◌<◌, ◌≤◌, List, Option, length, IfOk};
ghost use Rattle.text_io.specs.SourceAndSink.{CountsFailures, TakesSome, ReadConsumes, WriteAppends};

/// A read or a write failed. Nothing was moved.
#[derive(Clone, Copy, Debug, PartialEq, Eq)]
pub struct Failed;

/// Where octets come from.
pub trait Source {
    /// The octets that are left, where the source tells them.
    ghost left: { Self → Option (List ℕ) };

    /// How many reads failed, up to the end of a `u64`.
    ghost faults: { Self → ℕ };

    /// Puts the first octets that are left at the front of the buffer, takes them away, and answers
    /// how many they are: 0 for a buffer that is not empty is the end, where nothing is left.
    /// An interrupted read is a failure like any other; what is left then stays.
    fn read(&mut self, into: &mut [u8]) -> Result<usize, Failed>
        ensures bound { IfOk result (λ n. n ≤ length into.new) }
        ensures bytes { ReadConsumes (left self.old) (left self.new) result into.new }
        ensures faults { CountsFailures (faults self.old) (faults self.new) result };
}

/// Where octets go to.
pub trait Sink {
    /// The octets that were written, where the sink tells them.
    ghost written: { Self → Option (List ℕ) };

    /// How many writes failed, up to the end of a `u64`.
    ghost faults: { Self → ℕ };

    /// Takes the first octets of the piece, at least one of a piece that is not empty, and answers
    /// how many they are. A sink that can take none fails; what was written then stays.
    fn write(&mut self, piece: &[u8]) -> Result<usize, Failed>
        ensures bound { IfOk result (TakesSome (length piece.now)) }
        ensures bytes { WriteAppends (written self.old) (written self.new) result piece.now }
        ensures faults { CountsFailures (faults self.old) (faults self.new) result };
}
