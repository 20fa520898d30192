//! Where output goes.

ghost use Rattle.std.specs.Prelude.{ℕ, ◌<◌, ◌≤◌, List, Option, IfOk, IsErrOf, length};
ghost use Rattle.std.specs.Io.{WritesAtMost};
ghost use Rattle.std.specs.Io.KnownBytes.{WriteAppends};
ghost use Rattle.gb_base.specs.Faults.{Rose};

use crate::OutOfMemory;

/// Why a write took nothing.
#[derive(Clone, Copy, Debug, PartialEq, Eq)]
pub enum WriteStop {
    /// The outside failed.
    Failed,
    /// No memory was found for the bytes.
    Memory(OutOfMemory),
}

/// Where output goes.
pub trait Sink {
    /// The bytes that were taken, where they are told.
    ghost taken: { Self → Option (List ℕ) };

    /// How many writes have failed. This count never falls.
    ghost faults: { Self → ℕ };

    /// Takes the first bytes of `piece`, and answers how many: at least one where there is one. A
    /// write fails only where the count of faults rises. At an error nothing is taken.
    fn write(&mut self, piece: &[u8]) -> Result<usize, WriteStop>
        ensures bound { WritesAtMost result piece.now }
        ensures some { 0 < length piece.now → IfOk result (λ n. 0 < n) }
        ensures bytes { WriteAppends (taken self.old) (taken self.new) result piece.now }
        ensures later { faults self.old ≤ faults self.new }
        ensures cause { IsErrOf result WriteStop.Failed
            → Rose (faults self.old) (faults self.new) };
}
