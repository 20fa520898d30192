//! Where input comes from.

ghost use Rattle.std.specs.Prelude.{ℕ, ◌≤◌, List, Option, OnErr};
ghost use Rattle.std.specs.Io.{ReadsAtMost};
ghost use Rattle.std.specs.Io.KnownBytes.{ReadConsumes};
ghost use Rattle.gb_base.specs.Faults.{Rose};

use crate::Failed;

/// Where input comes from.
pub trait Source {
    /// The bytes that are left, where they are told.
    ghost left: { Self → Option (List ℕ) };

    /// How many reads have failed. This count never falls.
    ghost faults: { Self → ℕ };

    /// Reads the next bytes into the front of `buf`, and answers how many. 0 on a buffer that isn't
    /// empty is the end. A read fails only where the count of faults rises, and then takes nothing.
    fn read(&mut self, buf: &mut [u8]) -> Result<usize, Failed>
        ensures bound { ReadsAtMost result buf.new }
        ensures bytes { ReadConsumes (left self.old) (left self.new) result buf.new }
        ensures later { faults self.old ≤ faults self.new }
        ensures cause { OnErr result (Rose (faults self.old) (faults self.new)) };
}
