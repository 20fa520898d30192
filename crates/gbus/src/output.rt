//! Writes a whole output.

ghost use Rattle.std.specs.Prelude.{◌≤◌};
ghost use Rattle.gbus.specs.Writing.{WritesAll};

use gb_base::{Sink, WriteStop};

/// Writes all bytes. At an error a front of them was taken.
pub fn write_all<K: Sink>(sink: &mut K, bytes: &[u8]) -> Result<(), WriteStop>
    ensures bytes { WritesAll (K.taken sink.old) (K.taken sink.new) (K.faults sink.old)
        (K.faults sink.new) bytes.now result }
    ensures later { K.faults sink.old ≤ K.faults sink.new }
{
    let mut rest = bytes;
    while !rest.is_empty() {
        let n = sink.write(rest)?;
        (_, rest) = rest.split_at(n);
    }
    Ok(())
}
