//! Writes a payload piece by piece.

ghost use Rattle.std.specs.Prelude.{◌≡◌, ◌+◌, ◌≤◌, ◌++◌, List, ℕ, length};
ghost use Rattle.gb_bridge_payload.specs.Fronts.{Fronted};
ghost use Rattle.gb_payload.specs.Fields.{spelled};

use gb_payload::{Field, put};

/// Writes fields to `out` from its byte `at` on, where there is room, and answers the
/// byte behind them.
#[inline(always)]
pub fn put_behind(at: usize, fields: &[Field<'_>], out: &mut [u8]) -> usize
    requires { at + length (spelled fields.now) ≤ length out.old }
    ensures place { result ≡ at + length (spelled fields.now) }
    ensures bytes { (front base : List ℕ) → at ≡ length front → Fronted front base out.old
        → Fronted (front ++ spelled fields.now) base out.new }
{
    let Ok(size) = put(fields, &mut out[at..]) else {
        unreachable!()
    };
    at + size
}
