//! What is decided of ends and sides alone.

ghost use Rattle.std.specs.Prelude.{◌≡◌};
ghost use Rattle.gb_machine.specs.Bus.{other_side};

use gb_base::Side;

/// The other side of a connection.
#[inline]
pub fn other_side(side: Side) -> Side
    ensures { result ≡ other_side side }
{
    match side {
        Side::Ap => Side::Far,
        Side::Far => Side::Ap,
    }
}
