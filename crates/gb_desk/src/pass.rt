//! The passes of a desk.

ghost use Rattle.std.specs.Prelude.{◌≡◌, length};
ghost use Rattle.gb_desk.specs.Calls.{IsFree};

use crate::stored::Stored;
use crate::view::View;
use atomic_table::Seat;

/// The right to use a desk, in parts. A pass with all 4,294,967,295 parts is alone. It holds no
/// more tickets than it has parts. It has no `Drop`: join it into another one, or close the desk
/// with it.
pub struct Pass {
    pub(crate) seat: Seat<Stored, View>,
    pub(crate) parts: u32,
    pub(crate) tickets: u32,
    ghost free: { IsFree seat.me },
    ghost counted: { seat.me.0.parts ≡ parts },
    ghost held: { length seat.me.0.tickets ≡ tickets },
}

impl Pass {
    ghost use Rattle.gb_desk.specs.Passes.{known};
    ghost use Rattle.std.specs.Prelude.{◌<◌, ◌≤◌, MatchBool};

    /// How many parts it has.
    pub fn parts(&self) -> u32
        ensures { result ≡ (known self.now).parts }
    {
        self.parts
    }

    /// How many tickets it holds.
    pub fn tickets(&self) -> u32
        ensures { result ≡ length (known self.now).tickets }
    {
        self.tickets
    }

    // Whether it has no part left for a ticket.
    pub(crate) fn is_spent(&self) -> bool
        ensures { MatchBool result ((known self.now).parts ≤ length (known self.now).tickets)
            (length (known self.now).tickets < (known self.now).parts) }
    {
        self.tickets >= self.parts
    }
}
