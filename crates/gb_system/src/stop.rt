//! Why an event isn't done.

ghost use Rattle.std.specs.Prelude.{◌≡◌};
ghost use Rattle.gb_system.specs.declared.stop.Stop.TheVariants as stop;

use gb_base::{OutOfMemory, Refusal};

/// Why an event isn't done.
#[derive(Clone, Copy)]
pub enum Stop {
    /// It is refused.
    Refused(Refusal),
    /// No memory was found.
    Memory(OutOfMemory),
}

impl From<Refusal> for Stop {
    ghost from_gives = { λ why e. e ≡ stop.Refused why };

    fn from(why: Refusal) -> Stop {
        Stop::Refused(why)
    }
}

impl From<OutOfMemory> for Stop {
    ghost from_gives = { λ refused e. e ≡ stop.Memory refused };

    fn from(refused: OutOfMemory) -> Stop {
        Stop::Memory(refused)
    }
}
