//! Why the lines of requesters aren't all run.

use gb_base::OutOfMemory;

/// Why the lines of requesters aren't all run.
#[derive(Clone, Copy, Debug, PartialEq, Eq)]
pub enum ShareStop {
    /// The history was as long as it can get, or a pass held as many tickets as it has parts.
    Spent,
    /// No memory was found.
    Memory(OutOfMemory),
}

impl From<OutOfMemory> for ShareStop {
    ghost use Rattle.std.specs.Prelude.{◌≡◌};
    ghost use Rattle.gb_share.specs.declared.stop.ShareStop.TheVariants as stop;

    ghost from_gives = { λ refused e. e ≡ stop.Memory refused };

    fn from(refused: OutOfMemory) -> ShareStop {
        ShareStop::Memory(refused)
    }
}
