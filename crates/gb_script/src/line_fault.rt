//! Why a line gives no event.

ghost use Rattle.std.specs.Prelude.{◌≡◌};

use gb_base::{LineReason, OutOfMemory};

/// Why a line gives no event.
#[derive(Clone, Copy)]
pub enum LineFault {
    /// The line is bad.
    Bad(LineReason),
    /// No memory was found.
    Memory(OutOfMemory),
}

impl From<OutOfMemory> for LineFault {
    ghost use Rattle.gb_script.specs.declared.line_fault.LineFault.{LineFault};

    ghost from_gives = { λ e f. f ≡ LineFault.Memory e };

    fn from(refused: OutOfMemory) -> LineFault {
        LineFault::Memory(refused)
    }
}

impl From<LineReason> for LineFault {
    ghost use Rattle.gb_script.specs.declared.line_fault.LineFault.{LineFault};

    ghost from_gives = { λ e f. f ≡ LineFault.Bad e };

    fn from(reason: LineReason) -> LineFault {
        LineFault::Bad(reason)
    }
}
