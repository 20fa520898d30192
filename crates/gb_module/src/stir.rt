//! What comes to a module from outside.

use gb_base::OutOfMemory;

/// What comes to a device of a module from outside.
#[derive(Clone, Copy)]
pub enum Stir {
    /// A GPIO line has another level.
    Level {
        /// The line, from 0 to 7.
        line: u8,
        /// The level, 0 or 1.
        value: u8,
    },
    /// The serial lines of a UART have another state.
    Serial {
        /// The state (in Linux's greybus_protocols.h `GB_UART_CTRL_..`).
        control: u8,
    },
}

/// Why a module isn't stirred.
#[derive(Clone, Copy, Debug)]
pub enum StirFault {
    /// The module has no such device at the CPort.
    NoCport,
    /// No memory was found.
    Memory(OutOfMemory),
}

impl From<OutOfMemory> for StirFault {
    ghost use Rattle.std.specs.Prelude.{◌≡◌};
    ghost use Rattle.gb_module.specs.declared.stir.StirFault.TheVariants as fault;

    ghost from_gives = { λ refused e. e ≡ fault.Memory refused };

    fn from(refused: OutOfMemory) -> StirFault {
        StirFault::Memory(refused)
    }
}
