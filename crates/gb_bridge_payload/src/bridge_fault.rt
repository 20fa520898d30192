//! Why a bridge line becomes no request.

ghost use Rattle.std.specs.Prelude.{◌≡◌};
ghost use Rattle.gb_bridge_payload.specs.declared.bridge_fault.BridgeFault.TheVariants as fault;

use gb_base::NoRoom;

/// Why a bridge line becomes no request of a device's protocol. Nothing was written.
#[derive(Clone, Copy, Debug, PartialEq, Eq)]
pub enum BridgeFault {
    /// The payload would have more than 2,040 bytes, the reads of a transfer would add up to more,
    /// or a UART would be sent more than 2,037 bytes.
    TooLarge,
    /// The line asks for a request of another protocol.
    Unsupported,
}

/// A payload that has no room in 2,040 bytes is too large.
impl From<NoRoom> for BridgeFault {
    ghost from_gives = { λ refused why. why ≡ fault.TooLarge };

    fn from(_refused: NoRoom) -> BridgeFault {
        BridgeFault::TooLarge
    }
}
