//! Results of operations (Greybus Specification, "Operation Status Values"; in
//! Linux's operation.h `GB_OP_..`).

ghost use Rattle.std.specs.Prelude.{◌≡◌};
ghost use Rattle.gb_formats.specs.Results as formats;
ghost use Rattle.gb_payload.specs.Answers.{fault_of};

use crate::PayloadFault;

/// The request was served.
pub const SUCCESS: u8 = 0x00;

/// The responder has no request of this type.
pub const PROTOCOL_BAD: u8 = 0x04;

/// The answer would be too long.
pub const OVERFLOW: u8 = 0x05;

/// The payload, a value or the state doesn't fit.
pub const INVALID: u8 = 0x06;

/// It can't be served now.
pub const RETRY: u8 = 0x07;

/// What is asked for isn't there.
pub const NONEXISTENT: u8 = 0x08;

/// The result where a payload is no record of its type.
pub fn fault_result(fault: PayloadFault) -> u8
    ensures { result ≡ formats.fault_result (fault_of fault) }
{
    match fault {
        PayloadFault::UnknownKind => PROTOCOL_BAD,
        PayloadFault::Mismatch { .. } => INVALID,
    }
}
