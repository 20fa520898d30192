//! Responses of the Firmware Download protocol.

ghost use Rattle.std.specs.Prelude.{◌≡◌, IfOk, take};
ghost use Rattle.gb_formats.specs.FirmwareRecords.{firmware_reply_kind, firmware_reply_payload};
ghost use Rattle.gb_formats.specs.FirmwareRecords.{read_firmware_reply};
ghost use Rattle.gb_bridge_payload.specs.Protocols.{firmware_replies};
ghost use Rattle.gb_bridge_payload.specs.Views.{firmware_reply_of};
ghost use Rattle.gb_payload.specs.Answers.{Answers};
ghost use Rattle.gb_payload.specs.Fields.{Puts};
ghost use Rattle.gb_payload.specs.Meaning.{IsRead, Means};

use crate::firmware_kinds::{FETCH, FIND, RELEASE};
use gb_base::NoRoom;
use gb_payload::Field::{Bytes, U8, U32};
use gb_payload::{PayloadFault, put, read_record};

/// A response of the Firmware Download protocol (Greybus Specification, "Firmware
/// Download Protocol").
#[derive(Clone, Copy, PartialEq, Eq)]
pub enum FirmwareReply<'a> {
    /// The image is lent.
    Find {
        /// The id under which it is lent.
        id: u8,
        /// How many bytes it has.
        size: u32,
    },
    /// The bytes that were asked for.
    Fetch {
        /// The bytes.
        bytes: &'a [u8],
    },
    /// The image is given back.
    Release,
}

impl<'a> FirmwareReply<'a> {
    /// Reads the payload of a type, which is that of the request.
    pub fn read(kind: u8, payload: &'a [u8]) -> Result<FirmwareReply<'a>, PayloadFault>
        ensures answer { Answers firmware_reply_of (read_firmware_reply kind payload.now) result }
        ensures means { Means firmware_replies firmware_reply_of kind payload.now result }
    {
        row(kind, payload)
    }

    /// Writes the payload to the front of `out`, and answers its length. NoRoom exactly where `out`
    /// is shorter, and `out` is then unchanged.
    pub fn write(&self, out: &mut [u8]) -> Result<usize, NoRoom>
        ensures bytes { Puts (firmware_reply_payload (firmware_reply_of self.now))
            out.old out.new result }
        ensures again { IfOk result
            (λ n. IsRead firmware_replies (firmware_reply_of self.now) (take n out.new)) }
    {
        match self {
            FirmwareReply::Find { id, size } => put(&[U8(*id), U32(*size)], out),
            FirmwareReply::Fetch { bytes } => put(&[Bytes(bytes)], out),
            FirmwareReply::Release => put(&[], out),
        }
    }

    /// The type of the request.
    pub fn kind(&self) -> u8
        ensures { result ≡ firmware_reply_kind (firmware_reply_of self.now) }
    {
        match self {
            FirmwareReply::Find { .. } => FIND,
            FirmwareReply::Fetch { .. } => FETCH,
            FirmwareReply::Release => RELEASE,
        }
    }
}

/// The record of a type that a payload is.
fn row(kind: u8, payload: &[u8]) -> Result<FirmwareReply<'_>, PayloadFault>
    ensures { Answers firmware_reply_of (read_firmware_reply kind payload.now) result }
{
    match kind {
        FIND => read_record!(payload => FirmwareReply::Find { id: u8, size: u32 }),
        FETCH => Ok(FirmwareReply::Fetch { bytes: payload }),
        RELEASE => read_record!(payload => FirmwareReply::Release),
        _ => Err(PayloadFault::UnknownKind),
    }
}
