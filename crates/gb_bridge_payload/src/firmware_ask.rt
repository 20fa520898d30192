//! Requests of the Firmware Download protocol.

ghost use Rattle.std.specs.Prelude.{◌≡◌, IfOk, take};
ghost use Rattle.gb_formats.specs.FirmwareRecords.{firmware_ask_kind, firmware_ask_payload};
ghost use Rattle.gb_formats.specs.FirmwareRecords.{read_firmware_ask};
ghost use Rattle.gb_bridge_payload.specs.Conditions.{IsFirmwareAsk};
ghost use Rattle.gb_bridge_payload.specs.Protocols.{firmware_asks};
ghost use Rattle.gb_bridge_payload.specs.Views.{firmware_ask_of};
ghost use Rattle.gb_payload.specs.Answers.{Answers};
ghost use Rattle.gb_payload.specs.Fields.{Puts};
ghost use Rattle.gb_payload.specs.Meaning.{IsRead, Means};

use crate::firmware_kinds::{FETCH, FIND, RELEASE};
use gb_base::NoRoom;
use gb_payload::Field::{Bytes, U8, U32};
use gb_payload::{Fields, PayloadFault, put, read_record};

/// How many bytes the field of a tag has.
pub const TAG_FIELD: usize = 10;

/// A request of the Firmware Download protocol (Greybus Specification, "Firmware Download
/// Protocol"). The module makes it.
#[derive(Clone, Copy, PartialEq, Eq)]
pub enum FirmwareAsk<'a> {
    /// Asks for the image of a tag.
    Find {
        /// The field of the tag, ten bytes.
        tag: &'a [u8],
    },
    /// Asks for bytes of an image.
    Fetch {
        /// The id under which it is lent.
        id: u8,
        /// The place of the first byte.
        offset: u32,
        /// How many bytes.
        size: u32,
    },
    /// Gives an image back.
    Release {
        /// The id under which it is lent.
        id: u8,
    },
}

impl<'a> FirmwareAsk<'a> {
    /// Reads the payload of a type.
    pub fn read(kind: u8, payload: &'a [u8]) -> Result<FirmwareAsk<'a>, PayloadFault>
        ensures answer { Answers firmware_ask_of (read_firmware_ask kind payload.now) result }
        ensures means { Means firmware_asks firmware_ask_of kind payload.now result }
    {
        row(kind, payload)
    }

    /// Writes the payload to the front of `out`, and answers its length. The field of a tag has ten
    /// bytes. NoRoom exactly where `out` is shorter, and `out` is then unchanged.
    pub fn write(&self, out: &mut [u8]) -> Result<usize, NoRoom>
        requires { IsFirmwareAsk (firmware_ask_of self.now) }
        ensures bytes { Puts (firmware_ask_payload (firmware_ask_of self.now))
            out.old out.new result }
        ensures again { IfOk result
            (λ n. IsRead firmware_asks (firmware_ask_of self.now) (take n out.new)) }
    {
        match self {
            FirmwareAsk::Find { tag } => put(&[Bytes(tag)], out),
            FirmwareAsk::Fetch { id, offset, size } => {
                put(&[U8(*id), U32(*offset), U32(*size)], out)
            }
            FirmwareAsk::Release { id } => put(&[U8(*id)], out),
        }
    }

    /// The type.
    pub fn kind(&self) -> u8
        ensures { result ≡ firmware_ask_kind (firmware_ask_of self.now) }
    {
        match self {
            FirmwareAsk::Find { .. } => FIND,
            FirmwareAsk::Fetch { .. } => FETCH,
            FirmwareAsk::Release { .. } => RELEASE,
        }
    }
}

/// The record of a type that a payload is.
fn row(kind: u8, payload: &[u8]) -> Result<FirmwareAsk<'_>, PayloadFault>
    ensures { Answers firmware_ask_of (read_firmware_ask kind payload.now) result }
{
    match kind {
        FIND => find(payload),
        FETCH => read_record!(payload => FirmwareAsk::Fetch { id: u8, offset: u32, size: u32 }),
        RELEASE => read_record!(payload => FirmwareAsk::Release { id: u8 }),
        _ => Err(PayloadFault::UnknownKind),
    }
}

/// The field of a tag.
fn find(payload: &[u8]) -> Result<FirmwareAsk<'_>, PayloadFault>
    ensures { Answers firmware_ask_of (read_firmware_ask 0x01 payload.now) result }
{
    Fields::of(payload, TAG_FIELD)?;
    Ok(FirmwareAsk::Find { tag: payload })
}
