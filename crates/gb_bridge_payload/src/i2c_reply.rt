//! Responses of the I2C protocol.

ghost use Rattle.std.specs.Prelude.{◌≡◌, IfOk, take};
ghost use Rattle.gb_formats.specs.I2cRecords.{read_i2c_reply, i2c_reply_kind, i2c_reply_payload};
ghost use Rattle.gb_bridge_payload.specs.Protocols.{i2c_replies};
ghost use Rattle.gb_bridge_payload.specs.Views.{i2c_reply_of};
ghost use Rattle.gb_payload.specs.Answers.{Answers};
ghost use Rattle.gb_payload.specs.Fields.{Puts};
ghost use Rattle.gb_payload.specs.Meaning.{IsRead, Means};

use crate::i2c_kinds::{FUNCTIONALITY, TRANSFER};
use gb_base::NoRoom;
use gb_payload::Field::{Bytes, U32};
use gb_payload::{PayloadFault, put, read_record};

/// A response of the I2C protocol (Greybus Specification, "I2C Protocol").
#[derive(Clone, Copy, PartialEq, Eq)]
pub enum I2cReply<'a> {
    /// What the adapter can do.
    Functionality {
        /// The mask (in Linux's i2c.h `I2C_FUNC_..`).
        flags: u32,
    },
    /// The transfer is done.
    Transfer {
        /// The bytes of the ops that read, in their order.
        data: &'a [u8],
    },
}

impl<'a> I2cReply<'a> {
    /// Reads the payload of a type, which is that of the request.
    pub fn read(kind: u8, payload: &'a [u8]) -> Result<I2cReply<'a>, PayloadFault>
        ensures answer { Answers i2c_reply_of (read_i2c_reply kind payload.now) result }
        ensures means { Means i2c_replies i2c_reply_of kind payload.now result }
    {
        row(kind, payload)
    }

    /// Writes the payload to the front of `out`, and answers its length. NoRoom exactly where `out`
    /// is shorter, and `out` is then unchanged.
    pub fn write(&self, out: &mut [u8]) -> Result<usize, NoRoom>
        ensures bytes { Puts (i2c_reply_payload (i2c_reply_of self.now)) out.old out.new result }
        ensures again { IfOk result
            (λ n. IsRead i2c_replies (i2c_reply_of self.now) (take n out.new)) }
    {
        match self {
            I2cReply::Functionality { flags } => put(&[U32(*flags)], out),
            I2cReply::Transfer { data } => put(&[Bytes(data)], out),
        }
    }

    /// The type of the request.
    pub fn kind(&self) -> u8
        ensures { result ≡ i2c_reply_kind (i2c_reply_of self.now) }
    {
        match self {
            I2cReply::Functionality { .. } => FUNCTIONALITY,
            I2cReply::Transfer { .. } => TRANSFER,
        }
    }
}

/// The record of a type that a payload is.
fn row(kind: u8, payload: &[u8]) -> Result<I2cReply<'_>, PayloadFault>
    ensures { Answers i2c_reply_of (read_i2c_reply kind payload.now) result }
{
    match kind {
        FUNCTIONALITY => read_record!(payload => I2cReply::Functionality { flags: u32 }),
        TRANSFER => Ok(I2cReply::Transfer { data: payload }),
        _ => Err(PayloadFault::UnknownKind),
    }
}
