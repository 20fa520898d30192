//! Requests of the I2C protocol.

ghost use Rattle.std.specs.Prelude.{◌≡◌, IfOk, take};
ghost use Rattle.byteorder.specs.Endian.{little_number};
ghost use Rattle.gb_formats.specs.I2cRecords.{read_i2c_ask, read_i2c_transfer, i2c_ask_kind};
ghost use Rattle.gb_formats.specs.I2cRecords.{i2c_ask_payload};
ghost use Rattle.gb_bridge_payload.specs.Conditions.{IsI2cAsk};
ghost use Rattle.gb_bridge_payload.specs.Protocols.{i2c_asks};
ghost use Rattle.gb_bridge_payload.specs.Views.{i2c_ask_of};
ghost use Rattle.gb_payload.specs.Answers.{Answers};
ghost use Rattle.gb_payload.specs.Fields.{Puts};
ghost use Rattle.gb_payload.specs.Meaning.{IsRead, Means};

use crate::i2c_kinds::{FUNCTIONALITY, TRANSFER};
use crate::reading::front;
use crate::transfer_op::{OP_SIZE, written_by_ops};
use byteorder::{ByteOrder, LittleEndian};
use gb_base::NoRoom;
use gb_payload::Field::{Bytes, U16};
use gb_payload::{Fields, PayloadFault, put, read_record};

/// A request of the I2C protocol (Greybus Specification, "I2C Protocol").
#[derive(Clone, Copy, PartialEq, Eq)]
pub enum I2cAsk<'a> {
    /// Asks what the adapter can do.
    Functionality,
    /// Reads and writes.
    Transfer {
        /// The ops, of 6 bytes each, as they stand in the payload.
        ops: &'a [u8],
        /// The bytes of the ops that write, in their order.
        data: &'a [u8],
    },
}

impl<'a> I2cAsk<'a> {
    /// Reads the payload of a type.
    pub fn read(kind: u8, payload: &'a [u8]) -> Result<I2cAsk<'a>, PayloadFault>
        ensures answer { Answers i2c_ask_of (read_i2c_ask kind payload.now) result }
        ensures means { Means i2c_asks i2c_ask_of kind payload.now result }
        ensures form { IfOk result (λ ask. IsI2cAsk (i2c_ask_of ask)) }
    {
        row(kind, payload)
    }

    /// Writes the payload to the front of `out`, and answers its length. The ops are whole, at most
    /// 65,535, and have as much data as they write. NoRoom exactly where `out` is shorter, and
    /// `out` is then unchanged.
    pub fn write(&self, out: &mut [u8]) -> Result<usize, NoRoom>
        requires { IsI2cAsk (i2c_ask_of self.now) }
        ensures bytes { Puts (i2c_ask_payload (i2c_ask_of self.now)) out.old out.new result }
        ensures again { IfOk result (λ n. IsRead i2c_asks (i2c_ask_of self.now) (take n out.new)) }
    {
        match self {
            I2cAsk::Functionality => put(&[], out),
            I2cAsk::Transfer { ops, data } => {
                let count = (ops.len() / OP_SIZE) as u16;
                put(&[U16(count), Bytes(ops), Bytes(data)], out)
            }
        }
    }

    /// The type.
    pub fn kind(&self) -> u8
        ensures { result ≡ i2c_ask_kind (i2c_ask_of self.now) }
    {
        match self {
            I2cAsk::Functionality => FUNCTIONALITY,
            I2cAsk::Transfer { .. } => TRANSFER,
        }
    }
}

/// The record of a type that a payload is.
fn row(kind: u8, payload: &[u8]) -> Result<I2cAsk<'_>, PayloadFault>
    ensures answer { Answers i2c_ask_of (read_i2c_ask kind payload.now) result }
    ensures form { IfOk result (λ ask. IsI2cAsk (i2c_ask_of ask)) }
{
    match kind {
        FUNCTIONALITY => read_record!(payload => I2cAsk::Functionality),
        TRANSFER => transfer(payload),
        _ => Err(PayloadFault::UnknownKind),
    }
}

/// A transfer: the count of the ops, the ops, and the data.
fn transfer(payload: &[u8]) -> Result<I2cAsk<'_>, PayloadFault>
    ensures answer { Answers i2c_ask_of
        (read_i2c_transfer (little_number 2 payload.now) payload.now) result }
    ensures form { IfOk result (λ ask. IsI2cAsk (i2c_ask_of ask)) }
{
    let count = LittleEndian::read_u16(front(payload, 2)?);
    let end = 2 + OP_SIZE * count as usize;
    let ops = &front(payload, end)?[2..];
    Fields::of(payload, end + written_by_ops(count, ops))?;
    Ok(I2cAsk::Transfer {
        ops,
        data: &payload[end..],
    })
}
