//! Bytes that a payload of the Loopback protocol carries.

ghost use Rattle.std.specs.Prelude.{◌≡◌, ◌<◌, Ok, IfOk, length, take};
ghost use Rattle.gb_formats.specs.LoopbackRecords as formats;
ghost use Rattle.gb_bridge_payload.specs.Views.{carried_of, pieces};
ghost use Rattle.gb_payload.specs.Answers.{Answers};
ghost use Rattle.gb_payload.specs.Fields.{Puts};

use crate::reading::front;
use byteorder::{ByteOrder, LittleEndian};
use gb_base::NoRoom;
use gb_payload::Field::{Bytes, U32};
use gb_payload::{Fields, PayloadFault, put};

/// Bytes behind two numbers that are reserved.
#[derive(Clone, Copy, PartialEq, Eq)]
pub struct Carried<'a> {
    /// The first number.
    pub first: u32,
    /// The second number.
    pub second: u32,
    /// The bytes.
    pub bytes: &'a [u8],
}

impl<'a> Carried<'a> {
    /// Reads a payload: how many bytes, the numbers, and the bytes.
    pub fn read(payload: &'a [u8]) -> Result<Carried<'a>, PayloadFault>
        ensures { Answers carried_of (formats.read_carried pieces payload.now) result }
    {
        let size = LittleEndian::read_u32(front(payload, 4)?);
        Fields::of(payload, 12 + size as usize)?;
        Ok(Carried {
            first: LittleEndian::read_u32(&payload[4..]),
            second: LittleEndian::read_u32(&payload[8..]),
            bytes: &payload[12..],
        })
    }

    /// Writes the payload to the front of `out`, and answers its length. There are at most
    /// 4,294,967,295 bytes. NoRoom exactly where `out` is shorter, and `out` is then unchanged.
    pub fn write(&self, out: &mut [u8]) -> Result<usize, NoRoom>
        requires { length self.now.bytes.now < 4294967296 }
        ensures bytes { Puts (formats.carried self.now.first self.now.second self.now.bytes.now)
            out.old out.new result }
        ensures again { IfOk result
            (λ n. formats.read_carried pieces (take n out.new) ≡ Ok (carried_of self.now)) }
    {
        put(
            &[
                U32(self.bytes.len() as u32),
                U32(self.first),
                U32(self.second),
                Bytes(self.bytes),
            ],
            out,
        )
    }
}
