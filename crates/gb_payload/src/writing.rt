//! Writes the fields of a payload.

ghost use Rattle.std.specs.Prelude.{◌≡◌, ◌≤◌, ◌+◌, ◌++◌, length, take, drop};
ghost use Rattle.gb_payload.specs.Fields.{Fits, Puts, field_bytes, spelled};

use byteorder::{ByteOrder, LittleEndian};
use gb_base::NoRoom;

/// A field of a payload. Numbers have their lowest byte first.
#[derive(Clone, Copy)]
pub enum Field<'a> {
    /// A byte.
    U8(u8),
    /// A number of two bytes.
    U16(u16),
    /// A number of four bytes.
    U32(u32),
    /// Bytes as they stand.
    Bytes(&'a [u8]),
}

impl Field<'_> {
    /// How many bytes it has.
    fn size(&self) -> usize
        ensures { result ≡ length (field_bytes self.now) }
    {
        match self {
            Field::U8(_) => 1,
            Field::U16(_) => 2,
            Field::U32(_) => 4,
            Field::Bytes(bytes) => bytes.len(),
        }
    }

    /// Writes it to the front of `out`.
    fn write(&self, out: &mut [u8])
        requires { length (field_bytes self.now) ≤ length out.old }
        ensures { out.new ≡ field_bytes self.now ++ drop (length (field_bytes self.now)) out.old }
    {
        match self {
            Field::U8(byte) => out[0] = *byte,
            Field::U16(number) => LittleEndian::write_u16(out, *number),
            Field::U32(number) => LittleEndian::write_u32(out, *number),
            Field::Bytes(bytes) => out[..bytes.len()].copy_from_slice(bytes),
        }
    }
}

/// Writes fields to the front of `out`, and answers how many bytes they have. NoRoom exactly where
/// `out` is shorter, and `out` is then unchanged.
#[inline(always)]
pub fn put(fields: &[Field<'_>], out: &mut [u8]) -> Result<usize, NoRoom>
    ensures { Puts (spelled fields.now) out.old out.new result }
{
    let size = room_for(fields, out.len())?;
    let mut at = 0;
    for field in fields {
        field.write(&mut out[at..]);
        at += field.size();
    }
    Ok(size)
}

/// How many bytes fields have, NoRoom where they are more than `room`.
fn room_for(fields: &[Field<'_>], room: usize) -> Result<usize, NoRoom>
    ensures { Fits (spelled fields.now) room result }
{
    let mut left = room;
    for field in fields {
        if left < field.size() {
            return Err(NoRoom);
        }
        left -= field.size();
    }
    Ok(room - left)
}
