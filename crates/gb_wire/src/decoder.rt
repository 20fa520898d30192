//! Operation messages read from their bytes.

ghost use Rattle.std.specs.Prelude.{◌≡◌, ℕ, ◌≤◌, length, take, IfOk, IsOkAnd};
ghost use Rattle.gb_formats.specs.Message as formats;
ghost use Rattle.gb_formats.specs.Wire.{Spells, header_size, decode_answer};
ghost use Rattle.gb_wire.specs.Decoding.{answer_of, judged};
ghost use Rattle.gb_wire.specs.MessageOf.{message_of};

use crate::Message;
use crate::message::{HEADER, RESPONSE};
use byteorder::{ByteOrder, LittleEndian};
use gb_base::WireFault;

/// Reads the message at the front of `bytes`, and answers it with its size. Bytes may follow it.
///
/// The faults in the order in which they are tried: Short with 8 where fewer than eight bytes are
/// there, SizeBelowEight, Short with the size where fewer bytes are there, RequestResult.
pub fn decode(bytes: &[u8]) -> Result<(Message<'_>, usize), WireFault>
    // What is answered is spelled by the first bytes.
    ensures found { IfOk result (λ found. (found.1 ≤ length bytes.now)
        × Spells (take found.1 bytes.now) (message_of found.0)) }
    // What the first bytes spell is answered.
    ensures only { (m : formats.Message) (n : ℕ)
        → n ≤ length bytes.now → Spells (take n bytes.now) m
        → IsOkAnd result (λ found. (message_of found.0 ≡ m) × (found.1 ≡ n)) }
    // Which fault it is.
    ensures exact { answer_of result ≡ decode_answer bytes.now }
{
    front_message(bytes)
}

/// The message at the front of `bytes`, with its size.
fn front_message(bytes: &[u8]) -> Result<(Message<'_>, usize), WireFault>
    ensures { answer_of result ≡ decode_answer bytes.now }
{
    if bytes.len() < HEADER {
        return Err(WireFault::Short {
            need: HEADER as u32,
        });
    }
    let size = size_of(bytes, bytes.len())?;
    let message = Message {
        id: LittleEndian::read_u16(&bytes[2..]),
        kind: bytes[4],
        result: bytes[5],
        payload: &bytes[HEADER..size],
    };
    Ok((message, size))
}

/// The size of the message that begins with this header, where `there` bytes of it are there.
pub(crate) fn size_of(header: &[u8], there: usize) -> Result<usize, WireFault>
    requires { header_size ≤ length header.now }
    ensures { result ≡ judged header.now there }
{
    let size = LittleEndian::read_u16(header);
    if usize::from(size) < HEADER {
        return Err(WireFault::SizeBelowEight { size });
    }
    if there < usize::from(size) {
        return Err(WireFault::Short {
            need: u32::from(size),
        });
    }
    if header[4] < RESPONSE && header[5] != 0 {
        return Err(WireFault::RequestResult { result: header[5] });
    }
    Ok(usize::from(size))
}
