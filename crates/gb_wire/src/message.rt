//! Operation messages and their spelling.

ghost use Rattle.std.specs.Prelude.{◌≡◌, ◌<◌, ◌≤◌, ◌↔◌, ◌++◌, length, drop, IsErr, IfOk, OnErr};
ghost use Rattle.gb_formats.specs.Message.{message_size, spelling};
ghost use Rattle.gb_wire.specs.MessageOf.{message_of};

use byteorder::{ByteOrder, LittleEndian};
use gb_base::NoRoom;

/// The size of a message's header in bytes (Greybus Specification, "Operation Messages"; in Linux
/// that of `struct gb_operation_msg_hdr`).
pub const HEADER: usize = 8;

/// The first type of a response: it has the type of its request, with this bit (Greybus
/// Specification, "Operation Messages"; in Linux `GB_MESSAGE_TYPE_RESPONSE`).
pub const RESPONSE: u8 = 0x80;

/// An operation message (Greybus Specification, "Operation Messages").
#[derive(Clone, Copy)]
pub struct Message<'a> {
    /// The identifier, 0 in a unidirectional request.
    pub id: u16,
    /// The type. From `RESPONSE` on it is that of a response.
    pub kind: u8,
    /// The result byte, 0 in a request.
    pub result: u8,
    /// The payload.
    pub payload: &'a [u8],
}

/// Writes the canonical spelling of a message to the front of `out`, and answers its length.
/// NoRoom exactly where `out` is shorter, and `out` is then unchanged.
pub fn encode_into(m: &Message<'_>, out: &mut [u8]) -> Result<usize, NoRoom>
    requires fits { length m.now.payload.now ≤ 65527 }
    requires request { m.now.kind < 128 → m.now.result ≡ 0 }
    ensures room { IsErr result ↔ (length out.old < message_size m.now.payload.now) }
    ensures ok { IfOk result (λ n. (n ≡ message_size m.now.payload.now)
        × (out.new ≡ spelling (message_of m.now) ++ drop n out.old)) }
    ensures err { OnErr result (out.new ≡ out.old) }
{
    let size = HEADER + m.payload.len();
    if out.len() < size {
        return Err(NoRoom);
    }
    LittleEndian::write_u16(&mut out[..2], size as u16);
    LittleEndian::write_u16(&mut out[2..4], m.id);
    out[4] = m.kind;
    out[5] = m.result;
    out[6] = 0;
    out[7] = 0;
    out[HEADER..size].copy_from_slice(m.payload);
    Ok(size)
}
