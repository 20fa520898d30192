//! Messages, as the report tells them.

ghost use Rattle.std.specs.Prelude.{◌≡◌, ◌≤◌, ◌<◌, [], IfOk, length};
ghost use Rattle.gb_formats.specs.Message.{message_size, request, response, spelling};
ghost use Rattle.gb_formats.specs.Results.{most_payload};
ghost use Rattle.gb_wire.specs.MessageOf.{message_of};

use gb_base::{Bytes, OutOfMemory};
use gb_bridge_payload::MOST_PAYLOAD;
use gb_wire::{HEADER, Message, RESPONSE, encode_into};
use std::alloc::Global;

/// The most bytes that a payload has in a message that takes no memory of its own.
const SHORT_PAYLOAD: usize = 8;

/// The size of a message with a payload of at most 2,040 bytes.
pub fn size_of(payload: &[u8]) -> u16
    ensures { length payload.now ≤ most_payload → result ≡ message_size payload.now }
{
    HEADER as u16 + within(payload).len() as u16
}

/// The bytes of a request with a payload of at most 2,040 bytes.
pub fn request_bytes(
    alloc: Global,
    label: u16,
    kind: u8,
    payload: &[u8],
) -> Result<Bytes, OutOfMemory>
    ensures { IfOk result (λ b. length payload.now ≤ most_payload
        → b ≡ spelling (request label kind payload.now)) }
{
    message_bytes(
        alloc,
        &Message {
            id: label,
            kind,
            result: 0,
            payload: within(payload),
        },
    )
}

/// The bytes of the response to a request of a type below `RESPONSE`, with a payload of at
/// most 2,040 bytes.
pub fn response_bytes(
    alloc: Global,
    label: u16,
    kind: u8,
    code: u8,
    payload: &[u8],
) -> Result<Bytes, OutOfMemory>
    ensures { IfOk result (λ b. kind < 128 → length payload.now ≤ most_payload
        → b ≡ spelling (response label kind code payload.now)) }
{
    message_bytes(
        alloc,
        &Message {
            id: label,
            kind: kind % RESPONSE + RESPONSE,
            result: code,
            payload: within(payload),
        },
    )
}

/// The canonical spelling of a message.
#[inline(always)]
fn message_bytes(alloc: Global, m: &Message<'_>) -> Result<Bytes, OutOfMemory>
    requires fits { length m.now.payload.now ≤ 65527 }
    requires request { m.now.kind < 128 → m.now.result ≡ 0 }
    ensures { IfOk result (λ b. b ≡ spelling (message_of m.now)) }
{
    if m.payload.is_empty() {
        return Ok(bare_message(alloc, m));
    }
    if m.payload.len() <= SHORT_PAYLOAD {
        return short_message(alloc, m);
    }
    let mut bytes = vec![in alloc; 0u8; HEADER + m.payload.len()]?;
    encode_into(m, &mut bytes).unwrap();
    Ok(Bytes::from_vec(bytes))
}

/// The canonical spelling of a message that has no payload, for which nothing is copied.
#[inline]
fn bare_message(alloc: Global, m: &Message<'_>) -> Bytes
    requires bare { m.now.payload.now ≡ [] }
    requires request { m.now.kind < 128 → m.now.result ≡ 0 }
    ensures { result ≡ spelling (message_of m.now) }
{
    let bare = Message { payload: &[], ..*m };
    let mut bytes = [0u8; HEADER + SHORT_PAYLOAD];
    encode_into(&bare, &mut bytes).unwrap();
    Bytes::from_front(alloc, bytes, HEADER)
}

/// The canonical spelling of a message that has at most 16 bytes.
#[inline]
fn short_message(alloc: Global, m: &Message<'_>) -> Result<Bytes, OutOfMemory>
    requires short { length m.now.payload.now ≤ 8 }
    requires request { m.now.kind < 128 → m.now.result ≡ 0 }
    ensures { IfOk result (λ b. b ≡ spelling (message_of m.now)) }
{
    let mut bytes = [0u8; HEADER + SHORT_PAYLOAD];
    let size = encode_into(m, &mut bytes).unwrap();
    Ok(Bytes::from_front(alloc, bytes, size))
}

/// A payload up to the length that a message has room for.
fn within(payload: &[u8]) -> &[u8]
    ensures most { length result.now ≤ most_payload }
    ensures all { length payload.now ≤ most_payload → result.now ≡ payload.now }
{
    if payload.len() > MOST_PAYLOAD {
        &payload[..MOST_PAYLOAD]
    } else {
        payload
    }
}
