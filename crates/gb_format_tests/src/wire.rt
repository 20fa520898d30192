//! Messages and their bytes. The expected values are worked by hand.

ghost use Rattle.std.specs.Prelude.{◌≡◌, ◌<◌, ◌≤◌, length};

use crate::checks::is_front;
use gb_base::{NoRoom, WireFault};
use gb_wire::{FeedFault, Feeder, Message, decode, encode_into};
use std::process::Abort;

/// A ping with identifier 1.
const PING: Message<'_> = Message {
    id: 1,
    kind: 0x13,
    result: 0,
    payload: b"",
};

/// An answer with a byte of payload.
const ANSWER: Message<'_> = Message {
    id: 0x1234,
    kind: 0x85,
    result: 9,
    payload: b"\x07",
};

/// These bytes are the spelling of a message, and are read as it.
fn is_spelled(rt: &impl Abort, message: &Message<'_>, bytes: &[u8])
    requires fits { length message.now.payload.now ≤ 65527 }
    requires request { message.now.kind < 128 → message.now.result ≡ 0 }
{
    let mut out = [0xff; 10];
    assert!(rt; encode_into(message, &mut out) == Ok(bytes.len()));
    is_front(rt, &out, bytes);
    let (read, size) = decode(bytes).expect(rt, "these bytes are a message");
    is_same(rt, &read, message);
    assert!(rt; size == bytes.len());
}

/// Two messages are the same.
fn is_same(rt: &impl Abort, read: &Message<'_>, want: &Message<'_>) {
    assert!(rt; (read.id, read.kind, read.result) == (want.id, want.kind, want.result));
    assert!(rt; read.payload == want.payload);
}

/// These bytes are no message.
fn is_none(rt: &impl Abort, bytes: &[u8], fault: WireFault) {
    assert!(rt; decode(bytes).err() == Some(fault));
}

#[test]
fn spells_messages(rt: HostRuntime) {
    is_spelled(&rt, &PING, b"\x08\0\x01\0\x13\0\0\0");
    is_spelled(&rt, &ANSWER, b"\x09\0\x34\x12\x85\x09\0\0\x07");
    assert!(rt; encode_into(&ANSWER, &mut [0xff; 8]) == Err(NoRoom));
}

#[test]
fn refuses_other_bytes(rt: HostRuntime) {
    let short = |need| WireFault::Short { need };
    is_none(&rt, b"\x08\0\x01\0\x13\0\0", short(8));
    is_none(&rt, b"\x09\0\x01\0\x13\0\0\0", short(9));
    is_none(&rt, b"\0\x01\x01\0\x13\x06\0\0", short(256));
    let small = WireFault::SizeBelowEight { size: 7 };
    is_none(&rt, b"\x07\0\x01\0\x13\0\0\0", small);
    is_none(&rt, b"\x08\0\x01\0\x13\x06\0\0", STOP);
}

/// A request with result 6.
const STOP: WireFault = WireFault::RequestResult { result: 6 };

/// A ping, an answer with one byte of payload, a ping with result 6, and a byte more.
const STREAM: &[u8] =
    b"\x08\0\x01\0\x13\0\0\0\x09\0\x34\x12\x85\x09\0\0\x07\x08\0\x01\0\x13\x06\0\0\xff";

/// With this piece these messages are whole.
fn feeds(rt: &impl Abort, feeder: &mut Feeder, piece: &[u8], wanted: &[Message<'_>]) {
    let messages = feeder.feed(piece).expect(rt, "no fault, and memory");
    assert!(rt; messages.items().len() == wanted.len());
    for (m, want) in messages.items().iter().zip(wanted) {
        assert!(rt; (m.id, m.kind, m.result) == (want.id, want.kind, want.result));
        assert!(rt; m.payload.items() == want.payload);
    }
}

/// The stream goes no further.
fn stops(rt: &impl Abort, feeder: &mut Feeder, piece: &[u8]) {
    assert!(rt; matches!(feeder.feed(piece), Err(FeedFault::Wire(STOP))));
}

#[test]
fn hands_out_a_stream_in_pieces(rt: HostRuntime) {
    let mut feeder = Feeder::new(rt.alloc());
    feeds(&rt, &mut feeder, &STREAM[..7], &[]);
    feeds(&rt, &mut feeder, &STREAM[7..9], &[PING]);
    feeds(&rt, &mut feeder, b"", &[]);
    feeds(&rt, &mut feeder, &STREAM[9..17], &[ANSWER]);
    feeds(&rt, &mut feeder, &STREAM[17..24], &[]);
    stops(&rt, &mut feeder, &STREAM[24..]);
    stops(&rt, &mut feeder, b"");
}

#[test]
fn hands_out_messages_before_a_fault(rt: HostRuntime) {
    let mut feeder = Feeder::new(rt.alloc());
    feeds(&rt, &mut feeder, STREAM, &[PING, ANSWER]);
    stops(&rt, &mut feeder, b"");
}
