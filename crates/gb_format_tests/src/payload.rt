//! A record of each enum, both ways.

use crate::checks::is_front;
use gb_payload::{ControlAsk, ControlReply, Field, Fields, SvcAsk, SvcReply, put};
use std::process::Abort;

/// A request of the SVC's protocol has this type and payload.
fn is_svc_ask(rt: &impl Abort, ask: SvcAsk, kind: u8, bytes: &[u8]) {
    let mut out = [0xff; 9];
    assert!(rt; SvcAsk::read(kind, bytes) == Ok(ask));
    assert!(rt; ask.kind() == kind);
    assert!(rt; ask.write(&mut out) == Ok(bytes.len()));
    is_front(rt, &out, bytes);
}

/// A response of the SVC's protocol has this type and payload.
fn is_svc_reply(rt: &impl Abort, reply: SvcReply, kind: u8, bytes: &[u8]) {
    let mut out = [0xff; 9];
    assert!(rt; SvcReply::read(kind, bytes) == Ok(reply));
    assert!(rt; reply.kind() == kind);
    assert!(rt; reply.write(&mut out) == Ok(bytes.len()));
    is_front(rt, &out, bytes);
}

/// A request of the Control protocol has this type and payload.
fn is_control_ask(rt: &impl Abort, ask: ControlAsk, kind: u8, bytes: &[u8]) {
    let mut out = [0xff; 9];
    assert!(rt; ControlAsk::read(kind, bytes) == Ok(ask));
    assert!(rt; ask.kind() == kind);
    assert!(rt; ask.write(&mut out) == Ok(bytes.len()));
    is_front(rt, &out, bytes);
}

/// A response of the Control protocol has this type and payload.
fn is_control_reply(rt: &impl Abort, reply: ControlReply<'_>, kind: u8, bytes: &[u8]) {
    let mut out = [0xff; 9];
    assert!(rt; ControlReply::read(kind, bytes) == Ok(reply));
    assert!(rt; reply.kind() == kind);
    assert!(rt; reply.write(&mut out) == Ok(bytes.len()));
    is_front(rt, &out, bytes);
}

#[test]
fn records_go_both_ways(rt: HostRuntime) {
    let ask = SvcAsk::ConnDestroy {
        intf1: 1,
        cport1: 0x0201,
        intf2: 2,
        cport2: 0x0403,
    };
    is_svc_ask(&rt, ask, 0x08, b"\x01\x01\x02\x02\x03\x04");
    let reply = SvcReply::IntfActivate { status: 0, kind: 3 };
    is_svc_reply(&rt, reply, 0x27, b"\0\x03");
    is_control_ask(
        &rt,
        ControlAsk::Disconnected { cport: 4095 },
        0x06,
        b"\xff\x0f",
    );
    let reply = ControlReply::GetManifest {
        bytes: b"\x08\0\0\x01",
    };
    is_control_reply(&rt, reply, 0x04, b"\x08\0\0\x01");
}

#[test]
fn fields_of_each_width(rt: HostRuntime) {
    let mut out = [0; 9];
    let fields = [
        Field::U32(0x0102_0304),
        Field::U16(0x0506),
        Field::U8(7),
        Field::Bytes(b"ab"),
    ];
    assert!(rt; put(&fields, &mut out) == Ok(9));
    assert!(rt; out == *b"\x04\x03\x02\x01\x06\x05\x07ab");
    let mut read = Fields::of(&out, 9).expect(&rt, "nine bytes");
    assert!(rt; (read.u32(), read.u16(), read.u8()) == (0x0102_0304, 0x0506, 7));
    assert!(rt; read.rest() == b"ab".as_slice());
}
