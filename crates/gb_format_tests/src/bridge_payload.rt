//! A record of each bridged protocol, both ways, ops and entries, and what devices answer.

use crate::checks::is_front;
use gb_base::NoRoom;
use gb_bridge_payload::{
    Carried, GpioAsk, GpioReply, I2cAsk, I2cReply, INVALID, LoopbackAsk, LoopbackReply,
    PayloadFault, SpiAsk, SpiReply, TransferEntry, TransferOp, UartAsk, UartReply, answered, done,
    put_behind, refused,
};
use gb_payload::Field;
use std::process::Abort;

#[test]
fn gpio_goes_both_ways(rt: HostRuntime) {
    let mut out = [0xff; 9];
    let ask = GpioAsk::IrqType { which: 9, kind: 8 };
    assert!(rt; GpioAsk::read(0x0b, b"\x09\x08") == Ok(ask));
    assert!(rt; (ask.kind(), ask.write(&mut out)) == (0x0b, Ok(2)));
    is_front(&rt, &out, b"\x09\x08");
    let mut out = [0xff; 9];
    let reply = GpioReply::LineCount { last: 7 };
    assert!(rt; GpioReply::read(0x02, b"\x07") == Ok(reply));
    assert!(rt; (reply.kind(), reply.write(&mut out)) == (0x02, Ok(1)));
    is_front(&rt, &out, b"\x07");
}

/// An I2C transfer of two ops.
const I2C: &[u8] = b"\x02\0\x50\0\0\0\x01\0\x50\0\x01\0\x04\0\xfe";

#[test]
fn i2c_goes_both_ways(rt: HostRuntime) {
    let mut out = [0xff; 20];
    let ask = I2cAsk::Transfer {
        ops: b"\x50\0\0\0\x01\0\x50\0\x01\0\x04\0",
        data: b"\xfe",
    };
    assert!(rt; I2cAsk::read(0x05, I2C) == Ok(ask));
    assert!(rt; (ask.kind(), ask.write(&mut out)) == (0x05, Ok(15)));
    is_front(&rt, &out, I2C);
    let mut out = [0xff; 20];
    let reply = I2cReply::Functionality { flags: 1 };
    assert!(rt; I2cReply::read(0x02, b"\x01\0\0\0") == Ok(reply));
    assert!(rt; (reply.kind(), reply.write(&mut out)) == (0x02, Ok(4)));
    is_front(&rt, &out, b"\x01\0\0\0");
}

/// An SPI transfer of an entry.
const SPI: &[u8] = b"\x01\x03\x01\0@B\x0f\0\x02\0\0\0\0\0\0\x08\x03\x01\x02";

#[test]
fn spi_goes_both_ways(rt: HostRuntime) {
    let mut out = [0xff; 20];
    let ask = SpiAsk::Transfer {
        select: 1,
        mode: 3,
        entries: b"@B\x0f\0\x02\0\0\0\0\0\0\x08\x03",
        data: b"\x01\x02",
    };
    assert!(rt; SpiAsk::read(0x04, SPI) == Ok(ask));
    assert!(rt; (ask.kind(), ask.write(&mut out)) == (0x04, Ok(19)));
    is_front(&rt, &out, SPI);
    let mut out = [0xff; 20];
    let reply = SpiReply::Transfer { data: b"\x01\x02" };
    assert!(rt; SpiReply::read(0x04, b"\x01\x02") == Ok(reply));
    assert!(rt; (reply.kind(), reply.write(&mut out)) == (0x04, Ok(2)));
    is_front(&rt, &out, b"\x01\x02");
}

#[test]
fn uart_goes_both_ways(rt: HostRuntime) {
    let mut out = [0xff; 9];
    let ask = UartAsk::SendData { bytes: b"\xab\xcd" };
    assert!(rt; UartAsk::read(0x02, b"\x02\0\xab\xcd") == Ok(ask));
    assert!(rt; (ask.kind(), ask.write(&mut out)) == (0x02, Ok(4)));
    is_front(&rt, &out, b"\x02\0\xab\xcd");
    let reply = UartReply::SendBreak;
    assert!(rt; UartReply::read(0x06, b"") == Ok(reply));
    assert!(rt; (reply.kind(), reply.write(&mut out)) == (0x06, Ok(0)));
}

/// Two bytes of a loopback, and the numbers before them.
const LOOP: &[u8] = b"\x02\0\0\0\x01\x02\x03\x04\x05\0\0\0\xab\xcd";

#[test]
fn loopback_goes_both_ways(rt: HostRuntime) {
    let mut out = [0xff; 20];
    let carried = Carried {
        first: 0x04030201,
        second: 5,
        bytes: b"\xab\xcd",
    };
    let ask = LoopbackAsk::Sink(carried);
    assert!(rt; LoopbackAsk::read(0x04, LOOP) == Ok(ask));
    assert!(rt; (ask.kind(), ask.write(&mut out)) == (0x04, Ok(14)));
    is_front(&rt, &out, LOOP);
    let mut out = [0xff; 20];
    let reply = LoopbackReply::Transfer(carried);
    assert!(rt; LoopbackReply::read(0x03, LOOP) == Ok(reply));
    assert!(rt; (reply.kind(), reply.write(&mut out)) == (0x03, Ok(14)));
    is_front(&rt, &out, LOOP);
}

/// A payload is no response of an SPI device.
fn is_no_reply(rt: &impl Abort, kind: u8, bytes: &[u8], why: PayloadFault) {
    assert!(rt; SpiReply::read(kind, bytes) == Err(why));
}

/// What a device is, with a byte more than one too many.
const LONG: &[u8] =
    b"\0\0\x08@B\x0f\0\0echo\0\0\0\0\0\0\0\0\0\0\0\0\0\0\0\0\0\0\0\0\0\0\0\0\0\0\0\0\0\0";

#[test]
fn other_payloads_are_no_responses(rt: HostRuntime) {
    let unknown = PayloadFault::UnknownKind;
    assert!(rt; I2cReply::read(0x03, b"") == Err(unknown));
    is_no_reply(&rt, 0x01, b"", unknown);
    is_no_reply(&rt, 0x02, b"\x80", PayloadFault::Mismatch { at: 1 });
    is_no_reply(&rt, 0x03, LONG, PayloadFault::Mismatch { at: 41 });
}

#[test]
fn records_want_room(rt: HostRuntime) {
    let mut out = [0xff; 3];
    let flags = I2cReply::Functionality { flags: 1 };
    assert!(rt; flags.write(&mut out) == Err(NoRoom));
    assert!(rt; out == [0xff; 3]);
}

#[test]
fn ops_and_entries_have_sizes(rt: HostRuntime) {
    let (op, rest) = TransferOp::first(b"\x50\0\x01\0\x04\x01\xaa");
    assert!(rt; (op.addr, op.flags, op.size) == (0x50, 1, 0x0104));
    assert!(rt; (op.reads(), op.read_size(), op.written_size()) == (true, 0x0104, 0));
    assert!(rt; rest == b"\xaa".as_slice());
    let (entry, rest) = TransferEntry::first(b"\x40\x42\x0f\0\x02\0\0\0\x05\0\x01\x08\x02\xbb");
    assert!(rt; (entry.speed, entry.len, entry.delay) == (1_000_000, 2, 5));
    assert!(rt; (entry.cs_change, entry.bits, entry.flags) == (1, 8, 2));
    assert!(rt; (entry.reads(), entry.writes()) == (false, true));
    assert!(rt; (entry.read_size(), entry.written_size()) == (0, 2));
    assert!(rt; rest == b"\xbb".as_slice());
}

#[test]
fn devices_answer(rt: HostRuntime) {
    let served = answered(rt.alloc(), b"\x07\x01").expect(&rt, "memory");
    assert!(rt; (served.result, served.payload.items()) == (0x00, b"\x07\x01".as_slice()));
    assert!(rt; done(rt.alloc()).result == 0x00);
    assert!(rt; refused(rt.alloc(), INVALID).result == 0x06);
}

#[test]
fn pieces_follow_one_another(rt: HostRuntime) {
    let mut out = [9; 5];
    let at = put_behind(0, &[Field::U8(1)], &mut out);
    assert!(rt; put_behind(at, &[Field::U16(2), Field::Bytes(b"\x07")], &mut out) == 4);
    assert!(rt; out == [1, 2, 0, 7, 9]);
}
