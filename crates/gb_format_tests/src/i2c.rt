//! Requests in order, with what the I2C device is to answer, and bridge lines and readings.

use crate::checks::{Row, is_answered, is_asked, is_not_asked};
use gb_base::{BridgeAsk, Bytes, I2cOp, I2cOps, Reading};
use gb_i2c::{BridgeFault, Device, bridge, reading};
use std::alloc::Global;
use std::process::Abort;

/// A read of one byte at the pointer.
const READ_ONE: &[u8] = b"\x01\0\x50\0\x01\0\x01\0";

/// Writes fe, then reads 4 from there.
const READ_FROM_FE: &[u8] = b"\x02\0\x50\0\0\0\x01\0\x50\0\x01\0\x04\0\xfe";

/// Reads one, writes fe, and reads 3 from there.
const READ_TWICE: &[u8] = b"\x03\0\x50\0\x01\0\x01\0\x50\0\0\0\x01\0\x50\0\x01\0\x03\0\xfe";

/// Requests that are served.
const SERVED: [Row<'_>; 9] = [
    (0x02, b"", 0x00, b"\x01\0\0\0"),
    (0x05, READ_ONE, 0x00, b"\x00"),
    // The pointer goes from ff to 00.
    (0x05, READ_FROM_FE, 0x00, b"\xfe\xff\x00\x01"),
    (0x05, READ_ONE, 0x00, b"\x02"),
    // An empty write doesn't set the pointer, and no ops answer nothing.
    (0x05, b"\x01\0\x50\0\0\0\0\0", 0x00, b""),
    (0x05, b"\0\0", 0x00, b""),
    (0x05, READ_ONE, 0x00, b"\x03"),
    // The first byte sets the pointer and isn't stored; the others are, from ff on to 00.
    (0x05, b"\x01\0\x50\0\0\0\x03\0\xff\xaa\xbb", 0x00, b""),
    (0x05, READ_TWICE, 0x00, b"\x01\xfe\xaa\xbb"),
];

/// Writes 9, then reads 2,041.
const WRITE_READ_2041: &[u8] = b"\x02\0\x50\0\0\0\x01\0\x50\0\x01\0\xf9\x07\x09";

/// Reads 2,040, then one more.
const READ_2040_READ_1: &[u8] = b"\x02\0\x50\0\x01\0\xf8\x07\x50\0\x01\0\x01\0";

/// Requests that are refused, and what a new device reads then.
const REFUSED: [Row<'_>; 12] = [
    (0x00, b"", 0x04, b""),
    (0x01, b"", 0x04, b""),
    (0x03, b"", 0x04, b""),
    (0x02, b"\x00", 0x06, b""),
    (0x05, b"", 0x06, b""),
    (0x05, b"\x01\0\x50\0\0\0\x02\0\x09", 0x06, b""),
    (0x05, b"\x01\0\x51\0\x01\0\x01\0", 0x08, b""),
    // Strange flags come before another address, and that before reads that are too long.
    (0x05, b"\x02\0\x51\0\x01\0\x01\0\x50\0\x02\0\0\0", 0x06, b""),
    (0x05, b"\x01\0\x51\0\x01\0\xff\xff", 0x08, b""),
    // A write before an op that is refused does nothing.
    (0x05, WRITE_READ_2041, 0x05, b""),
    (0x05, READ_2040_READ_1, 0x05, b""),
    (0x05, READ_ONE, 0x00, b"\x00"),
];

/// A new device answers these requests so, one after the other.
fn serves(rt: &impl Abort, alloc: Global, rows: &[Row<'_>]) {
    let mut device = Device::new(alloc).expect(rt, "memory");
    for row in rows.iter() {
        let served = device.serve(row.0, row.1).expect(rt, "memory");
        is_answered(rt, &served, row);
    }
}

#[test]
fn requests_are_answered(rt: HostRuntime) {
    serves(&rt, rt.alloc(), &SERVED);
    serves(&rt, rt.alloc(), &REFUSED);
}

#[test]
fn longest_read_is_served(rt: HostRuntime) {
    let mut bytes = [0; 2040];
    for place in 0..2040 {
        bytes[place] = (place % 256) as u8;
    }
    let longest: Row<'_> = (0x05, b"\x01\0\x50\0\x01\0\xf8\x07", 0x00, &bytes);
    serves(&rt, rt.alloc(), &[longest, (0x05, READ_ONE, 0x00, b"\xf8")]);
}

/// A bridge line that writes these bytes to address 50, then reads so many from there.
fn put_then_get(rt: &impl Abort, alloc: Global, bytes: &[u8], len: u16) -> BridgeAsk {
    let addr = 0x50;
    let mut ops = I2cOps::new(alloc);
    let bytes = Bytes::from_slice(alloc, bytes).expect(rt, "memory");
    ops.push(I2cOp::Put { addr, bytes }).expect(rt, "memory");
    ops.push(I2cOp::Get { addr, len }).expect(rt, "memory");
    BridgeAsk::I2cTransfer { ops }
}

/// A bridge line becomes this request.
fn becomes(rt: &impl Abort, ask: &BridgeAsk, kind: u8, payload: &[u8]) {
    let mut out = [0xff; 2040];
    let bridged = bridge(ask, &mut out);
    is_asked(rt, bridged, &out, kind, payload);
}

/// A bridge line becomes no request.
fn becomes_none(rt: &impl Abort, ask: &BridgeAsk, why: BridgeFault) {
    let mut out = [0xff; 2040];
    let bridged = bridge(ask, &mut out);
    is_not_asked(rt, bridged, &out, why);
}

#[test]
fn bridge_lines(rt: HostRuntime) {
    becomes(&rt, &BridgeAsk::I2cFunctionality, 0x02, b"");
    let ops = I2cOps::new(rt.alloc());
    becomes(&rt, &BridgeAsk::I2cTransfer { ops }, 0x05, b"\0\0");
    let unsupported = BridgeFault::Unsupported;
    becomes_none(&rt, &BridgeAsk::SpiConfig, unsupported);
    becomes_none(&rt, &BridgeAsk::SpiDevice { select: 0 }, unsupported);
    becomes_none(&rt, &BridgeAsk::UartByte { kind: 5, value: 3 }, unsupported);
    let (kind, line, value) = (2, 0, 0);
    becomes_none(&rt, &BridgeAsk::Gpio { kind, line, value }, unsupported);
}

#[test]
fn transfers(rt: HostRuntime) {
    let alloc = rt.alloc();
    becomes(
        &rt,
        &put_then_get(&rt, alloc, b"\xfe", 4),
        0x05,
        READ_FROM_FE,
    );
    let ops = b"\x02\0\x50\0\0\0\0\0\x50\0\x01\0\xf8\x07";
    becomes(&rt, &put_then_get(&rt, alloc, b"", 2040), 0x05, ops);
    let large = BridgeFault::TooLarge;
    becomes_none(&rt, &put_then_get(&rt, alloc, b"", 2041), large);
    // The payload has 14 bytes and those that are written: 2,040 in all.
    let mut most = [7; 2040];
    most[..14].copy_from_slice(b"\x02\0\x50\0\0\0\xea\x07\x50\0\x01\0\0\0");
    becomes(&rt, &put_then_get(&rt, alloc, &[7; 2026], 0), 0x05, &most);
    becomes_none(&rt, &put_then_get(&rt, alloc, &[7; 2027], 0), large);
}

/// Payloads of responses, and what they say.
const READINGS: [(u8, &[u8], Reading); 8] = [
    (0x02, b"\x01\0\0\0", Reading::Number(1)),
    (0x02, b"\xff\xff\xff\xff", Reading::Number(4294967295)),
    (0x02, b"\x01\0\0", Reading::Bad),
    (0x02, b"\x01\0\0\0\0", Reading::Bad),
    (0x05, b"", Reading::Nothing),
    (0x05, b"\x01\0\0\0", Reading::Nothing),
    (0x01, b"", Reading::Nothing),
    (0x7f, b"\x01\0\0\0", Reading::Nothing),
];

#[test]
fn answers_are_read(rt: HostRuntime) {
    for (kind, payload, says) in READINGS.iter() {
        assert!(rt; reading(*kind, payload) == *says, "type {kind}");
    }
}
