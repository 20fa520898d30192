//! Requests and bridge lines, with the answers of the device's description.

use crate::checks::{Row, is_answered, is_asked, is_not_asked};
use gb_base::{BridgeAsk, Bridged, Bytes, Reading, SpiOp, SpiOps};
use gb_spi::{BridgeFault, Device, bridge, reading};
use std::alloc::Global;
use std::process::Abort;

/// What the master is: mask 00000080, 1,000 and 1,000,000 Hz, mode 3, flags 0, one chip select.
const MASTER: &[u8] = b"\x80\0\0\0\xe8\x03\0\0@B\x0f\0\x03\0\0\0\x01";

/// What the device is: mode 0, bits 8, 1,000,000 Hz, type 0 and its name.
const ECHO: &[u8] =
    b"\0\0\x08@B\x0f\0\0echo\0\0\0\0\0\0\0\0\0\0\0\0\0\0\0\0\0\0\0\0\0\0\0\0\0\0\0\0";

/// Transfers of chip select 0: mode, the number of entries, the entries and what they write. The
/// names tell how many bytes each entry reads, writes or both. `MORE` has flag 4 too.
const READ_1: &[u8] = b"\0\0\x01\0@B\x0f\0\x01\0\0\0\0\0\0\x08\x01";

const READ_3: &[u8] = b"\0\0\x01\0@B\x0f\0\x03\0\0\0\0\0\0\x08\x01";

const BOTH_2_READ_2: &[u8] = b"\0\0\x02\0\
    @B\x0f\0\x02\0\0\0\0\0\0\x08\x03@B\x0f\0\x02\0\0\0\0\0\0\x08\x01\x01\x02";

const WRITE_2: &[u8] = b"\0\0\x01\0@B\x0f\0\x02\0\0\0\0\0\0\x08\x02\x03\x04";

const BOTH_0: &[u8] = b"\0\0\x01\0@B\x0f\0\0\0\0\0\0\0\0\x08\x03";

const NEITHER_5: &[u8] = b"\0\0\x01\0@B\x0f\0\x05\0\0\0\0\0\0\x08\0";

const READ_2_MORE: &[u8] = b"\0\0\x01\0@B\x0f\0\x02\0\0\0\0\0\0\x08\x05";

const WRITE_1_MORE: &[u8] = b"\0\0\x01\0@B\x0f\0\x01\0\0\0\0\0\0\x08\x06\x09";

const READ_BOTH_READ: &[u8] = b"\0\x03\x03\0@B\x0f\0\x01\0\0\0\0\0\0\x08\x01\
    \0\0\0\0\x01\0\0\0\x07\0\x01\x08\x07@B\x0f\0\x01\0\0\0\0\0\0\x08\x01\x0a";

const READ_2040: &[u8] = b"\0\0\x01\0@B\x0f\0\xf8\x07\0\0\0\0\0\x08\x01";

const READ_2040_READ_1: &[u8] = b"\0\0\x02\0\
    @B\x0f\0\xf8\x07\0\0\0\0\0\x08\x01@B\x0f\0\x01\0\0\0\0\0\0\x08\x01";

/// Requests in order. Of what is refused, INVALID comes before NONEXISTENT, and that before
/// OVERFLOW; it leaves the device as it is.
const ROWS: [Row<'_>; 34] = [
    (0x02, b"", 0x00, MASTER),
    (0x03, b"\0", 0x00, ECHO),
    (0x04, READ_3, 0x00, b"\0\0\0"),
    (0x04, BOTH_2_READ_2, 0x00, b"\x01\x02\x02\x02"),
    (0x04, READ_1, 0x00, b"\x02"),
    (0x04, WRITE_2, 0x00, b""),
    (0x04, READ_3, 0x00, b"\x04\x04\x04"),
    (0x04, BOTH_0, 0x00, b""),
    (0x04, NEITHER_5, 0x00, b""),
    (0x04, READ_2_MORE, 0x00, b"\x04\x04"),
    (0x04, WRITE_1_MORE, 0x00, b""),
    (0x04, READ_BOTH_READ, 0x00, b"\x09\x0a\x0a"),
    (0x04, b"\0\0\0\0", 0x00, b""),
    (0x04, b"\0\x03\0\0", 0x00, b""),
    (0x04, READ_1, 0x00, b"\x0a"),
    (0x01, b"", 0x04, b""),
    (0x05, b"", 0x04, b""),
    (0x7f, b"\0", 0x04, b""),
    (0x02, b"\0", 0x06, b""),
    (0x03, b"", 0x06, b""),
    (0x04, b"\0\0\x01", 0x06, b""),
    (
        0x04,
        b"\0\0\x01\0@B\x0f\0\x01\0\0\0\0\0\0\x08\x02",
        0x06,
        b"",
    ),
    (0x04, b"\0\x04\0\0", 0x06, b""),
    (
        0x04,
        b"\0\0\x01\0@B\x0f\0\x01\0\0\0\0\0\0\x09\x01",
        0x06,
        b"",
    ),
    (
        0x04,
        b"\0\0\x01\0@B\x0f\0\x01\0\0\0\0\0\0\x08\x09",
        0x06,
        b"",
    ),
    (0x04, b"\x01\x04\0\0", 0x06, b""),
    (
        0x04,
        b"\0\0\x01\0@B\x0f\0\xf9\x07\0\0\0\0\0\x07\x01",
        0x06,
        b"",
    ),
    (0x03, b"\x01", 0x08, b""),
    (0x04, b"\x01\0\0\0", 0x08, b""),
    (
        0x04,
        b"\x01\0\x01\0@B\x0f\0\xf9\x07\0\0\0\0\0\x08\x01",
        0x08,
        b"",
    ),
    (
        0x04,
        b"\0\0\x01\0@B\x0f\0\xf9\x07\0\0\0\0\0\x08\x01",
        0x05,
        b"",
    ),
    (0x04, READ_2040_READ_1, 0x05, b""),
    (0x04, READ_1, 0x00, b"\x0a"),
    (0x04, READ_2040, 0x00, &[0x0a; 2040]),
];

/// The device answers a request so.
fn serves(rt: &impl Abort, device: &mut Device, row: &Row<'_>) {
    let served = device.serve(row.0, row.1).expect(rt, "memory");
    is_answered(rt, &served, row);
}

#[test]
fn requests(rt: HostRuntime) {
    let mut device = Device::new(rt.alloc()).expect(&rt, "memory");
    for row in ROWS.iter() {
        serves(&rt, &mut device, row);
    }
}

/// Payloads of responses, and what they say.
const READINGS: [(u8, &[u8], Reading); 8] = [
    (0x02, MASTER, Reading::Number(1)),
    (0x02, b"", Reading::Bad),
    (
        0x02,
        b"\x80\0\0\0\xe8\x03\0\0@B\x0f\0\x03\0\0\0",
        Reading::Bad,
    ),
    (
        0x02,
        b"\0\0\0\0\0\0\0\0\0\0\0\0\0\0\0\0\xff",
        Reading::Number(255),
    ),
    (0x03, ECHO, Reading::Nothing),
    (0x03, b"", Reading::Nothing),
    (0x04, b"\0\0\0", Reading::Nothing),
    (0x04, b"\x01", Reading::Nothing),
];

#[test]
fn readings(rt: HostRuntime) {
    for (kind, payload, says) in READINGS.iter() {
        assert!(rt; reading(*kind, payload) == *says, "type {kind}");
    }
}

/// A bridge line becomes this request.
fn becomes(rt: &impl Abort, ask: &BridgeAsk, kind: u8, payload: &[u8]) {
    let mut out = [0xff; 2040];
    let bridged = bridge(ask, &mut out);
    is_asked(rt, bridged, &out, kind, payload);
}

/// A bridge line becomes no request.
fn becomes_none(rt: &impl Abort, ask: &BridgeAsk, why: BridgeFault) {
    let mut out = [0xff; 2040];
    let bridged = bridge(ask, &mut out);
    is_not_asked(rt, bridged, &out, why);
}

/// A transfer that writes these bytes and reads as many, and then reads more.
fn both_then_get(rt: &impl Abort, alloc: Global, bytes: &[u8], len: u16) -> BridgeAsk {
    let mut ops = SpiOps::new(alloc);
    let bytes = Bytes::from_slice(alloc, bytes).expect(rt, "memory");
    ops.push(SpiOp::Both { bytes }).expect(rt, "memory");
    ops.push(SpiOp::Get { len }).expect(rt, "memory");
    let (select, mode) = (0, 0);
    BridgeAsk::SpiTransfer { select, mode, ops }
}

/// A transfer that writes these bytes.
fn put(rt: &impl Abort, alloc: Global, bytes: &[u8]) -> BridgeAsk {
    let mut ops = SpiOps::new(alloc);
    let bytes = Bytes::from_slice(alloc, bytes).expect(rt, "memory");
    ops.push(SpiOp::Put { bytes }).expect(rt, "memory");
    let (select, mode) = (0, 0);
    BridgeAsk::SpiTransfer { select, mode, ops }
}

#[test]
fn transfers_become_requests(rt: HostRuntime) {
    let alloc = rt.alloc();
    becomes(
        &rt,
        &both_then_get(&rt, alloc, b"\x01\x02", 2),
        0x04,
        BOTH_2_READ_2,
    );
    becomes(&rt, &put(&rt, alloc, b"\x03\x04"), 0x04, WRITE_2);
    let (select, mode) = (9, 255);
    let ops = SpiOps::new(alloc);
    let ask = BridgeAsk::SpiTransfer { select, mode, ops };
    becomes(&rt, &ask, 0x04, b"\x09\xff\0\0");
}

#[test]
fn bridge_lines(rt: HostRuntime) {
    becomes(&rt, &BridgeAsk::SpiConfig, 0x02, b"");
    becomes(&rt, &BridgeAsk::SpiDevice { select: 7 }, 0x03, b"\x07");
    let unsupported = BridgeFault::Unsupported;
    becomes_none(&rt, &BridgeAsk::I2cFunctionality, unsupported);
    let (kind, value) = (0x05, 1);
    becomes_none(&rt, &BridgeAsk::UartByte { kind, value }, unsupported);
}

/// A transfer as `both_then_get` becomes a request of this size, or is too large.
fn has_size(
    rt: &impl Abort,
    alloc: Global,
    bytes: &[u8],
    len: u16,
    size: Result<usize, BridgeFault>,
) {
    let mut out = [0xff; 2040];
    let bridged = bridge(&both_then_get(rt, alloc, bytes, len), &mut out);
    let kind = 0x04;
    assert_eq!(rt; bridged, size.map(|len| Bridged { kind, len }));
}

#[test]
fn limits_of_bridge_lines(rt: HostRuntime) {
    let alloc = rt.alloc();
    let bytes = [9; 2011];
    let large = Err(BridgeFault::TooLarge);
    has_size(&rt, alloc, &bytes[..2010], 0, Ok(2040));
    has_size(&rt, alloc, &bytes, 0, large);
    has_size(&rt, alloc, b"", 2040, Ok(30));
    has_size(&rt, alloc, b"", 2041, large);
    has_size(&rt, alloc, &bytes[..10], 2030, Ok(40));
    has_size(&rt, alloc, &bytes[..10], 2031, large);
}
