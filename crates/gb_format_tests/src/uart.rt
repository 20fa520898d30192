//! Requests, bridge lines and credits, with the answers of the device's description.

use crate::checks::{Row, is_answered, is_asked, is_not_asked};
use gb_base::{BridgeAsk, Bytes, OwnAsk, Reading};
use gb_uart::{BridgeFault, Credits, Device, NoCredit, TooMany, bridge, reading};
use std::alloc::Global;
use std::process::Abort;

/// Requests that are answered with no payload.
const REQUESTS: [Row<'_>; 30] = [
    (0x02, b"\x02\0\xab", 0x06, b""),
    (0x02, b"", 0x06, b""),
    (0x03, b"\0\0\0", 0x04, b""),
    (0x03, b"", 0x04, b""),
    (0x07, b"\0", 0x04, b""),
    (0x07, b"", 0x04, b""),
    (0x08, b"\x01\0", 0x04, b""),
    (0x08, b"", 0x04, b""),
    (0x01, b"", 0x04, b""),
    (0x0a, b"\0", 0x04, b""),
    (0x7f, b"", 0x04, b""),
    (0x04, b"\0\xc2\x01\0\0\0\x08\0", 0x00, b""),
    (0x04, b"\0\xc2\x01\0\x02\x04\x05\x01", 0x00, b""),
    (0x04, b"\0\xc2\x01\0\x03\0\x08\0", 0x06, b""),
    (0x04, b"\0\xc2\x01\0\0\x05\x08\0", 0x06, b""),
    (0x04, b"\0\xc2\x01\0\0\0\x04\0", 0x06, b""),
    (0x04, b"\0\xc2\x01\0\0\0\x09\0", 0x06, b""),
    (0x04, b"\0\xc2\x01\0\0\0\x08\x02", 0x06, b""),
    (0x04, b"\0\xc2\x01\0\0\0\x08", 0x06, b""),
    (0x05, b"\x03", 0x00, b""),
    (0x05, b"\x04", 0x06, b""),
    (0x05, b"", 0x06, b""),
    (0x06, b"\0", 0x00, b""),
    (0x06, b"\x01", 0x00, b""),
    (0x06, b"\x02", 0x06, b""),
    (0x09, b"\0", 0x00, b""),
    (0x09, b"\x03", 0x00, b""),
    (0x09, b"\x04", 0x06, b""),
    (0x09, b"\0\0", 0x06, b""),
    (0x02, b"\0\0", 0x00, b""),
];

/// A device as it is first.
fn first(rt: &impl Abort, alloc: Global) -> Device {
    Device::new(alloc).expect(rt, "memory")
}

/// The device answers a request so.
fn serves(rt: &impl Abort, device: &mut Device, row: &Row<'_>) {
    let served = device.serve(row.0, row.1).expect(rt, "memory");
    is_answered(rt, &served, row);
    assert!(rt; reading(row.0, b"") == Reading::Nothing);
}

#[test]
fn requests(rt: HostRuntime) {
    let mut device = first(&rt, rt.alloc());
    for row in REQUESTS.iter() {
        serves(&rt, &mut device, row);
    }
}

/// A request of the device's own.
fn is_own(rt: &impl Abort, ask: &OwnAsk, kind: u8, payload: &[u8]) {
    assert!(rt; ask.kind == kind);
    assert!(rt; ask.payload.items() == payload);
    assert!(rt; !ask.oneway);
}

/// Bytes that are sent come back in one request, and their credits in another.
fn comes_back(rt: &impl Abort, device: &mut Device, sent: &[u8], back: &[u8], credits: &[u8]) {
    let served = device.serve(0x02, sent).expect(rt, "memory");
    assert!(rt; served.result == 0x00);
    assert!(rt; served.payload.items().is_empty());
    let asks = served.asks.items();
    assert!(rt; asks.len() == 2);
    is_own(rt, &asks[0], 0x03, back);
    is_own(rt, &asks[1], 0x08, credits);
}

#[test]
fn bytes_are_sent_back(rt: HostRuntime) {
    let mut device = first(&rt, rt.alloc());
    comes_back(
        &rt,
        &mut device,
        b"\x02\0\xab\xcd",
        b"\x02\0\0\xab\xcd",
        b"\x02\0",
    );
    let state = device.state(3).expect(&rt, "memory");
    is_own(&rt, &state, 0x07, b"\x03");
}

#[test]
fn the_most_bytes_are_2037(rt: HostRuntime) {
    let mut device = first(&rt, rt.alloc());
    let mut payload = [7; 2040];
    payload[..2].copy_from_slice(b"\xf5\x07");
    let mut echo = [7; 2040];
    echo[..3].copy_from_slice(b"\xf5\x07\0");
    comes_back(&rt, &mut device, &payload[..2039], &echo, b"\xf5\x07");
    payload[0] = 0xf6;
    serves(&rt, &mut device, &(0x02, &payload, 0x05, b""));
}

/// A bridge line becomes this request.
fn becomes(rt: &impl Abort, ask: &BridgeAsk, kind: u8, payload: &[u8]) {
    let mut out = [0xff; 2040];
    let bridged = bridge(ask, &mut out);
    is_asked(rt, bridged, &out, kind, payload);
}

/// A bridge line becomes no request.
fn becomes_none(rt: &impl Abort, ask: &BridgeAsk, why: BridgeFault) {
    let mut out = [0xff; 2040];
    let bridged = bridge(ask, &mut out);
    is_not_asked(rt, bridged, &out, why);
}

/// A bridge line that sends these bytes.
fn send(rt: &impl Abort, alloc: Global, bytes: &[u8]) -> BridgeAsk {
    let bytes = Bytes::from_slice(alloc, bytes).expect(rt, "memory");
    BridgeAsk::UartSend { bytes }
}

#[test]
fn bytes_become_requests(rt: HostRuntime) {
    let alloc = rt.alloc();
    let mut payload = [9; 2039];
    payload[..2].copy_from_slice(b"\xf5\x07");
    becomes(&rt, &send(&rt, alloc, &[9; 2037]), 0x02, &payload);
    becomes(&rt, &send(&rt, alloc, b""), 0x02, b"\0\0");
    becomes_none(&rt, &send(&rt, alloc, &[9; 2038]), BridgeFault::TooLarge);
}

#[test]
fn bridge_lines(rt: HostRuntime) {
    let coding = BridgeAsk::UartCoding {
        rate: 115_200,
        format: 2,
        parity: 4,
        bits: 5,
        flow: 1,
    };
    becomes(&rt, &coding, 0x04, b"\0\xc2\x01\0\x02\x04\x05\x01");
    for (kind, value) in [(0x05, 3), (0x06, 1), (0x09, 255)] {
        becomes(&rt, &BridgeAsk::UartByte { kind, value }, kind, &[value]);
    }
    becomes_none(&rt, &BridgeAsk::SpiConfig, BridgeFault::Unsupported);
    becomes_none(&rt, &BridgeAsk::I2cFunctionality, BridgeFault::Unsupported);
}

/// Credits are spent, or aren't, and so many are left.
fn spends(rt: &impl Abort, credits: &mut Credits, n: u16, answer: Result<(), NoCredit>, left: u16) {
    assert!(rt; credits.spend(n) == answer, "{n}");
    assert!(rt; credits.left() == left, "{n}");
}

/// Credits are added, or aren't, and so many are left.
fn adds(rt: &impl Abort, credits: &mut Credits, n: u16, answer: Result<(), TooMany>, left: u16) {
    assert!(rt; credits.add(n) == answer, "{n}");
    assert!(rt; credits.left() == left, "{n}");
}

#[test]
fn credits(rt: HostRuntime) {
    let mut credits = Credits::new();
    adds(&rt, &mut credits, 1, Err(TooMany), 4096);
    spends(&rt, &mut credits, 2037, Ok(()), 2059);
    spends(&rt, &mut credits, 2037, Ok(()), 22);
    spends(&rt, &mut credits, 22, Ok(()), 0);
    spends(&rt, &mut credits, 0, Ok(()), 0);
    spends(&rt, &mut credits, 1, Err(NoCredit), 0);
    adds(&rt, &mut credits, 2037, Ok(()), 2037);
    adds(&rt, &mut credits, 2060, Err(TooMany), 2037);
    adds(&rt, &mut credits, 65_535, Err(TooMany), 2037);
    adds(&rt, &mut credits, 2059, Ok(()), 4096);
}
