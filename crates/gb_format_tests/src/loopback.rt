//! Requests and bridge lines of Loopback, with the answers of the device's description.

use crate::checks::{Row, is_answered, is_asked, is_not_asked};
use gb_base::{BridgeAsk, Bytes};
use gb_firmware::{BridgeFault, Loopback, bridge};
use std::alloc::Global;
use std::process::Abort;

/// Two bytes behind their length, with numbers where the fields are reserved.
const TWO: &[u8] = b"\x02\0\0\0\x01\x02\x03\x04\x05\0\0\0\xaa\xbb";

/// Requests, and what they are answered with.
const REQUESTS: [Row<'_>; 11] = [
    (0x02, b"", 0x00, b""),
    (0x02, b"\0", 0x06, b""),
    (0x03, TWO, 0x00, TWO),
    (0x03, b"", 0x06, b""),
    (0x03, b"\x01\0\0\0\0\0\0\0\0\0\0\0", 0x06, b""),
    (0x03, b"\0\0\0\0\0\0\0\0\0\0\0\0\0", 0x06, b""),
    (0x04, TWO, 0x00, b""),
    (0x04, b"\x02\0\0\0\0\0\0\0\0\0\0\0\xaa", 0x06, b""),
    (0x01, b"", 0x04, b""),
    (0x05, b"", 0x04, b""),
    (0x7f, b"", 0x04, b""),
];

/// A loopback device answers a request so.
fn serves(rt: &impl Abort, alloc: Global, row: &Row<'_>) {
    let served = Loopback.serve(alloc, row.0, row.1).expect(rt, "memory");
    is_answered(rt, &served, row);
}

#[test]
fn requests(rt: HostRuntime) {
    for row in REQUESTS.iter() {
        serves(&rt, rt.alloc(), row);
    }
}

/// A bridge line becomes this request.
fn becomes(rt: &impl Abort, ask: &BridgeAsk, kind: u8, payload: &[u8]) {
    let mut out = [0xff; 2040];
    let bridged = bridge(ask, &mut out);
    is_asked(rt, bridged, &out, kind, payload);
}

/// A bridge line becomes no request.
fn becomes_none(rt: &impl Abort, ask: &BridgeAsk, why: BridgeFault) {
    let mut out = [0xff; 2040];
    let bridged = bridge(ask, &mut out);
    is_not_asked(rt, bridged, &out, why);
}

/// A bridge line of a type that sends these bytes.
fn send(rt: &impl Abort, alloc: Global, kind: u8, bytes: &[u8]) -> BridgeAsk {
    let bytes = Bytes::from_slice(alloc, bytes).expect(rt, "memory");
    BridgeAsk::LoopBytes { kind, bytes }
}

#[test]
fn bridge_lines(rt: HostRuntime) {
    let alloc = rt.alloc();
    let two = b"\x02\0\0\0\0\0\0\0\0\0\0\0\xab\xcd";
    let mut most = [9; 2040];
    most[..12].copy_from_slice(b"\xec\x07\0\0\0\0\0\0\0\0\0\0");
    becomes(&rt, &BridgeAsk::LoopPing, 0x02, b"");
    becomes(&rt, &send(&rt, alloc, 0x03, b"\xab\xcd"), 0x03, two);
    becomes(&rt, &send(&rt, alloc, 0x04, &[9; 2028]), 0x04, &most);
    becomes_none(
        &rt,
        &send(&rt, alloc, 0x03, &[9; 2029]),
        BridgeFault::TooLarge,
    );
    becomes_none(&rt, &BridgeAsk::SpiConfig, BridgeFault::Unsupported);
}
