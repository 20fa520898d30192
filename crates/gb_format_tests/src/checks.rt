//! What many tests look at: what was written to a buffer, what a device answers, and what its
//! bridge lines become.

use gb_base::{Bridged, Served};
use gb_bridge_payload::BridgeFault;
use std::process::Abort;

/// A request of a device: its type and payload, and what is answered: the result byte
/// and the payload.
pub type Row<'a> = (u8, &'a [u8], u8, &'a [u8]);

/// The front of a buffer has these bytes, and the rest is as before.
pub fn is_front(rt: &impl Abort, out: &[u8], bytes: &[u8]) {
    assert!(rt; out.starts_with(bytes));
    assert!(rt; out.iter().skip(bytes.len()).all(|byte| *byte == 0xff));
}

/// A request is answered so, and the device asks nothing of its own.
pub fn is_answered(rt: &impl Abort, served: &Served, row: &Row<'_>) {
    let (kind, payload, code, told) = *row;
    let answer = (served.result, served.payload.items());
    assert_eq!(rt; answer, (code, told), "type {kind}, payload {payload:?}");
    assert!(rt; served.asks.items().is_empty());
}

/// A bridge line became a request of this type and payload.
pub fn is_asked(
    rt: &impl Abort,
    bridged: Result<Bridged, BridgeFault>,
    out: &[u8],
    kind: u8,
    payload: &[u8],
) {
    let len = payload.len();
    assert_eq!(rt; bridged, Ok(Bridged { kind, len }));
    is_front(rt, out, payload);
}

/// A bridge line became no request.
pub fn is_not_asked(
    rt: &impl Abort,
    bridged: Result<Bridged, BridgeFault>,
    out: &[u8],
    why: BridgeFault,
) {
    assert_eq!(rt; bridged, Err(why));
    is_front(rt, out, b"");
}
