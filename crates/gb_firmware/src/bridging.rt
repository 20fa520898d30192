//! What bridge lines ask of a loopback device.

ghost use Rattle.std.specs.Prelude.{◌≡◌, length};
ghost use Rattle.gb_base.specs.declared.bridge.BridgeAsk.TheVariants as ask_is;
ghost use Rattle.gb_bridge_payload.specs.Serving.{BridgesAs};
ghost use Rattle.gb_bridge_payload.specs.Views.{loopback_ask_of};
ghost use Rattle.gb_formats.specs.Bridges.{bridge_answer, loopback_request};
ghost use Rattle.gb_formats.specs.Protocols.{loopback_protocol};
ghost use Rattle.gb_formats.specs.Results.{most_payload};

use gb_base::{BridgeAsk, Bridged};
use gb_bridge_payload::loopback_kinds::{PING, TRANSFER};
use gb_bridge_payload::{BridgeFault, Carried, LoopbackAsk};

/// The most bytes that one request may carry.
const MOST_BYTES: usize = 2028;

/// The request that a bridge line becomes: its type, and its payload at the front of `out`, which
/// has 2,040 bytes. Unsupported exactly where the line asks for another protocol, TooLarge exactly
/// where more than 2,028 bytes are to be sent. Where there is no request, `out` is unchanged.
pub fn bridge(ask: &BridgeAsk, out: &mut [u8]) -> Result<Bridged, BridgeFault>
    requires { length out.old ≡ most_payload }
    ensures { BridgesAs (bridge_answer loopback_protocol ask.now) out.old out.new result }
{
    match ask {
        BridgeAsk::LoopPing => Ok(Bridged { kind: PING, len: 0 }),
        BridgeAsk::LoopBytes { kind, bytes } => write(*kind, bytes.items(), out),
        _ => Err(BridgeFault::Unsupported),
    }
}

/// The request of a type that carries bytes.
fn write(kind: u8, bytes: &[u8], out: &mut [u8]) -> Result<Bridged, BridgeFault>
    requires { length out.old ≡ most_payload }
    ensures { BridgesAs (bridge_answer loopback_protocol (ask_is.LoopBytes kind bytes.now))
        out.old out.new result }
{
    if bytes.len() > MOST_BYTES {
        return Err(BridgeFault::TooLarge);
    }
    let ask = request(kind, bytes);
    let len = ask.write(out)?;
    Ok(Bridged {
        kind: ask.kind(),
        len,
    })
}

/// The record of a type that carries bytes, with 0 where a number is reserved.
fn request(kind: u8, bytes: &[u8]) -> LoopbackAsk<'_>
    ensures { loopback_ask_of result ≡ loopback_request kind bytes.now }
{
    let carried = Carried {
        first: 0,
        second: 0,
        bytes,
    };
    match kind {
        TRANSFER => LoopbackAsk::Transfer(carried),
        _ => LoopbackAsk::Sink(carried),
    }
}
