//! Bridge lines.

ghost use Rattle.std.specs.Prelude.{◌≡◌, length};
ghost use Rattle.gb_base.specs.declared.bridge.BridgeAsk.TheVariants as ask;
ghost use Rattle.gb_bridge_payload.specs.Serving.{BridgesAs};
ghost use Rattle.gb_formats.specs.Bridges.{bridge_answer};
ghost use Rattle.gb_formats.specs.Protocols.{i2c_protocol};
ghost use Rattle.gb_formats.specs.Results.{most_payload};

use crate::ops::{fields, fits, written};
use gb_base::{BridgeAsk, Bridged, I2cOp};
use gb_bridge_payload::i2c_kinds::{FUNCTIONALITY, TRANSFER};
use gb_bridge_payload::{BridgeFault, put_behind};
use gb_payload::Field::{Bytes, U16};

/// The request that a bridge line becomes: its type, and its payload at the front of `out`, which
/// has 2,040 bytes. Unsupported exactly where the line asks for another protocol, TooLarge exactly
/// where the payload has more than 2,040 bytes or the reads add up to more. Where there is no
/// request, `out` is unchanged.
pub fn bridge(ask: &BridgeAsk, out: &mut [u8]) -> Result<Bridged, BridgeFault>
    requires { length out.old ≡ most_payload }
    ensures { BridgesAs (bridge_answer i2c_protocol ask.now) out.old out.new result }
{
    match ask {
        BridgeAsk::I2cFunctionality => Ok(Bridged {
            kind: FUNCTIONALITY,
            len: 0,
        }),
        BridgeAsk::I2cTransfer { ops } => transfer(ops.items(), out),
        _ => Err(BridgeFault::Unsupported),
    }
}

/// The request of a transfer.
fn transfer(ops: &[I2cOp], out: &mut [u8]) -> Result<Bridged, BridgeFault>
    requires { length out.old ≡ most_payload }
    ensures { BridgesAs (bridge_answer i2c_protocol (ask.I2cTransfer ops.now))
        out.old out.new result }
{
    if !fits(ops) {
        return Err(BridgeFault::TooLarge);
    }
    let mut at = put_behind(0, &[U16(ops.len() as u16)], out);
    for op in ops {
        at = put_behind(at, &fields(op), out);
    }
    for op in ops {
        at = put_behind(at, &[Bytes(written(op))], out);
    }
    Ok(Bridged {
        kind: TRANSFER,
        len: at,
    })
}
