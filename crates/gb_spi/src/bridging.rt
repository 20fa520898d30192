//! What bridge lines ask of an SPI device.

ghost use Rattle.std.specs.Prelude.{◌≡◌, length};
ghost use Rattle.gb_base.specs.declared.bridge.BridgeAsk.TheVariants as ask_is;
ghost use Rattle.gb_bridge_payload.specs.Serving.{BridgesAs};
ghost use Rattle.gb_formats.specs.Bridges.{bridge_answer};
ghost use Rattle.gb_formats.specs.Protocols.{spi_protocol};
ghost use Rattle.gb_formats.specs.Results.{most_payload};

use crate::ops::{fields, payload_fits, reads_fit, written};
use gb_base::{BridgeAsk, Bridged, SpiOp};
use gb_bridge_payload::spi_kinds::{DEVICE_CONFIG, MASTER_CONFIG, TRANSFER};
use gb_bridge_payload::{BridgeFault, put_behind};
use gb_payload::Field::{Bytes, U8, U16};
use gb_payload::put;

/// The request that a bridge line becomes: its type, and its payload at the front of `out`, which
/// has 2,040 bytes. Unsupported exactly where the line asks for another protocol, TooLarge exactly
/// where the payload has more than 2,040 bytes or the reads add up to more. Where there is no
/// request, `out` is unchanged.
pub fn bridge(ask: &BridgeAsk, out: &mut [u8]) -> Result<Bridged, BridgeFault>
    requires { length out.old ≡ most_payload }
    ensures { BridgesAs (bridge_answer spi_protocol ask.now) out.old out.new result }
{
    match ask {
        BridgeAsk::SpiConfig => Ok(Bridged {
            kind: MASTER_CONFIG,
            len: 0,
        }),
        BridgeAsk::SpiDevice { select } => Ok(Bridged {
            kind: DEVICE_CONFIG,
            len: put(&[U8(*select)], out)?,
        }),
        BridgeAsk::SpiTransfer { select, mode, ops } => transfer(*select, *mode, ops.items(), out),
        _ => Err(BridgeFault::Unsupported),
    }
}

/// The request of a transfer.
fn transfer(select: u8, mode: u8, ops: &[SpiOp], out: &mut [u8]) -> Result<Bridged, BridgeFault>
    requires { length out.old ≡ most_payload }
    ensures { BridgesAs (bridge_answer spi_protocol (ask_is.SpiTransfer select mode ops.now))
        out.old out.new result }
{
    if !payload_fits(ops) || !reads_fit(ops) {
        return Err(BridgeFault::TooLarge);
    }
    let mut at = put_behind(0, &[U8(select), U8(mode), U16(ops.len() as u16)], out);
    for op in ops {
        at = put_behind(at, &fields(op), out);
    }
    for op in ops {
        at = put_behind(at, &[Bytes(written(op))], out);
    }
    Ok(Bridged {
        kind: TRANSFER,
        len: at,
    })
}
