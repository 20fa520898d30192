//! What bridge lines ask of a UART.

ghost use Rattle.std.specs.Prelude.{◌≡◌, length};
ghost use Rattle.gb_bridge_payload.specs.Conditions.{IsUartAsk};
ghost use Rattle.gb_bridge_payload.specs.Serving.{BridgesAs};
ghost use Rattle.gb_bridge_payload.specs.Views.{uart_ask_of};
ghost use Rattle.gb_formats.specs.Bridges.{bridge_answer, uart_request};
ghost use Rattle.gb_formats.specs.Protocols.{uart_protocol};
ghost use Rattle.gb_formats.specs.Results.{most_payload};
ghost use Rattle.gb_formats.specs.UartRecords.{uart_ask_kind, uart_ask_payload};
ghost use Rattle.gb_uart.specs.Fitting.{fitting};

use crate::device::MOST_SENT;
use gb_base::{BridgeAsk, Bridged};
use gb_bridge_payload::uart_kinds::{SEND_BREAK, SET_CONTROL_LINE_STATE};
use gb_bridge_payload::{BridgeFault, UartAsk};

/// The request that a bridge line becomes: its type, and its payload at the front of `out`, which
/// has 2,040 bytes. Unsupported exactly where the line asks for another protocol, TooLarge exactly
/// where more than 2,037 bytes are to be sent. Where there is no request, `out` is unchanged.
pub fn bridge(ask: &BridgeAsk, out: &mut [u8]) -> Result<Bridged, BridgeFault>
    requires { length out.old ≡ most_payload }
    ensures { BridgesAs (bridge_answer uart_protocol ask.now) out.old out.new result }
{
    match ask {
        BridgeAsk::UartSend { bytes } if bytes.items().len() > MOST_SENT => {
            Err(BridgeFault::TooLarge)
        }
        BridgeAsk::UartSend { bytes } => write(
            UartAsk::SendData {
                bytes: bytes.items(),
            },
            out,
        ),
        BridgeAsk::UartCoding {
            rate,
            format,
            parity,
            bits,
            flow,
        } => write(
            UartAsk::SetLineCoding {
                rate: *rate,
                format: *format,
                parity: *parity,
                bits: *bits,
                flow: *flow,
            },
            out,
        ),
        BridgeAsk::UartByte { kind, value } => write(byte_request(*kind, *value), out),
        _ => Err(BridgeFault::Unsupported),
    }
}

/// The request of a type that has one byte.
fn byte_request(kind: u8, value: u8) -> UartAsk<'static>
    ensures { uart_ask_of result ≡ uart_request kind value }
{
    match kind {
        SET_CONTROL_LINE_STATE => UartAsk::SetControlLineState { control: value },
        SEND_BREAK => UartAsk::SendBreak { state: value },
        _ => UartAsk::FlushFifos { flags: value },
    }
}

/// The request that a record is.
fn write(ask: UartAsk<'_>, out: &mut [u8]) -> Result<Bridged, BridgeFault>
    requires record { IsUartAsk (uart_ask_of ask) }
    requires room { length out.old ≡ most_payload }
    ensures { BridgesAs (fitting (uart_ask_kind (uart_ask_of ask.entry))
        (uart_ask_payload (uart_ask_of ask.entry))) out.old out.new result }
{
    let len = ask.write(out)?;
    Ok(Bridged {
        kind: ask.kind(),
        len,
    })
}
