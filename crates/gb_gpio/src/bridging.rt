//! Bridge lines.

ghost use Rattle.std.specs.Prelude.{◌≡◌, length};
ghost use Rattle.gb_base.specs.declared.bridge.BridgeAsk.TheVariants as ask_is;
ghost use Rattle.gb_bridge_payload.specs.Serving.{BridgesAs};
ghost use Rattle.gb_bridge_payload.specs.Views.{gpio_ask_of};
ghost use Rattle.gb_formats.specs.Bridges.{bridge_answer, gpio_request};
ghost use Rattle.gb_formats.specs.Protocols.{gpio_protocol};
ghost use Rattle.gb_formats.specs.Results.{most_payload};
ghost use Rattle.gb_formats.specs.ValidEvents.{HasForm};

use gb_base::{BridgeAsk, Bridged};
use gb_bridge_payload::gpio_kinds::{
    ACTIVATE, DEACTIVATE, DIRECTION_IN, DIRECTION_OUT, GET_DIRECTION, GET_VALUE, IRQ_MASK,
    IRQ_TYPE, LINE_COUNT, SET_DEBOUNCE, SET_VALUE,
};
use gb_bridge_payload::{BridgeFault, GpioAsk};

/// The request that a bridge line becomes: its type, and its payload at the front of `out`, which
/// has 2,040 bytes. Unsupported exactly where the line asks for another protocol; a GPIO request is
/// never too large. Where there is none, `out` is unchanged.
pub fn bridge(ask: &BridgeAsk, out: &mut [u8]) -> Result<Bridged, BridgeFault>
    requires room { length out.old ≡ most_payload }
    requires form { HasForm ask.now }
    ensures { BridgesAs (bridge_answer gpio_protocol ask.now) out.old out.new result }
{
    match ask {
        BridgeAsk::Gpio { kind, line, value } => {
            let request = request(*kind, *line, *value);
            let len = request.write(out)?;
            Ok(Bridged {
                kind: request.kind(),
                len,
            })
        }
        _ => Err(BridgeFault::Unsupported),
    }
}

/// The request of a type, at a line and with a value where it has them.
fn request(kind: u8, which: u8, value: u16) -> GpioAsk
    requires { HasForm (ask_is.Gpio kind which value) }
    ensures { gpio_ask_of result ≡ gpio_request kind which value }
{
    match kind {
        LINE_COUNT => GpioAsk::LineCount,
        ACTIVATE => GpioAsk::Activate { which },
        DEACTIVATE => GpioAsk::Deactivate { which },
        GET_DIRECTION => GpioAsk::GetDirection { which },
        DIRECTION_IN => GpioAsk::DirectionIn { which },
        DIRECTION_OUT => GpioAsk::DirectionOut {
            which,
            value: value as u8,
        },
        GET_VALUE => GpioAsk::GetValue { which },
        SET_VALUE => GpioAsk::SetValue {
            which,
            value: value as u8,
        },
        SET_DEBOUNCE => GpioAsk::SetDebounce {
            which,
            microseconds: value,
        },
        IRQ_TYPE => GpioAsk::IrqType {
            which,
            kind: value as u8,
        },
        IRQ_MASK => GpioAsk::IrqMask { which },
        _ => GpioAsk::IrqUnmask { which },
    }
}
