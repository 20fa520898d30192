//! The forms on UART.

ghost use Rattle.std.specs.Prelude.{◌≡◌};
ghost use Rattle.gb_formats.specs.BridgeForms.{uart_asking, uart_byte, uart_coding};
ghost use Rattle.gb_formats.specs.BridgeForms.{uart_form, uart_state};
ghost use Rattle.gb_script.specs.Parts.{uart_data};
ghost use Rattle.gb_script.specs.Tells.{AsksFor, Tells};

use crate::LineFault;
use crate::bridges::{Protocol, begins_with_at, request_of};
use crate::rest::Rest;
use crate::values::name_word;
use crate::words::is;
use gb_base::{BridgeAsk, Event};
use gb_bridge_payload::uart_kinds;
use std::alloc::Global;

/// `uart @x I C` and what is asked, or `uart I C state V`.
pub fn uart(alloc: Global, rest: &Rest<'_>, who: u8) -> Result<Option<Event>, LineFault>
    ensures { Tells result (uart_form who rest.now) }
{
    let (word, behind) = rest.next()?;
    if !begins_with_at(word) {
        return serial_state(rest);
    }
    let (name, behind) = rest.fits(name_word(word, who), behind)?;
    request_of(alloc, name, &behind, Protocol::Uart)
}

/// `I C state V` behind `uart`.
fn serial_state(rest: &Rest<'_>) -> Result<Option<Event>, LineFault>
    ensures { Tells result (uart_state rest.now) }
{
    let (intf, cport, rest) = rest.intf_cport()?;
    let rest = rest.literal("state")?;
    let (control, rest) = rest.byte()?;
    rest.end()?;
    Ok(Some(Event::SerialState {
        intf,
        cport,
        control,
    }))
}

/// What a UART line asks.
pub fn asked(alloc: Global, rest: &Rest<'_>) -> Result<BridgeAsk, LineFault>
    ensures { AsksFor uart_asking rest.now result }
{
    let (word, behind) = rest.next()?;
    if is(word, "send") {
        return data(alloc, &behind);
    }
    if is(word, "coding") {
        return coding(&behind);
    }
    if is(word, "control") {
        return of_byte(&behind, uart_kinds::SET_CONTROL_LINE_STATE);
    }
    if is(word, "break") {
        return of_byte(&behind, uart_kinds::SEND_BREAK);
    }
    if is(word, "flush") {
        return of_byte(&behind, uart_kinds::FLUSH_FIFOS);
    }
    Err(LineFault::Bad(rest.bad_word()))
}

/// `HEX` behind `send`.
fn data(alloc: Global, rest: &Rest<'_>) -> Result<BridgeAsk, LineFault>
    ensures { AsksFor uart_data rest.now result }
{
    let (bytes, rest) = rest.bytes(alloc)?;
    rest.end()?;
    Ok(BridgeAsk::UartSend { bytes })
}

/// `RATE F P B W` behind `coding`.
fn coding(rest: &Rest<'_>) -> Result<BridgeAsk, LineFault>
    ensures { AsksFor uart_coding rest.now result }
{
    let (rate, rest) = rest.four_bytes()?;
    let (format, rest) = rest.byte()?;
    let (parity, rest) = rest.byte()?;
    let (bits, rest) = rest.byte()?;
    let (flow, rest) = rest.byte()?;
    rest.end()?;
    Ok(BridgeAsk::UartCoding {
        rate,
        format,
        parity,
        bits,
        flow,
    })
}

/// `V`: a request of one byte.
fn of_byte(rest: &Rest<'_>, kind: u8) -> Result<BridgeAsk, LineFault>
    ensures { AsksFor (λ make. uart_byte make kind) rest.now result }
{
    let (value, rest) = rest.byte()?;
    rest.end()?;
    Ok(BridgeAsk::UartByte { kind, value })
}
