//! The forms on GPIO.

ghost use Rattle.std.specs.Prelude.{◌≡◌};
ghost use Rattle.gb_formats.specs.BridgeForms.{gpio_asking, gpio_form, gpio_level};
ghost use Rattle.gb_formats.specs.BridgeForms.{gpio_line, gpio_value};
ghost use Rattle.gb_base.specs.declared.bridge.BridgeAsk.TheVariants as ask;
ghost use Rattle.gb_formats.specs.Said.{at_end};
ghost use Rattle.gb_formats.specs.WordValues.{u8_word, u16_word};
ghost use Rattle.gb_script.specs.Tells.{AsksFor, Tells};

use crate::LineFault;
use crate::bridges::{Protocol, begins_with_at, request_of};
use crate::rest::Rest;
use crate::values::name_word;
use crate::words::is;
use gb_base::{BridgeAsk, Event};
use gb_bridge_payload::gpio_kinds;
use std::alloc::Global;

/// `gpio @x I C` and what is asked, or `gpio I C level L V`.
pub fn gpio(alloc: Global, rest: &Rest<'_>, who: u8) -> Result<Option<Event>, LineFault>
    ensures { Tells result (gpio_form who rest.now) }
{
    let (word, behind) = rest.next()?;
    if !begins_with_at(word) {
        return outside_level(rest);
    }
    let (name, behind) = rest.fits(name_word(word, who), behind)?;
    request_of(alloc, name, &behind, Protocol::Gpio)
}

/// `I C level L V` behind `gpio`.
fn outside_level(rest: &Rest<'_>) -> Result<Option<Event>, LineFault>
    ensures { Tells result (gpio_level rest.now) }
{
    let (intf, cport, rest) = rest.intf_cport()?;
    let rest = rest.literal("level")?;
    let (line, rest) = rest.pin()?;
    let (value, rest) = rest.level()?;
    rest.end()?;
    Ok(Some(Event::Level {
        intf,
        cport,
        line,
        value,
    }))
}

/// What a GPIO line asks.
pub fn asked(rest: &Rest<'_>) -> Result<BridgeAsk, LineFault>
    ensures { AsksFor gpio_asking rest.now result }
{
    let (word, behind) = rest.next()?;
    if is(word, "count") {
        return of_none(&behind, gpio_kinds::LINE_COUNT);
    }
    if is(word, "activate") {
        return of_line(&behind, gpio_kinds::ACTIVATE);
    }
    if is(word, "deactivate") {
        return of_line(&behind, gpio_kinds::DEACTIVATE);
    }
    if is(word, "direction") {
        return of_line(&behind, gpio_kinds::GET_DIRECTION);
    }
    if is(word, "in") {
        return of_line(&behind, gpio_kinds::DIRECTION_IN);
    }
    if is(word, "out") {
        return of_byte(&behind, gpio_kinds::DIRECTION_OUT);
    }
    if is(word, "get") {
        return of_line(&behind, gpio_kinds::GET_VALUE);
    }
    if is(word, "set") {
        return of_byte(&behind, gpio_kinds::SET_VALUE);
    }
    if is(word, "debounce") {
        return of_two_bytes(&behind, gpio_kinds::SET_DEBOUNCE);
    }
    if is(word, "irq") {
        return of_byte(&behind, gpio_kinds::IRQ_TYPE);
    }
    if is(word, "mask") {
        return of_line(&behind, gpio_kinds::IRQ_MASK);
    }
    if is(word, "unmask") {
        return of_line(&behind, gpio_kinds::IRQ_UNMASK);
    }
    Err(LineFault::Bad(rest.bad_word()))
}

/// A request without a line.
fn of_none(rest: &Rest<'_>, kind: u8) -> Result<BridgeAsk, LineFault>
    ensures { AsksFor (λ make ws. at_end ws (make (ask.Gpio kind 0 0))) rest.now result }
{
    rest.end()?;
    Ok(BridgeAsk::Gpio {
        kind,
        line: 0,
        value: 0,
    })
}

/// `L`: a request with a line.
fn of_line(rest: &Rest<'_>, kind: u8) -> Result<BridgeAsk, LineFault>
    ensures { AsksFor (λ make. gpio_line make kind) rest.now result }
{
    let (line, rest) = rest.byte()?;
    rest.end()?;
    Ok(BridgeAsk::Gpio {
        kind,
        line,
        value: 0,
    })
}

/// `L V`: a request with a line and a value of one byte.
fn of_byte(rest: &Rest<'_>, kind: u8) -> Result<BridgeAsk, LineFault>
    ensures { AsksFor (λ make. gpio_value make kind u8_word) rest.now result }
{
    let (line, rest) = rest.byte()?;
    let (value, rest) = rest.byte()?;
    rest.end()?;
    Ok(BridgeAsk::Gpio {
        kind,
        line,
        value: u16::from(value),
    })
}

/// `L U`: a request with a line and a value of two bytes.
fn of_two_bytes(rest: &Rest<'_>, kind: u8) -> Result<BridgeAsk, LineFault>
    ensures { AsksFor (λ make. gpio_value make kind u16_word) rest.now result }
{
    let (line, rest) = rest.byte()?;
    let (value, rest) = rest.two_bytes()?;
    rest.end()?;
    Ok(BridgeAsk::Gpio { kind, line, value })
}
