//! The event of a line, by its first word.

ghost use Rattle.std.specs.Prelude.{◌≡◌, ℕ, false, None, Ok, Err, MatchOption, MatchResult};
ghost use Rattle.gb_formats.specs.Grammar.{by_first, is_comment};
ghost use Rattle.gb_formats.specs.Script.{judged};
ghost use Rattle.gb_script.specs.Parts.{by_protocol};
ghost use Rattle.gb_script.specs.Tells.{Tells};

use crate::LineFault;
use crate::bridges::{Protocol, request};
use crate::deliveries::{answer, deliver, inject, settle, tick};
use crate::firmware::{image, load};
use crate::gpio::gpio;
use crate::interfaces::{connect, disconnect, insert, only_cport, pull};
use crate::plain_line::plain_line;
use crate::requests::{cancel, copy, forget, send};
use crate::rest::Rest;
use crate::uart::uart;
use crate::words::{first_word, is};
use gb_base::{Event, LineReason};
use std::alloc::Global;

/// The event of a line, None for a blank or comment line. `who` is the requester.
pub fn event(alloc: Global, line: &[u8], who: u8) -> Result<Option<Event>, LineFault>
    ensures { Tells result (judged who line.now) }
{
    let Some((first, rest)) = words_of(line)? else {
        return Ok(None);
    };
    let rest = &rest;
    if is(first, "boot") {
        rest.end()?;
        return Ok(Some(Event::Boot));
    }
    if is(first, "insert") {
        return insert(alloc, rest);
    }
    if is(first, "pull") {
        return pull(rest);
    }
    if is(first, "connect") {
        return connect(rest);
    }
    if is(first, "disconnect") {
        return disconnect(rest);
    }
    if is(first, "send") {
        return send(alloc, rest, who);
    }
    if is(first, "deliver") {
        return deliver(rest);
    }
    if is(first, "settle") {
        return settle(rest);
    }
    if is(first, "hold") {
        let (intf, cport) = only_cport(rest)?;
        return Ok(Some(Event::Hold { intf, cport }));
    }
    if is(first, "answer") {
        return answer(rest);
    }
    if is(first, "cancel") {
        return cancel(rest, who);
    }
    if is(first, "copy") {
        return copy(rest, who);
    }
    if is(first, "drop") {
        return forget(rest, who);
    }
    if is(first, "tick") {
        return tick(rest);
    }
    if is(first, "inject") {
        return inject(alloc, rest);
    }
    if is(first, "image") {
        return image(alloc, rest);
    }
    if is(first, "load") {
        return load(rest);
    }
    if is(first, "show") {
        rest.end()?;
        return Ok(Some(Event::Show));
    }
    bridged(alloc, first, rest, who)
}

/// The first word of a line and the words behind it, None for a blank or comment line.
fn words_of(line: &[u8]) -> Result<Option<(&[u8], Rest<'_>)>, LineReason>
    ensures { MatchResult result
        (λ found. MatchOption found ((who : ℕ) → judged who line.now ≡ Ok None)
        (λ f. (is_comment f.0.now ≡ false)
        × ((who : ℕ) → judged who line.now ≡ by_first who f.0.now f.1)))
        (λ why. (who : ℕ) → judged who line.now ≡ Err why) }
{
    plain_line(line)?;
    let Some((first, rest)) = first_word(line) else {
        return Ok(None);
    };
    if first.first() == Some(&b'#') {
        return Ok(None);
    }
    Ok(Some((first, Rest::behind_first(rest))))
}

/// The event of a line for a bridged protocol.
fn bridged(
    alloc: Global,
    first: &[u8],
    rest: &Rest<'_>,
    who: u8,
) -> Result<Option<Event>, LineFault>
    ensures { Tells result (by_protocol who first.now rest.now) }
{
    if is(first, "gpio") {
        return gpio(alloc, rest, who);
    }
    if is(first, "i2c") {
        return request(alloc, rest, who, Protocol::I2c);
    }
    if is(first, "spi") {
        return request(alloc, rest, who, Protocol::Spi);
    }
    if is(first, "uart") {
        return uart(alloc, rest, who);
    }
    if is(first, "loopback") {
        return request(alloc, rest, who, Protocol::Loopback);
    }
    Err(LineFault::Bad(LineReason::BadWord(1)))
}
