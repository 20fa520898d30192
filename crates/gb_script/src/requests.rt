//! The forms on requests and their names.

ghost use Rattle.std.specs.Prelude.{◌≡◌, ℕ, List, [], Some, Ok, Err, MatchResult};
ghost use Rattle.gb_base.specs.declared.end.End.TheVariants as to;
ghost use Rattle.gb_base.specs.declared.event.Event.{Event};
ghost use Rattle.gb_base.specs.declared.event.Event.TheVariants as event;
ghost use Rattle.gb_base.specs.declared.name.Name.{Name};
ghost use Rattle.gb_formats.specs.Grammar.{copying, of_name, ping, sending, sending_module};
ghost use Rattle.gb_formats.specs.Grammar.{sending_svc, timed};
ghost use Rattle.gb_script.specs.Parts.{sending_type};
ghost use Rattle.gb_script.specs.Tells.{StopsBy, Tells};

use crate::LineFault;
use crate::rest::Rest;
use crate::words::is;
use gb_base::{Bytes, End, Event, Name};
use gb_payload::svc_kinds::PING;
use std::alloc::Global;

/// The timeout in milliseconds of a request that states none.
const DEFAULT_TIMEOUT: u32 = 1000;

/// `send @x` and to whom, which the word behind the name decides.
pub fn send(alloc: Global, rest: &Rest<'_>, who: u8) -> Result<Option<Event>, LineFault>
    ensures { Tells result (sending who rest.now) }
{
    let (name, rest) = rest.name(who)?;
    let (to, behind) = rest.next()?;
    if is(to, "svc") {
        return send_svc(alloc, name, &behind);
    }
    send_module(alloc, name, &rest)
}

/// `ping`, or `TYPE HEX`, behind `send @x svc`.
fn send_svc(alloc: Global, name: Name, rest: &Rest<'_>) -> Result<Option<Event>, LineFault>
    ensures { Tells result (sending_svc name rest.now) }
{
    let (what, behind) = rest.next()?;
    if is(what, "ping") {
        return send_ping(alloc, name, &behind);
    }
    send_type(alloc, name, End::Svc, rest)
}

/// What stands behind `send @x svc ping`.
fn send_ping(alloc: Global, name: Name, rest: &Rest<'_>) -> Result<Option<Event>, LineFault>
    ensures { Tells result (timed rest.now (λ ms. event.Send name to.Svc ping [] ms)) }
{
    let timeout = timeout(rest)?;
    Ok(Some(Event::Send {
        name,
        to: End::Svc,
        kind: PING,
        payload: Bytes::new(alloc),
        timeout,
    }))
}

/// `TYPE HEX` behind to whom it is sent.
fn send_type(
    alloc: Global,
    name: Name,
    to: End,
    rest: &Rest<'_>,
) -> Result<Option<Event>, LineFault>
    ensures { Tells result (sending_type name to rest.now) }
{
    let (kind, rest) = rest.request_type()?;
    let (payload, rest) = rest.bytes(alloc)?;
    let timeout = timeout(&rest)?;
    Ok(Some(Event::Send {
        name,
        to,
        kind,
        payload,
        timeout,
    }))
}

/// `I C TYPE HEX` behind `send @x`.
fn send_module(alloc: Global, name: Name, rest: &Rest<'_>) -> Result<Option<Event>, LineFault>
    ensures { Tells result (sending_module name rest.now) }
{
    let (intf, cport, rest) = rest.intf_cport()?;
    send_type(alloc, name, End::Module { intf, cport }, &rest)
}

/// The timeout in milliseconds: `timeout MS`, or nothing.
fn timeout(rest: &Rest<'_>) -> Result<u32, LineFault>
    ensures { MatchResult result
        (λ ms. (make : ℕ → Event) → timed rest.now make ≡ Ok (Some (make ms)))
        (λ fault. StopsBy fault (λ why. (make : ℕ → Event) → timed rest.now make ≡ Err why)) }
{
    let Some((word, behind)) = rest.split_first() else {
        return Ok(DEFAULT_TIMEOUT);
    };
    if !is(word, "timeout") {
        return Err(LineFault::Bad(rest.bad_word()));
    }
    let (millis, rest) = behind.from_one()?;
    rest.end()?;
    Ok(millis)
}

/// `cancel @x`.
pub fn cancel(rest: &Rest<'_>, who: u8) -> Result<Option<Event>, LineFault>
    ensures { Tells result (of_name who event.Cancel rest.now) }
{
    let (name, rest) = rest.name(who)?;
    rest.end()?;
    Ok(Some(Event::Cancel { name }))
}

/// `drop @x`.
pub fn forget(rest: &Rest<'_>, who: u8) -> Result<Option<Event>, LineFault>
    ensures { Tells result (of_name who event.Forget rest.now) }
{
    let (name, rest) = rest.name(who)?;
    rest.end()?;
    Ok(Some(Event::Forget { name }))
}

/// `copy @x @y`.
pub fn copy(rest: &Rest<'_>, who: u8) -> Result<Option<Event>, LineFault>
    ensures { Tells result (copying who rest.now) }
{
    let (from, rest) = rest.name(who)?;
    let (to, rest) = rest.name(who)?;
    rest.end()?;
    Ok(Some(Event::Copy { from, to }))
}
