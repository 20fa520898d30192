//! The forms on deliveries, time and injected bytes.

ghost use Rattle.std.specs.Prelude.{◌≡◌};
ghost use Rattle.gb_formats.specs.Grammar.{answering, delivering, injecting, settling, ticking};
ghost use Rattle.gb_script.specs.Parts.{delivering_ap, delivering_module};
ghost use Rattle.gb_script.specs.Tells.{Tells};

use crate::LineFault;
use crate::interfaces::only_cport;
use crate::rest::Rest;
use crate::words::is;
use gb_base::{End, Event};
use std::alloc::Global;

/// `deliver svc`, `deliver ap A`, or `deliver I C`.
pub fn deliver(rest: &Rest<'_>) -> Result<Option<Event>, LineFault>
    ensures { Tells result (delivering rest.now) }
{
    let (at, behind) = rest.next()?;
    if is(at, "svc") {
        behind.end()?;
        return Ok(Some(Event::Deliver { at: End::Svc }));
    }
    if is(at, "ap") {
        return deliver_ap(&behind);
    }
    deliver_module(rest)
}

/// `A` behind `deliver ap`.
fn deliver_ap(rest: &Rest<'_>) -> Result<Option<Event>, LineFault>
    ensures { Tells result (delivering_ap rest.now) }
{
    let (ap, rest) = rest.cport()?;
    rest.end()?;
    Ok(Some(Event::Deliver { at: End::Ap(ap) }))
}

/// `I C` behind `deliver`.
fn deliver_module(rest: &Rest<'_>) -> Result<Option<Event>, LineFault>
    ensures { Tells result (delivering_module rest.now) }
{
    let (intf, cport) = only_cport(rest)?;
    Ok(Some(Event::Deliver {
        at: End::Module { intf, cport },
    }))
}

/// `settle N`.
pub fn settle(rest: &Rest<'_>) -> Result<Option<Event>, LineFault>
    ensures { Tells result (settling rest.now) }
{
    let (most, rest) = rest.count()?;
    rest.end()?;
    Ok(Some(Event::Settle { most }))
}

/// `answer I C K`.
pub fn answer(rest: &Rest<'_>) -> Result<Option<Event>, LineFault>
    ensures { Tells result (answering rest.now) }
{
    let (intf, cport, rest) = rest.intf_cport()?;
    let (place, rest) = rest.from_one()?;
    rest.end()?;
    Ok(Some(Event::Answer { intf, cport, place }))
}

/// `tick MS`.
pub fn tick(rest: &Rest<'_>) -> Result<Option<Event>, LineFault>
    ensures { Tells result (ticking rest.now) }
{
    let (millis, rest) = rest.from_one()?;
    rest.end()?;
    Ok(Some(Event::Tick { millis }))
}

/// `inject I C HEX`.
pub fn inject(alloc: Global, rest: &Rest<'_>) -> Result<Option<Event>, LineFault>
    ensures { Tells result (injecting rest.now) }
{
    let (intf, cport, rest) = rest.intf_cport()?;
    let (bytes, rest) = rest.bytes(alloc)?;
    rest.end()?;
    Ok(Some(Event::Inject { intf, cport, bytes }))
}
