//! The forms on firmware images.

ghost use Rattle.gb_formats.specs.Grammar.{giving_image, loading};
ghost use Rattle.gb_script.specs.Tells.{Tells};

use crate::LineFault;
use crate::rest::Rest;
use gb_base::Event;
use std::alloc::Global;

/// `image TAG HEX`.
pub fn image(alloc: Global, rest: &Rest<'_>) -> Result<Option<Event>, LineFault>
    ensures { Tells result (giving_image rest.now) }
{
    let (tag, rest) = rest.tag()?;
    let (bytes, rest) = rest.bytes(alloc)?;
    rest.end()?;
    Ok(Some(Event::Image { tag, bytes }))
}

/// `load I C TAG`.
pub fn load(rest: &Rest<'_>) -> Result<Option<Event>, LineFault>
    ensures { Tells result (loading rest.now) }
{
    let (intf, cport, rest) = rest.intf_cport()?;
    let (tag, rest) = rest.tag()?;
    rest.end()?;
    Ok(Some(Event::Load { intf, cport, tag }))
}
