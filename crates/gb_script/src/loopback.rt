//! The forms on Loopback.

ghost use Rattle.gb_formats.specs.BridgeForms.{loopback_asking, loopback_bytes};
ghost use Rattle.gb_script.specs.Tells.{AsksFor};

use crate::LineFault;
use crate::rest::Rest;
use crate::words::is;
use gb_base::BridgeAsk;
use gb_bridge_payload::loopback_kinds;
use std::alloc::Global;

/// What a Loopback line asks.
pub fn asked(alloc: Global, rest: &Rest<'_>) -> Result<BridgeAsk, LineFault>
    ensures { AsksFor loopback_asking rest.now result }
{
    let (word, behind) = rest.next()?;
    if is(word, "ping") {
        behind.end()?;
        Ok(BridgeAsk::LoopPing)
    } else if is(word, "transfer") {
        of_bytes(alloc, &behind, loopback_kinds::TRANSFER)
    } else if is(word, "sink") {
        of_bytes(alloc, &behind, loopback_kinds::SINK)
    } else {
        Err(LineFault::Bad(rest.bad_word()))
    }
}

/// `HEX`: a request that carries bytes.
fn of_bytes(alloc: Global, rest: &Rest<'_>, kind: u8) -> Result<BridgeAsk, LineFault>
    ensures { AsksFor (λ make. loopback_bytes make kind) rest.now result }
{
    let (bytes, rest) = rest.bytes(alloc)?;
    rest.end()?;
    Ok(BridgeAsk::LoopBytes { kind, bytes })
}
