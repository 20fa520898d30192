//! The requests that a firmware device makes.

ghost use Rattle.std.specs.Prelude.{◌≡◌};
ghost use Rattle.gb_bridge_payload.specs.Conditions.{IsFirmwareAsk};
ghost use Rattle.gb_bridge_payload.specs.Views.{firmware_ask_of};
ghost use Rattle.gb_formats.specs.Loader as formats;

use gb_base::{Bytes, OwnAsk, Tag};
use gb_bridge_payload::{FirmwareAsk, TAG_FIELD};
use std::alloc::Global;

/// FIND of a tag.
pub fn find_ask(alloc: Global, tag: &Tag) -> OwnAsk
    ensures { result ≡ formats.find_ask tag.now }
{
    own(alloc, FirmwareAsk::Find { tag: &padded(tag) })
}

/// A request of the device's own. It takes no memory, since its payload has at most ten bytes.
pub fn own(alloc: Global, ask: FirmwareAsk<'_>) -> OwnAsk
    requires { IsFirmwareAsk (firmware_ask_of ask) }
    ensures { result ≡ formats.firmware_own (firmware_ask_of ask.entry) }
{
    let mut out = [0; TAG_FIELD];
    let Ok(size) = ask.write(&mut out) else {
        unreachable!()
    };
    let Ok(payload) = Bytes::from_slice(alloc, &out[..size]) else {
        unreachable!()
    };
    OwnAsk {
        kind: ask.kind(),
        payload,
        oneway: false,
    }
}

/// A tag with zeros behind it, as its field has it.
fn padded(tag: &Tag) -> [u8; TAG_FIELD]
    ensures { result ≡ formats.padded tag.now }
{
    let bytes = tag.bytes();
    let mut field = [0; TAG_FIELD];
    field[..bytes.len()].copy_from_slice(bytes);
    field
}
