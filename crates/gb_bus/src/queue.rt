//! What waits in queues.

ghost use Rattle.std.specs.Prelude.{◌≡◌, IfOk};

use crate::connection::Draft;
use gb_base::{Bytes, OutOfMemory, RawFault};
use std::alloc::Global;

/// A message in a queue. It carries all that its delivery needs.
#[derive(Drop)]
pub enum Item {
    /// A request.
    Ask {
        /// Its number.
        number: u64,
        /// Its identifier, 0 where it is unidirectional.
        label: u16,
        /// Its type.
        kind: u8,
        /// Its payload.
        payload: Bytes,
    },
    /// The reply to a request.
    Reply {
        /// The request.
        number: u64,
        /// Its identifier.
        label: u16,
        /// The result byte.
        result: u8,
        /// The payload.
        payload: Bytes,
    },
    /// Raw bytes that are one whole message.
    Raw {
        /// The identifier.
        label: u16,
        /// The type. That of a response is at least 80 (hex).
        kind: u8,
        /// The result byte, 0 in a request.
        result: u8,
        /// The payload.
        payload: Bytes,
    },
    /// Raw bytes that aren't one whole message.
    BadRaw {
        /// Why not.
        fault: RawFault,
    },
    /// The reply to a request that came as raw bytes.
    RawReply {
        /// The identifier of the request.
        label: u16,
        /// The result byte.
        result: u8,
        /// The payload.
        payload: Bytes,
    },
}

/// A request as it waits in a queue.
#[inline]
pub fn ask_item(alloc: Global, draft: &Draft<'_>, label: u16) -> Result<Item, OutOfMemory>
    ensures { IfOk result (λ x. x
        ≡ Item.Ask draft.now.number label draft.now.kind draft.now.payload.now) }
{
    Ok(Item::Ask {
        number: draft.number,
        label,
        kind: draft.kind,
        payload: Bytes::from_slice(alloc, draft.payload)?,
    })
}
