//! Messages that own their payload.

ghost use Rattle.std.specs.Prelude.{◌≡◌, IfOk};
ghost use Rattle.gb_wire.specs.MessageOf.{message_of, owned_message_of};

use crate::Message;
use gb_base::{Bytes, OutOfMemory, Sequence};
use std::alloc::Global;

/// An operation message that owns its payload.
#[derive(Drop)]
pub struct OwnedMessage {
    /// The identifier, 0 in a unidirectional request.
    pub id: u16,
    /// The type. From `RESPONSE` on it is that of a response.
    pub kind: u8,
    /// The result byte, 0 in a request.
    pub result: u8,
    /// The payload.
    pub payload: Bytes,
}

/// Messages in the order in which they came.
pub type Messages = Sequence<OwnedMessage>;

impl OwnedMessage {
    /// The message with a payload of its own.
    pub(crate) fn from_message(
        alloc: Global,
        message: &Message<'_>,
    ) -> Result<OwnedMessage, OutOfMemory>
        ensures { IfOk result (λ owned. owned_message_of owned ≡ message_of message.now) }
    {
        Ok(OwnedMessage {
            id: message.id,
            kind: message.kind,
            result: message.result,
            payload: Bytes::from_slice(alloc, message.payload)?,
        })
    }
}
