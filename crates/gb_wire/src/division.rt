//! A stream divided into its messages.

ghost use Rattle.std.specs.Prelude.{◌≡◌, ◌≤◌, length, drop, IfOk};
ghost use Rattle.gb_wire.specs.MessageOf.{messages_of};
ghost use Rattle.gb_wire.specs.Streams.{HandedOut, held, lasting};

use crate::{Messages, OwnedMessage, decode};
use gb_base::{OutOfMemory, WireFault};
use std::alloc::Global;

/// How bytes are divided.
#[derive(Drop)]
pub(crate) struct Division {
    /// The messages in front.
    pub messages: Messages,
    /// How many bytes they have.
    pub used: usize,
    /// The fault with which the bytes behind them begin. Where there is none, they are
    /// no whole message.
    pub fault: Option<WireFault>,
}

/// Divides bytes into the messages in front, and what is left.
pub(crate) fn divide(alloc: Global, bytes: &[u8]) -> Result<Division, OutOfMemory>
    ensures within { IfOk result (λ d. d.used ≤ length bytes.now) }
    ensures stream { IfOk result (λ d. HandedOut bytes.now (messages_of d.messages)
        (held d.fault (drop d.used bytes.now))) }
{
    let mut messages = Messages::new(alloc);
    let mut used = 0;
    loop {
        match decode(&bytes[used..]) {
            Ok((message, size)) => {
                messages.push(OwnedMessage::from_message(alloc, &message)?)?;
                used += size;
            }
            Err(fault) => {
                return Ok(Division {
                    messages,
                    used,
                    fault: lasting(fault),
                });
            }
        }
    }
}

/// The fault that stays, whatever comes: each but Short.
pub(crate) fn lasting(fault: WireFault) -> Option<WireFault>
    ensures { result ≡ lasting fault }
{
    match fault {
        WireFault::Short { .. } => None,
        WireFault::SizeBelowEight { .. } | WireFault::RequestResult { .. } => Some(fault),
    }
}
