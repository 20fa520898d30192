//! Responses of the Loopback protocol.

ghost use Rattle.std.specs.Prelude.{◌≡◌, IfOk, take};
ghost use Rattle.gb_formats.specs.LoopbackRecords.{loopback_reply_kind, loopback_reply_payload};
ghost use Rattle.gb_formats.specs.LoopbackRecords.{read_loopback_reply};
ghost use Rattle.gb_bridge_payload.specs.Conditions.{IsLoopbackReply};
ghost use Rattle.gb_bridge_payload.specs.Protocols.{loopback_replies};
ghost use Rattle.gb_bridge_payload.specs.Views.{loopback_reply_of};
ghost use Rattle.gb_payload.specs.Answers.{Answers};
ghost use Rattle.gb_payload.specs.Fields.{Puts};
ghost use Rattle.gb_payload.specs.Meaning.{IsRead, Means};

use crate::carried::Carried;
use crate::loopback_kinds::{PING, SINK, TRANSFER};
use gb_base::NoRoom;
use gb_payload::{PayloadFault, put, read_record};

/// A response of the Loopback protocol (Greybus Specification, "Loopback Protocol").
#[derive(Clone, Copy, PartialEq, Eq)]
pub enum LoopbackReply<'a> {
    /// The device is there.
    Ping,
    /// The bytes come back.
    Transfer(Carried<'a>),
    /// The bytes are taken.
    Sink,
}

impl<'a> LoopbackReply<'a> {
    /// Reads the payload of a type, which is that of the request.
    pub fn read(kind: u8, payload: &'a [u8]) -> Result<LoopbackReply<'a>, PayloadFault>
        ensures answer { Answers loopback_reply_of (read_loopback_reply kind payload.now) result }
        ensures means { Means loopback_replies loopback_reply_of kind payload.now result }
    {
        row(kind, payload)
    }

    /// Writes the payload to the front of `out`, and answers its length. There are at most
    /// 4,294,967,295 bytes. NoRoom exactly where `out` is shorter, and `out` is then unchanged.
    pub fn write(&self, out: &mut [u8]) -> Result<usize, NoRoom>
        requires { IsLoopbackReply (loopback_reply_of self.now) }
        ensures bytes { Puts (loopback_reply_payload (loopback_reply_of self.now))
            out.old out.new result }
        ensures again { IfOk result
            (λ n. IsRead loopback_replies (loopback_reply_of self.now) (take n out.new)) }
    {
        match self {
            LoopbackReply::Ping | LoopbackReply::Sink => put(&[], out),
            LoopbackReply::Transfer(carried) => carried.write(out),
        }
    }

    /// The type of the request.
    pub fn kind(&self) -> u8
        ensures { result ≡ loopback_reply_kind (loopback_reply_of self.now) }
    {
        match self {
            LoopbackReply::Ping => PING,
            LoopbackReply::Transfer(_) => TRANSFER,
            LoopbackReply::Sink => SINK,
        }
    }
}

/// The record of a type that a payload is.
fn row(kind: u8, payload: &[u8]) -> Result<LoopbackReply<'_>, PayloadFault>
    ensures { Answers loopback_reply_of (read_loopback_reply kind payload.now) result }
{
    match kind {
        PING => read_record!(payload => LoopbackReply::Ping),
        TRANSFER => Ok(LoopbackReply::Transfer(Carried::read(payload)?)),
        SINK => read_record!(payload => LoopbackReply::Sink),
        _ => Err(PayloadFault::UnknownKind),
    }
}
