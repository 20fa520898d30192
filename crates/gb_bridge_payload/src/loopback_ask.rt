//! Requests of the Loopback protocol.

ghost use Rattle.std.specs.Prelude.{◌≡◌, IfOk, take};
ghost use Rattle.gb_formats.specs.LoopbackRecords.{loopback_ask_kind, loopback_ask_payload};
ghost use Rattle.gb_formats.specs.LoopbackRecords.{read_loopback_ask};
ghost use Rattle.gb_bridge_payload.specs.Conditions.{IsLoopbackAsk};
ghost use Rattle.gb_bridge_payload.specs.Protocols.{loopback_asks};
ghost use Rattle.gb_bridge_payload.specs.Views.{loopback_ask_of};
ghost use Rattle.gb_payload.specs.Answers.{Answers};
ghost use Rattle.gb_payload.specs.Fields.{Puts};
ghost use Rattle.gb_payload.specs.Meaning.{IsRead, Means};

use crate::carried::Carried;
use crate::loopback_kinds::{PING, SINK, TRANSFER};
use gb_base::NoRoom;
use gb_payload::{PayloadFault, put, read_record};

/// A request of the Loopback protocol (Greybus Specification, "Loopback Protocol").
#[derive(Clone, Copy, PartialEq, Eq)]
pub enum LoopbackAsk<'a> {
    /// Asks for an answer without bytes.
    Ping,
    /// Sends bytes that come back.
    Transfer(Carried<'a>),
    /// Sends bytes that don't come back.
    Sink(Carried<'a>),
}

impl<'a> LoopbackAsk<'a> {
    /// Reads the payload of a type.
    pub fn read(kind: u8, payload: &'a [u8]) -> Result<LoopbackAsk<'a>, PayloadFault>
        ensures answer { Answers loopback_ask_of (read_loopback_ask kind payload.now) result }
        ensures means { Means loopback_asks loopback_ask_of kind payload.now result }
    {
        row(kind, payload)
    }

    /// Writes the payload to the front of `out`, and answers its length. There are at most
    /// 4,294,967,295 bytes. NoRoom exactly where `out` is shorter, and `out` is then unchanged.
    pub fn write(&self, out: &mut [u8]) -> Result<usize, NoRoom>
        requires { IsLoopbackAsk (loopback_ask_of self.now) }
        ensures bytes { Puts (loopback_ask_payload (loopback_ask_of self.now))
            out.old out.new result }
        ensures again { IfOk result
            (λ n. IsRead loopback_asks (loopback_ask_of self.now) (take n out.new)) }
    {
        match self {
            LoopbackAsk::Ping => put(&[], out),
            LoopbackAsk::Transfer(carried) | LoopbackAsk::Sink(carried) => carried.write(out),
        }
    }

    /// The type.
    pub fn kind(&self) -> u8
        ensures { result ≡ loopback_ask_kind (loopback_ask_of self.now) }
    {
        match self {
            LoopbackAsk::Ping => PING,
            LoopbackAsk::Transfer(_) => TRANSFER,
            LoopbackAsk::Sink(_) => SINK,
        }
    }
}

/// The record of a type that a payload is.
fn row(kind: u8, payload: &[u8]) -> Result<LoopbackAsk<'_>, PayloadFault>
    ensures { Answers loopback_ask_of (read_loopback_ask kind payload.now) result }
{
    match kind {
        PING => read_record!(payload => LoopbackAsk::Ping),
        TRANSFER => Ok(LoopbackAsk::Transfer(Carried::read(payload)?)),
        SINK => Ok(LoopbackAsk::Sink(Carried::read(payload)?)),
        _ => Err(PayloadFault::UnknownKind),
    }
}
