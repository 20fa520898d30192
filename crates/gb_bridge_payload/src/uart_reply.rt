//! Responses of the UART protocol.

ghost use Rattle.std.specs.Prelude.{◌≡◌, IfOk, take};
ghost use Rattle.gb_formats.specs.Records.{whole};
ghost use Rattle.gb_formats.specs.UartRecords.{read_uart_reply, uart_reply_kind};
ghost use Rattle.gb_formats.specs.UartRecords.{uart_reply_payload};
ghost use Rattle.gb_bridge_payload.specs.Protocols.{uart_replies};
ghost use Rattle.gb_bridge_payload.specs.Views.{uart_reply_of};
ghost use Rattle.gb_payload.specs.Answers.{Answers};
ghost use Rattle.gb_payload.specs.Fields.{Puts};
ghost use Rattle.gb_payload.specs.Meaning.{IsRead, Means};

use crate::uart_kinds::{
    FLUSH_FIFOS, RECEIVE_CREDITS, RECEIVE_DATA, SEND_BREAK, SEND_DATA, SERIAL_STATE,
    SET_CONTROL_LINE_STATE, SET_LINE_CODING,
};
use gb_base::NoRoom;
use gb_payload::{PayloadFault, mismatch, put};

/// A response of the UART protocol (Greybus Specification, "UART Protocol"), in the order of the
/// requests. Each is empty.
#[derive(Clone, Copy, PartialEq, Eq)]
pub enum UartReply {
    /// The bytes are taken.
    SendData,
    /// The bytes are received.
    ReceiveData,
    /// The line coding is set.
    SetLineCoding,
    /// The control lines are set.
    SetControlLineState,
    /// The break is set.
    SendBreak,
    /// The state was seen.
    SerialState,
    /// The credits are taken.
    ReceiveCredits,
    /// The buffers are empty.
    FlushFifos,
}

impl UartReply {
    /// Reads the payload of a type, which is that of the request.
    pub fn read(kind: u8, payload: &[u8]) -> Result<UartReply, PayloadFault>
        ensures answer { Answers uart_reply_of (read_uart_reply kind payload.now) result }
        ensures means { Means uart_replies uart_reply_of kind payload.now result }
    {
        row(kind, payload)
    }

    /// Writes the payload to the front of `out`, and answers its length. NoRoom exactly where `out`
    /// is shorter, and `out` is then unchanged.
    pub fn write(&self, out: &mut [u8]) -> Result<usize, NoRoom>
        ensures bytes { Puts (uart_reply_payload (uart_reply_of self.now)) out.old out.new result }
        ensures again { IfOk result
            (λ n. IsRead uart_replies (uart_reply_of self.now) (take n out.new)) }
    {
        put(&[], out)
    }

    /// The type of the request.
    pub fn kind(&self) -> u8
        ensures { result ≡ uart_reply_kind (uart_reply_of self.now) }
    {
        match self {
            UartReply::SendData => SEND_DATA,
            UartReply::ReceiveData => RECEIVE_DATA,
            UartReply::SetLineCoding => SET_LINE_CODING,
            UartReply::SetControlLineState => SET_CONTROL_LINE_STATE,
            UartReply::SendBreak => SEND_BREAK,
            UartReply::SerialState => SERIAL_STATE,
            UartReply::ReceiveCredits => RECEIVE_CREDITS,
            UartReply::FlushFifos => FLUSH_FIFOS,
        }
    }
}

/// The record of a type that a payload is.
fn row(kind: u8, payload: &[u8]) -> Result<UartReply, PayloadFault>
    ensures { Answers uart_reply_of (read_uart_reply kind payload.now) result }
{
    match kind {
        SEND_DATA => empty(payload, UartReply::SendData),
        RECEIVE_DATA => empty(payload, UartReply::ReceiveData),
        SET_LINE_CODING => empty(payload, UartReply::SetLineCoding),
        SET_CONTROL_LINE_STATE => empty(payload, UartReply::SetControlLineState),
        SEND_BREAK => empty(payload, UartReply::SendBreak),
        SERIAL_STATE => empty(payload, UartReply::SerialState),
        RECEIVE_CREDITS => empty(payload, UartReply::ReceiveCredits),
        FLUSH_FIFOS => empty(payload, UartReply::FlushFifos),
        _ => Err(PayloadFault::UnknownKind),
    }
}

/// A response, which has no fields, where the payload is empty.
fn empty(payload: &[u8], reply: UartReply) -> Result<UartReply, PayloadFault>
    ensures { Answers uart_reply_of (whole 0 payload.now (uart_reply_of reply)) result }
{
    if payload.is_empty() {
        Ok(reply)
    } else {
        Err(mismatch(payload, 0))
    }
}
