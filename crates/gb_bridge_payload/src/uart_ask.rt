//! Requests of the UART protocol.

ghost use Rattle.std.specs.Prelude.{◌≡◌, IfOk, take};
ghost use Rattle.gb_formats.specs.UartRecords.{read_receive, read_send, read_uart_ask};
ghost use Rattle.gb_formats.specs.UartRecords.{read_uart_ask_of_ap, read_uart_ask_of_module};
ghost use Rattle.gb_formats.specs.UartRecords.{uart_ask_kind, uart_ask_payload};
ghost use Rattle.gb_bridge_payload.specs.Conditions.{IsUartAsk};
ghost use Rattle.gb_bridge_payload.specs.Protocols.{uart_asks};
ghost use Rattle.gb_bridge_payload.specs.Views.{uart_ask_of};
ghost use Rattle.gb_payload.specs.Answers.{Answers};
ghost use Rattle.gb_payload.specs.Fields.{Puts};
ghost use Rattle.gb_payload.specs.Meaning.{IsRead, Means};

use crate::reading::front;
use crate::uart_kinds::{
    FLUSH_FIFOS, RECEIVE_CREDITS, RECEIVE_DATA, SEND_BREAK, SEND_DATA, SERIAL_STATE,
    SET_CONTROL_LINE_STATE, SET_LINE_CODING,
};
use byteorder::{ByteOrder, LittleEndian};
use gb_base::NoRoom;
use gb_payload::Field::{Bytes, U8, U16, U32};
use gb_payload::{Fields, PayloadFault, put, read_record};

/// A request of the UART protocol (Greybus Specification, "UART Protocol").
#[derive(Clone, Copy, PartialEq, Eq)]
pub enum UartAsk<'a> {
    /// Sends bytes.
    SendData {
        /// The bytes.
        bytes: &'a [u8],
    },
    /// Hands over bytes that came in. The module makes this request.
    ReceiveData {
        /// The flags: framing 1, parity 2, overrun 4, break 8.
        flags: u8,
        /// The bytes.
        bytes: &'a [u8],
    },
    /// Sets the line coding.
    SetLineCoding {
        /// The rate in bits a second.
        rate: u32,
        /// The stop bits: 0 one, 1 one and a half, 2 two.
        format: u8,
        /// The parity: 0 none, 1 odd, 2 even, 3 mark, 4 space.
        parity: u8,
        /// How many bits a character has.
        bits: u8,
        /// The flow control: 1 is automatic RTS and CTS.
        flow: u8,
    },
    /// Sets the control lines.
    SetControlLineState {
        /// The lines: DTR 1, RTS 2.
        control: u8,
    },
    /// Sets the break condition.
    SendBreak {
        /// 0 off, 1 on.
        state: u8,
    },
    /// Tells of the state of the serial lines. The module makes this request.
    SerialState {
        /// The lines: DCD 1, DSR 2, RI 4.
        control: u8,
    },
    /// Gives credits. The module makes this request.
    ReceiveCredits {
        /// How many bytes may be sent beyond those that could be sent before.
        count: u16,
    },
    /// Empties buffers.
    FlushFifos {
        /// The buffers: transmit 1, receive 2.
        flags: u8,
    },
}

impl<'a> UartAsk<'a> {
    /// Reads the payload of a type.
    pub fn read(kind: u8, payload: &'a [u8]) -> Result<UartAsk<'a>, PayloadFault>
        ensures answer { Answers uart_ask_of (read_uart_ask kind payload.now) result }
        ensures means { Means uart_asks uart_ask_of kind payload.now result }
    {
        row(kind, payload)
    }

    /// Reads the payload of a type of which the application processor makes the requests. The other
    /// types are unknown.
    pub fn read_of_ap(kind: u8, payload: &'a [u8]) -> Result<UartAsk<'a>, PayloadFault>
        ensures { Answers uart_ask_of (read_uart_ask_of_ap kind payload.now) result }
    {
        match kind {
            RECEIVE_DATA | SERIAL_STATE | RECEIVE_CREDITS => Err(PayloadFault::UnknownKind),
            _ => row(kind, payload),
        }
    }

    /// Reads the payload of a type of which the module makes the requests. The other
    /// types are unknown.
    pub fn read_of_module(kind: u8, payload: &'a [u8]) -> Result<UartAsk<'a>, PayloadFault>
        ensures { Answers uart_ask_of (read_uart_ask_of_module kind payload.now) result }
    {
        match kind {
            RECEIVE_DATA | SERIAL_STATE | RECEIVE_CREDITS => row(kind, payload),
            _ => Err(PayloadFault::UnknownKind),
        }
    }

    /// Writes the payload to the front of `out`, and answers its length. There are at most 65,535
    /// bytes of data. NoRoom exactly where `out` is shorter, and `out` is then unchanged.
    pub fn write(&self, out: &mut [u8]) -> Result<usize, NoRoom>
        requires { IsUartAsk (uart_ask_of self.now) }
        ensures bytes { Puts (uart_ask_payload (uart_ask_of self.now)) out.old out.new result }
        ensures again { IfOk result
            (λ n. IsRead uart_asks (uart_ask_of self.now) (take n out.new)) }
    {
        match self {
            UartAsk::SendData { bytes } => put(&[U16(bytes.len() as u16), Bytes(bytes)], out),
            UartAsk::ReceiveData { flags, bytes } => {
                put(&[U16(bytes.len() as u16), U8(*flags), Bytes(bytes)], out)
            }
            UartAsk::SetLineCoding {
                rate,
                format,
                parity,
                bits,
                flow,
            } => put(
                &[U32(*rate), U8(*format), U8(*parity), U8(*bits), U8(*flow)],
                out,
            ),
            UartAsk::SetControlLineState { control } | UartAsk::SerialState { control } => {
                put(&[U8(*control)], out)
            }
            UartAsk::SendBreak { state } => put(&[U8(*state)], out),
            UartAsk::ReceiveCredits { count } => put(&[U16(*count)], out),
            UartAsk::FlushFifos { flags } => put(&[U8(*flags)], out),
        }
    }

    /// The type.
    pub fn kind(&self) -> u8
        ensures { result ≡ uart_ask_kind (uart_ask_of self.now) }
    {
        match self {
            UartAsk::SendData { .. } => SEND_DATA,
            UartAsk::ReceiveData { .. } => RECEIVE_DATA,
            UartAsk::SetLineCoding { .. } => SET_LINE_CODING,
            UartAsk::SetControlLineState { .. } => SET_CONTROL_LINE_STATE,
            UartAsk::SendBreak { .. } => SEND_BREAK,
            UartAsk::SerialState { .. } => SERIAL_STATE,
            UartAsk::ReceiveCredits { .. } => RECEIVE_CREDITS,
            UartAsk::FlushFifos { .. } => FLUSH_FIFOS,
        }
    }
}

/// The record of a type that a payload is.
fn row(kind: u8, payload: &[u8]) -> Result<UartAsk<'_>, PayloadFault>
    ensures { Answers uart_ask_of (read_uart_ask kind payload.now) result }
{
    match kind {
        SEND_DATA => send(payload),
        RECEIVE_DATA => receive(payload),
        SET_LINE_CODING => read_record!(payload => UartAsk::SetLineCoding {
            rate: u32, format: u8, parity: u8, bits: u8, flow: u8
        }),
        SET_CONTROL_LINE_STATE => {
            read_record!(payload => UartAsk::SetControlLineState { control: u8 })
        }
        SEND_BREAK => read_record!(payload => UartAsk::SendBreak { state: u8 }),
        SERIAL_STATE => read_record!(payload => UartAsk::SerialState { control: u8 }),
        RECEIVE_CREDITS => read_record!(payload => UartAsk::ReceiveCredits { count: u16 }),
        FLUSH_FIFOS => read_record!(payload => UartAsk::FlushFifos { flags: u8 }),
        _ => Err(PayloadFault::UnknownKind),
    }
}

/// Bytes to be sent: how many, and the bytes.
fn send(payload: &[u8]) -> Result<UartAsk<'_>, PayloadFault>
    ensures { Answers uart_ask_of (read_send payload.now) result }
{
    let size = LittleEndian::read_u16(front(payload, 2)?);
    Fields::of(payload, 2 + size as usize)?;
    Ok(UartAsk::SendData {
        bytes: &payload[2..],
    })
}

/// Bytes that came in: how many, the flags, and the bytes.
fn receive(payload: &[u8]) -> Result<UartAsk<'_>, PayloadFault>
    ensures { Answers uart_ask_of (read_receive payload.now) result }
{
    let size = LittleEndian::read_u16(front(payload, 2)?);
    Fields::of(payload, 3 + size as usize)?;
    Ok(UartAsk::ReceiveData {
        flags: payload[2],
        bytes: &payload[3..],
    })
}
