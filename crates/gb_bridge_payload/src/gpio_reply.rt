//! Responses of the GPIO protocol.

ghost use Rattle.std.specs.Prelude.{◌≡◌, IfOk, take};
ghost use Rattle.gb_formats.specs.GpioRecords.{read_gpio_reply, gpio_reply_kind};
ghost use Rattle.gb_formats.specs.GpioRecords.{gpio_reply_payload};
ghost use Rattle.gb_formats.specs.Records.{whole};
ghost use Rattle.gb_bridge_payload.specs.Protocols.{gpio_replies};
ghost use Rattle.gb_bridge_payload.specs.Views.{gpio_reply_of};
ghost use Rattle.gb_payload.specs.Answers.{Answers};
ghost use Rattle.gb_payload.specs.Fields.{Puts};
ghost use Rattle.gb_payload.specs.Meaning.{IsRead, Means};

use crate::gpio_kinds::{
    ACTIVATE, DEACTIVATE, DIRECTION_IN, DIRECTION_OUT, GET_DIRECTION, GET_VALUE, IRQ_EVENT,
    IRQ_MASK, IRQ_TYPE, IRQ_UNMASK, LINE_COUNT, SET_DEBOUNCE, SET_VALUE,
};
use gb_base::NoRoom;
use gb_payload::Field::U8;
use gb_payload::{PayloadFault, mismatch, put, read_record};

/// A response of the GPIO protocol (Greybus Specification, "GPIO Protocol"), in the order
/// of the requests.
#[derive(Clone, Copy, Debug, PartialEq, Eq)]
pub enum GpioReply {
    /// How many lines there are.
    LineCount {
        /// The number of the last line, which is the count less 1.
        last: u8,
    },
    /// The line is active.
    Activate,
    /// The line is inactive.
    Deactivate,
    /// The direction of the line.
    GetDirection {
        /// 0 is out, 1 is in.
        direction: u8,
    },
    /// The line is an input.
    DirectionIn,
    /// The line is an output.
    DirectionOut,
    /// The value of the line.
    GetValue {
        /// The value, 0 or 1.
        value: u8,
    },
    /// The value is set.
    SetValue,
    /// The time is set.
    SetDebounce,
    /// The type of interrupt is set.
    IrqType,
    /// The interrupt is masked.
    IrqMask,
    /// The interrupt is unmasked.
    IrqUnmask,
    /// The interrupt was seen.
    IrqEvent,
}

impl GpioReply {
    /// Reads the payload of a type, which is that of the request.
    pub fn read(kind: u8, payload: &[u8]) -> Result<GpioReply, PayloadFault>
        ensures answer { Answers gpio_reply_of (read_gpio_reply kind payload.now) result }
        ensures means { Means gpio_replies gpio_reply_of kind payload.now result }
    {
        row(kind, payload)
    }

    /// Writes the payload to the front of `out`, and answers its length. NoRoom exactly where `out`
    /// is shorter, and `out` is then unchanged.
    pub fn write(&self, out: &mut [u8]) -> Result<usize, NoRoom>
        ensures bytes { Puts (gpio_reply_payload (gpio_reply_of self.now)) out.old out.new result }
        ensures again { IfOk result
            (λ n. IsRead gpio_replies (gpio_reply_of self.now) (take n out.new)) }
    {
        match self {
            GpioReply::LineCount { last } => put(&[U8(*last)], out),
            GpioReply::GetDirection { direction } => put(&[U8(*direction)], out),
            GpioReply::GetValue { value } => put(&[U8(*value)], out),
            GpioReply::Activate
            | GpioReply::Deactivate
            | GpioReply::DirectionIn
            | GpioReply::DirectionOut
            | GpioReply::SetValue
            | GpioReply::SetDebounce
            | GpioReply::IrqType
            | GpioReply::IrqMask
            | GpioReply::IrqUnmask
            | GpioReply::IrqEvent => put(&[], out),
        }
    }

    /// The type of the request.
    pub fn kind(&self) -> u8
        ensures { result ≡ gpio_reply_kind (gpio_reply_of self.now) }
    {
        match self {
            GpioReply::LineCount { .. } => LINE_COUNT,
            GpioReply::Activate => ACTIVATE,
            GpioReply::Deactivate => DEACTIVATE,
            GpioReply::GetDirection { .. } => GET_DIRECTION,
            GpioReply::DirectionIn => DIRECTION_IN,
            GpioReply::DirectionOut => DIRECTION_OUT,
            GpioReply::GetValue { .. } => GET_VALUE,
            GpioReply::SetValue => SET_VALUE,
            GpioReply::SetDebounce => SET_DEBOUNCE,
            GpioReply::IrqType => IRQ_TYPE,
            GpioReply::IrqMask => IRQ_MASK,
            GpioReply::IrqUnmask => IRQ_UNMASK,
            GpioReply::IrqEvent => IRQ_EVENT,
        }
    }
}

/// The record of a type that a payload is.
fn row(kind: u8, payload: &[u8]) -> Result<GpioReply, PayloadFault>
    ensures { Answers gpio_reply_of (read_gpio_reply kind payload.now) result }
{
    match kind {
        LINE_COUNT => read_record!(payload => GpioReply::LineCount { last: u8 }),
        ACTIVATE => empty(payload, GpioReply::Activate),
        DEACTIVATE => empty(payload, GpioReply::Deactivate),
        GET_DIRECTION => read_record!(payload => GpioReply::GetDirection { direction: u8 }),
        DIRECTION_IN => empty(payload, GpioReply::DirectionIn),
        DIRECTION_OUT => empty(payload, GpioReply::DirectionOut),
        GET_VALUE => read_record!(payload => GpioReply::GetValue { value: u8 }),
        SET_VALUE => empty(payload, GpioReply::SetValue),
        SET_DEBOUNCE => empty(payload, GpioReply::SetDebounce),
        IRQ_TYPE => empty(payload, GpioReply::IrqType),
        IRQ_MASK => empty(payload, GpioReply::IrqMask),
        IRQ_UNMASK => empty(payload, GpioReply::IrqUnmask),
        IRQ_EVENT => empty(payload, GpioReply::IrqEvent),
        _ => Err(PayloadFault::UnknownKind),
    }
}

/// A response that has no fields, where the payload is empty.
fn empty(payload: &[u8], reply: GpioReply) -> Result<GpioReply, PayloadFault>
    ensures { Answers gpio_reply_of (whole 0 payload.now (gpio_reply_of reply)) result }
{
    if payload.is_empty() {
        Ok(reply)
    } else {
        Err(mismatch(payload, 0))
    }
}
