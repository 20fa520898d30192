//! Requests of the GPIO protocol.

ghost use Rattle.std.specs.Prelude.{◌≡◌, IfOk, take};
ghost use Rattle.gb_formats.specs.GpioRecords.{gpio_ask_kind, gpio_ask_payload, read_gpio_ask};
ghost use Rattle.gb_formats.specs.GpioRecords.{read_gpio_ask_of_ap, read_gpio_ask_of_module};
ghost use Rattle.gb_bridge_payload.specs.Protocols.{gpio_asks};
ghost use Rattle.gb_bridge_payload.specs.Views.{gpio_ask_of};
ghost use Rattle.gb_payload.specs.Answers.{Answers};
ghost use Rattle.gb_payload.specs.Fields.{Puts};
ghost use Rattle.gb_payload.specs.Meaning.{IsRead, Means};

use crate::gpio_kinds::{
    ACTIVATE, DEACTIVATE, DIRECTION_IN, DIRECTION_OUT, GET_DIRECTION, GET_VALUE, IRQ_EVENT,
    IRQ_MASK, IRQ_TYPE, IRQ_UNMASK, LINE_COUNT, SET_DEBOUNCE, SET_VALUE,
};
use gb_base::NoRoom;
use gb_payload::Field::{U8, U16};
use gb_payload::{PayloadFault, put, read_record};

/// A request of the GPIO protocol (Greybus Specification, "GPIO Protocol").
#[derive(Clone, Copy, PartialEq, Eq)]
pub enum GpioAsk {
    /// Asks how many lines there are.
    LineCount,
    /// Makes a line active.
    Activate {
        /// The line.
        which: u8,
    },
    /// Makes a line inactive.
    Deactivate {
        /// The line.
        which: u8,
    },
    /// Asks for the direction of a line.
    GetDirection {
        /// The line.
        which: u8,
    },
    /// Makes a line an input.
    DirectionIn {
        /// The line.
        which: u8,
    },
    /// Makes a line an output.
    DirectionOut {
        /// The line.
        which: u8,
        /// The value, 0 or 1.
        value: u8,
    },
    /// Asks for the value of a line.
    GetValue {
        /// The line.
        which: u8,
    },
    /// Sets the value of a line.
    SetValue {
        /// The line.
        which: u8,
        /// The value, 0 or 1.
        value: u8,
    },
    /// Sets how long a line is to be stable.
    SetDebounce {
        /// The line.
        which: u8,
        /// How long, in microseconds.
        microseconds: u16,
    },
    /// Sets the type of interrupt of a line.
    IrqType {
        /// The line.
        which: u8,
        /// The type: 0 none, 1 rising, 2 falling, 3 both, 4 high and 8 low.
        kind: u8,
    },
    /// Masks the interrupt of a line.
    IrqMask {
        /// The line.
        which: u8,
    },
    /// Unmasks the interrupt of a line.
    IrqUnmask {
        /// The line.
        which: u8,
    },
    /// Tells of an interrupt of a line. The module makes this request.
    IrqEvent {
        /// The line.
        which: u8,
    },
}

impl GpioAsk {
    /// Reads the payload of a type.
    pub fn read(kind: u8, payload: &[u8]) -> Result<GpioAsk, PayloadFault>
        ensures answer { Answers gpio_ask_of (read_gpio_ask kind payload.now) result }
        ensures means { Means gpio_asks gpio_ask_of kind payload.now result }
    {
        row(kind, payload)
    }

    /// Reads the payload of a type of which the application processor makes the requests. The other
    /// types are unknown.
    pub fn read_of_ap(kind: u8, payload: &[u8]) -> Result<GpioAsk, PayloadFault>
        ensures { Answers gpio_ask_of (read_gpio_ask_of_ap kind payload.now) result }
    {
        match kind {
            IRQ_EVENT => Err(PayloadFault::UnknownKind),
            _ => row(kind, payload),
        }
    }

    /// Reads the payload of a type of which the module makes the requests. The other
    /// types are unknown.
    pub fn read_of_module(kind: u8, payload: &[u8]) -> Result<GpioAsk, PayloadFault>
        ensures { Answers gpio_ask_of (read_gpio_ask_of_module kind payload.now) result }
    {
        match kind {
            IRQ_EVENT => row(kind, payload),
            _ => Err(PayloadFault::UnknownKind),
        }
    }

    /// Writes the payload to the front of `out`, and answers its length. NoRoom exactly where `out`
    /// is shorter, and `out` is then unchanged.
    pub fn write(&self, out: &mut [u8]) -> Result<usize, NoRoom>
        ensures bytes { Puts (gpio_ask_payload (gpio_ask_of self.now)) out.old out.new result }
        ensures again { IfOk result
            (λ n. IsRead gpio_asks (gpio_ask_of self.now) (take n out.new)) }
    {
        match self {
            GpioAsk::LineCount => put(&[], out),
            GpioAsk::DirectionOut { which, value } => put(&[U8(*which), U8(*value)], out),
            GpioAsk::SetValue { which, value } => put(&[U8(*which), U8(*value)], out),
            GpioAsk::SetDebounce {
                which,
                microseconds,
            } => put(&[U8(*which), U16(*microseconds)], out),
            GpioAsk::IrqType { which, kind } => put(&[U8(*which), U8(*kind)], out),
            GpioAsk::Activate { which }
            | GpioAsk::Deactivate { which }
            | GpioAsk::GetDirection { which }
            | GpioAsk::DirectionIn { which }
            | GpioAsk::GetValue { which }
            | GpioAsk::IrqMask { which }
            | GpioAsk::IrqUnmask { which }
            | GpioAsk::IrqEvent { which } => put(&[U8(*which)], out),
        }
    }

    /// The type.
    pub fn kind(&self) -> u8
        ensures { result ≡ gpio_ask_kind (gpio_ask_of self.now) }
    {
        match self {
            GpioAsk::LineCount => LINE_COUNT,
            GpioAsk::Activate { .. } => ACTIVATE,
            GpioAsk::Deactivate { .. } => DEACTIVATE,
            GpioAsk::GetDirection { .. } => GET_DIRECTION,
            GpioAsk::DirectionIn { .. } => DIRECTION_IN,
            GpioAsk::DirectionOut { .. } => DIRECTION_OUT,
            GpioAsk::GetValue { .. } => GET_VALUE,
            GpioAsk::SetValue { .. } => SET_VALUE,
            GpioAsk::SetDebounce { .. } => SET_DEBOUNCE,
            GpioAsk::IrqType { .. } => IRQ_TYPE,
            GpioAsk::IrqMask { .. } => IRQ_MASK,
            GpioAsk::IrqUnmask { .. } => IRQ_UNMASK,
            GpioAsk::IrqEvent { .. } => IRQ_EVENT,
        }
    }
}

/// The record of a type that a payload is.
fn row(kind: u8, payload: &[u8]) -> Result<GpioAsk, PayloadFault>
    ensures { Answers gpio_ask_of (read_gpio_ask kind payload.now) result }
{
    match kind {
        LINE_COUNT => read_record!(payload => GpioAsk::LineCount),
        ACTIVATE => read_record!(payload => GpioAsk::Activate { which: u8 }),
        DEACTIVATE => read_record!(payload => GpioAsk::Deactivate { which: u8 }),
        GET_DIRECTION => read_record!(payload => GpioAsk::GetDirection { which: u8 }),
        DIRECTION_IN => read_record!(payload => GpioAsk::DirectionIn { which: u8 }),
        DIRECTION_OUT => read_record!(payload => GpioAsk::DirectionOut { which: u8, value: u8 }),
        GET_VALUE => read_record!(payload => GpioAsk::GetValue { which: u8 }),
        SET_VALUE => read_record!(payload => GpioAsk::SetValue { which: u8, value: u8 }),
        SET_DEBOUNCE =>
            read_record!(payload => GpioAsk::SetDebounce { which: u8, microseconds: u16 }),
        IRQ_TYPE => read_record!(payload => GpioAsk::IrqType { which: u8, kind: u8 }),
        IRQ_MASK => read_record!(payload => GpioAsk::IrqMask { which: u8 }),
        IRQ_UNMASK => read_record!(payload => GpioAsk::IrqUnmask { which: u8 }),
        IRQ_EVENT => read_record!(payload => GpioAsk::IrqEvent { which: u8 }),
        _ => Err(PayloadFault::UnknownKind),
    }
}
