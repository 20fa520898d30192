//! Types of the GPIO protocol (in Linux's greybus_protocols.h `GB_GPIO_TYPE_..`).

/// Asks how many lines there are.
pub const LINE_COUNT: u8 = 0x02;

/// Makes a line active.
pub const ACTIVATE: u8 = 0x03;

/// Makes a line inactive.
pub const DEACTIVATE: u8 = 0x04;

/// Asks for the direction of a line.
pub const GET_DIRECTION: u8 = 0x05;

/// Makes a line an input.
pub const DIRECTION_IN: u8 = 0x06;

/// Makes a line an output.
pub const DIRECTION_OUT: u8 = 0x07;

/// Asks for the value of a line.
pub const GET_VALUE: u8 = 0x08;

/// Sets the value of a line.
pub const SET_VALUE: u8 = 0x09;

/// Sets how long a line is to be stable.
pub const SET_DEBOUNCE: u8 = 0x0a;

/// Sets the type of interrupt of a line.
pub const IRQ_TYPE: u8 = 0x0b;

/// Masks the interrupt of a line.
pub const IRQ_MASK: u8 = 0x0c;

/// Unmasks the interrupt of a line.
pub const IRQ_UNMASK: u8 = 0x0d;

/// Tells of an interrupt of a line.
pub const IRQ_EVENT: u8 = 0x0e;
