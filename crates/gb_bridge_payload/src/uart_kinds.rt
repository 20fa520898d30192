//! Types of the UART protocol (in Linux's greybus_protocols.h `GB_UART_TYPE_..`).

/// Sends bytes.
pub const SEND_DATA: u8 = 0x02;

/// Hands over bytes that came in.
pub const RECEIVE_DATA: u8 = 0x03;

/// Sets the line coding.
pub const SET_LINE_CODING: u8 = 0x04;

/// Sets the control lines.
pub const SET_CONTROL_LINE_STATE: u8 = 0x05;

/// Sets the break condition.
pub const SEND_BREAK: u8 = 0x06;

/// Tells of the state of the serial lines.
pub const SERIAL_STATE: u8 = 0x07;

/// Gives credits.
pub const RECEIVE_CREDITS: u8 = 0x08;

/// Empties buffers.
pub const FLUSH_FIFOS: u8 = 0x09;
