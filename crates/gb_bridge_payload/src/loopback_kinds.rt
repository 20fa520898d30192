//! Types of the Loopback protocol (in Linux's greybus_protocols.h `GB_LOOPBACK_TYPE_..`).

/// Asks for an answer without bytes.
pub const PING: u8 = 0x02;

/// Sends bytes that come back.
pub const TRANSFER: u8 = 0x03;

/// Sends bytes that don't come back.
pub const SINK: u8 = 0x04;
