//! Types of the I2C protocol (in Linux's greybus_protocols.h `GB_I2C_TYPE_..`).

/// Asks what the adapter can do.
pub const FUNCTIONALITY: u8 = 0x02;

/// Reads and writes.
pub const TRANSFER: u8 = 0x05;
