//! Types of the SPI protocol (in Linux's greybus_protocols.h `GB_SPI_TYPE_..`).

/// Asks what the master can do.
pub const MASTER_CONFIG: u8 = 0x02;

/// Asks what the device at a chip select can do.
pub const DEVICE_CONFIG: u8 = 0x03;

/// Reads and writes.
pub const TRANSFER: u8 = 0x04;
