//! The numbers of protocols (in Linux's greybus_manifest.h `GREYBUS_PROTOCOL_..`).

/// The protocol of a module's Control CPort.
pub const CONTROL: u8 = 0x00;

/// The protocol of a GPIO controller.
pub const GPIO: u8 = 0x02;

/// The protocol of an I2C adapter.
pub const I2C: u8 = 0x03;

/// The protocol of a UART.
pub const UART: u8 = 0x04;

/// The protocol of an SPI master.
pub const SPI: u8 = 0x0b;

/// The protocol of a loopback device.
pub const LOOPBACK: u8 = 0x11;

/// The protocol of the supervisory controller.
pub const SVC: u8 = 0x14;

/// The protocol of a firmware device, which downloads images.
pub const FIRMWARE: u8 = 0x17;
