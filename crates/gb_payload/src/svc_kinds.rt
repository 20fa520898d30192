//! Types of the SVC protocol (in Linux's greybus_protocols.h `GB_SVC_TYPE_..`).

/// The supervisory controller tells the version of its protocol.
pub const PROTOCOL_VERSION: u8 = 0x01;

/// The supervisory controller tells the endo and the interface of the application processor.
pub const HELLO: u8 = 0x02;

/// An interface gets a device id.
pub const INTF_DEVICE_ID: u8 = 0x03;

/// Two CPorts are wired.
pub const CONN_CREATE: u8 = 0x07;

/// Two CPorts are unwired.
pub const CONN_DESTROY: u8 = 0x08;

/// Two interfaces are routed.
pub const ROUTE_CREATE: u8 = 0x0b;

/// A route is taken away.
pub const ROUTE_DESTROY: u8 = 0x0c;

/// Nothing is asked but an answer.
pub const PING: u8 = 0x13;

/// The supervisory controller tells of a module that was plugged.
pub const MODULE_INSERTED: u8 = 0x1f;

/// The supervisory controller tells of a module that was pulled.
pub const MODULE_REMOVED: u8 = 0x20;

/// The power of an interface is switched on.
pub const VSYS_ENABLE: u8 = 0x21;

/// The clock of an interface is switched on.
pub const REFCLK_ENABLE: u8 = 0x23;

/// The link of an interface is switched on.
pub const UNIPRO_ENABLE: u8 = 0x25;

/// An interface is activated.
pub const INTF_ACTIVATE: u8 = 0x27;
