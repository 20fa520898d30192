//! Types of the Control protocol (in Linux's greybus_protocols.h `GB_CONTROL_TYPE_..`).

/// The versions of the protocol are compared.
pub const VERSION: u8 = 0x01;

/// The size of the manifest is asked for.
pub const GET_MANIFEST_SIZE: u8 = 0x03;

/// The manifest is asked for.
pub const GET_MANIFEST: u8 = 0x04;

/// A CPort of the module is connected.
pub const CONNECTED: u8 = 0x05;

/// A CPort of the module is disconnected.
pub const DISCONNECTED: u8 = 0x06;

/// A CPort of the module is about to be disconnected.
pub const DISCONNECTING: u8 = 0x0c;
