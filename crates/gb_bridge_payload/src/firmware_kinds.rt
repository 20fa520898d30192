//! Types of the Firmware Download protocol (in Linux's greybus_protocols.h
//! `GB_FW_DOWNLOAD_TYPE_..`).

/// Asks for the image of a tag.
pub const FIND: u8 = 0x01;

/// Asks for bytes of the image.
pub const FETCH: u8 = 0x02;

/// Gives the image back.
pub const RELEASE: u8 = 0x03;
