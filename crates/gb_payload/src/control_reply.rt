//! Responses of the Control protocol.

ghost use Rattle.std.specs.Prelude.{◌≡◌, IfOk, take};
ghost use Rattle.gb_formats.specs.ControlRecords.{read_control_reply, control_reply_kind};
ghost use Rattle.gb_formats.specs.ControlRecords.{control_reply_payload};
ghost use Rattle.gb_payload.specs.Answers.{Answers};
ghost use Rattle.gb_payload.specs.Fields.{Puts};
ghost use Rattle.gb_payload.specs.Meaning.{IsRead, Means};
ghost use Rattle.gb_payload.specs.Protocols.{control_replies};
ghost use Rattle.gb_payload.specs.Views.{control_reply_of};

use crate::Field::{Bytes, U8, U16};
use crate::control_kinds::{
    CONNECTED, DISCONNECTED, DISCONNECTING, GET_MANIFEST, GET_MANIFEST_SIZE, VERSION,
};
use crate::{PayloadFault, put, read_record};
use gb_base::NoRoom;

/// A response of the Control protocol (Greybus Specification, "Control Protocol").
#[derive(Clone, Copy, PartialEq, Eq)]
pub enum ControlReply<'a> {
    /// The version that is taken.
    Version {
        /// The major version.
        major: u8,
        /// The minor version.
        minor: u8,
    },
    /// How long the manifest is.
    GetManifestSize {
        /// Its length in bytes.
        size: u16,
    },
    /// The manifest.
    GetManifest {
        /// Its bytes.
        bytes: &'a [u8],
    },
    /// The CPort is on.
    Connected,
    /// The CPort is off.
    Disconnected,
    /// The CPort makes no more requests.
    Disconnecting,
}

impl<'a> ControlReply<'a> {
    /// Reads the payload of a type.
    pub fn read(kind: u8, payload: &'a [u8]) -> Result<ControlReply<'a>, PayloadFault>
        ensures answer { Answers control_reply_of (read_control_reply kind payload.now) result }
        ensures means { Means control_replies control_reply_of kind payload.now result }
    {
        row(kind, payload)
    }

    /// Writes the payload to the front of `out`, and answers its length. NoRoom exactly where `out`
    /// is shorter, and `out` is then unchanged.
    pub fn write(&self, out: &mut [u8]) -> Result<usize, NoRoom>
        ensures bytes { Puts (control_reply_payload (control_reply_of self.now))
            out.old out.new result }
        ensures again { IfOk result
            (λ n. IsRead control_replies (control_reply_of self.now) (take n out.new)) }
    {
        match self {
            ControlReply::Version { major, minor } => put(&[U8(*major), U8(*minor)], out),
            ControlReply::GetManifestSize { size } => put(&[U16(*size)], out),
            ControlReply::GetManifest { bytes } => put(&[Bytes(bytes)], out),
            ControlReply::Connected | ControlReply::Disconnected | ControlReply::Disconnecting =>
                put(&[], out),
        }
    }

    /// The type of the request.
    pub fn kind(&self) -> u8
        ensures { result ≡ control_reply_kind (control_reply_of self.now) }
    {
        match self {
            ControlReply::Version { .. } => VERSION,
            ControlReply::GetManifestSize { .. } => GET_MANIFEST_SIZE,
            ControlReply::GetManifest { .. } => GET_MANIFEST,
            ControlReply::Connected => CONNECTED,
            ControlReply::Disconnected => DISCONNECTED,
            ControlReply::Disconnecting => DISCONNECTING,
        }
    }
}

/// The record of a type that a payload is.
fn row(kind: u8, payload: &[u8]) -> Result<ControlReply<'_>, PayloadFault>
    ensures { Answers control_reply_of (read_control_reply kind payload.now) result }
{
    match kind {
        VERSION => read_record!(payload => ControlReply::Version { major: u8, minor: u8 }),
        GET_MANIFEST_SIZE => read_record!(payload => ControlReply::GetManifestSize { size: u16 }),
        GET_MANIFEST => Ok(ControlReply::GetManifest { bytes: payload }),
        CONNECTED => read_record!(payload => ControlReply::Connected),
        DISCONNECTED => read_record!(payload => ControlReply::Disconnected),
        DISCONNECTING => read_record!(payload => ControlReply::Disconnecting),
        _ => Err(PayloadFault::UnknownKind),
    }
}
