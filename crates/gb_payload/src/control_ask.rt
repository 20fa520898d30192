//! Requests of the Control protocol.

ghost use Rattle.std.specs.Prelude.{◌≡◌, IfOk, take};
ghost use Rattle.gb_formats.specs.ControlRecords.{read_control_ask, control_ask_kind};
ghost use Rattle.gb_formats.specs.ControlRecords.{control_ask_payload};
ghost use Rattle.gb_payload.specs.Answers.{Answers};
ghost use Rattle.gb_payload.specs.Fields.{Puts};
ghost use Rattle.gb_payload.specs.Meaning.{IsRead, Means};
ghost use Rattle.gb_payload.specs.Protocols.{control_asks};
ghost use Rattle.gb_payload.specs.Views.{control_ask_of};

use crate::Field::{U8, U16};
use crate::control_kinds::{
    CONNECTED, DISCONNECTED, DISCONNECTING, GET_MANIFEST, GET_MANIFEST_SIZE, VERSION,
};
use crate::{PayloadFault, put, read_record};
use gb_base::NoRoom;

/// A request of the Control protocol (Greybus Specification, "Control Protocol"), which the
/// application processor makes of a module.
#[derive(Clone, Copy, PartialEq, Eq)]
pub enum ControlAsk {
    /// Offers a version of the protocol.
    Version {
        /// The major version.
        major: u8,
        /// The minor version.
        minor: u8,
    },
    /// Asks how long the manifest is.
    GetManifestSize,
    /// Asks for the manifest.
    GetManifest,
    /// Tells that a CPort was connected.
    Connected {
        /// The CPort.
        cport: u16,
    },
    /// Tells that a CPort was disconnected.
    Disconnected {
        /// The CPort.
        cport: u16,
    },
    /// Tells that a CPort will be disconnected.
    Disconnecting {
        /// The CPort.
        cport: u16,
    },
}

impl ControlAsk {
    /// Reads the payload of a type.
    pub fn read(kind: u8, payload: &[u8]) -> Result<ControlAsk, PayloadFault>
        ensures answer { Answers control_ask_of (read_control_ask kind payload.now) result }
        ensures means { Means control_asks control_ask_of kind payload.now result }
    {
        row(kind, payload)
    }

    /// Writes the payload to the front of `out`, and answers its length. NoRoom exactly where `out`
    /// is shorter, and `out` is then unchanged.
    pub fn write(&self, out: &mut [u8]) -> Result<usize, NoRoom>
        ensures bytes { Puts (control_ask_payload (control_ask_of self.now)) out.old out.new
            result }
        ensures again { IfOk result
            (λ n. IsRead control_asks (control_ask_of self.now) (take n out.new)) }
    {
        match self {
            ControlAsk::Version { major, minor } => put(&[U8(*major), U8(*minor)], out),
            ControlAsk::GetManifestSize | ControlAsk::GetManifest => put(&[], out),
            ControlAsk::Connected { cport }
            | ControlAsk::Disconnected { cport }
            | ControlAsk::Disconnecting { cport } => put(&[U16(*cport)], out),
        }
    }

    /// The type.
    pub fn kind(&self) -> u8
        ensures { result ≡ control_ask_kind (control_ask_of self.now) }
    {
        match self {
            ControlAsk::Version { .. } => VERSION,
            ControlAsk::GetManifestSize => GET_MANIFEST_SIZE,
            ControlAsk::GetManifest => GET_MANIFEST,
            ControlAsk::Connected { .. } => CONNECTED,
            ControlAsk::Disconnected { .. } => DISCONNECTED,
            ControlAsk::Disconnecting { .. } => DISCONNECTING,
        }
    }
}

/// The record of a type that a payload is.
fn row(kind: u8, payload: &[u8]) -> Result<ControlAsk, PayloadFault>
    ensures { Answers control_ask_of (read_control_ask kind payload.now) result }
{
    match kind {
        VERSION => read_record!(payload => ControlAsk::Version { major: u8, minor: u8 }),
        GET_MANIFEST_SIZE => read_record!(payload => ControlAsk::GetManifestSize),
        GET_MANIFEST => read_record!(payload => ControlAsk::GetManifest),
        CONNECTED => read_record!(payload => ControlAsk::Connected { cport: u16 }),
        DISCONNECTED => read_record!(payload => ControlAsk::Disconnected { cport: u16 }),
        DISCONNECTING => read_record!(payload => ControlAsk::Disconnecting { cport: u16 }),
        _ => Err(PayloadFault::UnknownKind),
    }
}
