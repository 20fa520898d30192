//! Responses of the SVC protocol.

ghost use Rattle.std.specs.Prelude.{◌≡◌, IfOk, take};
ghost use Rattle.gb_formats.specs.Records.{whole};
ghost use Rattle.gb_formats.specs.SvcRecords.{read_svc_reply, svc_reply_kind, svc_reply_payload};
ghost use Rattle.gb_payload.specs.Answers.{Answers};
ghost use Rattle.gb_payload.specs.Fields.{Puts};
ghost use Rattle.gb_payload.specs.Meaning.{IsRead, Means};
ghost use Rattle.gb_payload.specs.Protocols.{svc_replies};
ghost use Rattle.gb_payload.specs.Views.{svc_reply_of};

use crate::Field::U8;
use crate::svc_kinds::{
    CONN_CREATE, CONN_DESTROY, HELLO, INTF_ACTIVATE, INTF_DEVICE_ID, MODULE_INSERTED,
    MODULE_REMOVED, PING, PROTOCOL_VERSION, REFCLK_ENABLE, ROUTE_CREATE, ROUTE_DESTROY,
    UNIPRO_ENABLE, VSYS_ENABLE,
};
use crate::{PayloadFault, mismatch, put, read_record};
use gb_base::NoRoom;

/// The type of an interface that speaks Greybus (in Linux's greybus_protocols.h
/// `GB_SVC_INTF_TYPE_GREYBUS`).
pub const GREYBUS: u8 = 0x03;

/// A response of the SVC protocol (Greybus Specification, "SVC Protocol"), in the order
/// of the requests.
#[derive(Clone, Copy, PartialEq, Eq)]
pub enum SvcReply {
    /// The interface has its device id.
    IntfDeviceId,
    /// The connection is made.
    ConnCreate,
    /// The connection is down.
    ConnDestroy,
    /// The route is made.
    RouteCreate,
    /// The route is down.
    RouteDestroy,
    /// The supervisory controller answers.
    Ping,
    /// Whether the power is on.
    VsysEnable {
        /// The result, 0 where it is on.
        result: u8,
    },
    /// Whether the reference clock is on.
    RefclkEnable {
        /// The result, 0 where it is on.
        result: u8,
    },
    /// Whether the UniPro port is on.
    UniproEnable {
        /// The result, 0 where it is on.
        result: u8,
    },
    /// How the activation went.
    IntfActivate {
        /// The status, 0 for success.
        status: u8,
        /// The type of the interface, `GREYBUS` for one that speaks it.
        kind: u8,
    },
    /// The version that is taken.
    ProtocolVersion {
        /// The major version.
        major: u8,
        /// The minor version.
        minor: u8,
    },
    /// The supervisory controller is known to be up.
    Hello,
    /// The module is known.
    ModuleInserted,
    /// The removal is known.
    ModuleRemoved,
}

impl SvcReply {
    /// Reads the payload of a type.
    pub fn read(kind: u8, payload: &[u8]) -> Result<SvcReply, PayloadFault>
        ensures answer { Answers svc_reply_of (read_svc_reply kind payload.now) result }
        ensures means { Means svc_replies svc_reply_of kind payload.now result }
    {
        row(kind, payload)
    }

    /// Writes the payload to the front of `out`, and answers its length. NoRoom exactly where `out`
    /// is shorter, and `out` is then unchanged.
    pub fn write(&self, out: &mut [u8]) -> Result<usize, NoRoom>
        ensures bytes { Puts (svc_reply_payload (svc_reply_of self.now)) out.old out.new result }
        ensures again { IfOk result
            (λ n. IsRead svc_replies (svc_reply_of self.now) (take n out.new)) }
    {
        match self {
            SvcReply::VsysEnable { result }
            | SvcReply::RefclkEnable { result }
            | SvcReply::UniproEnable { result } => put(&[U8(*result)], out),
            SvcReply::IntfActivate { status, kind } => put(&[U8(*status), U8(*kind)], out),
            SvcReply::ProtocolVersion { major, minor } => put(&[U8(*major), U8(*minor)], out),
            SvcReply::IntfDeviceId
            | SvcReply::ConnCreate
            | SvcReply::ConnDestroy
            | SvcReply::RouteCreate
            | SvcReply::RouteDestroy
            | SvcReply::Ping
            | SvcReply::Hello
            | SvcReply::ModuleInserted
            | SvcReply::ModuleRemoved => put(&[], out),
        }
    }

    /// The type of the request.
    pub fn kind(&self) -> u8
        ensures { result ≡ svc_reply_kind (svc_reply_of self.now) }
    {
        match self {
            SvcReply::IntfDeviceId => INTF_DEVICE_ID,
            SvcReply::ConnCreate => CONN_CREATE,
            SvcReply::ConnDestroy => CONN_DESTROY,
            SvcReply::RouteCreate => ROUTE_CREATE,
            SvcReply::RouteDestroy => ROUTE_DESTROY,
            SvcReply::Ping => PING,
            SvcReply::VsysEnable { .. } => VSYS_ENABLE,
            SvcReply::RefclkEnable { .. } => REFCLK_ENABLE,
            SvcReply::UniproEnable { .. } => UNIPRO_ENABLE,
            SvcReply::IntfActivate { .. } => INTF_ACTIVATE,
            SvcReply::ProtocolVersion { .. } => PROTOCOL_VERSION,
            SvcReply::Hello => HELLO,
            SvcReply::ModuleInserted => MODULE_INSERTED,
            SvcReply::ModuleRemoved => MODULE_REMOVED,
        }
    }
}

/// The record of a type that a payload is.
fn row(kind: u8, payload: &[u8]) -> Result<SvcReply, PayloadFault>
    ensures { Answers svc_reply_of (read_svc_reply kind payload.now) result }
{
    match kind {
        INTF_DEVICE_ID => empty(payload, SvcReply::IntfDeviceId),
        CONN_CREATE => empty(payload, SvcReply::ConnCreate),
        CONN_DESTROY => empty(payload, SvcReply::ConnDestroy),
        ROUTE_CREATE => empty(payload, SvcReply::RouteCreate),
        ROUTE_DESTROY => empty(payload, SvcReply::RouteDestroy),
        PING => empty(payload, SvcReply::Ping),
        VSYS_ENABLE => read_record!(payload => SvcReply::VsysEnable { result: u8 }),
        REFCLK_ENABLE => read_record!(payload => SvcReply::RefclkEnable { result: u8 }),
        UNIPRO_ENABLE => read_record!(payload => SvcReply::UniproEnable { result: u8 }),
        INTF_ACTIVATE => read_record!(payload => SvcReply::IntfActivate { status: u8, kind: u8 }),
        PROTOCOL_VERSION => read_record!(payload => SvcReply::ProtocolVersion {
            major: u8, minor: u8
        }),
        HELLO => empty(payload, SvcReply::Hello),
        MODULE_INSERTED => empty(payload, SvcReply::ModuleInserted),
        MODULE_REMOVED => empty(payload, SvcReply::ModuleRemoved),
        _ => Err(PayloadFault::UnknownKind),
    }
}

/// A response that has no fields, where the payload is empty.
fn empty(payload: &[u8], reply: SvcReply) -> Result<SvcReply, PayloadFault>
    ensures { Answers svc_reply_of (whole 0 payload.now (svc_reply_of reply)) result }
{
    if payload.is_empty() {
        Ok(reply)
    } else {
        Err(mismatch(payload, 0))
    }
}
