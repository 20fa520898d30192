//! Requests of the SVC protocol.

ghost use Rattle.std.specs.Prelude.{◌≡◌, true, IfOk, take};
ghost use Rattle.gb_formats.specs.Records.{is_own, row_of};
ghost use Rattle.gb_formats.specs.SvcRecords as records;
ghost use Rattle.gb_formats.specs.SvcRecords.{read_svc_ask, read_svc_ask_of_ap};
ghost use Rattle.gb_formats.specs.SvcRecords.{read_svc_ask_of_svc, svc_ask_kind, svc_ask_payload};
ghost use Rattle.gb_payload.specs.Answers.{Answers};
ghost use Rattle.gb_payload.specs.Fields.{Puts};
ghost use Rattle.gb_payload.specs.Groups.{is_link};
ghost use Rattle.gb_payload.specs.Meaning.{IsRead, Means};
ghost use Rattle.gb_payload.specs.Protocols.{svc_asks};
ghost use Rattle.gb_payload.specs.Views.{svc_ask_of};

use crate::Field::{U8, U16};
use crate::svc_kinds::{
    CONN_CREATE, CONN_DESTROY, HELLO, INTF_ACTIVATE, INTF_DEVICE_ID, MODULE_INSERTED,
    MODULE_REMOVED, PING, PROTOCOL_VERSION, REFCLK_ENABLE, ROUTE_CREATE, ROUTE_DESTROY,
    UNIPRO_ENABLE, VSYS_ENABLE,
};
use crate::{PayloadFault, put, read_record};
use gb_base::NoRoom;

/// A request of the SVC protocol (Greybus Specification, "SVC Protocol"): what the application
/// processor asks of the supervisory controller, then what that one asks.
#[derive(Clone, Copy, PartialEq, Eq)]
pub enum SvcAsk {
    /// Gives an interface its device id.
    IntfDeviceId {
        /// The interface.
        intf: u8,
        /// The device id.
        device: u8,
    },
    /// Makes a connection between two CPorts.
    ConnCreate {
        /// The first interface.
        intf1: u8,
        /// Its CPort.
        cport1: u16,
        /// The second interface.
        intf2: u8,
        /// Its CPort.
        cport2: u16,
        /// The traffic class.
        tc: u8,
        /// The flags of the connection.
        flags: u8,
    },
    /// Takes a connection down.
    ConnDestroy {
        /// The first interface.
        intf1: u8,
        /// Its CPort.
        cport1: u16,
        /// The second interface.
        intf2: u8,
        /// Its CPort.
        cport2: u16,
    },
    /// Makes a route between two interfaces.
    RouteCreate {
        /// The first interface.
        intf1: u8,
        /// Its device id.
        dev1: u8,
        /// The second interface.
        intf2: u8,
        /// Its device id.
        dev2: u8,
    },
    /// Takes a route down.
    RouteDestroy {
        /// The first interface.
        intf1: u8,
        /// The second interface.
        intf2: u8,
    },
    /// Asks whether the supervisory controller answers.
    Ping,
    /// Switches the power of an interface on.
    VsysEnable {
        /// The interface.
        intf: u8,
    },
    /// Switches the reference clock of an interface on.
    RefclkEnable {
        /// The interface.
        intf: u8,
    },
    /// Switches the UniPro port of an interface on.
    UniproEnable {
        /// The interface.
        intf: u8,
    },
    /// Activates an interface.
    IntfActivate {
        /// The interface.
        intf: u8,
    },
    /// Offers a version of the protocol.
    ProtocolVersion {
        /// The major version.
        major: u8,
        /// The minor version.
        minor: u8,
    },
    /// Tells that the supervisory controller is up.
    Hello {
        /// The identifier of the endoskeleton.
        endo_id: u16,
        /// The interface of the application processor.
        interface_id: u8,
    },
    /// Tells that a module was inserted.
    ModuleInserted {
        /// Its primary interface.
        primary: u8,
        /// How many interfaces it has.
        count: u8,
        /// The flags of the module.
        flags: u16,
    },
    /// Tells that a module was removed.
    ModuleRemoved {
        /// Its primary interface.
        primary: u8,
    },
}

impl SvcAsk {
    /// Reads the payload of a type.
    pub fn read(kind: u8, payload: &[u8]) -> Result<SvcAsk, PayloadFault>
        ensures answer { Answers svc_ask_of (read_svc_ask kind payload.now) result }
        ensures means { Means svc_asks svc_ask_of kind payload.now result }
    {
        row(kind, payload)
    }

    /// Reads the payload of a type of which the application processor makes the requests. The other
    /// types are unknown.
    pub fn read_of_ap(kind: u8, payload: &[u8]) -> Result<SvcAsk, PayloadFault>
        ensures { Answers svc_ask_of (read_svc_ask_of_ap kind payload.now) result }
    {
        match kind {
            INTF_DEVICE_ID => {
                read_record!(payload => SvcAsk::IntfDeviceId { intf: u8, device: u8 })
            }
            CONN_CREATE => conn_create(payload),
            CONN_DESTROY => conn_destroy(payload),
            ROUTE_CREATE => route_create(payload),
            ROUTE_DESTROY => read_record!(payload => SvcAsk::RouteDestroy { intf1: u8, intf2: u8 }),
            PING => read_record!(payload => SvcAsk::Ping),
            VSYS_ENABLE => read_record!(payload => SvcAsk::VsysEnable { intf: u8 }),
            REFCLK_ENABLE => read_record!(payload => SvcAsk::RefclkEnable { intf: u8 }),
            UNIPRO_ENABLE => read_record!(payload => SvcAsk::UniproEnable { intf: u8 }),
            INTF_ACTIVATE => read_record!(payload => SvcAsk::IntfActivate { intf: u8 }),
            _ => Err(PayloadFault::UnknownKind),
        }
    }

    /// Reads the payload of a type of which the supervisory controller makes the requests. The
    /// other types are unknown.
    pub fn read_of_svc(kind: u8, payload: &[u8]) -> Result<SvcAsk, PayloadFault>
        ensures { Answers svc_ask_of (read_svc_ask_of_svc kind payload.now) result }
    {
        match kind {
            PROTOCOL_VERSION => {
                read_record!(payload => SvcAsk::ProtocolVersion { major: u8, minor: u8 })
            }
            HELLO => read_record!(payload => SvcAsk::Hello { endo_id: u16, interface_id: u8 }),
            MODULE_INSERTED => read_record!(payload => SvcAsk::ModuleInserted {
                primary: u8, count: u8, flags: u16
            }),
            MODULE_REMOVED => read_record!(payload => SvcAsk::ModuleRemoved { primary: u8 }),
            _ => Err(PayloadFault::UnknownKind),
        }
    }

    /// Writes the payload to the front of `out`, and answers its length. NoRoom exactly where `out`
    /// is shorter, and `out` is then unchanged.
    pub fn write(&self, out: &mut [u8]) -> Result<usize, NoRoom>
        ensures bytes { Puts (svc_ask_payload (svc_ask_of self.now)) out.old out.new result }
        ensures again { IfOk result
            (λ n. IsRead svc_asks (svc_ask_of self.now) (take n out.new)) }
    {
        match self {
            SvcAsk::IntfDeviceId { intf, device } => put(&[U8(*intf), U8(*device)], out),
            SvcAsk::ConnCreate { .. }
            | SvcAsk::ConnDestroy { .. }
            | SvcAsk::RouteCreate { .. }
            | SvcAsk::RouteDestroy { .. } => write_link(self, out),
            SvcAsk::Ping => put(&[], out),
            SvcAsk::VsysEnable { intf }
            | SvcAsk::RefclkEnable { intf }
            | SvcAsk::UniproEnable { intf }
            | SvcAsk::IntfActivate { intf } => put(&[U8(*intf)], out),
            SvcAsk::ProtocolVersion { major, minor } => put(&[U8(*major), U8(*minor)], out),
            SvcAsk::Hello {
                endo_id,
                interface_id,
            } => put(&[U16(*endo_id), U8(*interface_id)], out),
            SvcAsk::ModuleInserted {
                primary,
                count,
                flags,
            } => put(&[U8(*primary), U8(*count), U16(*flags)], out),
            SvcAsk::ModuleRemoved { primary } => put(&[U8(*primary)], out),
        }
    }

    /// The type.
    pub fn kind(&self) -> u8
        ensures { result ≡ svc_ask_kind (svc_ask_of self.now) }
    {
        match self {
            SvcAsk::IntfDeviceId { .. } => INTF_DEVICE_ID,
            SvcAsk::ConnCreate { .. } => CONN_CREATE,
            SvcAsk::ConnDestroy { .. } => CONN_DESTROY,
            SvcAsk::RouteCreate { .. } => ROUTE_CREATE,
            SvcAsk::RouteDestroy { .. } => ROUTE_DESTROY,
            SvcAsk::Ping => PING,
            SvcAsk::VsysEnable { .. } => VSYS_ENABLE,
            SvcAsk::RefclkEnable { .. } => REFCLK_ENABLE,
            SvcAsk::UniproEnable { .. } => UNIPRO_ENABLE,
            SvcAsk::IntfActivate { .. } => INTF_ACTIVATE,
            SvcAsk::ProtocolVersion { .. } => PROTOCOL_VERSION,
            SvcAsk::Hello { .. } => HELLO,
            SvcAsk::ModuleInserted { .. } => MODULE_INSERTED,
            SvcAsk::ModuleRemoved { .. } => MODULE_REMOVED,
        }
    }
}

/// The supervisory controller makes the requests of this type.
fn is_of_svc(kind: u8) -> bool
    ensures { result ≡ is_own (row_of records.svc_asks kind) }
{
    matches!(
        kind,
        PROTOCOL_VERSION | HELLO | MODULE_INSERTED | MODULE_REMOVED
    )
}

/// Writes the payload of a request on a connection or a route.
fn write_link(ask: &SvcAsk, out: &mut [u8]) -> Result<usize, NoRoom>
    requires { is_link (svc_ask_of ask.now) ≡ true }
    ensures bytes { Puts (svc_ask_payload (svc_ask_of ask.now)) out.old out.new result }
    ensures again { IfOk result (λ n. IsRead svc_asks (svc_ask_of ask.now) (take n out.new)) }
{
    match ask {
        SvcAsk::ConnCreate {
            intf1,
            cport1,
            intf2,
            cport2,
            tc,
            flags,
        } => put(
            &[
                U8(*intf1),
                U16(*cport1),
                U8(*intf2),
                U16(*cport2),
                U8(*tc),
                U8(*flags),
            ],
            out,
        ),
        SvcAsk::ConnDestroy {
            intf1,
            cport1,
            intf2,
            cport2,
        } => put(&[U8(*intf1), U16(*cport1), U8(*intf2), U16(*cport2)], out),
        SvcAsk::RouteCreate {
            intf1,
            dev1,
            intf2,
            dev2,
        } => put(&[U8(*intf1), U8(*dev1), U8(*intf2), U8(*dev2)], out),
        SvcAsk::RouteDestroy { intf1, intf2 } => put(&[U8(*intf1), U8(*intf2)], out),
        _ => unreachable!(),
    }
}

/// The record of a type that a payload is.
fn row(kind: u8, payload: &[u8]) -> Result<SvcAsk, PayloadFault>
    ensures { Answers svc_ask_of (read_svc_ask kind payload.now) result }
{
    if is_of_svc(kind) {
        SvcAsk::read_of_svc(kind, payload)
    } else {
        SvcAsk::read_of_ap(kind, payload)
    }
}

/// Reads the payload of a request for a connection.
fn conn_create(payload: &[u8]) -> Result<SvcAsk, PayloadFault>
    ensures { Answers svc_ask_of (read_svc_ask 0x07 payload.now) result }
{
    read_record!(payload => SvcAsk::ConnCreate {
        intf1: u8, cport1: u16, intf2: u8, cport2: u16, tc: u8, flags: u8
    })
}

/// Reads the payload of a request to take a connection down.
fn conn_destroy(payload: &[u8]) -> Result<SvcAsk, PayloadFault>
    ensures { Answers svc_ask_of (read_svc_ask 0x08 payload.now) result }
{
    read_record!(payload => SvcAsk::ConnDestroy {
        intf1: u8, cport1: u16, intf2: u8, cport2: u16
    })
}

/// Reads the payload of a request for a route.
fn route_create(payload: &[u8]) -> Result<SvcAsk, PayloadFault>
    ensures { Answers svc_ask_of (read_svc_ask 0x0b payload.now) result }
{
    read_record!(payload => SvcAsk::RouteCreate { intf1: u8, dev1: u8, intf2: u8, dev2: u8 })
}
