//! The steps of the application processor's sequences.

/// A step of a sequence: a request, after which the sequence goes on where it is answered with
/// success. The first ten enumerate an interface, the next two connect a CPort, and the last three
/// close a connection, in the order in which Linux's Greybus core makes the same requests.
#[derive(Clone, Copy, Debug, PartialEq, Eq)]
pub enum SequenceStep {
    /// INTF_VSYS_ENABLE of the supervisory controller.
    EnableVsys,
    /// INTF_REFCLK_ENABLE of the supervisory controller.
    EnableRefclk,
    /// INTF_UNIPRO_ENABLE of the supervisory controller.
    EnableUnipro,
    /// INTF_ACTIVATE of the supervisory controller.
    Activate,
    /// INTF_DEVICE_ID of the supervisory controller.
    GiveDevice,
    /// ROUTE_CREATE of the supervisory controller.
    CreateRoute,
    /// CONN_CREATE of the supervisory controller, for the Control CPort.
    CreateControl,
    /// VERSION of the Control protocol.
    AskVersion,
    /// GET_MANIFEST_SIZE of the Control protocol.
    AskSize,
    /// GET_MANIFEST of the Control protocol.
    AskManifest,
    /// CONN_CREATE of the supervisory controller, for another CPort.
    CreateConnection,
    /// CONNECTED of the Control protocol.
    TellConnected,
    /// DISCONNECTING of the Control protocol.
    TellDisconnecting,
    /// DISCONNECTED of the Control protocol.
    TellDisconnected,
    /// CONN_DESTROY of the supervisory controller.
    DestroyConnection,
}

/// What a request of the application processor is for.
#[derive(Clone, Copy, Debug, PartialEq, Eq)]
pub struct Purpose {
    /// The interface, 2 to 31.
    pub intf: u8,
    /// The CPort, 0 to 4,095; 0 in an enumeration.
    pub cport: u16,
    /// The step.
    pub step: SequenceStep,
}
