//! What the supervisory controller answers.

use arrayvec::ArrayVec;

/// What the supervisory controller answers to a request, or what the connections are still to
/// decide. A connection is given by its CPort of the application processor, and the interface and
/// CPort of the module.
#[derive(Drop)]
pub enum SvcServed {
    /// The answer.
    Answer {
        /// The result byte (Greybus Specification, "Operation Status Values").
        result: u8,
        /// The payload.
        payload: ArrayVec<u8, 2>,
    },
    /// A connection is to be wired.
    Create {
        /// The CPort of the application processor.
        ap: u16,
        /// The interface.
        intf: u8,
        /// Its CPort.
        cport: u16,
    },
    /// A connection is to be unwired.
    Destroy {
        /// The CPort of the application processor.
        ap: u16,
        /// The interface.
        intf: u8,
        /// Its CPort.
        cport: u16,
    },
    /// A routed interface is to lose its route, unless it has a wired connection.
    Unroute {
        /// The interface.
        intf: u8,
    },
}
