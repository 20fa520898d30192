//! What the application processor takes notice of.

use crate::Outcome;

/// What the application processor takes notice of.
#[derive(Drop)]
pub enum HostEvent {
    /// MODULE_INSERTED was handled.
    Inserted {
        /// The primary interface of the module, 2 to 31.
        primary: u8,
        /// How many interfaces it has, from the primary on: 1 to 4.
        count: u8,
    },
    /// MODULE_REMOVED was handled.
    Removed {
        /// The primary interface of the module, 2 to 31.
        primary: u8,
    },
    /// A connection is to be made.
    Connect {
        /// The interface, 2 to 31.
        intf: u8,
        /// The CPort of the module.
        cport: u16,
    },
    /// A connection is to be closed.
    Disconnect {
        /// The interface, 2 to 31.
        intf: u8,
        /// The CPort of the module.
        cport: u16,
    },
    /// A connection is to be closed once the requests on it have ended.
    Drain {
        /// The interface, 2 to 31.
        intf: u8,
        /// The CPort of the module.
        cport: u16,
    },
    /// No request of the application processor is open on a connection.
    Idle {
        /// The connection.
        connection: u64,
    },
    /// A request ended.
    Ended {
        /// The request.
        number: u64,
        /// How.
        outcome: Outcome,
    },
}
