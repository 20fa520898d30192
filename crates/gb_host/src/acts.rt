//! What the application processor does of its own.

use gb_base::{Bytes, Entry, Purpose, Sequence};

/// What the application processor does of its own, in order.
pub type Acts = Sequence<Act>;

/// One thing that the application processor does of its own.
#[derive(Drop)]
pub enum Act {
    /// It makes a request.
    Ask {
        /// The connection.
        on: u64,
        /// The type of the request.
        kind: u8,
        /// Its payload.
        payload: Bytes,
        /// What it is for.
        purpose: Purpose,
    },
    /// It makes a connection. The request for it comes next.
    Make {
        /// The CPort of the application processor.
        ap: u16,
        /// The interface.
        intf: u8,
        /// The CPort of the module.
        cport: u16,
        /// The protocol of that CPort.
        protocol: u8,
        /// What it is for.
        purpose: Purpose,
    },
    /// It closes its side of a connection.
    Shut {
        /// The connection.
        connection: u64,
    },
    /// It gives a connection up.
    Leave {
        /// The connection.
        connection: u64,
    },
    /// It tells something.
    Tell {
        /// What.
        entry: Entry,
    },
}
