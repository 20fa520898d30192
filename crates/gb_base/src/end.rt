//! The ends of connections.

/// One end of a connection: who handles a message there.
#[derive(Clone, Copy, Debug, PartialEq, Eq)]
pub enum End {
    /// The CPort of the application processor with this number, 0 to 4,095.
    Ap(u16),
    /// The supervisory controller, on its CPort 0.
    Svc,
    /// A CPort of a module.
    Module {
        /// The interface, 2 to 31.
        intf: u8,
        /// The CPort, 0 to 4,095.
        cport: u16,
    },
}

/// A side of a connection.
#[derive(Clone, Copy, Debug, PartialEq, Eq)]
pub enum Side {
    /// The side of the application processor.
    Ap,
    /// The side of the supervisory controller or the module.
    Far,
}
