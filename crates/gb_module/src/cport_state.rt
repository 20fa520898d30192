//! The states of a CPort.

/// The state of a module's CPort (Greybus Specification, "Control Protocol").
#[derive(Clone, Copy, PartialEq, Eq)]
pub enum CportState {
    /// It isn't connected.
    Off,
    /// It is connected.
    On,
    /// It will be disconnected: it serves, but makes no request of its own.
    Quiet,
}
