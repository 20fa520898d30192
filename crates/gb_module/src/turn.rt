//! How the state of a CPort changes.

/// A change of a CPort's state (Greybus Specification, "Control Protocol").
#[derive(Clone, Copy)]
pub enum Turn {
    /// From off to on, which puts its device in its first state.
    Connected,
    /// From on to quiet.
    Disconnecting,
    /// From quiet to off.
    Disconnected,
}
