//! What an interface is asked to rise to, and why it doesn't.

/// A rung of the power sequence: what the application processor asks for an interface (Greybus
/// Specification, "SVC Protocol"; in Linux's greybus_protocols.h `GB_SVC_TYPE_INTF_..`).
#[derive(Clone, Copy, Debug)]
pub enum Rung {
    /// Its power. Something has to be plugged.
    Vsys,
    /// Its reference clock.
    Refclk,
    /// Its UniPro port.
    Unipro,
    /// It becomes active.
    Active,
    /// This device id, of 2 to 31.
    Device(u8),
    /// A route from the application processor to this device id, which has to be its own.
    Route(u8),
}

/// Why an interface doesn't climb a rung.
#[derive(Clone, Copy, PartialEq, Eq)]
pub enum NotReady {
    /// What comes before the rung isn't done, or a route leads to a device id that
    /// the interface hasn't.
    Below,
    /// The device id isn't of 2 to 31, another interface has it, or the interface is routed.
    Taken,
}

/// The interface has no route.
#[derive(Clone, Copy, PartialEq, Eq)]
pub struct NotRouted;
