//! Why an event is refused.

/// Why an event is refused. A refused event changes nothing.
#[derive(Clone, Copy, Debug, PartialEq, Eq)]
pub enum Refusal {
    /// No module is plugged there, or the application processor knows none.
    NoInterface = 1,
    /// What the event would take is taken: the interface, the endpoint or the name.
    Occupied = 2,
    /// The interface isn't enumerated yet.
    NotEnumerated = 3,
    /// There is no such connection.
    NoConnection = 4,
    /// The connection is closing.
    Closing = 5,
    /// The interface or the connection has failed.
    Failed = 6,
    /// The request can't be sent there.
    Unsupported = 7,
    /// All 65,535 identifiers of that side of the connection are in use.
    NoLabel = 8,
    /// The module has no such CPort.
    NoCport = 9,
    /// CPorts 1 to 4,095 of the application processor are taken.
    CportsSpent = 10,
    /// The bytes don't fit.
    TooLarge = 11,
    /// The name names nothing.
    NoName = 12,
    /// The request has ended.
    AlreadyEnded = 13,
    /// No message waits there.
    QueueEmpty = 14,
    /// Fewer requests are held.
    NotHeld = 15,
    /// The UART has fewer credits.
    NoCredit = 16,
    /// All slots of the desk are taken.
    Full = 17,
    /// The module would reach beyond interface 31.
    OutOfRange = 19,
}
