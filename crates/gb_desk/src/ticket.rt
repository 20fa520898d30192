//! The tickets of a desk.

ghost use Rattle.std.specs.Prelude.{◌≡◌};

use gb_base::Entries;

/// A right to ask how a request ended. Its slot isn't given to another request while a ticket of it
/// lives. It has no `Drop`: release it.
pub struct Ticket {
    pub(crate) slot: usize,
    pub(crate) number: u64,
}

impl Ticket {
    /// The number of its request.
    pub fn number(&self) -> u64
        ensures { result ≡ self.now.number }
    {
        self.number
    }
}

/// What a request that was asked brought about.
pub struct Opened {
    /// What the event brought about.
    pub entries: Entries,
    /// A ticket of the request, None where the event was refused.
    pub ticket: Option<Ticket>,
}
