//! Where and why bytes aren't a manifest.

use gb_base::Reason;

/// The first step of the table of refusals that the bytes meet.
#[derive(Clone, Copy, Debug, PartialEq, Eq)]
pub struct Refused {
    /// The place, in bytes from the front.
    pub at: u32,
    /// The reason.
    pub reason: Reason,
}

impl Refused {
    ghost use Rattle.std.specs.Prelude.{◌≡◌};

    /// A refusal at a place.
    pub(crate) fn new(at: u32, reason: Reason) -> Refused
        ensures { result ≡ record { at = at; reason = reason } }
    {
        Refused { at, reason }
    }
}
