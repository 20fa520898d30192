//! Where requesters can be made to wait for one another.

use crate::Entries;

/// What a requester calls in its own thread before each line that it runs there.
pub trait Gate: Sync {
    /// `turn` counts this requester's calls from 1. `last` has the entries that were answered to
    /// its line before, and is empty at turn 1.
    fn before(&self, requester: u8, turn: u64, last: &Entries);
}

/// The gate that does nothing.
#[derive(Clone, Copy, Debug)]
pub struct FreeGate;

impl Gate for FreeGate {
    fn before(&self, _requester: u8, _turn: u64, _last: &Entries) {}
}
