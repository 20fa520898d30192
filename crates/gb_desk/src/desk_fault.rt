//! Why a call on a desk did nothing.

use gb_base::OutOfMemory;

/// Why a call on a desk did nothing. They are tried in this order, but that want of memory, once it
/// was met, comes right behind `Busy`.
#[derive(Clone, Copy, Debug, PartialEq, Eq)]
pub enum DeskFault {
    /// Another caller had the turn, which a pass with all parts never hears. Nobody waits: try again.
    Busy,
    /// The history is as long as it can get: 4,294,967,295 events, with those that the system had
    /// taken before.
    JournalSpent,
    /// The pass holds as many tickets as it has parts.
    PassSpent,
    /// Each of the 256 slots had a request that was open or had a ticket, when it was looked at. A
    /// ticket of another pass may have come back since.
    Full,
    /// No memory was found, now or in an earlier call. Every later call that gets the turn answers
    /// this, with what was refused then, but `outcome`, which goes on to tell.
    Memory(OutOfMemory),
}

/// Another caller had the turn, which a pass with all parts never hears. Nobody waits: try again.
#[derive(Clone, Copy, Debug, PartialEq, Eq)]
pub struct Busy;

/// The pass holds as many tickets as it has parts.
#[derive(Clone, Copy, Debug, PartialEq, Eq)]
pub struct PassSpent;
