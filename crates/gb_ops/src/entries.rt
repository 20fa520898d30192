//! What is kept of a request, and what calls answer.

use gb_base::OutOfMemory;

/// What an identifier is in use for.
#[derive(Clone, Copy)]
pub struct Holder {
    /// The number of its request.
    pub number: u64,
    /// The request was given up, and its answer hasn't come. Otherwise it is open.
    pub given_up: bool,
}

/// An open request.
#[derive(Clone, Copy)]
pub struct Pending {
    /// Its identifier.
    pub label: u16,
    /// When it times out, in milliseconds.
    pub deadline: u64,
}

/// The request that an answer belongs to.
#[derive(Clone, Copy, PartialEq, Eq)]
pub enum Matched {
    /// The open request with this number.
    Open(u64),
    /// The request with this number, which was given up.
    Late(u64),
    /// The identifier isn't in use.
    Unknown,
}

/// Why a request isn't begun.
#[derive(Clone, Copy, PartialEq, Eq)]
pub enum BeginFault {
    /// All 65,535 identifiers are in use. All is as before.
    NoLabel,
    /// No memory was found. All is as before.
    Memory(OutOfMemory),
}
