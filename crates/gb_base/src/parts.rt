//! The parts of a script with requesters.

use crate::{Event, LineReason, Sequence};

/// A line of a script with requesters.
#[derive(Drop)]
pub struct Asked {
    /// Its number, from 1.
    pub line: u32,
    /// The requester whose it is, 0 to 8.
    pub who: u8,
    /// Its event.
    pub event: Event,
}

/// The lines of a script with requesters.
#[derive(Drop)]
pub struct Parts {
    /// Those that are events, up to the first bad line.
    pub asked: Sequence<Asked>,
    /// The number of the first bad line, and why it is bad.
    pub bad: Option<(u32, LineReason)>,
}
