//! The history of a bus that several callers share.

use crate::{Entries, Event};

/// One event of a history, and what it brought about.
#[derive(Drop)]
pub struct JournalEntry {
    /// The tag that its caller chose.
    pub by: u8,
    /// The event.
    pub event: Event,
    /// What was answered.
    pub entries: Entries,
}
