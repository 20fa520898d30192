//! What the application processor answers.

use gb_base::{Bytes, Entry, HostEvent};

/// What the application processor answers to a request, and what follows from it.
#[derive(Drop)]
pub struct HostServed {
    /// The result byte of the response (Greybus Specification, "Operation Status Values").
    pub result: u8,
    /// The payload of the response.
    pub payload: Bytes,
    /// What is told after the response.
    pub tell: Option<Entry>,
    /// What it takes notice of once the response is queued.
    pub then: Option<HostEvent>,
}
