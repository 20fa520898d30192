//! What a simulated link carries.

/// How many bytes the payload of a message has at most: a link carries 2,048, and 8 of them
/// are the header.
pub const MOST_PAYLOAD: usize = 2040;
