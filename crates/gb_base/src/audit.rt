//! What an audit of a capture finds.

/// How a message of a capture breaks the pairing of requests and responses.
#[derive(Clone, Copy, Debug, PartialEq, Eq)]
pub enum Finding {
    /// A response that speaks of no request: its identifier is 0, or no earlier request of the
    /// other direction has it.
    Orphan,
    /// A response to a request that was answered before.
    Double {
        /// The line of the request.
        asked: u32,
    },
    /// A response that repeats another type than its request's.
    OtherType {
        /// The line of the request.
        asked: u32,
    },
    /// A request with the identifier of an earlier one of its direction that isn't answered.
    Reused {
        /// The line of the earlier request.
        asked: u32,
    },
}

/// What an audit counted.
#[derive(Clone, Copy, Debug, PartialEq, Eq)]
pub struct Verdict {
    /// Messages that break the pairing.
    pub faults: u32,
    /// Responses that are in a pair with their request.
    pub pairs: u32,
    /// Requests with an identifier that are in no pair.
    pub unpaired: u32,
}
