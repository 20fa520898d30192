//! Why a payload is no record.

/// Why a payload is no record of its type.
#[derive(Clone, Copy, Debug, PartialEq, Eq)]
pub enum PayloadFault {
    /// The protocol has no record of the type.
    UnknownKind,
    /// The payload is no record of the type.
    Mismatch {
        /// The least number of its bytes after which no record of the type can go on. Where the
        /// payload is short it is the payload's length.
        at: u64,
    },
}
