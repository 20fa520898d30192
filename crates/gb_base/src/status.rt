//! How a run of the program ended.

/// How a run of the program ended. Its number is the exit status.
#[derive(Clone, Copy, Debug, PartialEq, Eq)]
pub enum Status {
    /// All input was read, and all output written.
    Success = 0,
    /// The input isn't in its grammar.
    Refused = 1,
    /// The words are none of the program's.
    Usage = 2,
    /// The input has more than 1,048,576 bytes.
    TooLong = 3,
    /// A read failed.
    ReadFault = 4,
    /// A write failed.
    WriteFault = 5,
    /// No memory was found.
    NoMemory = 6,
}
