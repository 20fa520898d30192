//! The errors that calls of several crates answer.

ghost use Rattle.std.specs.Prelude.{◌≡◌, ◌+◌, ◌<◌, IfOk, OnErr};

use std::alloc::{AllocError, AllocFailed};
use thiserror::Error;

/// The outside failed: a read or a write of the object that was handed in.
#[derive(Clone, Copy, Debug, PartialEq, Eq, Error)]
#[error("failed")]
pub struct Failed;

/// The buffer that was handed in is too short. Nothing was written.
#[derive(Clone, Copy, Debug, PartialEq, Eq, Error)]
#[error("no room")]
pub struct NoRoom;

/// No memory was found. It is a type of its own everywhere, and is merged with no other error.
/// Only a refusal of the standard library and a sum that is too great make one (`sum`), so what
/// answers it was refused, or was handed what tells of a refusal.
#[derive(Clone, Copy, Debug, PartialEq, Eq)]
pub struct OutOfMemory {
    refused: (),
}

impl From<AllocError> for OutOfMemory {
    fn from(_refused: AllocError) -> OutOfMemory {
        OutOfMemory { refused: () }
    }
}

/// So that `clone` can be a copy.
impl From<OutOfMemory> for AllocError {
    fn from(_refused: OutOfMemory) -> AllocError {
        AllocError
    }
}

impl<T: Drop> From<AllocFailed<T>> for OutOfMemory {
    fn from(_refused: AllocFailed<T>) -> OutOfMemory {
        OutOfMemory { refused: () }
    }
}

/// The sum of two numbers. Want of memory comes exactly where it has no 64 bits to stand in: where
/// numbers of requests or connections, or the time, are used up.
pub fn sum(a: u64, b: u64) -> Result<u64, OutOfMemory>
    ensures sum { IfOk result (λ n. n ≡ a + b) }
    ensures cause { OnErr result (18446744073709551615 < a + b) }
{
    match a.checked_add(b) {
        Some(n) => Ok(n),
        None => Err(OutOfMemory { refused: () }),
    }
}
