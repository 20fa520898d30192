//! How a request ended.

ghost use Rattle.gb_base.specs.Copies.{IsSmallOutcome};

use crate::{Bytes, OutOfMemory, TryCopy};

/// How a request ended.
#[derive(Clone, Drop)]
pub enum Outcome {
    /// Its responder answered.
    Answered {
        /// The result byte of the response.
        result: u8,
        /// The payload of the response, empty where the result isn't 0.
        payload: Bytes,
    },
    /// It was cancelled.
    Cancelled,
    /// Its deadline came.
    Timeout,
    /// Its connection was closed.
    Disconnected,
    /// It is unidirectional, and was sent.
    Sent,
}

impl TryCopy for Outcome {
    ghost is_infallible = { IsSmallOutcome };

    fn copy(&self) -> Result<Outcome, OutOfMemory> {
        Ok(self.clone()?)
    }
}
