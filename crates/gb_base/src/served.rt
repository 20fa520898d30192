//! What a responder answers.

ghost use Rattle.std.specs.Prelude.{◌≡◌, []};
ghost use Rattle.gb_base.specs.Bytes.{AreFew};

use crate::{Bytes, OutOfMemory, Sequence, TryCopy};

/// What a responder answers to a request.
#[derive(Drop)]
pub struct Served {
    /// The result byte of the response.
    pub result: u8,
    /// The payload of the response.
    pub payload: Bytes,
    /// The requests that the responder makes of its own, in order.
    pub asks: OwnAsks,
}

/// Requests that a module makes of its own.
pub type OwnAsks = Sequence<OwnAsk>;

/// A request that a module makes of its own.
#[derive(Drop)]
pub struct OwnAsk {
    /// The type of the request.
    pub kind: u8,
    /// Its payload.
    pub payload: Bytes,
    /// It is unidirectional, and gets no response.
    pub oneway: bool,
}

impl TryCopy for Served {
    ghost is_infallible = { λ s. AreFew s.payload × (s.asks ≡ []) };

    fn copy(&self) -> Result<Served, OutOfMemory> {
        Ok(Served {
            result: self.result,
            payload: self.payload.copy()?,
            asks: self.asks.copy()?,
        })
    }
}

impl TryCopy for OwnAsk {
    ghost is_infallible = { λ a. AreFew a.payload };

    fn copy(&self) -> Result<OwnAsk, OutOfMemory> {
        Ok(OwnAsk {
            kind: self.kind,
            payload: self.payload.copy()?,
            oneway: self.oneway,
        })
    }
}
