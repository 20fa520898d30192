//! What a device answers.

ghost use Rattle.std.specs.Prelude.{◌≡◌, [], IfOk, IsOk};
ghost use Rattle.gb_base.specs.Bytes.{AreFew};
ghost use Rattle.gb_formats.specs.Results.{answer_of, refusal_of};

use gb_base::{Bytes, OutOfMemory, OwnAsks, Served};
use gb_payload::SUCCESS;
use std::alloc::Global;

/// The answer of success with this payload, and no requests of the device's own. A payload of few
/// bytes takes no memory.
pub fn answered(alloc: Global, payload: &[u8]) -> Result<Served, OutOfMemory>
    ensures same { IfOk result (λ served. served ≡ answer_of payload.now) }
    ensures few { AreFew payload.now → IsOk result }
{
    Ok(Served {
        result: SUCCESS,
        payload: Bytes::from_slice(alloc, payload)?,
        asks: OwnAsks::new(alloc),
    })
}

/// The answer of success with no payload. It takes no memory.
pub fn done(alloc: Global) -> Served
    ensures { result ≡ answer_of [] }
{
    refused(alloc, SUCCESS)
}

/// The answer of a result alone. It takes no memory.
pub fn refused(alloc: Global, code: u8) -> Served
    ensures { result ≡ refusal_of code }
{
    Served {
        result: code,
        payload: Bytes::new(alloc),
        asks: OwnAsks::new(alloc),
    }
}
