//! Reads the first fields of a payload whose size they tell.

ghost use Rattle.std.specs.Prelude.{◌≡◌, ◌<◌, ◌≤◌, IfOk, IfErr, length, take};
ghost use Rattle.gb_formats.specs.Records as formats;
ghost use Rattle.gb_payload.specs.Answers.{fault_of};

use gb_payload::PayloadFault;

/// The first `size` bytes of a payload. One with fewer is no record of its type, and its place is
/// its end.
pub fn front(payload: &[u8], size: usize) -> Result<&[u8], PayloadFault>
    ensures ok { IfOk result
        (λ first. (size ≤ length payload.now) × (first.now ≡ take size payload.now)) }
    ensures err { IfErr result (λ why. (length payload.now < size)
        × (fault_of why ≡ formats.PayloadFault.Mismatch (length payload.now))) }
{
    if payload.len() < size {
        return Err(PayloadFault::Mismatch {
            at: payload.len() as u64,
        });
    }
    Ok(&payload[..size])
}
