//! What is counted of a message.

ghost use Rattle.std.specs.Prelude.{◌≡◌, ◌≤◌, ℕ, Bool};
ghost use Rattle.gb_capture.specs.Audits.{heard_at, is_asking, one_if};
ghost use Rattle.gb_formats.specs.Audit.{is_response};
ghost use Rattle.gb_wire.specs.MessageOf.{message_of};

use gb_wire::{Message, RESPONSE};

/// Whether a message is a response.
pub fn is_response(m: &Message<'_>) -> bool
    ensures { result ≡ is_response (message_of m.now) }
{
    m.kind >= RESPONSE
}

/// Whether a message is a request with an identifier.
pub fn is_asking(m: &Message<'_>) -> bool
    ensures { (line : ℕ) → (from_ap : Bool)
        → result ≡ is_asking (heard_at line from_ap (message_of m.now)) }
{
    m.kind < RESPONSE && m.id != 0
}

/// One where it holds, else none.
pub fn one_if(holds: bool) -> u32
    ensures value { result ≡ one_if holds }
    ensures most { result ≤ 1 }
{
    u32::from(holds)
}
