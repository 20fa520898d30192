//! What an answer says.

ghost use Rattle.std.specs.Prelude.{◌≡◌};
ghost use Rattle.gb_formats.specs.Bridges.{reading_of};
ghost use Rattle.gb_formats.specs.Protocols.{uart_protocol};

use gb_base::Reading;

/// What an answer of success to a request of this type says: nothing.
pub fn reading(_kind: u8, _payload: &[u8]) -> Reading
    ensures { result ≡ reading_of uart_protocol _kind _payload.now }
{
    Reading::Nothing
}
