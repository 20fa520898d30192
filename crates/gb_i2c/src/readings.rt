//! What an answer says.

ghost use Rattle.std.specs.Prelude.{◌≡◌};
ghost use Rattle.gb_formats.specs.Bridges.{reading_of};
ghost use Rattle.gb_formats.specs.Protocols.{i2c_protocol};

use gb_base::Reading;
use gb_bridge_payload::I2cReply;
use gb_bridge_payload::i2c_kinds::FUNCTIONALITY;

/// What an answer of success to a request of this type says: what the adapter can do, as a number.
/// Bad where the payload doesn't match.
pub fn reading(kind: u8, payload: &[u8]) -> Reading
    ensures { result ≡ reading_of i2c_protocol kind payload.now }
{
    if kind != FUNCTIONALITY {
        return Reading::Nothing;
    }
    match I2cReply::read(kind, payload) {
        Ok(I2cReply::Functionality { flags }) => Reading::Number(flags),
        Ok(I2cReply::Transfer { .. }) => Reading::Nothing,
        Err(_) => Reading::Bad,
    }
}
