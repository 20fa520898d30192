//! What an answer says.

ghost use Rattle.std.specs.Prelude.{◌≡◌};
ghost use Rattle.gb_formats.specs.Bridges.{reading_of};
ghost use Rattle.gb_formats.specs.Protocols.{spi_protocol};

use gb_base::Reading;
use gb_bridge_payload::SpiReply;
use gb_bridge_payload::spi_kinds::MASTER_CONFIG;

/// What an answer of success to a request of this type says: the number of chip selects of the
/// master. Bad where the payload doesn't match.
pub fn reading(kind: u8, payload: &[u8]) -> Reading
    ensures { result ≡ reading_of spi_protocol kind payload.now }
{
    if kind != MASTER_CONFIG {
        return Reading::Nothing;
    }
    match SpiReply::read(kind, payload) {
        Ok(SpiReply::MasterConfig { selects, .. }) => Reading::Number(u32::from(selects)),
        Ok(_) => Reading::Nothing,
        Err(_) => Reading::Bad,
    }
}
