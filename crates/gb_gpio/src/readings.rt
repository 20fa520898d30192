//! What an answer says.

ghost use Rattle.std.specs.Prelude.{◌≡◌};
ghost use Rattle.gb_formats.specs.Bridges.{direction_reading, reading_of, value_reading};
ghost use Rattle.gb_formats.specs.Protocols.{gpio_protocol};

use gb_base::Reading;
use gb_bridge_payload::GpioReply;
use gb_bridge_payload::gpio_kinds::{GET_DIRECTION, GET_VALUE, LINE_COUNT};

/// What an answer of success to a request of this type says: the count of lines, the direction or
/// the value. Bad where the payload doesn't match, or a direction or value is above 1.
pub fn reading(kind: u8, payload: &[u8]) -> Reading
    ensures { result ≡ reading_of gpio_protocol kind payload.now }
{
    if !matches!(kind, LINE_COUNT | GET_DIRECTION | GET_VALUE) {
        return Reading::Nothing;
    }
    match GpioReply::read(kind, payload) {
        Ok(GpioReply::LineCount { last }) => Reading::Number(last as u32 + 1),
        Ok(GpioReply::GetDirection { direction }) => direction_read(direction),
        Ok(GpioReply::GetValue { value }) => value_read(value),
        Ok(_) => Reading::Nothing,
        Err(_) => Reading::Bad,
    }
}

/// A direction: 0 is out, 1 is in.
fn direction_read(direction: u8) -> Reading
    ensures { result ≡ direction_reading direction }
{
    match direction {
        0 => Reading::Out,
        1 => Reading::In,
        _ => Reading::Bad,
    }
}

/// A value: 0 or 1.
fn value_read(value: u8) -> Reading
    ensures { result ≡ value_reading value }
{
    match value {
        0 | 1 => Reading::Number(value as u32),
        _ => Reading::Bad,
    }
}
