//! Strings, with `\\` for a backslash and `\xNN` for a byte.

ghost use Rattle.std.specs.Prelude.{◌≡◌, ◌<◌, length, IfOk, IfSome};
ghost use Rattle.gb_formats.specs.SourceValues.{first_byte, hex_byte, source_string};

use crate::number::hex_digit;
use gb_base::{Bytes, OutOfMemory};
use std::alloc::Global;

/// The bytes of the string that a text spells, None where it spells none.
pub fn string(alloc: Global, text: &[u8]) -> Result<Option<Bytes>, OutOfMemory>
    ensures { IfOk result (λ s. s ≡ source_string text.now) }
{
    let mut string = Bytes::new(alloc);
    let mut at = 0;
    while at < text.len() {
        let Some((byte, more)) = first_byte(&text[at..]) else {
            return Ok(None);
        };
        string.push(byte)?;
        at += 1 + more;
    }
    Ok(Some(string))
}

/// The byte of a string that its text has at the front, and how many places it takes
/// besides the first.
fn first_byte(text: &[u8]) -> Option<(u8, usize)>
    requires { 0 < length text.now }
    ensures value { result ≡ first_byte text.now }
    ensures within { IfSome result (λ p. p.1 < length text.now) }
{
    if text[0] != b'\\' {
        return Some((text[0], 0));
    }
    if text.len() > 1 && text[1] == b'\\' {
        Some((b'\\', 1))
    } else if text.len() > 3 && text[1] == b'x' {
        hex_byte(text[2], text[3])
    } else {
        None
    }
}

/// The byte that two hex digits spell, and the three places that it takes.
fn hex_byte(high: u8, low: u8) -> Option<(u8, usize)>
    ensures value { result ≡ hex_byte high low }
    ensures places { IfSome result (λ p. p.1 ≡ 3) }
{
    let high = hex_digit(high)?;
    let low = hex_digit(low)?;
    Some((high * 16 + low, 3))
}
