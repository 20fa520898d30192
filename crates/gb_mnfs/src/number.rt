//! Numbers, in decimal or in hex.

ghost use Rattle.std.specs.Prelude.{◌≡◌, ◌<◌, ◌≤◌, IfSome};
ghost use Rattle.hex.specs.Hex.{hex_digit_value};
ghost use Rattle.gb_formats.specs.SourceValues.{four_digits, source_number};

use gb_script::number_word;

/// A number up to the greatest: `0x` with one to four hex digits; or decimal, with no sign and no
/// leading zero but `0` itself.
pub fn number(word: &[u8], greatest: u16) -> Option<u16>
    ensures value { result ≡ source_number greatest word.now }
    ensures bound { IfSome result (λ n. n ≤ greatest) }
{
    if let Some(digits) = word.strip_prefix(b"0x") {
        let number = four_digits(digits)?;
        (number <= greatest).then_some(number)
    } else {
        let number = number_word(word, 0, u32::from(greatest))?;
        Some(number as u16)
    }
}

/// A number of one byte, up to the greatest.
pub fn byte(word: &[u8], greatest: u8) -> Option<u8>
    ensures { result ≡ source_number greatest word.now }
{
    let number = number(word, u16::from(greatest))?;
    Some(number as u8)
}

/// The number that one to four hex digits spell.
fn four_digits(digits: &[u8]) -> Option<u16>
    ensures { result ≡ four_digits digits.now }
{
    if digits.is_empty() || digits.len() > 4 {
        return None;
    }
    let mut number: u16 = 0;
    for d in digits {
        number = number * 16 + u16::from(hex_digit(*d)?);
    }
    Some(number)
}

/// The value of a hex digit, in either case.
pub fn hex_digit(b: u8) -> Option<u8>
    ensures value { result ≡ hex_digit_value b }
    ensures bound { IfSome result (λ d. d < 16) }
{
    match b {
        b'A'..=b'F' => Some(b - b'A' + 10),
        b'a'..=b'f' => Some(b - b'a' + 10),
        b'0'..=b'9' => Some(b - b'0'),
        _ => None,
    }
}
