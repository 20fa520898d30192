//! What single words mean: numbers, names and kinds of interface.

ghost use Rattle.std.specs.Prelude.{◌≡◌, ◌≤◌, ◌==◌, ◌&&◌, ◌||◌, nat_lt, length, slice_index};
ghost use Rattle.std.specs.Prelude.{IfSome};
ghost use Rattle.gb_formats.specs.WordValues.{is_digit, kind_word, name_word, number_word};

use crate::words::is;
use gb_base::{Kind, Name, Word};

/// A number from `least` to `greatest`: decimal, with no sign and no leading zero but `0` itself.
pub fn number_word(word: &[u8], least: u32, greatest: u32) -> Option<u32>
    ensures value { result ≡ number_word least greatest word.now }
    ensures bound { IfSome result (λ n. n ≤ greatest) }
{
    if !begins_number(word) {
        return None;
    }
    let mut number: u64 = 0;
    for b in word {
        if !is_digit(*b) {
            return None;
        }
        number = number * 10 + u64::from(*b - b'0');
        if number > u64::from(greatest) {
            return None;
        }
    }
    (u64::from(least) <= number).then_some(number as u32)
}

/// Whether the word has a byte, and no leading zero but `0` itself.
fn begins_number(word: &[u8]) -> bool
    ensures { result ≡ (nat_lt 0 (length word.now)
        && (nat_lt 48 (slice_index word.now 0) || length word.now == 1)) }
{
    !word.is_empty() && (word[0] > b'0' || word.len() == 1)
}

/// Whether the byte is a digit.
fn is_digit(b: u8) -> bool
    ensures { result ≡ is_digit b }
{
    b.is_ascii_digit()
}

/// `@x`, a name of requester `who`.
pub fn name_word(word: &[u8], who: u8) -> Option<Name>
    ensures { result ≡ name_word who word.now }
{
    match word.split_first() {
        Some((b'@', rest)) => Some(Name {
            who,
            word: Word::from_bytes(rest)?,
        }),
        _ => None,
    }
}

/// A kind of interface that a script can plug by name.
pub fn kind_word(word: &[u8]) -> Option<Kind>
    ensures { result ≡ kind_word word.now }
{
    if is(word, "gpio") {
        Some(Kind::Gpio)
    } else if is(word, "i2c") {
        Some(Kind::I2c)
    } else if is(word, "spi") {
        Some(Kind::Spi)
    } else if is(word, "uart") {
        Some(Kind::Uart)
    } else if is(word, "bridge") {
        Some(Kind::Bridge)
    } else if is(word, "loopback") {
        Some(Kind::Loopback)
    } else if is(word, "firmware") {
        Some(Kind::Firmware)
    } else {
        None
    }
}
