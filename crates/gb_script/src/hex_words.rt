//! What hex words mean: bytes, types and addresses.

ghost use Rattle.std.specs.Prelude.{◌≡◌, ◌≤◌, ◌*◌, length, take, IfOk, IfSome, MatchOption};
ghost use Rattle.gb_formats.specs.WordValues.{hex_digits, hex_word, type_word};

use crate::words::is;
use gb_base::{Bytes, OutOfMemory};
use hex::FromHex;
use std::alloc::Global;

/// HEX: an even number of hex digits, at least two, in either case; or `-` for no bytes.
pub fn hex_word(alloc: Global, word: &[u8]) -> Result<Option<Bytes>, OutOfMemory>
    ensures { IfOk result (λ b. b ≡ hex_word word.now) }
{
    if is(word, "-") {
        Ok(Some(Bytes::new(alloc)))
    } else {
        hex_digits(alloc, word)
    }
}

/// An even number of hex digits, at least two, in either case.
fn hex_digits(alloc: Global, word: &[u8]) -> Result<Option<Bytes>, OutOfMemory>
    ensures { IfOk result (λ b. b ≡ hex_digits word.now) }
{
    if word.is_empty() {
        return Ok(None);
    }
    let mut bytes = vec![in alloc; 0; word.len() / 2]?;
    match hex::decode_to_slice(word, bytes.as_mut_slice()) {
        Ok(()) => Ok(Some(Bytes::from_vec(bytes))),
        Err(_) => Ok(None),
    }
}

/// HEX, the bytes of which come to the front of `room`: how many they are.
pub fn hex_into(word: &[u8], room: &mut [u8]) -> Option<usize>
    requires { length word.now ≤ 2 * length room.old }
    ensures bytes { MatchOption result (hex_word word.now ≡ None)
        (λ count. hex_word word.now ≡ Some (take count room.new)) }
    ensures within { IfSome result (λ count. 2 * count ≤ length word.now) }
{
    if is(word, "-") {
        return Some(0);
    }
    if word.is_empty() {
        return None;
    }
    let count = word.len() / 2;
    match hex::decode_to_slice(word, &mut room[..count]) {
        Ok(()) => Some(count),
        Err(_) => None,
    }
}

/// TYPE and AA: two hex digits, 00 to 7f.
pub fn type_word(word: &[u8]) -> Option<u8>
    ensures { result ≡ type_word word.now }
{
    match <[u8; 1] as FromHex>::from_hex(word) {
        Ok(byte) => (byte[0] < 0x80).then_some(byte[0]),
        Err(_) => None,
    }
}
