//! The field at the front of bytes, and the bytes behind it. Numbers have their lowest byte first.

ghost use Rattle.std.specs.Prelude.{◌≡◌, ◌≤◌, length, drop};
ghost use Rattle.byteorder.specs.Endian.{little_number};

use byteorder::{ByteOrder, LittleEndian};

/// A byte.
pub fn u8(bytes: &[u8]) -> (u8, &[u8])
    requires { 1 ≤ length bytes.now }
    ensures value { result.0 ≡ little_number 1 bytes.now }
    ensures rest { result.1.now ≡ drop 1 bytes.now }
{
    (bytes[0], &bytes[1..])
}

/// A number of two bytes.
pub fn u16(bytes: &[u8]) -> (u16, &[u8])
    requires { 2 ≤ length bytes.now }
    ensures value { result.0 ≡ little_number 2 bytes.now }
    ensures rest { result.1.now ≡ drop 2 bytes.now }
{
    (LittleEndian::read_u16(bytes), &bytes[2..])
}

/// A number of four bytes.
pub fn u32(bytes: &[u8]) -> (u32, &[u8])
    requires { 4 ≤ length bytes.now }
    ensures value { result.0 ≡ little_number 4 bytes.now }
    ensures rest { result.1.now ≡ drop 4 bytes.now }
{
    (LittleEndian::read_u32(bytes), &bytes[4..])
}
