//! Reads the fields of a payload.

ghost use Rattle.std.specs.Prelude.{◌≡◌, ◌≤◌, ◌+◌, length, drop, min};
ghost use Rattle.byteorder.specs.Endian.{little_number};
ghost use Rattle.gb_formats.specs.Records as formats;
ghost use Rattle.gb_payload.specs.Answers.{HasSize, fault_of};

use crate::{PayloadFault, first};

/// The fields of a payload, read one after the other. Numbers have their lowest byte first.
#[derive(Drop)]
pub struct Fields<'a> {
    rest: &'a [u8],
}

impl<'a> Fields<'a> {
    /// The fields of a payload of `size` bytes. One of another size is no record: a longer one from
    /// its first byte too many on, a shorter one at its end.
    pub fn of(payload: &'a [u8], size: usize) -> Result<Fields<'a>, PayloadFault>
        ensures { HasSize size payload.now result }
    {
        if payload.len() != size {
            return Err(mismatch(payload, size));
        }
        Ok(Fields { rest: payload })
    }

    /// The next byte.
    pub fn u8(&mut self) -> u8
        requires { 1 ≤ length self.old.rest.now }
        ensures value { result ≡ little_number 1 self.old.rest.now }
        ensures rest { self.new.rest.now ≡ drop 1 self.old.rest.now }
    {
        let (value, rest) = first::u8(self.rest);
        self.rest = rest;
        value
    }

    /// The number in the next two bytes.
    pub fn u16(&mut self) -> u16
        requires { 2 ≤ length self.old.rest.now }
        ensures value { result ≡ little_number 2 self.old.rest.now }
        ensures rest { self.new.rest.now ≡ drop 2 self.old.rest.now }
    {
        let (value, rest) = first::u16(self.rest);
        self.rest = rest;
        value
    }

    /// The number in the next four bytes.
    pub fn u32(&mut self) -> u32
        requires { 4 ≤ length self.old.rest.now }
        ensures value { result ≡ little_number 4 self.old.rest.now }
        ensures rest { self.new.rest.now ≡ drop 4 self.old.rest.now }
    {
        let (value, rest) = first::u32(self.rest);
        self.rest = rest;
        value
    }

    /// The bytes that are left.
    pub fn rest(self) -> &'a [u8]
        ensures { result.now ≡ self.entry.rest.now }
    {
        self.rest
    }
}

/// The fault of a payload that hasn't the size of its record: a longer one is none from its first
/// byte too many on, a shorter one at its end.
pub fn mismatch(payload: &[u8], size: usize) -> PayloadFault
    ensures { fault_of result ≡ formats.PayloadFault.Mismatch
        (min (length payload.now) (size + 1)) }
{
    if payload.len() <= size {
        return PayloadFault::Mismatch {
            at: payload.len() as u64,
        };
    }
    PayloadFault::Mismatch {
        at: size as u64 + 1,
    }
}

/// Reads a record of a payload, whose fields follow one another, each as wide as its type.
#[macro_export]
macro_rules! read_record {
    ($payload:expr => $records:ident::$name:ident) => {
        if $payload.is_empty() {
            Ok($records::$name)
        } else {
            Err($crate::mismatch($payload, 0))
        }
    };
    ($payload:expr => $records:ident::$name:ident { $($field:ident: $width:ident),+ }) => {{
        let size = 0 $(+ size_of::<$width>())+;
        if $payload.len() == size {
            let rest = $payload;
            $(let ($field, rest) = $crate::first::$width(rest);)+
            Ok($records::$name { $($field),+ })
        } else {
            Err($crate::mismatch($payload, size))
        }
    }};
}
