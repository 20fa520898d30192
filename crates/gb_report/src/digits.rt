//! Bytes in lower-case hex digits.

ghost use Rattle.std.specs.Prelude.{◌≡◌, ◌<◌, ◌++◌, OnOk, slice_index};
ghost use Rattle.std.specs.String.{string_bytes};
ghost use Rattle.hex.specs.Hex.{encode_lower, lower_digits};
ghost use Rattle.gb_formats.specs.Bytes.{byte_text};

use crate::part::{Part, append_ascii};
use gb_base::OutOfMemory;

/// A byte, shown as two hex digits.
#[derive(Clone, Copy)]
pub struct Hex(pub u8);

impl Part for Hex {
    ghost use Rattle.gb_formats.specs.Bytes.{byte_text};

    ghost text = { λ b. byte_text b.0 };

    #[inline(always)]
    fn append_to(&self, line: &mut String) -> Result<(), OutOfMemory> {
        append_byte(self.0, line)
    }
}

/// Bytes, shown as two hex digits each, and as `-` where there are none.
#[derive(Clone, Copy)]
pub struct Digits<'a>(pub &'a [u8]);

impl<'a> Part for Digits<'a> {
    ghost use Rattle.gb_formats.specs.Bytes.{hex_text};

    ghost text = { λ d. hex_text d.0.now };

    #[inline(always)]
    fn append_to(&self, line: &mut String) -> Result<(), OutOfMemory> {
        if self.0.is_empty() {
            "-".append_to(line)
        } else {
            append_bytes(self.0, line)
        }
    }
}

/// Appends bytes as two hex digits each.
#[inline(never)]
fn append_bytes(bytes: &[u8], line: &mut String) -> Result<(), OutOfMemory>
    ensures { OnOk result
        (string_bytes line.new ≡ string_bytes line.old ++ encode_lower bytes.now) }
{
    for byte in bytes {
        append_byte(*byte, line)?;
    }
    Ok(())
}

/// Appends a byte as two hex digits.
#[inline(always)]
fn append_byte(byte: u8, line: &mut String) -> Result<(), OutOfMemory>
    ensures { OnOk result (string_bytes line.new ≡ string_bytes line.old ++ byte_text byte) }
{
    append_ascii(digit(byte / 16), line)?;
    append_ascii(digit(byte % 16), line)
}

/// The hex digit of a number below 16.
#[inline]
fn digit(number: u8) -> u8
    requires { number < 16 }
    ensures digit { result ≡ slice_index lower_digits number }
    ensures ascii { result < 128 }
{
    b"0123456789abcdef"[number as usize]
}
