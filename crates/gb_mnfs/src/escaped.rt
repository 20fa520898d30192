//! The text of a string.

ghost use Rattle.std.specs.Prelude.{◌≡◌, ◌<◌, ◌-◌, ◌==◌, ◌||◌, ◌++◌, OnOk, if◌then◌else◌};
ghost use Rattle.std.specs.String.{string_bytes};
ghost use Rattle.gb_formats.specs.SourceTexts.{end_byte, escaped_byte, inner_byte, is_plain_byte};
ghost use Rattle.gb_formats.specs.SourceTexts.{string_value};

use gb_base::OutOfMemory;
use gb_report::{Hex, Part, append_ascii};

/// The bytes of a string, with `\\` for a backslash, and `\xNN` for a byte outside 20 to 7e and for
/// a space that is the first or last byte.
#[derive(Clone, Copy)]
pub struct Escaped<'a>(pub &'a [u8]);

impl<'a> Part for Escaped<'a> {
    ghost use Rattle.gb_formats.specs.SourceTexts.{string_value};

    ghost text = { λ e. string_value e.0.now };

    fn append_to(&self, line: &mut String) -> Result<(), OutOfMemory> {
        append_string(self.0, line)
    }
}

/// Appends the text of a string.
fn append_string(bytes: &[u8], line: &mut String) -> Result<(), OutOfMemory>
    ensures { OnOk result
        (string_bytes line.new ≡ string_bytes line.old ++ string_value bytes.now) }
{
    for (i, b) in bytes.iter().enumerate() {
        append_byte(*b, is_end(i, bytes.len()), line)?;
    }
    Ok(())
}

/// Whether a place is the first or the last.
fn is_end(i: usize, len: usize) -> bool
    requires { i < len }
    ensures { result ≡ (i == 0 || i == len - 1) }
{
    i == 0 || i == len - 1
}

/// Appends a byte of a string, which is one at an end or inside.
fn append_byte(b: u8, at_end: bool, line: &mut String) -> Result<(), OutOfMemory>
    ensures { OnOk result (string_bytes line.new
        ≡ string_bytes line.old ++ (if at_end then end_byte b else inner_byte b)) }
{
    if at_end && b == b' ' {
        append_escaped(b, line)
    } else {
        append_inner(b, line)
    }
}

/// Appends a byte inside a string.
fn append_inner(b: u8, line: &mut String) -> Result<(), OutOfMemory>
    ensures { OnOk result (string_bytes line.new ≡ string_bytes line.old ++ inner_byte b) }
{
    if is_plain(b) {
        append_ascii(b, line)
    } else if b == b'\\' {
        "\\\\".append_to(line)
    } else {
        append_escaped(b, line)
    }
}

/// Appends a byte as `\xNN`.
fn append_escaped(b: u8, line: &mut String) -> Result<(), OutOfMemory>
    ensures { OnOk result (string_bytes line.new ≡ string_bytes line.old ++ escaped_byte b) }
{
    ("\\x", Hex(b)).append_to(line)
}

/// A byte that stands as it is: 20 to 7e other than the backslash.
fn is_plain(b: u8) -> bool
    ensures { result ≡ is_plain_byte b }
{
    b >= b' ' && b <= b'~' && b != b'\\'
}
