//! Appends the dump of a manifest.

ghost use Rattle.std.specs.Prelude.{◌≡◌, ◌++◌, IfOk, OnOk, OnErr};
ghost use Rattle.std.specs.String.{string_bytes};
ghost use Rattle.gb_formats.specs.Dump.{dump_text, stands_as_is, string_byte_text, string_text};

use crate::digits::Hex;
use crate::lines::empty_line;
use crate::part::{Part, append_ascii, parts};
use gb_base::{OutOfMemory, Text};
use gb_manifest::{Descriptor, Manifest};
use std::alloc::Global;

/// Appends the line of a manifest and those of its descriptors. After a refusal `out` is as before.
pub fn put_dump(alloc: Global, m: &Manifest<'_>, out: &mut Text) -> Result<(), OutOfMemory>
    ensures ok { OnOk result (out.new ≡ out.old ++ dump_text m.now) }
    ensures err { OnErr result (out.new ≡ out.old) }
{
    let dump = dump_of(alloc, m)?;
    out.append(&dump)
}

/// The dump of a manifest.
fn dump_of(alloc: Global, m: &Manifest<'_>) -> Result<String, OutOfMemory>
    ensures { IfOk result (λ s. string_bytes s ≡ dump_text m.now) }
{
    let mut dump = empty_line(alloc)?;
    parts!("manifest version 0.", m.minor(), " size ", m.size(), "\n").append_to(&mut dump)?;
    for d in m.descriptors() {
        parts!(d, "\n").append_to(&mut dump)?;
    }
    Ok(dump)
}

/// A descriptor, shown as its line without its end.
impl<'a> Part for Descriptor<'a> {
    ghost use Rattle.gb_formats.specs.Dump.{descriptor_line};
    ghost use Rattle.gb_manifest.specs.Values.{descriptor_of};

    ghost text = { λ d. descriptor_line (descriptor_of d) };

    fn append_to(&self, line: &mut String) -> Result<(), OutOfMemory> {
        match self {
            Descriptor::Interface {
                vendor,
                product,
                features,
            } => parts!(
                "interface vendor ",
                vendor,
                " product ",
                product,
                " features ",
                Hex(*features)
            )
            .append_to(line),
            Descriptor::Words { id, bytes } => {
                parts!("string ", id, " \"", Quoted(*bytes), "\"").append_to(line)
            }
            Descriptor::Bundle { id, class } => {
                parts!("bundle ", id, " class ", Hex(*class)).append_to(line)
            }
            Descriptor::Cport {
                id,
                bundle,
                protocol,
            } => parts!(
                "cport ",
                id,
                " bundle ",
                bundle,
                " protocol ",
                Hex(*protocol)
            )
            .append_to(line),
        }
    }
}

/// The bytes of a string, each that is no plain letter as `\xNN`.
#[derive(Clone, Copy)]
struct Quoted<'a>(&'a [u8]);

impl<'a> Part for Quoted<'a> {
    ghost use Rattle.gb_formats.specs.Dump.{string_text};

    ghost text = { λ q. string_text q.0.now };

    fn append_to(&self, line: &mut String) -> Result<(), OutOfMemory> {
        append_quoted(self.0, line)
    }
}

/// Appends the bytes of a string.
fn append_quoted(bytes: &[u8], line: &mut String) -> Result<(), OutOfMemory>
    ensures { OnOk result (string_bytes line.new ≡ string_bytes line.old ++ string_text bytes.now) }
{
    for byte in bytes {
        append_byte(*byte, line)?;
    }
    Ok(())
}

/// Appends a byte of a string.
fn append_byte(byte: u8, line: &mut String) -> Result<(), OutOfMemory>
    ensures { OnOk result
        (string_bytes line.new ≡ string_bytes line.old ++ string_byte_text byte) }
{
    if is_plain(byte) {
        append_ascii(byte, line)
    } else {
        parts!("\\x", Hex(byte)).append_to(line)
    }
}

/// A byte that stands as it is: 20 to 7e other than `"` and `\`.
fn is_plain(byte: u8) -> bool
    ensures { result ≡ stands_as_is byte }
{
    byte >= b' ' && byte <= b'~' && byte != b'"' && byte != b'\\'
}
