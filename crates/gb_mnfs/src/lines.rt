//! The lines of a manifest's text, section by section.

ghost use Rattle.std.specs.Prelude.{◌≡◌, [], ◌∷◌, ◌++◌, OnOk};
ghost use Rattle.std.specs.String.{string_bytes};
ghost use Rattle.gb_formats.specs.SourceTexts.{bundle_lines, cport_lines, header_lines};
ghost use Rattle.gb_formats.specs.SourceTexts.{interface_lines, lines_text, string_lines};

use crate::escaped::Escaped;
use gb_base::OutOfMemory;
use gb_report::{Hex, Part};

/// Lines in a row, each of parts in a row, as pairs of the first one and the others.
macro_rules! lines {
    ($($part:expr),+ $(,)?) => { (parts!($($part),+), "\n") };
    ($($part:expr),+; $($rest:tt)+) => { ((parts!($($part),+), "\n"), lines!($($rest)+)) };
}

/// Parts in a row, as pairs of the first one and the others.
macro_rules! parts {
    ($part:expr) => { $part };
    ($part:expr, $($rest:expr),+) => { ($part, parts!($($rest),+)) };
}

/// Appends the header's section.
pub fn put_header(minor: u8, text: &mut String) -> Result<(), OutOfMemory>
    ensures { OnOk result (string_bytes text.new
        ≡ string_bytes text.old ++ lines_text (header_lines minor)) }
{
    lines!(
        "[manifest-header]";
        "version-major", " = ", "0";
        "version-minor", " = ", minor
    )
    .append_to(text)
}

/// Appends the interface's section.
pub fn put_interface(
    vendor: u8,
    product: u8,
    features: u8,
    text: &mut String,
) -> Result<(), OutOfMemory>
    ensures { OnOk result (string_bytes text.new
        ≡ string_bytes text.old ++ lines_text ([] ∷ interface_lines vendor product features)) }
{
    lines!(
        "";
        "[interface-descriptor]";
        "vendor-string-id", " = ", vendor;
        "product-string-id", " = ", product;
        "features", " = ", features
    )
    .append_to(text)
}

/// Appends a string's section.
pub fn put_string(id: u8, bytes: &[u8], text: &mut String) -> Result<(), OutOfMemory>
    ensures { OnOk result (string_bytes text.new ≡ string_bytes text.old
        ++ lines_text (string_lines (record { id = id; bytes = bytes.now }))) }
{
    lines!(
        "";
        "[", "string-descriptor", " ", id, "]";
        "string", " = ", Escaped(bytes)
    )
    .append_to(text)
}

/// Appends a bundle's section.
pub fn put_bundle(id: u8, class: u8, text: &mut String) -> Result<(), OutOfMemory>
    ensures { OnOk result (string_bytes text.new ≡ string_bytes text.old
        ++ lines_text (bundle_lines (record { id = id; class = class }))) }
{
    lines!(
        "";
        "[", "bundle-descriptor", " ", id, "]";
        "class", " = ", "0x", Hex(class)
    )
    .append_to(text)
}

/// Appends a CPort's section.
pub fn put_cport(id: u16, bundle: u8, protocol: u8, text: &mut String) -> Result<(), OutOfMemory>
    ensures { OnOk result (string_bytes text.new ≡ string_bytes text.old
        ++ lines_text (cport_lines (record { id = id; bundle = bundle; protocol = protocol }))) }
{
    lines!(
        "";
        "[", "cport-descriptor", " ", id, "]";
        "bundle", " = ", bundle;
        "protocol", " = ", "0x", Hex(protocol)
    )
    .append_to(text)
}
