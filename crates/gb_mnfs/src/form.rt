//! The forms of lines.

ghost use Rattle.std.specs.Prelude.{◌≡◌};
ghost use Rattle.std.specs.List.{list_all};
ghost use Rattle.gb_formats.specs.Script.{is_printable};
ghost use Rattle.gb_formats.specs.SourceLines as formats;
ghost use Rattle.gb_formats.specs.SourceLines.{is_heading, is_key, is_remark, key_line};
ghost use Rattle.gb_formats.specs.SourceLines.{key_line_of};
ghost use Rattle.gb_formats.specs.SourceLines.{trimmed_form};
ghost use Rattle.gb_formats.specs.SourceValues as values;
ghost use Rattle.gb_mnfs.specs.Sections.{form_in};

use crate::heading::heading;
use crate::parted::parted;
use crate::section::Section;
use crate::trimmed::trimmed;
use gb_script::is;

/// What a line is by its form.
#[derive(Drop)]
pub enum Form<'a> {
    /// Nothing: an empty line or a comment.
    Nothing,
    /// No line of a manifest's text.
    NoLine,
    /// A section line, None where its number is bad.
    Opens(Option<Section>),
    /// A key line.
    Says {
        /// The key.
        key: &'a [u8],
        /// The text of its value.
        value: &'a [u8],
    },
}

/// The form of a line. Spaces at its ends don't count.
pub fn form_of(line: &[u8]) -> Form<'_>
    ensures { form_in result ≡ formats.form_of line.now }
{
    let line = trimmed(line);
    if is_remark(line) {
        Form::Nothing
    } else if !are_printable(line) {
        Form::NoLine
    } else if is_heading(line) {
        heading(&line[1..line.len() - 1])
    } else {
        key_line(line)
    }
}

/// Whether a line is empty, or begins with `;` or `#`.
fn is_remark(line: &[u8]) -> bool
    ensures { result ≡ is_remark line.now }
{
    line.is_empty() || line[0] == b';' || line[0] == b'#'
}

/// Whether all bytes are printable ASCII.
fn are_printable(line: &[u8]) -> bool
    ensures { result ≡ list_all is_printable line.now }
{
    line.iter().all(|b| is_printable(*b))
}

/// Whether a byte is printable ASCII.
fn is_printable(b: u8) -> bool
    ensures { result ≡ is_printable b }
{
    (b' '..=b'~').contains(&b)
}

/// Whether a line goes from `[` to `]`.
fn is_heading(line: &[u8]) -> bool
    ensures { result ≡ is_heading line.now }
{
    line.first() == Some(&b'[') && line.last() == Some(&b']')
}

/// The form of a line that the first `=` parts.
fn key_line(line: &[u8]) -> Form<'_>
    ensures { form_in result ≡ key_line_of (values.parted 61 line.now) }
{
    match parted(line, b'=') {
        Some((key, value)) => key_and_value(trimmed(key), trimmed(value)),
        None => Form::NoLine,
    }
}

/// The form of a key and the text of its value.
fn key_and_value<'a>(key: &'a [u8], value: &'a [u8]) -> Form<'a>
    ensures { form_in result ≡ key_line key.now value.now }
{
    if is_key(key) {
        Form::Says { key, value }
    } else {
        Form::NoLine
    }
}

/// Whether a word is one of the keys.
fn is_key(word: &[u8]) -> bool
    ensures { result ≡ is_key word.now }
{
    is(word, "version-major")
        || is(word, "version-minor")
        || is(word, "vendor-string-id")
        || is(word, "product-string-id")
        || is(word, "features")
        || is(word, "string")
        || is(word, "class")
        || is(word, "bundle")
        || is(word, "protocol")
}
