//! Section lines.

ghost use Rattle.std.specs.Prelude.{◌≡◌};
ghost use Rattle.gb_formats.specs.SourceLines.{heading, numbered_heading, plain_heading};
ghost use Rattle.gb_formats.specs.SourceValues.{parted};
ghost use Rattle.gb_mnfs.specs.Sections.{bundle_heading, cport_heading, form_in, opens};
ghost use Rattle.gb_mnfs.specs.Sections.{words_heading};

use crate::form::Form;
use crate::number::{byte, number};
use crate::parted::parted;
use crate::section::Section;
use gb_script::is;

/// The form of a section line, by what stands between `[` and `]`.
pub fn heading(inner: &[u8]) -> Form<'static>
    ensures { form_in result ≡ heading inner.now (parted 32 inner.now) }
{
    match parted(inner, b' ') {
        Some((name, n)) => numbered_heading(name, n),
        None => plain_heading(inner),
    }
}

/// The section of a name that has no number.
fn plain_heading(name: &[u8]) -> Form<'static>
    ensures { form_in result ≡ plain_heading name.now }
{
    if is(name, "manifest-header") {
        Form::Opens(Some(Section::Header {
            major: None,
            minor: None,
        }))
    } else if is(name, "interface-descriptor") {
        Form::Opens(Some(Section::Interface {
            vendor: None,
            product: None,
            features: None,
        }))
    } else {
        Form::NoLine
    }
}

/// The section of a name that has a number.
fn numbered_heading(name: &[u8], n: &[u8]) -> Form<'static>
    ensures { form_in result ≡ numbered_heading name.now n.now }
{
    if is(name, "string-descriptor") {
        Form::Opens(words(n))
    } else if is(name, "bundle-descriptor") {
        Form::Opens(bundle(n))
    } else if is(name, "cport-descriptor") {
        Form::Opens(cport(n))
    } else {
        Form::NoLine
    }
}

/// A string's section, None where its number is bad.
fn words(n: &[u8]) -> Option<Section>
    ensures { opens result ≡ words_heading n.now }
{
    let id = byte(n, 255)?;
    Some(Section::Words { id, bytes: None })
}

/// A bundle's section, None where its number is bad.
fn bundle(n: &[u8]) -> Option<Section>
    ensures { opens result ≡ bundle_heading n.now }
{
    let id = byte(n, 255)?;
    Some(Section::Bundle { id, class: None })
}

/// A CPort's section, None where its number is bad.
fn cport(n: &[u8]) -> Option<Section>
    ensures { opens result ≡ cport_heading n.now }
{
    let id = number(n, 65_535)?;
    Some(Section::Cport {
        id,
        bundle: None,
        protocol: None,
    })
}
