//! Writes manifests back as texts.

ghost use Rattle.std.specs.Prelude.{◌≡◌, ◌++◌, IfOk, OnErr, OnOk, find};
ghost use Rattle.std.specs.List.{flat_map};
ghost use Rattle.std.specs.String.{string_bytes};
ghost use Rattle.gb_formats.specs.ManifestRules.{is_interface};
ghost use Rattle.gb_formats.specs.SourceTexts.{bundle_in, bundle_lines, cport_in, cport_lines};
ghost use Rattle.gb_formats.specs.SourceTexts.{features_of};
ghost use Rattle.gb_formats.specs.SourceTexts.{lines_text, manifest_spec, product_of, source_text};
ghost use Rattle.gb_formats.specs.SourceTexts.{string_in, string_lines, vendor_of};
ghost use Rattle.gb_manifest.specs.Values.{descriptor_of};

use crate::lines::{put_bundle, put_cport, put_header, put_interface, put_string};
use gb_base::{OutOfMemory, Text};
use gb_manifest::{Descriptor, Manifest};
use gb_report::empty_line;
use std::alloc::Global;

/// Appends the text of a manifest: its header, its interface, then strings, bundles and CPorts,
/// each in the manifest's order. After a refusal `out` is as before.
pub fn decompile(alloc: Global, m: &Manifest<'_>, out: &mut Text) -> Result<(), OutOfMemory>
    ensures ok { OnOk result (out.new ≡ out.old ++ source_text (manifest_spec m.now)) }
    ensures err { OnErr result (out.new ≡ out.old) }
{
    let text = text_of(alloc, m)?;
    out.append(&text)
}

/// The text of a manifest.
fn text_of(alloc: Global, m: &Manifest<'_>) -> Result<String, OutOfMemory>
    ensures { IfOk result (λ s. string_bytes s ≡ source_text (manifest_spec m.now)) }
{
    let mut text = empty_line(alloc)?;
    put_header(m.minor(), &mut text)?;
    let (vendor, product, features) = interface(m);
    put_interface(vendor, product, features, &mut text)?;
    put_strings(m, &mut text)?;
    put_bundles(m, &mut text)?;
    put_cports(m, &mut text)?;
    Ok(text)
}

/// The vendor's string, the product's string and the features of a manifest's interface.
fn interface(m: &Manifest<'_>) -> (u8, u8, u8)
    ensures vendor { result.0 ≡ vendor_of (find is_interface m.now.descriptors) }
    ensures product { result.1 ≡ product_of (find is_interface m.now.descriptors) }
    ensures features { result.2 ≡ features_of (find is_interface m.now.descriptors) }
{
    for d in m.descriptors() {
        if let Descriptor::Interface {
            vendor,
            product,
            features,
        } = d
        {
            return (vendor, product, features);
        }
    }
    (0, 0, 0)
}

/// Appends the sections of all strings.
fn put_strings(m: &Manifest<'_>, text: &mut String) -> Result<(), OutOfMemory>
    ensures { OnOk result (string_bytes text.new ≡ string_bytes text.old
        ++ lines_text (flat_map string_lines (flat_map string_in m.now.descriptors))) }
{
    for d in m.descriptors() {
        put_string_of(&d, text)?;
    }
    Ok(())
}

/// Appends the sections of all bundles.
fn put_bundles(m: &Manifest<'_>, text: &mut String) -> Result<(), OutOfMemory>
    ensures { OnOk result (string_bytes text.new ≡ string_bytes text.old
        ++ lines_text (flat_map bundle_lines (flat_map bundle_in m.now.descriptors))) }
{
    for d in m.descriptors() {
        put_bundle_of(&d, text)?;
    }
    Ok(())
}

/// Appends the sections of all CPorts.
fn put_cports(m: &Manifest<'_>, text: &mut String) -> Result<(), OutOfMemory>
    ensures { OnOk result (string_bytes text.new ≡ string_bytes text.old
        ++ lines_text (flat_map cport_lines (flat_map cport_in m.now.descriptors))) }
{
    for d in m.descriptors() {
        put_cport_of(&d, text)?;
    }
    Ok(())
}

/// Appends the section of a descriptor that is a string.
fn put_string_of(d: &Descriptor<'_>, text: &mut String) -> Result<(), OutOfMemory>
    ensures { OnOk result (string_bytes text.new ≡ string_bytes text.old
        ++ lines_text (flat_map string_lines (string_in (descriptor_of d.now)))) }
{
    match d {
        Descriptor::Words { id, bytes } => put_string(*id, bytes, text),
        _ => Ok(()),
    }
}

/// Appends the section of a descriptor that is a bundle.
fn put_bundle_of(d: &Descriptor<'_>, text: &mut String) -> Result<(), OutOfMemory>
    ensures { OnOk result (string_bytes text.new ≡ string_bytes text.old
        ++ lines_text (flat_map bundle_lines (bundle_in (descriptor_of d.now)))) }
{
    match d {
        Descriptor::Bundle { id, class } => put_bundle(*id, *class, text),
        _ => Ok(()),
    }
}

/// Appends the section of a descriptor that is a CPort.
fn put_cport_of(d: &Descriptor<'_>, text: &mut String) -> Result<(), OutOfMemory>
    ensures { OnOk result (string_bytes text.new ≡ string_bytes text.old
        ++ lines_text (flat_map cport_lines (cport_in (descriptor_of d.now)))) }
{
    match d {
        Descriptor::Cport {
            id,
            bundle,
            protocol,
        } => put_cport(*id, *bundle, *protocol, text),
        _ => Ok(()),
    }
}
