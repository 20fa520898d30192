//! What sections add to a spec.

ghost use Rattle.std.specs.Prelude.{◌≡◌, ℕ, OnOk};
ghost use Rattle.gb_formats.specs.Source.{adds, empty_spec};
ghost use Rattle.gb_formats.specs.SourceLines as formats;
ghost use Rattle.gb_manifest.specs.Writes.{spec_of};
ghost use Rattle.gb_mnfs.specs.Sections.{section_of};

use crate::section::Section;
use gb_base::{OutOfMemory, Sequence};
use gb_manifest::{BundleSpec, CportSpec, ManifestSpec, StringSpec};
use std::alloc::Global;

/// The spec that nothing is said of.
pub fn empty_spec(alloc: Global) -> ManifestSpec
    ensures { spec_of result ≡ empty_spec }
{
    ManifestSpec {
        minor: 0,
        vendor: 0,
        product: 0,
        features: 0,
        strings: Sequence::new(alloc),
        bundles: Sequence::new(alloc),
        cports: Sequence::new(alloc),
    }
}

/// Adds what a section says, unless it lacks a key.
pub fn add(section: Section, spec: &mut ManifestSpec) -> Result<(), OutOfMemory>
    ensures { OnOk result
        (spec_of spec.new ≡ adds (section_of section) (spec_of spec.old)) }
{
    match section {
        Section::Header { minor, .. } => {
            if let Some(minor) = minor {
                spec.minor = minor;
            }
        }
        Section::Interface {
            vendor,
            product,
            features,
        } => add_interface(vendor, product, features, spec),
        Section::Words { id, bytes } => {
            if let Some(bytes) = bytes {
                spec.strings.push(StringSpec { id, bytes })?;
            }
        }
        Section::Bundle { id, class } => {
            if let Some(class) = class {
                spec.bundles.push(BundleSpec { id, class })?;
            }
        }
        Section::Cport {
            id,
            bundle,
            protocol,
        } => add_cport(id, bundle, protocol, spec)?,
    }
    Ok(())
}

/// Adds an interface, unless it lacks a key.
fn add_interface(
    vendor: Option<u8>,
    product: Option<u8>,
    features: Option<u8>,
    spec: &mut ManifestSpec,
)
    ensures { spec_of spec.new
        ≡ adds (formats.Section.Interface vendor product features) (spec_of spec.old) }
{
    let Some(vendor) = vendor else {
        return;
    };
    let Some(product) = product else {
        return;
    };
    spec.vendor = vendor;
    spec.product = product;
    spec.features = features.unwrap_or(0);
}

/// Adds a CPort, unless it lacks a key.
fn add_cport(
    id: u16,
    bundle: Option<u8>,
    protocol: Option<u8>,
    spec: &mut ManifestSpec,
) -> Result<(), OutOfMemory>
    ensures { OnOk result (spec_of spec.new
        ≡ adds (formats.Section.Cport id bundle protocol) (spec_of spec.old)) }
{
    let Some(bundle) = bundle else {
        return Ok(());
    };
    let Some(protocol) = protocol else {
        return Ok(());
    };
    spec.cports.push(CportSpec {
        id,
        bundle,
        protocol,
    })
}
