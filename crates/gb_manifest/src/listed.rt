//! The descriptors of a spec, in order.

ghost use Rattle.std.specs.Prelude.{◌≡◌, None, []};
ghost use Rattle.gb_formats.specs.ManifestSpec.{spec_descriptors};
ghost use Rattle.gb_formats.specs.Descriptors as formats;
ghost use Rattle.gb_formats.specs.Descriptors.{IdFits};
ghost use Rattle.gb_manifest.specs.Values.{descriptor_of};
ghost use Rattle.gb_manifest.specs.Writes.{Takes, listed_of, spec_of};

use crate::descriptor::Descriptor;
use crate::spec::{BundleSpec, CportSpec, ManifestSpec, StringSpec};

/// What is left of a spec: the interface, then strings, bundles and CPorts.
#[derive(Clone, Copy)]
pub struct Listed<'a> {
    /// The interface's vendor, product and features.
    interface: Option<(u8, u8, u8)>,
    strings: &'a [StringSpec],
    bundles: &'a [BundleSpec],
    cports: &'a [CportSpec],
}

impl<'a> Listed<'a> {
    /// All of a spec.
    pub fn of(spec: &'a ManifestSpec) -> Listed<'a>
        ensures { listed_of result ≡ spec_descriptors (spec_of spec.now) }
    {
        Listed {
            interface: Some((spec.vendor, spec.product, spec.features)),
            strings: spec.strings.items(),
            bundles: spec.bundles.items(),
            cports: spec.cports.items(),
        }
    }

    /// The next descriptor.
    pub fn next(&mut self) -> Option<Descriptor<'a>>
        ensures { Takes (listed_of self.old) (listed_of self.new) result }
    {
        match self.interface {
            Some((vendor, product, features)) => {
                self.interface = None;
                Some(Descriptor::Interface {
                    vendor,
                    product,
                    features,
                })
            }
            None => self.next_behind(),
        }
    }

    /// The next descriptor behind the interface.
    fn next_behind(&mut self) -> Option<Descriptor<'a>>
        requires { self.old.interface ≡ None }
        ensures { Takes (listed_of self.old) (listed_of self.new) result }
    {
        if let Some((s, rest)) = self.strings.split_first() {
            self.strings = rest;
            return Some(Descriptor::Words {
                id: s.id,
                bytes: s.bytes.items(),
            });
        }
        self.next_behind_strings()
    }

    /// The next descriptor behind the strings.
    fn next_behind_strings(&mut self) -> Option<Descriptor<'a>>
        requires interface { self.old.interface ≡ None }
        requires strings { self.old.strings.now ≡ [] }
        ensures { Takes (listed_of self.old) (listed_of self.new) result }
    {
        if let Some((b, rest)) = self.bundles.split_first() {
            self.bundles = rest;
            return Some(Descriptor::Bundle {
                id: b.id,
                class: b.class,
            });
        }
        let (c, rest) = self.cports.split_first()?;
        self.cports = rest;
        Some(cport(c.id, c.bundle, c.protocol))
    }
}

/// The descriptor of a CPort.
fn cport<'a>(id: u16, bundle: u8, protocol: u8) -> Descriptor<'a>
    ensures is { descriptor_of result ≡ formats.Descriptor.Cport id bundle protocol }
    ensures fits { IdFits (descriptor_of result) }
{
    Descriptor::Cport {
        id,
        bundle,
        protocol,
    }
}
