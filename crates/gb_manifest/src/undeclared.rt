//! Where the descriptors of a manifest speak of what none of them declares.

ghost use Rattle.std.specs.Prelude.{◌≡◌, [], ◌∷◌, ◌++◌, List};
ghost use Rattle.gb_formats.specs.ManifestRules.{Placed, lacks_string};
ghost use Rattle.gb_manifest.specs.Met.{AreDeclared, AreStrings, AreUndeclared};
ghost use Rattle.gb_manifest.specs.Walks.{placed_of};

use crate::breach::first_place;
use crate::declared::{Declared, MetStrings};
use crate::descriptor::Descriptor;

/// The places of the first descriptors that speak of what isn't declared.
#[derive(Clone, Copy)]
pub struct Undeclared {
    /// The CPort whose bundle isn't declared.
    pub bundle: Option<u32>,
    /// The interface whose vendor string isn't declared.
    pub vendor: Option<u32>,
    /// The interface whose product string isn't declared.
    pub product: Option<u32>,
}

/// A string of this id is spoken of, since the id isn't 0, and isn't declared.
fn lacks(strings: &MetStrings, id: u8) -> bool
    ensures { (all : List Placed) → AreStrings strings.now all → result ≡ lacks_string all id }
{
    id != 0 && !strings.has(id)
}

impl Undeclared {
    /// All is declared.
    pub fn new() -> Undeclared
        ensures { (all : List Placed) → AreUndeclared result all [] }
    {
        Undeclared {
            bundle: None,
            vendor: None,
            product: None,
        }
    }

    /// Takes the next descriptor, where all of them declare this.
    pub fn take(&mut self, declared: &Declared, at: u32, d: &Descriptor<'_>)
        ensures { (all before : List Placed) → AreDeclared declared.now all
            → AreUndeclared self.old all before
            → AreUndeclared self.new all (before ++ placed_of (at, d.now) ∷ []) }
    {
        match d {
            Descriptor::Interface {
                vendor,
                product,
                ..
            } => {
                self.vendor = first_place(self.vendor, lacks(&declared.strings, *vendor), at);
                self.product = first_place(self.product, lacks(&declared.strings, *product), at);
            }
            Descriptor::Cport { bundle, .. } => {
                self.bundle = first_place(self.bundle, !declared.bundles.has(*bundle), at);
            }
            Descriptor::Words { .. } => {}
            Descriptor::Bundle { .. } => {}
        }
    }
}
