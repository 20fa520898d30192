//! What the descriptors of a manifest declare, and where they break a rule that speaks of those
//! before them.

ghost use Rattle.std.specs.Prelude.{◌≡◌, ℕ, ◌<◌, [], ◌∷◌, ◌++◌, List};
ghost use Rattle.gb_formats.specs.Descriptors as formats;
ghost use Rattle.gb_formats.specs.ManifestRules.{Placed, wrong_control};
ghost use Rattle.gb_manifest.specs.Declarations.{is_met, place};
ghost use Rattle.gb_manifest.specs.Met.{AreBundles, AreCports, AreDeclared};
ghost use Rattle.gb_manifest.specs.Met.{AreInterfaces, AreStrings};
ghost use Rattle.gb_manifest.specs.Walks.{placed_of};

use crate::breach::first_place;
use crate::descriptor::Descriptor;
use crate::ids::Ids;
use gb_payload::protocols::CONTROL;

/// How many words of 64 marks the ids of a byte have.
const BYTE_WORDS: usize = 4;

/// The greatest id of a CPort.
const GREATEST_CPORT: usize = 4_095;

/// How many words of 64 marks the ids of CPorts have.
const CPORT_WORDS: usize = 64;

/// The interfaces.
#[derive(Drop)]
pub struct MetInterfaces {
    /// There is one.
    pub any: bool,
    /// The place of the second.
    pub second: Option<u32>,
}

/// The strings.
#[derive(Drop)]
pub struct MetStrings {
    met: Ids<BYTE_WORDS>,
    /// The place of the first with id 0.
    pub zero: Option<u32>,
    /// The place of the first whose id an earlier one has.
    pub twice: Option<u32>,
}

/// The bundles.
#[derive(Drop)]
pub struct MetBundles {
    met: Ids<BYTE_WORDS>,
    /// The place of the first whose id an earlier one has.
    pub twice: Option<u32>,
}

/// The CPorts. Ids above the greatest are not kept.
#[derive(Drop)]
pub struct MetCports {
    met: Ids<CPORT_WORDS>,
    /// The place of the first whose id is above the greatest.
    pub above: Option<u32>,
    /// The place of the first whose id an earlier one has, where no id is above the greatest.
    pub twice: Option<u32>,
    /// The place of the first with id 0 that isn't that of Control.
    pub control: Option<u32>,
}

/// All that is declared.
#[derive(Drop)]
pub struct Declared {
    /// The interfaces.
    pub interfaces: MetInterfaces,
    /// The strings.
    pub strings: MetStrings,
    /// The bundles.
    pub bundles: MetBundles,
    /// The CPorts.
    pub cports: MetCports,
}

impl MetInterfaces {
    /// Takes an interface.
    fn take(&mut self, at: u32)
        ensures { (before : List Placed) (vendor product features : ℕ)
            → AreInterfaces self.old before
            → AreInterfaces self.new
            (before ++ place at (formats.Descriptor.Interface vendor product features) ∷ []) }
    {
        self.second = first_place(self.second, self.any, at);
        self.any = true;
    }
}

impl MetStrings {
    /// Takes a string.
    fn take(&mut self, at: u32, id: u8)
        ensures { (before : List Placed) (bytes : List ℕ) → AreStrings self.old before
            → AreStrings self.new (before ++ place at (formats.Descriptor.Words id bytes) ∷ []) }
    {
        self.zero = first_place(self.zero, id == 0, at);
        self.twice = first_place(self.twice, self.met.contains(id as usize), at);
        self.met.add(id as usize);
    }

    /// Whether a string with this id was met.
    pub fn has(&self, id: u8) -> bool
        ensures { result ≡ is_met self.now.met.marks id }
    {
        self.met.contains(id as usize)
    }
}

impl MetBundles {
    /// Takes a bundle.
    fn take(&mut self, at: u32, id: u8)
        ensures { (before : List Placed) (class : ℕ) → AreBundles self.old before
            → AreBundles self.new (before ++ place at (formats.Descriptor.Bundle id class) ∷ []) }
    {
        self.twice = first_place(self.twice, self.met.contains(id as usize), at);
        self.met.add(id as usize);
    }

    /// Whether a bundle with this id was met.
    pub fn has(&self, id: u8) -> bool
        ensures { result ≡ is_met self.now.met.marks id }
    {
        self.met.contains(id as usize)
    }
}

impl MetCports {
    /// Takes a CPort.
    fn take(&mut self, at: u32, id: u16, bundle: u8, protocol: u8)
        ensures { (before : List Placed) → AreCports self.old before
            → AreCports self.new
            (before ++ place at (formats.Descriptor.Cport id bundle protocol) ∷ []) }
    {
        self.control = first_place(self.control, is_wrong_control(id, bundle, protocol), at);
        let id = id as usize;
        self.above = first_place(self.above, id > GREATEST_CPORT, at);
        if id <= GREATEST_CPORT {
            self.twice = first_place(self.twice, self.met.contains(id), at);
            self.met.add(id);
        }
    }
}

/// CPort 0 that isn't in bundle 0, or hasn't the protocol of Control.
fn is_wrong_control(id: u16, bundle: u8, protocol: u8) -> bool
    ensures { (before : List Placed)
        → result ≡ wrong_control before (formats.Descriptor.Cport id bundle protocol) }
{
    id == 0 && (bundle != 0 || protocol != CONTROL)
}

impl Declared {
    /// Nothing is declared.
    pub fn new() -> Declared
        ensures { AreDeclared result [] }
    {
        Declared {
            interfaces: MetInterfaces {
                any: false,
                second: None,
            },
            strings: MetStrings {
                met: Ids::new(),
                zero: None,
                twice: None,
            },
            bundles: MetBundles {
                met: Ids::new(),
                twice: None,
            },
            cports: MetCports {
                met: Ids::new(),
                above: None,
                twice: None,
                control: None,
            },
        }
    }

    /// Takes the next descriptor.
    #[inline(always)]
    pub fn take(&mut self, at: u32, d: &Descriptor<'_>)
        ensures { (before : List Placed) → AreDeclared self.old before
            → AreDeclared self.new (before ++ placed_of (at, d.now) ∷ []) }
    {
        match d {
            Descriptor::Interface { .. } => self.interfaces.take(at),
            Descriptor::Words { id, .. } => self.strings.take(at, *id),
            Descriptor::Bundle { id, .. } => self.bundles.take(at, *id),
            Descriptor::Cport {
                id,
                bundle,
                protocol,
            } => self.cports.take(at, *id, *bundle, *protocol),
        }
    }
}
