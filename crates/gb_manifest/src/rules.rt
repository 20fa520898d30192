//! The rules on the descriptors of a manifest as a whole, in the order in which they are tried.

ghost use Rattle.std.specs.Prelude.{◌≡◌, List, map, option_map};
ghost use Rattle.gb_formats.specs.ManifestRules as formats;
ghost use Rattle.gb_formats.specs.ManifestRules.{Placed, rules_refusal};
ghost use Rattle.gb_manifest.specs.Met.{AreDeclared, AreUndeclared};
ghost use Rattle.gb_manifest.specs.Values.{refused_of};

use crate::declared::Declared;
use crate::refusal::Refused;
use crate::undeclared::Undeclared;
use gb_base::Reason;

/// The refusal of the first breach that has a place.
fn first_of(breaches: &[(Reason, Option<u32>)]) -> Option<Refused>
    ensures { option_map refused_of result
        ≡ formats.first_of (map (λ b. formats.breach b.0 b.1) breaches.now) }
{
    for (reason, place) in breaches {
        if let Some(at) = place {
            return Some(Refused::new(*at, *reason));
        }
    }
    None
}

/// The first rule that the descriptors of a manifest of this length break, and where.
pub fn rules_refusal(len: u32, declared: &Declared, undeclared: &Undeclared) -> Option<Refused>
    ensures { (all : List Placed) → AreDeclared declared.now all
        → AreUndeclared undeclared.now all all
        → option_map refused_of result ≡ rules_refusal len all }
{
    if !declared.interfaces.any {
        return Some(Refused::new(len, Reason::NoInterface));
    }
    first_of(&[
        (Reason::SecondInterface, declared.interfaces.second),
        (Reason::StringId, declared.strings.zero),
        (Reason::StringTwice, declared.strings.twice),
        (Reason::BundleTwice, declared.bundles.twice),
        (Reason::CportId, declared.cports.above),
        (Reason::CportTwice, declared.cports.twice),
        (Reason::CportBundle, undeclared.bundle),
        (Reason::ControlCport, declared.cports.control),
        (Reason::VendorString, undeclared.vendor),
        (Reason::ProductString, undeclared.product),
    ])
}
