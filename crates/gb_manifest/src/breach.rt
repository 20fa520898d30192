//! Breaches of a rule.

ghost use Rattle.std.specs.Prelude.{◌≡◌};
ghost use Rattle.gb_manifest.specs.Declarations.{first_place};

/// The place of the first breach: the earlier one, else this place where the rule is broken here.
pub fn first_place(earlier: Option<u32>, broken: bool, at: u32) -> Option<u32>
    ensures { result ≡ first_place earlier broken at }
{
    earlier.or(if broken { Some(at) } else { None })
}
