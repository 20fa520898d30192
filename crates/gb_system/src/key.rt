//! Names in their order.

ghost use Rattle.std.proofs.Common.{ap};
ghost use Rattle.std.specs.Prelude.{◌≡◌, ◌<◌, ◌∷◌, ℕ, IfOk, IsTrue, Some, refl, slice_index};
ghost use Rattle.std.specs.Cmp as order;
ghost use Rattle.std.specs.Hash as fed;
ghost use Rattle.gb_base.specs.Name.{is_name};
ghost use Rattle.gb_machine.specs.Names.{same_name};
ghost use Rattle.gb_system.specs.NameOrder.{name_cmp, name_equiv, name_order, name_ties};
ghost use Rattle.gb_system.specs.NameOrder.{name_total, one_name};
ghost use Rattle.gb_system.specs.WordNumber.{IsNumberOf, name_number};

use gb_base::{Name, OutOfMemory, TryCopy};
use std::cmp::Ordering;
use std::hash::{Hash, Hasher};
use std::marker::Model;

/// How many bytes of a word are in the number by which a name is hashed, behind the requester's.
const BYTES: usize = 15;

/// A name in the order of names: by requester, then by the bytes of its word. A contract
/// sees the name.
#[derive(Drop)]
pub struct Key {
    name: Name,
}

impl Model for Key {
    ghost use Rattle.gb_base.specs.declared.name.Name.{Name};

    ghost Value = { Name };

    ghost view = { λ k. k.name };
}

impl Key {
    /// A copy of a name.
    pub fn of(name: &Name) -> Result<Key, OutOfMemory>
        ensures { IfOk result (λ k. k ≡ name.now) }
    {
        Ok(Key { name: name.copy()? })
    }

    /// The name.
    pub fn name(&self) -> &Name
        ensures { result.now ≡ self.now }
    {
        &self.name
    }

    /// The requester and the first bytes of the word as one number, the requester most significant,
    /// then the first byte, with zeros past the end.
    #[inline(always)]
    fn number(&self) -> u128
        ensures { result ≡ name_number self.now }
    {
        u128::from_be_bytes(digits_of(self.name.who, self.name.word.places()))
    }

    /// The word as one number, its first byte most significant, with zeros past the end.
    #[inline(always)]
    fn word(&self) -> u128
        ensures number { IsNumberOf result self.now.word }
        ensures name { IsTrue (is_name self.now.word) }
    {
        u128::from_be_bytes(self.name.word.places())
    }

    /// The two are one name.
    #[inline(always)]
    fn is_same(&self, other: &Key) -> bool
        ensures { result ≡ same_name self.now other.now }
    {
        self.name.who == other.name.who && self.word() == other.word()
    }

    /// How two names compare.
    fn cmp_names(&self, other: &Key) -> Ordering
        ensures { result ≡ name_cmp self.now other.now }
    {
        let requesters = self.name.who.cmp(&other.name.who);
        requesters.then(self.word().cmp(&other.word()))
    }
}

/// A requester and the first 15 bytes of a word.
#[inline(always)]
fn digits_of(who: u8, word: [u8; 16]) -> [u8; 16]
    ensures { (i : ℕ) → i < 16 → slice_index result i ≡ slice_index (who ∷ word) i }
{
    let mut digits = [0; BYTES + 1];
    digits[0] = who;
    digits[1..].copy_from_slice(&word[..BYTES]);
    digits
}

impl PartialEq for Key {
    ghost eq = { same_name };

    ghost laws = { order.partial_equiv_from_equiv name_equiv };

    #[inline]
    fn eq(&self, other: &Key) -> bool {
        self.is_same(other)
    }
}

impl Eq for Key {
    ghost laws = { name_equiv };
}

impl Hash for Key {
    ghost hash_input = { λ name. fed.u128 (name_number name) };

    ghost respects_eq = { λ a b e. ap (λ name. fed.u128 (name_number name)) (one_name a b e) };

    #[inline]
    fn hash<H: Hasher>(&self, state: &mut H) {
        self.number().hash(state);
    }
}

impl PartialOrd for Key {
    ghost partial_cmp = { λ a b. Some (name_cmp a b) };

    ghost laws = { name_order };

    fn partial_cmp(&self, other: &Key) -> Option<Ordering> {
        Some(self.cmp(other))
    }
}

impl Ord for Key {
    ghost cmp = { name_cmp };

    ghost total = { name_total };

    ghost matches_partial_cmp = { λ a b. refl };

    ghost matches_eq = { name_ties };

    fn cmp(&self, other: &Key) -> Ordering {
        self.cmp_names(other)
    }
}
