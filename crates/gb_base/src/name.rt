//! Names of requests.

ghost use Rattle.std.specs.Prelude.{
  ◌≡◌,
  ◌≤◌,
  if◌then◌else◌,
  Some,
  None,
  nat_eq,
  IsAscii,
  IsTrue,
  length,
  ⊤,
};
ghost use Rattle.std.specs.Cmp.{partial_equiv_from_equiv};
ghost use Rattle.std.specs.Cmp.Lexicographic.{pointwise, nat_list_eq_equiv};
ghost use Rattle.std.specs.List.{list_all};
ghost use Rattle.gb_base.specs.Name.{is_name, is_name_byte, padded};

use crate::{OutOfMemory, TryCopy};
use std::alloc::AllocError;
use std::marker::Model;
use std::str;

/// The most bytes of a name.
const LONGEST: usize = 16;

/// The word of a name: 1 to 16 of `a` to `z` and `0` to `9`. A contract sees the list of its bytes.
#[derive(Drop)]
pub struct Word {
    /// The bytes, with zeros behind them.
    places: [u8; LONGEST],
    /// How many they are.
    count: u8,
}

impl Model for Word {
    ghost use Rattle.std.specs.Prelude.{ℕ, List, take};
    ghost use Rattle.gb_base.specs.Name.{HoldsName};

    ghost Value = { List ℕ };

    ghost view = { λ w. take w.count w.places };

    ghost invariant = { λ w. HoldsName w.count w.places };
}

impl Word {
    /// The word with these bytes, None where they aren't 1 to 16 of `a` to `z` and `0` to `9`.
    pub fn from_bytes(bytes: &[u8]) -> Option<Word>
        ensures { result ≡ (if is_name bytes.now then Some bytes.now else None) }
    {
        if bytes.is_empty() || bytes.len() > LONGEST {
            return None;
        }
        let places = places_of(bytes)?;
        Some(Word {
            places,
            count: bytes.len() as u8,
        })
    }

    /// The bytes.
    pub fn bytes(&self) -> &[u8]
        ensures bytes { result.now ≡ self.now }
        ensures name { IsTrue (is_name self.now) }
    {
        &self.places[..usize::from(self.count)]
    }

    /// The text.
    pub fn text(&self) -> &str
        ensures bytes { result.now ≡ self.now }
        ensures ascii { IsAscii self.now }
    {
        str::from_utf8(self.bytes()).unwrap()
    }

    /// The bytes, with zeros behind them.
    #[inline(always)]
    pub fn places(&self) -> [u8; LONGEST]
        ensures places { result ≡ padded self.now }
        ensures name { IsTrue (is_name self.now) }
    {
        self.places
    }
}

/// At most 16 bytes of names with zeros behind them, None where one isn't such a byte.
#[inline(always)]
fn places_of(bytes: &[u8]) -> Option<[u8; LONGEST]>
    requires { length bytes.now ≤ 16 }
    ensures { result
        ≡ (if list_all is_name_byte bytes.now then Some (padded bytes.now) else None) }
{
    let mut places = [0; LONGEST];
    for i in 0..bytes.len() {
        let byte = bytes[i];
        if !is_name_byte(byte) {
            return None;
        }
        places[i] = byte;
    }
    Some(places)
}

/// Whether the byte is one of `a` to `z` or `0` to `9`.
#[inline(always)]
pub(crate) fn is_name_byte(b: u8) -> bool
    ensures { result ≡ is_name_byte b }
{
    b.is_ascii_lowercase() || b.is_ascii_digit()
}

impl PartialEq for Word {
    ghost eq = { pointwise nat_eq };

    ghost laws = { partial_equiv_from_equiv nat_list_eq_equiv };

    fn eq(&self, other: &Word) -> bool {
        self.bytes() == other.bytes()
    }
}

impl Eq for Word {
    ghost laws = { nat_list_eq_equiv };
}

impl TryCopy for Word {
    ghost is_infallible = { λ _. ⊤ };

    fn copy(&self) -> Result<Word, OutOfMemory> {
        Ok(Word {
            places: self.places,
            count: self.count,
        })
    }
}

impl Clone for Word {
    ghost is_clone = { λ x y. y ≡ x };

    ghost is_infallible = { λ _. ⊤ };

    fn clone(&self) -> Result<Word, AllocError> {
        Ok(self.copy()?)
    }
}

/// A name that a script gave to a request.
#[derive(Clone, Drop, PartialEq, Eq)]
pub struct Name {
    /// The requester to whom the name belongs: 0 in a script of one requester.
    pub who: u8,
    /// The word.
    pub word: Word,
}

impl TryCopy for Name {
    ghost is_infallible = { λ _. ⊤ };

    fn copy(&self) -> Result<Name, OutOfMemory> {
        Ok(self.clone()?)
    }
}
