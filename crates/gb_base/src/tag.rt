//! Tags of firmware images.

ghost use Rattle.std.specs.Prelude.{◌≡◌, if◌then◌else◌, Some, None, nat_eq, IsAscii, IsTrue, ⊤};
ghost use Rattle.std.specs.Cmp.{partial_equiv_from_equiv};
ghost use Rattle.std.specs.Cmp.Lexicographic.{pointwise, nat_list_eq_equiv};
ghost use Rattle.gb_base.specs.Tag.{is_tag};

use crate::name::is_name_byte;
use arrayvec::ArrayString;
use std::alloc::AllocError;
use std::marker::Model;
use std::str;

/// The most bytes of a tag.
const LONGEST: usize = 9;

/// The tag of a firmware image: 1 to 9 of `a` to `z` and `0` to `9`, so that ten bytes hold it with
/// a zero behind it. A contract sees the list of its bytes.
#[derive(Drop)]
pub struct Tag {
    text: ArrayString<9>,
}

impl Model for Tag {
    ghost use Rattle.std.specs.Prelude.{ℕ, List, IsAscii, IsTrue};
    ghost use Rattle.gb_base.specs.Tag.{is_tag};

    ghost Value = { List ℕ };

    ghost view = { λ t. t.text.bytes };

    ghost invariant = { λ t. IsTrue (is_tag t.text.bytes) × IsAscii t.text.bytes };
}

impl Tag {
    /// The tag with these bytes, None where they aren't 1 to 9 of `a` to `z` and `0` to `9`.
    pub fn from_bytes(bytes: &[u8]) -> Option<Tag>
        ensures { result ≡ (if is_tag bytes.now then Some bytes.now else None) }
    {
        if !is_tag(bytes) {
            return None;
        }
        let text = str::from_utf8(bytes).unwrap();
        let text = ArrayString::from(text).unwrap();
        Some(Tag { text })
    }

    /// The same tag. No memory.
    pub fn copied(&self) -> Tag
        ensures { result ≡ self.now }
    {
        Tag { text: self.text }
    }

    /// The bytes.
    pub fn bytes(&self) -> &[u8]
        ensures bytes { result.now ≡ self.now }
        ensures tag { IsTrue (is_tag self.now) }
    {
        self.text.as_str().as_bytes()
    }

    /// The text.
    pub fn text(&self) -> &str
        ensures bytes { result.now ≡ self.now }
        ensures ascii { IsAscii self.now }
    {
        self.text.as_str()
    }
}

/// Whether the bytes are 1 to 9 of `a` to `z` and `0` to `9`.
fn is_tag(bytes: &[u8]) -> bool
    ensures { result ≡ is_tag bytes.now }
{
    !bytes.is_empty() && bytes.len() <= LONGEST && bytes.iter().all(|b| is_name_byte(*b))
}

impl PartialEq for Tag {
    ghost eq = { pointwise nat_eq };

    ghost laws = { partial_equiv_from_equiv nat_list_eq_equiv };

    fn eq(&self, other: &Tag) -> bool {
        self.text == other.text
    }
}

impl Eq for Tag {
    ghost laws = { nat_list_eq_equiv };
}

impl Clone for Tag {
    ghost is_clone = { λ x y. y ≡ x };

    ghost is_infallible = { λ _. ⊤ };

    fn clone(&self) -> Result<Tag, AllocError> {
        Ok(self.copied())
    }
}
