//! Bytes, which lie in the value itself while they are few.

ghost use Rattle.std.specs.Prelude.{◌≡◌, ◌≤◌, [], ◌∷◌, ◌++◌, OnOk, OnErr, IfOk, IsOk, take};
ghost use Rattle.gb_base.specs.Bytes.{AreFew, inline_size};

use crate::{OutOfMemory, TryCopy};
use smallvec::SmallVec;
use std::alloc::{AllocError, Global};
use std::marker::Model;

/// How many bytes lie in the value itself.
pub const FEW: usize = 16;

/// The bytes of a message, a payload or a manifest. Up to 16 take no memory of their own. They keep
/// the allocator that they were made with.
#[derive(Drop)]
pub struct Bytes {
    bytes: SmallVec<u8, FEW>,
}

impl Model for Bytes {
    ghost use Rattle.std.specs.Prelude.{ℕ, ◌≤◌, List};
    ghost use Rattle.gb_base.specs.Bytes.{AreFew, inline_size};

    ghost Value = { List ℕ };

    ghost view = { λ b. b.bytes.items };

    // Few have the room that lies in the value.
    ghost invariant = { λ b. AreFew b.bytes.items → inline_size ≤ b.bytes.capacity };
}

impl Bytes {
    /// No bytes.
    pub fn new(alloc: Global) -> Bytes
        ensures { result ≡ [] }
    {
        Bytes {
            bytes: SmallVec::new(alloc),
        }
    }

    /// The bytes that a vector has. It takes no memory.
    pub fn from_vec(bytes: Vec<u8>) -> Bytes
        ensures { result ≡ bytes.items }
    {
        Bytes {
            bytes: SmallVec::from_vec(bytes),
        }
    }

    /// These bytes. Few take no memory.
    #[inline(always)]
    pub fn from_slice(alloc: Global, bytes: &[u8]) -> Result<Bytes, OutOfMemory>
        ensures same { IfOk result (λ b. b ≡ bytes.now) }
        ensures few { AreFew bytes.now → IsOk result }
    {
        if bytes.is_empty() {
            return Ok(Bytes::new(alloc));
        }
        if bytes.len() <= FEW {
            return Ok(Bytes::few(alloc, bytes));
        }
        Ok(Bytes {
            bytes: SmallVec::from_slice(alloc, bytes)?,
        })
    }

    /// Few bytes. Those of a length up to four are laid for that length, which costs less than a
    /// copy of any length.
    #[inline(always)]
    fn few(alloc: Global, bytes: &[u8]) -> Bytes
        requires { AreFew bytes.now }
        ensures { result ≡ bytes.now }
    {
        match *bytes {
            [a] => Bytes::from_four(alloc, [a, 0, 0, 0], 1),
            [a, b] => Bytes::from_four(alloc, [a, b, 0, 0], 2),
            [a, b, c] => Bytes::from_four(alloc, [a, b, c, 0], 3),
            [a, b, c, d] => Bytes::from_four(alloc, [a, b, c, d], 4),
            _ => {
                let mut places = [0; FEW];
                places[..bytes.len()].copy_from_slice(bytes);
                Bytes::from_front(alloc, places, bytes.len())
            }
        }
    }

    /// The first `count` of these four bytes.
    #[inline(always)]
    fn from_four(alloc: Global, four: [u8; 4], count: usize) -> Bytes
        requires { count ≤ 4 }
        ensures { result ≡ take count four }
    {
        let mut places = [0; FEW];
        places[..4].copy_from_slice(&four);
        Bytes::from_front(alloc, places, count)
    }

    /// The first `count` of these bytes. It takes no memory.
    pub fn from_front(alloc: Global, places: [u8; FEW], count: usize) -> Bytes
        requires { count ≤ inline_size }
        ensures { result ≡ take count places }
    {
        Bytes {
            bytes: SmallVec::from_buf_and_len(alloc, places, count),
        }
    }

    /// The bytes in order.
    pub fn items(&self) -> &[u8]
        ensures { result.now ≡ self.now }
    {
        self.bytes.as_slice()
    }

    /// Adds a byte at the end. After a refusal the bytes are as before.
    pub fn push(&mut self, byte: u8) -> Result<(), OutOfMemory>
        ensures ok { OnOk result (self.new ≡ self.old ++ byte ∷ []) }
        ensures err { OnErr result (self.new ≡ self.old) }
        ensures few { AreFew (self.old ++ byte ∷ []) → IsOk result }
    {
        self.bytes.push(byte)?;
        Ok(())
    }

    /// Adds these bytes at the end. After a refusal the bytes are as before.
    pub fn extend(&mut self, more: &[u8]) -> Result<(), OutOfMemory>
        ensures ok { OnOk result (self.new ≡ self.old ++ more.now) }
        ensures err { OnErr result (self.new ≡ self.old) }
        ensures few { AreFew (self.old ++ more.now) → IsOk result }
    {
        self.bytes.extend_from_slice(more)?;
        Ok(())
    }
}

impl TryCopy for Bytes {
    ghost is_infallible = { AreFew };

    fn copy(&self) -> Result<Bytes, OutOfMemory> {
        Bytes::from_slice(*self.bytes.allocator(), self.bytes.as_slice())
    }
}

impl Clone for Bytes {
    ghost is_clone = { λ x y. y ≡ x };

    ghost is_infallible = { AreFew };

    fn clone(&self) -> Result<Bytes, AllocError> {
        Ok(self.copy()?)
    }
}
