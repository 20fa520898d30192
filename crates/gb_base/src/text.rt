//! Text of the report: bytes below 0x80.

ghost use Rattle.std.specs.Prelude.{◌≡◌, ◌<◌, [], ◌∷◌, ◌++◌, OnOk, OnErr, IsAscii};

use crate::{OutOfMemory, TryCopy};
use std::alloc::{AllocError, Global};
use std::marker::Model;

/// A text that grows at its end. Its members are bytes below 0x80.
#[derive(Drop)]
pub struct Text {
    bytes: Vec<u8>,
}

impl Model for Text {
    ghost use Rattle.std.specs.Prelude.{ℕ, List, IsAscii};

    ghost Value = { List ℕ };

    ghost view = { λ t. t.bytes.items };

    ghost invariant = { λ t. IsAscii t.bytes.items };
}

impl Text {
    /// The empty text. It takes no memory yet.
    pub fn new(alloc: Global) -> Text
        ensures { result ≡ [] }
    {
        Text {
            bytes: Vec::new(alloc),
        }
    }

    /// The bytes in order.
    pub fn items(&self) -> &[u8]
        ensures bytes { result.now ≡ self.now }
        ensures ascii { IsAscii self.now }
    {
        self.bytes.as_slice()
    }

    /// No bytes from now on. The memory stays.
    pub fn clear(&mut self)
        ensures { self.new ≡ [] }
    {
        self.bytes.clear();
    }

    /// Adds a byte at the end. After a refusal the text is as before.
    pub fn push(&mut self, byte: u8) -> Result<(), OutOfMemory>
        requires { byte < 128 }
        ensures ok { OnOk result (self.new ≡ self.old ++ byte ∷ []) }
        ensures err { OnErr result (self.new ≡ self.old) }
    {
        self.bytes.push(byte)?;
        Ok(())
    }

    /// Adds a piece at the end. After a refusal the text is as before.
    pub fn append(&mut self, piece: &str) -> Result<(), OutOfMemory>
        requires { IsAscii piece.now }
        ensures ok { OnOk result (self.new ≡ self.old ++ piece.now) }
        ensures err { OnErr result (self.new ≡ self.old) }
    {
        self.bytes.extend_from_slice(piece.as_bytes())?;
        Ok(())
    }
}

impl TryCopy for Text {
    fn copy(&self) -> Result<Text, OutOfMemory> {
        Ok(Text {
            bytes: self.bytes.clone()?,
        })
    }
}

impl Clone for Text {
    ghost is_clone = { λ x y. y ≡ x };

    fn clone(&self) -> Result<Text, AllocError> {
        Ok(self.copy()?)
    }
}
