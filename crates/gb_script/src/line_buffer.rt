//! What is kept of the line that is being read.

ghost use Rattle.std.specs.Prelude.{◌≡◌, ◌≤◌, [], ◌+◌, ◌++◌, ℕ, List, IfOk, ◌==◌, length, take};
ghost use Rattle.gb_formats.specs.Lines.{without_cr};

use crate::plain_line::LONGEST_LINE;
use gb_base::OutOfMemory;
use std::alloc::Global;

/// How many bytes are kept of a line: one more than its text may have, for a CR.
const KEPT: usize = LONGEST_LINE + 1;

/// The first 8,193 bytes of a line, and how many bytes the line has.
#[derive(Drop)]
pub struct LineBuffer {
    bytes: Vec<u8>,
    size: usize,
    ghost kept: { length bytes.items ≡ 8193 },
}

impl LineBuffer {
    ghost use Rattle.gb_script.specs.LineBuffers.{HoldsLine, HoldsText, is_long_text};

    /// Before the first byte.
    pub fn new(alloc: Global) -> Result<LineBuffer, OutOfMemory>
        ensures { IfOk result (λ f. HoldsLine f []) }
    {
        Ok(LineBuffer {
            bytes: vec![in alloc; 0; KEPT]?,
            size: 0,
        })
    }

    /// Forgets all bytes.
    pub fn clear(&mut self)
        ensures { HoldsLine self.new [] }
    {
        self.size = 0;
    }

    /// The next bytes of the line.
    pub fn append(&mut self, more: &[u8])
        requires { self.old.size + length more.now ≤ 1048576 }
        ensures { (raw : List ℕ) → HoldsLine self.old raw → HoldsLine self.new (raw ++ more.now) }
    {
        if self.size < KEPT {
            let count = more.len().min(KEPT - self.size);
            self.bytes[self.size..self.size + count].copy_from_slice(&more[..count]);
        }
        self.size += more.len();
    }

    /// Drops a CR at the end.
    pub fn drop_cr(&mut self)
        ensures { (raw : List ℕ) → HoldsLine self.old raw → HoldsText self.new (without_cr raw) }
    {
        if self.size > 0 && self.size <= KEPT && self.bytes[self.size - 1] == b'\r' {
            self.size -= 1;
        }
    }

    /// Whether there is no byte.
    pub fn is_empty(&self) -> bool
        ensures { (raw : List ℕ) → HoldsLine self.now raw → result ≡ (length raw == 0) }
    {
        self.size == 0
    }

    /// The first 8,192 bytes.
    pub fn text(&self) -> &[u8]
        ensures { (line : List ℕ) → HoldsText self.now line → result.now ≡ take 8192 line }
    {
        if self.size < LONGEST_LINE {
            &self.bytes[..self.size]
        } else {
            &self.bytes[..LONGEST_LINE]
        }
    }

    /// Whether there are more than 8,192 bytes.
    pub fn is_long(&self) -> bool
        ensures { (line : List ℕ) → HoldsText self.now line → result ≡ is_long_text line }
    {
        self.size > LONGEST_LINE
    }
}
