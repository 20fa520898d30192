//! The bytes of one read.

ghost use Rattle.std.specs.Prelude.{◌≡◌, ◌≤◌, ◌+◌, [], length, take, drop, true, IfOk, OnErr};
ghost use Rattle.gb_base.specs.Faults.{Rose};
ghost use Rattle.gb_formats.specs.Lines.{without_cr};
ghost use Rattle.gb_script.specs.Pieces.{TellsLf};

use crate::lines::without_cr;
use gb_base::{Failed, OutOfMemory, Source};
use memchr::memchr;
use std::alloc::Global;
use std::marker::Model;

/// How many bytes one read asks for.
const PIECE: usize = 4_096;

/// The bytes that one read gave. A contract sees the line that was taken last, and the bytes that
/// weren't taken yet.
#[derive(Drop)]
pub struct Piece {
    bytes: Vec<u8>,
    /// Where the line that was taken last begins.
    line_start: usize,
    /// How many bytes it has, without its end.
    line_len: usize,
    start: usize,
    end: usize,
    /// How many bytes are left before the first LF, None where no LF is left.
    lf: Option<usize>,
}

impl Model for Piece {
    ghost use Rattle.std.specs.Prelude.{◌≡◌, ◌≤◌, ◌+◌, length, take, drop};
    ghost use Rattle.gb_script.specs.Pieces.{PieceBytes, TellsLf};

    ghost Value = { PieceBytes };

    ghost view = { λ p. record {
      line = take p.line_len (drop p.line_start p.bytes.items);
      left = drop p.start (take p.end p.bytes.items);
    } };

    ghost invariant = { λ p. (p.start ≤ p.end) × (p.end ≤ 4096)
        × (length p.bytes.items ≡ 4096) × (p.line_start + p.line_len ≤ 4096)
        × TellsLf p.lf (drop p.start (take p.end p.bytes.items)) };
}

impl Piece {
    ghost use Rattle.gb_script.specs.Pieces.{EndsAt, Fills, has_lf};

    /// Before the first read.
    pub fn new(alloc: Global) -> Result<Piece, OutOfMemory>
        ensures { IfOk result (λ p. p.left ≡ []) }
    {
        Ok(Piece {
            bytes: vec![in alloc; 0; PIECE]?,
            line_start: 0,
            line_len: 0,
            start: 0,
            end: 0,
            lf: None,
        })
    }

    /// Reads where no byte is left. True where bytes are left then, and false at the end
    /// of the source.
    pub fn fill<S: Source>(&mut self, source: &mut S) -> Result<bool, Failed>
        ensures bytes { Fills self.old.left self.new.left (S.left source.old) (S.left source.new)
            result }
        ensures held { has_lf self.old.left ≡ true
            → (self.new ≡ self.old) × (source.new ≡ source.old) }
        ensures few { length self.old.left ≤ 4096 → length self.new.left ≤ 4096 }
        ensures later { S.faults source.old ≤ S.faults source.new }
        ensures cause { OnErr result (Rose (S.faults source.old) (S.faults source.new)) }
    {
        if self.start < self.end {
            return Ok(true);
        }
        self.start = 0;
        self.end = 0;
        self.lf = None;
        let n = source.read(self.bytes.as_mut_slice())?;
        self.end = n;
        self.lf = first_lf(&self.bytes[..n]);
        Ok(n > 0)
    }

    /// The bytes that are left.
    pub fn left(&self) -> &[u8]
        ensures { result.now ≡ self.now.left }
    {
        &self.bytes[self.start..self.end]
    }

    /// How many bytes are left before the first LF. None where no LF is left.
    pub fn before_lf(&self) -> Option<usize>
        ensures { TellsLf result self.now.left }
    {
        self.lf
    }

    /// Whether an LF is left.
    pub fn has_lf(&self) -> bool
        ensures { result ≡ has_lf self.now.left }
    {
        self.lf.is_some()
    }

    /// Takes the next `count` bytes.
    pub fn consume(&mut self, count: usize)
        requires { count ≤ length self.old.left }
        ensures left { self.new.left ≡ drop count self.old.left }
        ensures line { self.new.line ≡ self.old.line }
    {
        self.start += count;
        self.lf = first_lf(&self.bytes[self.start..self.end]);
    }

    /// Takes the line that ends with the first LF, which is behind `n` bytes.
    pub fn take_line(&mut self, n: usize)
        requires { EndsAt self.old.left n }
        ensures left { self.new.left ≡ drop (n + 1) self.old.left }
        ensures line { self.new.line ≡ without_cr (take n self.old.left) }
    {
        self.line_start = self.start;
        self.line_len = without_cr(&self.bytes[self.start..self.start + n]).len();
        self.consume(n + 1);
    }

    /// The line that was taken last. It stands here until the next read.
    pub fn line(&self) -> &[u8]
        ensures { result.now ≡ self.now.line }
    {
        &self.bytes[self.line_start..self.line_start + self.line_len]
    }
}

/// How many bytes are before the first LF. None where there is no LF.
fn first_lf(bytes: &[u8]) -> Option<usize>
    ensures { TellsLf result bytes.now }
{
    memchr(b'\n', bytes)
}
