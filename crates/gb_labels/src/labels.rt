//! The identifiers in use on one side of a connection.

ghost use Rattle.std.specs.Prelude.{◌≡◌, ◌↔◌, ◌<◌, ℕ, IfOk, IsErr, length, slice_index};
ghost use Rattle.gb_machine.specs.Labels.{label_after};
ghost use Rattle.gb_labels.specs.Drawing.{
  AllInUse,
  DrawsAs,
  FindsFree,
  Frees,
  FreesAll,
  IsFirst,
  Marks,
  NextAs,
  Takes,
};
ghost use Rattle.gb_labels.specs.LabelSet.{is_in_use};

use crate::word::{BITS, first_unset};
use gb_base::OutOfMemory;
use std::alloc::Global;
use std::marker::Model;

/// The most words of 64 marks.
const WORDS: usize = 1024;

/// The greatest identifier.
const GREATEST_LABEL: u16 = 65_535;

/// All 65,535 identifiers are in use.
#[derive(Clone, Copy, Debug, PartialEq, Eq)]
pub struct NoLabel;

/// The identifiers in use on one side of a connection, of 1 to 65,535, and the last one that was
/// drawn. It takes 8,192 bytes, of which those up to the greatest mark so far are written.
#[derive(Debug, Drop)]
pub struct Labels {
    words: Vec<u64>,
    last: u16,
}

impl Model for Labels {
    ghost use Rattle.std.specs.Prelude.{◌≤◌, length};
    ghost use Rattle.std.specs.Vec.{vec_capacity};
    ghost use Rattle.gb_labels.specs.LabelSet.{LabelSet};

    ghost Value = { LabelSet };

    ghost view = { λ l. record { words = l.words.items; last = l.last } };

    ghost invariant = { λ l. (length l.words.items ≤ 1024) × (1024 ≤ vec_capacity l.words) };
}

impl Labels {
    /// No identifier is in use, and none was drawn.
    pub fn new(alloc: Global) -> Result<Labels, OutOfMemory>
        ensures { IfOk result IsFirst }
    {
        Ok(Labels {
            words: Vec::with_capacity(alloc, WORDS)?,
            last: 0,
        })
    }

    /// Draws the next identifier: the first in cyclic order, from 1 to 65,535, behind the last one
    /// drawn that isn't in use. It is in use then. Where all are in use nothing changes. It takes
    /// no memory, and looks at 64 marks at a time.
    pub fn draw(&mut self) -> Result<u16, NoLabel>
        ensures step { DrawsAs self.old self.new result }
        ensures spent { IsErr result ↔ AllInUse self.old }
    {
        let label = self.next()?;
        self.take(label);
        Ok(label)
    }

    /// The identifier that is drawn next.
    pub fn next(&self) -> Result<u16, NoLabel>
        ensures step { NextAs self.now result }
        ensures spent { IsErr result ↔ AllInUse self.now }
    {
        let start = after(self.last);
        if let Some(label) = self.first_free(start) {
            return Ok(label);
        }
        if let Some(label) = self.first_free(1) {
            return Ok(label);
        }
        Err(NoLabel)
    }

    /// This identifier is in use from now on, and is the last one drawn. It takes no memory.
    pub fn take(&mut self, label: u16)
        ensures { Takes self.old self.new label }
    {
        let place = usize::from(label / 64);
        self.reach(place);
        self.words[place] |= 1u64 << (label % 64);
        self.last = label;
    }

    /// There are words up to this one. Those that weren't there have no mark.
    fn reach(&mut self, place: usize)
        requires { place < 1024 }
        ensures there { place < length self.new.words }
        ensures same { (i : ℕ) → slice_index self.new.words i ≡ slice_index self.old.words i }
        ensures last { self.new.last ≡ self.old.last }
    {
        if self.words.len() <= place {
            self.words.resize(place + 1, 0).unwrap();
        }
    }

    /// An identifier is in use no more.
    pub fn free(&mut self, label: u16)
        ensures { Frees self.old self.new label }
    {
        let place = usize::from(label / 64);
        if place < self.words.len() {
            self.words[place] &= !(1u64 << (label % 64));
        }
    }

    /// No identifier is in use any more. The last one drawn stays. Words that aren't
    /// there cost nothing.
    pub fn free_all(&mut self)
        ensures { FreesAll self.old self.new }
    {
        self.words.clear();
    }

    /// No identifier is in use, and none was drawn, as in new ones. It takes no memory.
    pub fn renew(&mut self)
        ensures { IsFirst self.new }
    {
        self.free_all();
        self.last = 0;
    }

    /// The least identifier from `start` on that isn't in use.
    fn first_free(&self, start: u16) -> Option<u16>
        ensures { FindsFree (is_in_use self.now) start result }
    {
        let first = usize::from(start) / 64;
        let end = self.words.len();
        if end <= first {
            return Some(start);
        }
        let mut from = u32::from(start) % BITS;
        for i in first..end {
            if let Some(bit) = first_unset(self.words[i], from) {
                return Some((i * 64 + bit as usize) as u16);
            }
            from = 0;
        }
        if end < WORDS {
            return Some((end * 64) as u16);
        }
        None
    }
}

/// The identifier that follows another in their cycle.
fn after(label: u16) -> u16
    ensures { result ≡ label_after label }
{
    if label < GREATEST_LABEL { label + 1 } else { 1 }
}
