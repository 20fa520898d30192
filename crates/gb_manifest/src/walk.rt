//! A walk over bytes that are to be descriptors.

ghost use Rattle.std.specs.Prelude.{◌+◌, ◌≤◌, length};

use crate::descriptor::{Descriptor, front, size_at_front};
use crate::refusal::Refused;
use byteorder::{ByteOrder, LittleEndian};

/// Bytes that are left of a manifest, and their place.
#[derive(Clone, Copy)]
pub struct Walk<'a> {
    at: u32,
    rest: &'a [u8],
    ghost within: { at + length rest.now ≤ 65535 },
}

impl<'a> Walk<'a> {
    ghost use Rattle.std.specs.Prelude.{◌≡◌, ◌==◌, ◌<◌, IsOk};
    ghost use Rattle.gb_manifest.specs.Walks.{FrontIs, GoesOn, Passes, SizesNext};
    ghost use Rattle.gb_manifest.specs.Walks.{walk_from, walk_of};

    /// Before the first descriptor.
    pub fn new(at: u32, rest: &'a [u8]) -> Walk<'a>
        requires { at + length rest.now ≤ 65535 }
        ensures { walk_of result ≡ walk_from at rest.now }
    {
        Walk { at, rest }
    }

    /// All bytes were passed.
    pub fn is_done(&self) -> bool
        ensures { result ≡ (length self.now.rest.now == 0) }
    {
        self.rest.is_empty()
    }

    /// The size of the descriptor at the front, or its refusal.
    pub fn size(&self) -> Result<usize, Refused>
        requires { 0 < length self.now.rest.now }
        ensures { SizesNext self.now result }
    {
        size_at_front(self.at, self.rest)
    }

    /// Passes the descriptor at the front, which has this size. It is given with its place.
    pub fn pass(&mut self, size: usize) -> (u32, Descriptor<'a>)
        requires { FrontIs self.old.at self.old.rest.now size }
        ensures { Passes self.old self.new result }
    {
        let found = (self.at, front(self.rest));
        (_, self.rest) = self.rest.split_at(size);
        self.at += size as u32;
        found
    }

    /// The next descriptor with its place, None where all bytes were passed. The walk
    /// meets no refusal.
    pub fn next(&mut self) -> Option<(u32, Descriptor<'a>)>
        requires { IsOk (walk_of self.old) }
        ensures next { GoesOn self.old self.new result }
        ensures sound { IsOk (walk_of self.new) }
    {
        if self.is_done() {
            return None;
        }
        let size = LittleEndian::read_u16(self.rest) as usize;
        Some(self.pass(size))
    }
}
