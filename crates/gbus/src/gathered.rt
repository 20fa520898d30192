//! Text that is written in one piece with what comes later.

ghost use Rattle.std.specs.Prelude.{◌≡◌, ◌≤◌, [], ◌++◌, length, nat_le, OnOk, OnErr};
ghost use Rattle.gbus.specs.Writing.{WritesAll};

use crate::output::write_all;
use gb_base::{OutOfMemory, Sink, WriteStop};
use std::alloc::Global;
use std::marker::Model;

/// From how many bytes on a text is written though more is to come.
const FULL: usize = 65_536;

/// Text that is to be written. A contract sees its bytes.
#[derive(Drop)]
pub struct Gathered {
    bytes: Vec<u8>,
}

impl Model for Gathered {
    ghost use Rattle.std.specs.Prelude.{ℕ, List};

    ghost Value = { List ℕ };

    ghost view = { λ g. g.bytes.items };
}

impl Gathered {
    /// No text. It takes no memory yet.
    pub fn new(alloc: Global) -> Gathered
        ensures { result ≡ [] }
    {
        Gathered {
            bytes: Vec::new(alloc),
        }
    }

    /// Adds a piece at the end. After a refusal the text is as before.
    pub fn add(&mut self, piece: &[u8]) -> Result<(), OutOfMemory>
        ensures ok { OnOk result (self.new ≡ self.old ++ piece.now) }
        ensures err { OnErr result (self.new ≡ self.old) }
    {
        self.bytes.extend_from_slice(piece)?;
        Ok(())
    }

    /// There is so much text that it is to be written.
    pub fn is_full(&self) -> bool
        ensures { result ≡ nat_le 65536 (length self.now) }
    {
        self.bytes.len() >= FULL
    }

    /// Writes the text, and has none then. At an error a front of it was taken.
    pub fn write<K: Sink>(&mut self, sink: &mut K) -> Result<(), WriteStop>
        ensures bytes { WritesAll (K.taken sink.old) (K.taken sink.new) (K.faults sink.old)
            (K.faults sink.new) self.old result }
        ensures empty { OnOk result (self.new ≡ []) }
        ensures later { K.faults sink.old ≤ K.faults sink.new }
    {
        write_all(sink, self.bytes.as_slice())?;
        self.bytes.clear();
        Ok(())
    }
}
