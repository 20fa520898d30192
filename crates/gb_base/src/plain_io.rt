//! A source and a sink in memory that never fail.

ghost use Rattle.std.specs.Prelude.{◌≡◌, ℕ, ◌<◌, ◌≤◌, List, [], ◌++◌, Some, Ok, IfOk, IsErrOf};
ghost use Rattle.std.specs.Prelude.{length, min, take, drop};
ghost use Rattle.std.specs.Io.{ReadsAtMost, WritesAtMost};
ghost use Rattle.std.specs.Io.KnownBytes.{ReadConsumes, WriteAppends};

use crate::prefix::copy_prefix;
use crate::{Bytes, Failed, OutOfMemory, Sink, Source, WriteStop};
use std::alloc::Global;
use std::marker::Model;

/// Bytes in memory as a source. A contract sees the list of the bytes that are left.
#[derive(Drop)]
pub struct PlainSource {
    bytes: Bytes,
    at: usize,
}

impl Model for PlainSource {
    ghost use Rattle.std.specs.Prelude.{ℕ, ◌≤◌, List, length, drop};

    ghost Value = { List ℕ };

    ghost view = { λ s. drop s.at s.bytes };

    ghost invariant = { λ s. s.at ≤ length s.bytes };
}

impl PlainSource {
    /// The source of these bytes.
    pub fn new(bytes: Bytes) -> PlainSource
        ensures { result ≡ bytes }
    {
        PlainSource { bytes, at: 0 }
    }
}

impl Source for PlainSource {
    ghost left = { λ s. Some s };

    ghost faults = { λ _. 0 };

    /// Reads as many bytes as fit. It never fails.
    fn read(&mut self, buf: &mut [u8]) -> Result<usize, Failed>
        ensures bound { ReadsAtMost result buf.new }
        ensures bytes { ReadConsumes (Some self.old) (Some self.new) result buf.new }
        ensures count { result ≡ Ok (min (length buf.old) (length self.old)) }
        ensures rest { IfOk result (λ n. buf.new ≡ take n self.old ++ drop n buf.old) }
    {
        let room = buf.len();
        let count = copy_prefix(&self.bytes.items()[self.at..], room, buf);
        self.at += count;
        Ok(count)
    }
}

/// Bytes in memory as a sink. A contract sees the list of the bytes that were taken.
#[derive(Drop)]
pub struct PlainSink {
    bytes: Vec<u8>,
}

impl Model for PlainSink {
    ghost use Rattle.std.specs.Prelude.{ℕ, List};

    ghost Value = { List ℕ };

    ghost view = { λ s. s.bytes.items };
}

impl PlainSink {
    /// The sink that has taken nothing. It takes its memory from `alloc`, and none yet.
    pub fn new(alloc: Global) -> PlainSink
        ensures { result ≡ [] }
    {
        PlainSink {
            bytes: Vec::new(alloc),
        }
    }

    /// The bytes that were taken, in order.
    pub fn taken(&self) -> &[u8]
        ensures { result.now ≡ self.now }
    {
        self.bytes.as_slice()
    }
}

impl Sink for PlainSink {
    ghost taken = { λ s. Some s };

    ghost faults = { λ _. 0 };

    /// Takes the whole piece. It stops only where no memory is found.
    fn write(&mut self, piece: &[u8]) -> Result<usize, WriteStop>
        ensures bound { WritesAtMost result piece.now }
        ensures some { 0 < length piece.now → IfOk result (λ n. 0 < n) }
        ensures bytes { WriteAppends (Some self.old) (Some self.new) result piece.now }
        ensures memory { IsErrOf result WriteStop.Failed → ⊥ }
        ensures whole { IfOk result (λ n. n ≡ length piece.now) }
    {
        match self.bytes.extend_from_slice(piece) {
            Ok(()) => Ok(piece.len()),
            Err(refused) => Err(WriteStop::Memory(OutOfMemory::from(refused))),
        }
    }
}
