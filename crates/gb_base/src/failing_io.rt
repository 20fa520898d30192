//! A source and a sink in memory that fail at given calls, for tests of what stands on them.

ghost use Rattle.std.specs.Prelude.{◌≡◌, ◌↔◌, ◌<◌, ◌≤◌, [], ◌++◌, Some, IsTrue, IfOk, OnErr, IsErr};
ghost use Rattle.std.specs.Prelude.{IsErrOf, length, take, drop};
ghost use Rattle.std.specs.Io.{ReadsAtMost, WritesAtMost};
ghost use Rattle.std.specs.Io.KnownBytes.{ReadConsumes, WriteAppends};
ghost use Rattle.gb_base.specs.Faults.{Rose};
ghost use Rattle.gb_base.specs.Memory.{next_fails, one_more, bytes_given, after_read, after_write};

use crate::prefix::copy_prefix;
use crate::{Bytes, Failed, Numbers, OutOfMemory, Sink, Source, WriteStop};
use std::alloc::Global;
use std::marker::Model;

/// Bytes in memory as a source that gives them in small pieces, and fails at given reads. A
/// contract sees the bytes that are left, the most that a read gives, the numbers of the reads that
/// fail, and how many reads there were and have failed.
#[derive(Drop)]
pub struct MemSource {
    bytes: Bytes,
    at: usize,
    most: usize,
    failing: Numbers,
    reads: u64,
    failed: u64,
}

impl Model for MemSource {
    ghost use Rattle.std.specs.Prelude.{◌≤◌, ◌<◌, length, drop};
    ghost use Rattle.gb_base.specs.Memory.{MemInput};

    ghost Value = { MemInput };

    ghost view = { λ s. record {
      left = drop s.at s.bytes;
      step = s.most;
      fail_at = s.failing;
      calls = s.reads;
      faults = s.failed;
    } };

    ghost invariant = { λ s. (s.at ≤ length s.bytes) × (0 < s.most) × (s.failed ≤ s.reads) };
}

impl MemSource {
    /// The source of these bytes. A read gives at most `step` of them, which is at least 1, and the
    /// reads whose number from 1 is in `fail_at` fail.
    pub fn new(bytes: Bytes, step: usize, fail_at: Numbers) -> MemSource
        requires { 1 ≤ step }
        ensures left { result.left ≡ bytes }
        ensures step { result.step ≡ step }
        ensures fail_at { result.fail_at ≡ fail_at }
        ensures calls { result.calls ≡ 0 }
        ensures faults { result.faults ≡ 0 }
    {
        MemSource {
            bytes,
            at: 0,
            most: step,
            failing: fail_at,
            reads: 0,
            failed: 0,
        }
    }

    /// The bytes that are left, in order.
    pub fn left(&self) -> &[u8]
        ensures { result.now ≡ self.now.left }
    {
        &self.bytes.items()[self.at..]
    }
}

impl Source for MemSource {
    ghost left = { λ s. Some s.left };

    ghost faults = { λ s. s.faults };

    /// Reads as many bytes as fit, and at most the step.
    fn read(&mut self, buf: &mut [u8]) -> Result<usize, Failed>
        ensures bound { ReadsAtMost result buf.new }
        ensures bytes { ReadConsumes (Some self.old.left) (Some self.new.left) result buf.new }
        ensures later { self.old.faults ≤ self.new.faults }
        ensures cause { OnErr result (Rose self.old.faults self.new.faults) }
        ensures fails { IsErr result ↔ IsTrue (next_fails self.old.fail_at self.old.calls) }
        ensures count { IfOk result (λ n. n ≡ bytes_given self.old (length buf.old)) }
        ensures state { self.new ≡ after_read self.old result }
        ensures rest { IfOk result (λ n. buf.new ≡ take n self.old.left ++ drop n buf.old) }
        ensures kept { OnErr result (buf.new ≡ buf.old) }
    {
        if counted_fails(&mut self.reads, self.failing.items()) {
            self.failed += 1;
            return Err(Failed);
        }
        let count = copy_prefix(&self.bytes.items()[self.at..], self.most, buf);
        self.at += count;
        Ok(count)
    }
}

/// Counts a call, and answers whether its number is one of those that fail. A call past the last
/// number of 64 bits isn't counted, and doesn't fail.
fn counted_fails(calls: &mut u64, failing: &[u64]) -> bool
    ensures fails { result ≡ next_fails failing.now calls.old }
    ensures counted { calls.new ≡ one_more calls.old }
    ensures risen { IsTrue result → calls.old < calls.new }
{
    match calls.checked_add(1) {
        Some(number) => {
            *calls = number;
            failing.contains(&number)
        }
        None => false,
    }
}

/// Bytes in memory as a sink that fails at given writes. A contract sees the bytes that were taken,
/// the numbers of the writes that fail, and how many writes there were and have failed.
#[derive(Drop)]
pub struct MemSink {
    bytes: Vec<u8>,
    failing: Numbers,
    writes: u64,
    failed: u64,
}

impl Model for MemSink {
    ghost use Rattle.std.specs.Prelude.{◌≤◌};
    ghost use Rattle.gb_base.specs.Memory.{MemOutput};

    ghost Value = { MemOutput };

    ghost view = { λ s. record {
      taken = s.bytes.items;
      fail_at = s.failing;
      calls = s.writes;
      faults = s.failed;
    } };

    ghost invariant = { λ s. s.failed ≤ s.writes };
}

impl MemSink {
    /// The sink that has taken nothing. The writes whose number from 1 is in `fail_at` fail. It
    /// takes its memory from `alloc`, and none yet.
    pub fn new(alloc: Global, fail_at: Numbers) -> MemSink
        ensures taken { result.taken ≡ [] }
        ensures fail_at { result.fail_at ≡ fail_at }
        ensures calls { result.calls ≡ 0 }
        ensures faults { result.faults ≡ 0 }
    {
        MemSink {
            bytes: Vec::new(alloc),
            failing: fail_at,
            writes: 0,
            failed: 0,
        }
    }

    /// The bytes that were taken, in order.
    pub fn taken(&self) -> &[u8]
        ensures { result.now ≡ self.now.taken }
    {
        self.bytes.as_slice()
    }
}

impl Sink for MemSink {
    ghost taken = { λ s. Some s.taken };

    ghost faults = { λ s. s.faults };

    /// Takes the whole piece. A write that finds no memory takes nothing, and raises no
    /// count of faults.
    fn write(&mut self, piece: &[u8]) -> Result<usize, WriteStop>
        ensures bound { WritesAtMost result piece.now }
        ensures some { 0 < length piece.now → IfOk result (λ n. 0 < n) }
        ensures bytes { WriteAppends (Some self.old.taken) (Some self.new.taken) result piece.now }
        ensures later { self.old.faults ≤ self.new.faults }
        ensures cause { IsErrOf result WriteStop.Failed → Rose self.old.faults self.new.faults }
        ensures fails { IsErrOf result WriteStop.Failed
            ↔ IsTrue (next_fails self.old.fail_at self.old.calls) }
        ensures whole { IfOk result (λ n. n ≡ length piece.now) }
        ensures state { self.new ≡ after_write self.old piece.now result }
    {
        if counted_fails(&mut self.writes, self.failing.items()) {
            self.failed += 1;
            return Err(WriteStop::Failed);
        }
        match self.bytes.extend_from_slice(piece) {
            Ok(()) => Ok(piece.len()),
            Err(refused) => Err(WriteStop::Memory(OutOfMemory::from(refused))),
        }
    }
}
