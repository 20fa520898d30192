//! A reader and a writer of std as a source and a sink.

ghost use Rattle.std.specs.Prelude.{◌≡◌, ◌<◌, ◌≤◌, None, IfOk, OnErr, OnOk, IfErr, IsErrOf, length};
ghost use Rattle.std.specs.Io.{ReadsAtMost, WritesAtMost};
ghost use Rattle.std.specs.Io.KnownBytes.{ReadConsumes, WriteAppends};
ghost use Rattle.gb_base.specs.Faults.{Rose};
ghost use Rattle.gb_base.specs.Memory.{one_more};

use crate::{Failed, Sink, Source, WriteStop};
use std::io::{Read, Write};

/// A reader as a source. It counts the reads that fail; at 18,446,744,073,709,551,615
/// the count stays.
#[derive(Drop)]
pub struct StdSource<R> {
    inner: R,
    failed: u64,
}

impl<R: Read> StdSource<R> {
    /// The source of what the reader gives.
    pub fn new(inner: R) -> StdSource<R>
        ensures inner { result.inner ≡ inner }
        ensures faults { result.failed ≡ 0 }
    {
        StdSource { inner, failed: 0 }
    }
}

impl<R: Read> Source for StdSource<R> {
    ghost left = { λ _. None };

    ghost faults = { λ s. s.failed };

    /// One read of the reader. It fails where the reader answers an error, of whatever kind.
    fn read(&mut self, buf: &mut [u8]) -> Result<usize, Failed>
        ensures bound { ReadsAtMost result buf.new }
        ensures bytes { ReadConsumes None None result buf.new }
        ensures later { self.old.failed ≤ self.new.failed }
        ensures cause { OnErr result (Rose self.old.failed self.new.failed) }
        ensures inner { ReadConsumes (R.remaining self.old.inner) (R.remaining self.new.inner)
            result buf.new }
        ensures same { OnOk result (self.new.failed ≡ self.old.failed) }
        ensures risen { OnErr result (self.new.failed ≡ one_more self.old.failed) }
    {
        match self.inner.read(buf) {
            Ok(count) => Ok(count),
            Err(_) => {
                self.failed = self.failed.saturating_add(1);
                Err(Failed)
            }
        }
    }
}

/// A writer as a sink, with no buffer of its own. It counts the writes that fail; at
/// 18,446,744,073,709,551,615 the count stays.
#[derive(Drop)]
pub struct StdSink<W> {
    inner: W,
    failed: u64,
}

impl<W: Write> StdSink<W> {
    /// The sink that writes to the writer.
    pub fn new(inner: W) -> StdSink<W>
        ensures inner { result.inner ≡ inner }
        ensures faults { result.failed ≡ 0 }
    {
        StdSink { inner, failed: 0 }
    }
}

impl<W: Write> Sink for StdSink<W> {
    ghost taken = { λ _. None };

    ghost faults = { λ s. s.failed };

    /// One write of the writer. It fails where the writer answers an error, of whatever kind, or
    /// takes no byte of a piece that isn't empty.
    fn write(&mut self, piece: &[u8]) -> Result<usize, WriteStop>
        ensures bound { WritesAtMost result piece.now }
        ensures some { 0 < length piece.now → IfOk result (λ n. 0 < n) }
        ensures bytes { WriteAppends None None result piece.now }
        ensures later { self.old.failed ≤ self.new.failed }
        ensures cause { IsErrOf result WriteStop.Failed → Rose self.old.failed self.new.failed }
        ensures inner { WriteAppends (W.contents self.old.inner) (W.contents self.new.inner)
            result piece.now }
        ensures same { OnOk result (self.new.failed ≡ self.old.failed) }
        ensures risen { OnErr result (self.new.failed ≡ one_more self.old.failed) }
        ensures kind { IfErr result (λ e. e ≡ WriteStop.Failed) }
    {
        match self.inner.write(piece) {
            Ok(count) if count > 0 || piece.is_empty() => Ok(count),
            _ => {
                self.failed = self.failed.saturating_add(1);
                Err(WriteStop::Failed)
            }
        }
    }
}
