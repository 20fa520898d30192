//! What the entries of a transfer ask, and what they read.

ghost use Rattle.std.specs.Prelude.{◌≡◌, ◌≤◌, ◌++◌, [], ◌+◌, IfOk, IsOk, OnOk, nat_le, length};
ghost use Rattle.std.specs.Prelude.{drop, sum_by, take};
ghost use Rattle.gb_base.specs.Bytes.{AreFew};
ghost use Rattle.std.specs.List.{list_any};
ghost use Rattle.gb_bridge_payload.specs.Views.{entry_of};
ghost use Rattle.gb_formats.specs.Results.{most_payload, tells};
ghost use Rattle.gb_formats.specs.SpiDevice.{entries_run, entry_read_bytes, entry_written_bytes};
ghost use Rattle.gb_formats.specs.SpiDevice.{is_strange, last_of};
ghost use Rattle.gb_formats.specs.SpiRecords.{entry_read_size, entry_written_size};
ghost use Rattle.gb_spi.specs.Sizes.{entries_in};

use crate::entries::Entries;
use gb_base::{Bytes, OutOfMemory};
use gb_bridge_payload::{MOST_PAYLOAD, TransferEntry};
use std::alloc::Global;

/// An entry has other bits than 8, or flags above 7.
pub fn is_any_strange(entries: &[u8]) -> bool
    ensures { result ≡ list_any is_strange (entries_in entries.now) }
{
    let mut left = Entries::of(entries);
    while let Some(entry) = left.take_first() {
        if entry.bits != 8 || entry.flags > 7 {
            return true;
        }
    }
    false
}

/// The bytes that entries read fit into a payload.
pub fn reads_fit(entries: &[u8]) -> bool
    ensures { result ≡ nat_le (sum_by entry_read_size (entries_in entries.now)) most_payload }
{
    let mut room = MOST_PAYLOAD;
    let mut left = Entries::of(entries);
    while let Some(entry) = left.take_first() {
        let Some(rest) = room.checked_sub(entry.read_size() as usize) else {
            return false;
        };
        room = rest;
    }
    true
}

/// What the entries so far did.
#[derive(Drop)]
pub struct Progress {
    /// The last byte that was written, by them or before them.
    pub last: u8,
    /// The bytes that they read.
    pub read: Bytes,
}

/// Does the entries in order, which read at most 2,040 bytes; few take no memory. `last` is the
/// last byte that was written before them.
pub fn run(alloc: Global, last: u8, entries: &[u8], bytes: &[u8]) -> Result<Progress, OutOfMemory>
    requires room { sum_by entry_read_size (entries_in entries.now) ≤ most_payload }
    requires written { length bytes.now ≡ sum_by entry_written_size (entries_in entries.now) }
    ensures step { IfOk result (λ progress. entries_run last bytes.now [] (entries_in entries.now)
        ≡ tells progress.last progress.read) }
    ensures few { AreFew (entries_run last bytes.now [] (entries_in entries.now)).served.payload
        → IsOk result }
{
    let mut progress = Progress {
        last,
        read: Bytes::new(alloc),
    };
    let mut later = bytes;
    let mut left = Entries::of(entries);
    while let Some(entry) = left.take_first() {
        later = progress.advance(entry, later)?;
    }
    Ok(progress)
}

impl Progress {
    /// Does one more entry, and answers what follows its bytes.
    fn advance<'a>(
        &mut self,
        entry: TransferEntry,
        bytes: &'a [u8],
    ) -> Result<&'a [u8], OutOfMemory>
        requires written { entry_written_size (entry_of entry) ≤ length bytes.now }
        requires room { length self.old.read + entry_read_size (entry_of entry)
            ≤ most_payload }
        ensures later { IfOk result
            (λ later. later.now ≡ drop (entry_written_size (entry_of entry)) bytes.now) }
        ensures last { OnOk result (self.new.last
            ≡ last_of self.old.last (entry_written_bytes (entry_of entry) bytes.now)) }
        ensures read { OnOk result (self.new.read
            ≡ self.old.read ++ entry_read_bytes self.old.last (entry_of entry) bytes.now) }
        ensures few { AreFew
            (self.old.read ++ entry_read_bytes self.old.last (entry_of entry) bytes.now)
            → IsOk result }
    {
        self.read_entry(entry, bytes)?;
        let (written, later) = bytes.split_at(entry.written_size() as usize);
        if let Some(last) = written.last() {
            self.last = *last;
        }
        Ok(later)
    }

    /// Adds what an entry reads. `bytes` begin with those that it writes.
    fn read_entry(&mut self, entry: TransferEntry, bytes: &[u8]) -> Result<(), OutOfMemory>
        requires written { entry_written_size (entry_of entry) ≤ length bytes.now }
        requires room { length self.old.read + entry_read_size (entry_of entry)
            ≤ most_payload }
        ensures last { self.new.last ≡ self.old.last }
        ensures read { OnOk result (self.new.read
            ≡ self.old.read ++ entry_read_bytes self.old.last (entry_of entry) bytes.now) }
        ensures few { AreFew
            (self.old.read ++ entry_read_bytes self.old.last (entry_of entry) bytes.now)
            → IsOk result }
    {
        let size = entry.read_size() as usize;
        if entry.writes() {
            self.read.extend(&bytes[..size])?;
        } else {
            self.read.extend(&[self.last; MOST_PAYLOAD][..size])?;
        }
        Ok(())
    }
}
