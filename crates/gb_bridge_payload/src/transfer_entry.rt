//! The entries of an SPI transfer.

ghost use Rattle.std.specs.Prelude.{◌≡◌, ◌≤◌, ◌*◌, drop, length, sum_by};
ghost use Rattle.gb_bridge_payload.specs.Views.{entry_of};
ghost use Rattle.gb_formats.specs.SpiRecords.{entries_at, entry_at, entry_read_size, entry_reads};
ghost use Rattle.gb_formats.specs.SpiRecords.{entry_size, entry_writes, entry_written_size};

use byteorder::{ByteOrder, LittleEndian};

/// How many bytes an entry has.
pub const ENTRY_SIZE: usize = 13;

/// An entry of an SPI transfer (in Linux's greybus_protocols.h `gb_spi_transfer`).
#[derive(Clone, Copy, Debug, PartialEq, Eq)]
pub struct TransferEntry {
    /// The speed in Hz.
    pub speed: u32,
    /// How many bytes it moves.
    pub len: u32,
    /// The delay behind it in microseconds.
    pub delay: u16,
    /// Whether the chip select is let go behind it.
    pub cs_change: u8,
    /// How many bits a word has.
    pub bits: u8,
    /// The flags: 1 is set where the entry reads, 2 where it writes, 4 where more are to come.
    pub flags: u8,
}

impl TransferEntry {
    /// The entry in the first bytes, and what follows it.
    pub fn first(bytes: &[u8]) -> (TransferEntry, &[u8])
        requires { entry_size ≤ length bytes.now }
        ensures entry { entry_of result.0 ≡ entry_at bytes.now }
        ensures rest { result.1.now ≡ drop entry_size bytes.now }
    {
        let entry = TransferEntry {
            speed: LittleEndian::read_u32(bytes),
            len: LittleEndian::read_u32(&bytes[4..]),
            delay: LittleEndian::read_u16(&bytes[8..]),
            cs_change: bytes[10],
            bits: bytes[11],
            flags: bytes[12],
        };
        (entry, &bytes[ENTRY_SIZE..])
    }

    /// Whether it reads.
    pub fn reads(&self) -> bool
        ensures { result ≡ entry_reads (entry_of self.now) }
    {
        self.flags % 2 == 1
    }

    /// Whether it writes.
    pub fn writes(&self) -> bool
        ensures { result ≡ entry_writes (entry_of self.now) }
    {
        self.flags / 2 % 2 == 1
    }

    /// How many bytes it reads.
    pub fn read_size(&self) -> u32
        ensures { result ≡ entry_read_size (entry_of self.now) }
    {
        if self.reads() { self.len } else { 0 }
    }

    /// How many bytes it writes.
    pub fn written_size(&self) -> u32
        ensures { result ≡ entry_written_size (entry_of self.now) }
    {
        if self.writes() { self.len } else { 0 }
    }
}

/// How many bytes so many entries write.
pub fn written_by_entries(count: u16, entries: &[u8]) -> usize
    requires { length entries.now ≡ entry_size * count }
    ensures written { result ≡ sum_by entry_written_size (entries_at count entries.now) }
    ensures bound { result ≤ 4294967295 * count }
{
    let mut size = 0;
    let mut rest = entries;
    for _ in 0..count {
        let (entry, later) = TransferEntry::first(rest);
        size += entry.written_size() as usize;
        rest = later;
    }
    size
}
