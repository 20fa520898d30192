//! The entries of a transfer, one after the other.

ghost use Rattle.std.specs.Prelude.{◌≡◌, [], ◌∷◌, MatchOption};
ghost use Rattle.gb_bridge_payload.specs.Views.{entry_of};
ghost use Rattle.gb_spi.specs.Sizes.{entries_in};

use gb_bridge_payload::{ENTRY_SIZE, TransferEntry};
use std::marker::Model;

/// The entries that stand in bytes, of 13 bytes each. A contract sees them as a list.
#[derive(Drop)]
pub struct Entries<'a> {
    rest: &'a [u8],
}

impl<'a> Model for Entries<'a> {
    ghost use Rattle.std.specs.Prelude.{List};
    ghost use Rattle.gb_formats.specs.SpiRecords.{TransferEntry};
    ghost use Rattle.gb_spi.specs.Sizes.{entries_in};

    ghost Value = { List TransferEntry };

    ghost view = { λ entries. entries_in entries.rest.now };
}

impl<'a> Entries<'a> {
    /// The entries in bytes.
    pub fn of(bytes: &'a [u8]) -> Entries<'a>
        ensures { result ≡ entries_in bytes.now }
    {
        Entries { rest: bytes }
    }

    /// Takes the first entry away. None where there is none left.
    pub fn take_first(&mut self) -> Option<TransferEntry>
        ensures { MatchOption result ((self.old ≡ []) × (self.new ≡ []))
            (λ entry. self.old ≡ entry_of entry ∷ self.new) }
    {
        if self.rest.len() < ENTRY_SIZE {
            return None;
        }
        let (entry, later) = TransferEntry::first(self.rest);
        self.rest = later;
        Some(entry)
    }
}
