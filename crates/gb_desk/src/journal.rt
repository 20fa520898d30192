//! The history of a desk.

ghost use Rattle.std.specs.Prelude.{◌≡◌, [], ◌∷◌, ◌++◌, OnErr, OnOk, MatchOption, length, take};
ghost use Rattle.gb_desk.specs.Journals.{past_of};

use gb_base::{Entry, Event, OutOfMemory, TryCopy};
use std::alloc::Global;
use std::marker::Model;

/// An event of a history, and how many of its entries were told of it.
#[derive(Drop)]
struct Head {
    by: u8,
    event: Event,
    count: usize,
}

/// A history: its events in the order in which they were done, each with the entries that it
/// brought about. A contract sees it as the list of these.
#[derive(Drop)]
pub struct Journal {
    heads: Vec<Head>,
    /// The entries of all events, in order.
    entries: Vec<Entry>,
}

impl Model for Journal {
    ghost use Rattle.std.specs.Prelude.{List};
    ghost use Rattle.gb_base.specs.declared.journal.JournalEntry.{JournalEntry};
    ghost use Rattle.gb_desk.specs.Heads.{AreCut, cut};

    ghost Value = { List JournalEntry };

    ghost view = { λ j. cut j.heads.items j.entries.items };

    ghost invariant = { λ j. AreCut j.heads.items j.entries.items };
}

/// An event of a history.
#[derive(Clone, Copy)]
pub struct PastEvent<'a> {
    /// The tag that its caller chose.
    pub by: u8,
    /// The event.
    pub event: &'a Event,
    /// What was answered.
    pub entries: &'a [Entry],
}

/// The events of a history from some place on. A contract sees them as a list.
#[derive(Drop)]
pub struct PastEvents<'a> {
    heads: &'a [Head],
    entries: &'a [Entry],
}

impl<'a> Model for PastEvents<'a> {
    ghost use Rattle.std.specs.Prelude.{List};
    ghost use Rattle.gb_base.specs.declared.journal.JournalEntry.{JournalEntry};
    ghost use Rattle.gb_desk.specs.Heads.{AreCut, cut};

    ghost Value = { List JournalEntry };

    ghost view = { λ p. cut p.heads.now p.entries.now };

    ghost invariant = { λ p. AreCut p.heads.now p.entries.now };
}

/// Adds copies of entries at the end. After a refusal some may be there.
fn add_copies(all: &mut Vec<Entry>, entries: &[Entry]) -> Result<(), OutOfMemory>
    ensures ok { OnOk result (all.new.items ≡ all.old.items ++ entries.now) }
    ensures front { take (length all.old.items) all.new.items ≡ all.old.items }
{
    all.reserve(entries.len())?;
    for entry in entries {
        let copy = entry.copy()?;
        all.reserve(1)?;
        all.push_reserved(copy);
    }
    Ok(())
}

impl Journal {
    /// Nothing was done.
    pub(crate) fn new(alloc: Global) -> Journal
        ensures { result ≡ [] }
    {
        Journal {
            heads: Vec::new(alloc),
            entries: Vec::new(alloc),
        }
    }

    /// How many events were done.
    pub fn len(&self) -> usize
        ensures { result ≡ length self.now }
    {
        self.heads.len()
    }

    /// Adds an event at the end, with copies of these entries. After a refusal the history is as
    /// before.
    pub(crate) fn push(
        &mut self,
        by: u8,
        event: Event,
        entries: &[Entry],
    ) -> Result<(), OutOfMemory>
        ensures ok { OnOk result (self.new ≡ self.old
            ++ record { by = by; event = event; entries = entries.now } ∷ []) }
        ensures err { OnErr result (self.new ≡ self.old) }
    {
        self.heads.reserve(1)?;
        let before = self.entries.len();
        match add_copies(&mut self.entries, entries) {
            Ok(()) => {
                self.heads.push_reserved(Head {
                    by,
                    event,
                    count: entries.len(),
                });
                Ok(())
            }
            Err(refused) => {
                self.entries.truncate(before);
                Err(refused)
            }
        }
    }

    /// The events in order.
    pub fn events(&self) -> PastEvents<'_>
        ensures { result ≡ self.now }
    {
        PastEvents {
            heads: self.heads.as_slice(),
            entries: self.entries.as_slice(),
        }
    }
}

impl<'a> PastEvents<'a> {
    /// The next event. None where none is left.
    pub fn next(&mut self) -> Option<PastEvent<'a>>
        ensures { MatchOption result ((self.old ≡ []) × (self.new ≡ []))
            (λ e. self.old ≡ past_of e ∷ self.new) }
    {
        let heads = self.heads;
        let (head, later) = heads.split_first()?;
        let entries = self.entries;
        let (own, rest) = entries.split_at(head.count);
        self.heads = later;
        self.entries = rest;
        Some(PastEvent {
            by: head.by,
            event: &head.event,
            entries: own,
        })
    }
}
