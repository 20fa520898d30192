//! Puts the lines of requesters into an order, and writes what was told of them.

ghost use Rattle.std.specs.Prelude.{◌≡◌, ◌≢◌, ◌<◌, ◌≤◌, ◌++◌, ◌+◌, ℕ, List, [], ◌∷◌, false, true};
ghost use Rattle.std.specs.Prelude.{IfOk, MatchOption, OnOk, length, replicate};
ghost use Rattle.std.specs.List.{slice_set};
ghost use Rattle.std.specs.String.{string_bytes};
ghost use Rattle.std.specs.Vec.{vec_len};
ghost use Rattle.gb_base.specs.declared.entry.Entry.TheVariants as entry;
ghost use Rattle.gb_base.specs.declared.journal.JournalEntry as history;
ghost use Rattle.gb_base.specs.declared.parts.Asked.{Asked};
ghost use Rattle.gb_base.specs.declared.refusal.Refusal.TheVariants as why;
ghost use Rattle.gb_desk.specs.Journals.{past_of};
ghost use Rattle.gb_formats.specs.ShowTexts.{order_text};
ghost use Rattle.gb_machine.specs.Shared.{tickets_of};
ghost use Rattle.gb_machine.specs.State.{State};
ghost use Rattle.gb_system.specs.Stands as system;

use crate::requester::{Requester, full_told};
use gb_base::{Entries, OutOfMemory};
use gb_desk::{Journal, PastEvent, PastEvents};
use gb_report::{append_all, append_order};
use gb_system::System;
use std::alloc::Global;

/// A requester's next line: at which place it stands among its lines, its number in the script, and
/// whether it is full.
#[derive(Clone, Copy)]
pub struct Next {
    at: usize,
    line: u32,
    full: bool,
    ghost low: { at < 4294967295 },
}

/// The lines of requesters, of which some have a place in an order, and the report of these.
#[derive(Drop)]
pub struct Merging {
    /// Requester r stands at place r.
    all: Vec<Requester>,
    /// How many lines of each have a place.
    at: Vec<usize>,
    hex: bool,
    order: Vec<(u8, bool)>,
    text: String,
    /// What is told of a full line.
    full: Entries,
    ghost refused: { full ≡ entry.Refused why.Full ∷ [] },
}

impl Merging {
    ghost use Rattle.gb_share.specs.Placing.{GrowsFull, IsNext, IsReady};
    ghost use Rattle.gb_share.specs.Placing.{Begins, HasLed, HasOpened, Stands, left};

    /// No line has a place yet.
    pub fn new(alloc: Global, all: Vec<Requester>, hex: bool) -> Result<Merging, OutOfMemory>
        ensures all { IfOk result (λ x. x.all ≡ all) }
        ensures at { IfOk result (λ x. x.at.items ≡ replicate (vec_len all) 0) }
        ensures hex { IfOk result (λ x. x.hex ≡ hex) }
        ensures order { IfOk result (λ x. x.order.items ≡ []) }
        ensures text { IfOk result (λ x. string_bytes x.text ≡ []) }
    {
        let at = vec![in alloc; 0; all.len()]?;
        Ok(Merging {
            all,
            at,
            hex,
            order: Vec::new(alloc),
            text: String::new(alloc),
            full: full_told(alloc)?,
        })
    }

    // The next line of a requester, None where all have a place.
    fn next(&self, who: u8) -> Option<Next>
        ensures { MatchOption result (left self.now who ≡ []) (λ n. IsNext n self.now who) }
    {
        let at = *self.at.get(usize::from(who))?;
        let requester = self.all.get(usize::from(who))?;
        let line = requester.lines.get(at)?;
        let full = requester.full.items().get(at)?;
        Some(Next {
            at,
            line: line.line,
            full: *full,
        })
    }

    // Places the next line of a requester.
    fn place(&mut self, who: u8, next: Next) -> Result<(), OutOfMemory>
        ensures all { self.new.all ≡ self.old.all }
        ensures hex { self.new.hex ≡ self.old.hex }
        ensures text { self.new.text ≡ self.old.text }
        ensures at { OnOk result (self.new.at.items
            ≡ slice_set self.old.at.items who (next.at + 1)) }
        ensures order { OnOk result (self.new.order.items
            ≡ self.old.order.items ++ (who, next.full) ∷ []) }
    {
        self.order.push((who, next.full))?;
        if let Some(at) = self.at.get_mut(usize::from(who)) {
            *at = next.at + 1;
        }
        Ok(())
    }

    // Places a full line, the next one of its requester.
    fn place_full(&mut self, who: u8, next: Next) -> Result<(), OutOfMemory>
        requires next { IsNext next self.old who }
        requires full { next.full ≡ true }
        ensures hex { self.new.hex ≡ self.old.hex }
        ensures stands { OnOk result ((asked : List Asked) (entries : List history.JournalEntry)
            (last : State) → Stands asked self.old entries last
            → Stands asked self.new entries last) }
        ensures others { OnOk result ((r : ℕ) → r ≢ who → left self.new r ≡ left self.old r) }
        ensures order { OnOk result (self.new.order.items
            ≡ self.old.order.items ++ (who, true) ∷ []) }
        ensures shorter { OnOk result
            (length (left self.new who) < length (left self.old who)) }
    {
        append_all(self.full.items(), next.line, self.hex, &mut self.text)?;
        self.place(who, next)?;
        Ok(())
    }

    // Places a line that was done, the next one of its requester.
    fn place_done(&mut self, who: u8, next: Next, done: &PastEvent<'_>) -> Result<(), OutOfMemory>
        requires next { IsNext next self.old who }
        requires full { next.full ≡ false }
        ensures hex { self.new.hex ≡ self.old.hex }
        ensures stands { OnOk result ((asked : List Asked) (entries : List history.JournalEntry)
            (last : State) → done.now.by ≡ who
            → Stands asked self.old (past_of done.now ∷ entries) last
            → Stands asked self.new entries last) }
        ensures others { OnOk result ((r : ℕ) → r ≢ who → left self.new r ≡ left self.old r) }
        ensures order { OnOk result (self.new.order.items
            ≡ self.old.order.items ++ (who, false) ∷ []) }
        ensures shorter { OnOk result
            (length (left self.new who) < length (left self.old who)) }
    {
        append_all(done.entries, next.line, self.hex, &mut self.text)?;
        self.place(who, next)?;
        Ok(())
    }

    // Places the full lines that a requester has next.
    fn skip(&mut self, who: u8) -> Result<(), OutOfMemory>
        ensures hex { self.new.hex ≡ self.old.hex }
        ensures stands { OnOk result ((asked : List Asked) (entries : List history.JournalEntry)
            (last : State) → Stands asked self.old entries last
            → Stands asked self.new entries last) }
        ensures ready { OnOk result (IsReady (left self.new who)) }
        ensures others { OnOk result ((r : ℕ) → r ≢ who → left self.new r ≡ left self.old r) }
        ensures order { OnOk result (GrowsFull who self.old.order.items self.new.order.items) }
    {
        while let Some(next) = self.next(who) {
            if !next.full {
                return Ok(());
            }
            self.place_full(who, next)?;
        }
        Ok(())
    }

    // Places the lines of requester 0, whose events come first.
    fn open(&mut self, events: &mut PastEvents<'_>) -> Result<(), OutOfMemory>
        ensures hex { self.new.hex ≡ self.old.hex }
        ensures opens { OnOk result ((asked : List Asked) (last : State)
            → Begins asked self.old events.old last
            → HasOpened asked self.new events.new last) }
    {
        while let Some(next) = self.next(0) {
            if next.full {
                self.place_full(0, next)?;
            } else {
                let Some(done) = events.next() else {
                    return Ok(());
                };
                self.place_done(0, next, &done)?;
            }
        }
        Ok(())
    }

    // Places the full lines that the other requesters have first.
    fn lead(&mut self) -> Result<(), OutOfMemory>
        ensures hex { self.new.hex ≡ self.old.hex }
        ensures leads { OnOk result ((asked : List Asked) (entries : List history.JournalEntry)
            (last : State) → HasOpened asked self.old entries last
            → HasLed asked self.new entries last) }
    {
        for who in 1..256u16 {
            self.skip(who as u8)?;
        }
        Ok(())
    }

    // Places the line of an event, and the full lines behind it.
    fn take(&mut self, done: &PastEvent<'_>) -> Result<(), OutOfMemory>
        ensures hex { self.new.hex ≡ self.old.hex }
        ensures takes { OnOk result ((asked : List Asked) (entries : List history.JournalEntry)
            (last : State) → HasLed asked self.old (past_of done.now ∷ entries) last
            → HasLed asked self.new entries last) }
    {
        let Some(next) = self.next(done.by) else {
            return Ok(());
        };
        if next.full {
            return Ok(());
        }
        self.place_done(done.by, next, done)?;
        self.skip(done.by)?;
        Ok(())
    }

    // Places the lines of these events, each with the full lines behind it.
    fn follow(&mut self, events: &mut PastEvents<'_>) -> Result<(), OutOfMemory>
        ensures hex { self.new.hex ≡ self.old.hex }
        ensures follows { OnOk result ((asked : List Asked) (last : State)
            → HasLed asked self.old events.old last → HasLed asked self.new [] last) }
    {
        while let Some(done) = events.next() {
            self.take(&done)?;
        }
        Ok(())
    }

    /// Places all lines as a history and their marks tell.
    pub fn run(&mut self, journal: &Journal) -> Result<(), OutOfMemory>
        ensures hex { self.new.hex ≡ self.old.hex }
        ensures places { OnOk result ((asked : List Asked) (last : State)
            → Begins asked self.old journal.now last → HasLed asked self.new [] last) }
    {
        let mut events = journal.events();
        self.open(&mut events)?;
        self.lead()?;
        self.follow(&mut events)?;
        Ok(())
    }

    /// What is written: the order, the report of the lines, and the names that name requests.
    pub fn written(self, alloc: Global, it: &System) -> Result<String, OutOfMemory>
        ensures { IfOk result (λ text. (s : State) → system.Stands it.now s
            → string_bytes text ≡ order_text self.order.items
            ++ (string_bytes self.text ++ tickets_of s)) }
    {
        let Merging {
            all: _,
            at: _,
            hex: _,
            order,
            mut text,
            full: _,
        } = self;
        let mut front = String::new(alloc);
        append_order(order.as_slice(), &mut front)?;
        text.insert_str(0, front.as_str())?;
        it.append_tickets(&mut text)?;
        Ok(text)
    }
}
