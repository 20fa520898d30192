//! The slots of requests.

ghost use Rattle.std.specs.Prelude.{
  ◌≡◌,
  ◌≢◌,
  ◌+◌,
  ℕ,
  Some,
  None,
  true,
  false,
  IfOk,
  IfSome,
  IsOk,
  OnErr,
  OnOk,
  [],
  if◌then◌else◌,
  is_some,
  option_copied,
};
ghost use Rattle.gb_base.specs.Bytes.{AreFew};
ghost use Rattle.gb_base.specs.declared.outcome.Outcome.TheVariants as outcome;
ghost use Rattle.gb_bus.specs.Counting.{no_requests};
ghost use Rattle.gb_bus.specs.Keeping.{IsKept, IsNext, came_early, is_let_go, kept_in, lesser_of};
ghost use Rattle.gb_bus.specs.Keeping.{time_of};
ghost use Rattle.gb_bus.specs.Slots.{
  Closes,
  MakesAs,
  MovesAt,
  AddsOpen,
  ended_at,
  ends_so,
  forgets,
  gets_name,
  gives_up_so,
  is_asked_for,
  is_due,
  is_late_on,
  is_named,
  is_open_on,
  is_open_slot,
  key_at,
  loses_name,
  one_more,
  slot_at,
};
ghost use Rattle.gb_bus.specs.Listing.{AreThose, FindsLeast};

use crate::Tally;
use crate::deadlines::Deadlines;
use crate::listing::{Listed, in_order, listed_among};
use gb_base::{Bytes, Numbers, OutOfMemory, Outcome, Side, TryCopy};
use gb_table::Table;
use slab::Slab;
use std::alloc::Global;
use std::cmp::Reverse;
use std::collections::BTreeSet;
use std::marker::Model;

/// What is kept of a request while something asks for it.
#[derive(Drop)]
pub struct Slot {
    /// Its number.
    pub number: u64,
    /// The connection on which it was made.
    pub connection: u64,
    /// When it times out, in milliseconds.
    pub deadline: u64,
    /// How many names it has.
    pub names: u64,
    /// The side that made it.
    pub side: Side,
    /// Its type.
    pub kind: u8,
    /// Its identifier is in use: it is open, or it was given up and its answer hasn't come.
    pub awaited: bool,
    /// How it ended, None while it is open.
    pub outcome: Option<Outcome>,
}

impl Slot {
    /// Its identifier is in use, or it has a name.
    #[inline]
    fn is_asked_for(&self) -> bool
        ensures { result ≡ is_asked_for self.now }
    {
        self.awaited || self.names > 0
    }

    /// It is given up, and ends so. Its identifier stays in use.
    #[inline]
    fn give_up(&mut self, how: Outcome)
        ensures { self.new ≡ record self.old { outcome = Some how } }
    {
        self.outcome = Some(how);
    }

    /// It has one more name. Past the most it can count it stays.
    fn add_name(&mut self)
        ensures { self.new ≡ record self.old { names = one_more self.old.names } }
    {
        self.names = self.names.saturating_add(1);
    }
}

/// The requests that are open, were given up and not answered yet, or have a name, each in a slot,
/// and the counts of all that were made.
#[derive(Drop)]
pub struct Slots {
    slots: Slab<Slot>,
    /// The keys of the slots by number.
    places: Table<usize>,
    deadlines: Deadlines,
    tally: Tally,
}

impl Model for Slots {
    ghost use Rattle.gb_bus.specs.Keeping.{IsKept, kept_in};
    ghost use Rattle.gb_bus.specs.Slots.{SlotsKept};

    ghost Value = { SlotsKept };

    ghost view = { λ x. kept_in x.slots x.places x.tally };

    ghost invariant = { λ x. IsKept x.slots x.places x.deadlines x.tally };
}

impl Slots {
    /// No request was made.
    pub fn new(alloc: Global) -> Slots
        ensures none { (n : ℕ) → slot_at result n ≡ None }
        ensures tally { result.tally ≡ no_requests }
    {
        Slots {
            slots: Slab::new(alloc),
            places: Table::new(alloc),
            deadlines: Deadlines::new(alloc),
            tally: Tally::none(),
        }
    }

    /// How many requests were made.
    #[inline]
    pub fn count(&self) -> u64
        ensures { result ≡ self.now.tally.requests }
    {
        self.tally.requests
    }

    /// How many requests were made, and how these stand.
    pub fn tally(&self) -> Tally
        ensures { result ≡ self.now.tally }
    {
        self.tally
    }

    /// The slot of request n, None where it isn't kept.
    #[inline]
    pub fn get(&self, n: u64) -> Option<&Slot>
        ensures { option_copied result ≡ slot_at self.now n }
    {
        let key = self.places.get(n)?;
        self.slots.get(key)
    }

    /// Counts a new request. One that isn't unidirectional is open, and is kept. After want of
    /// memory nothing is said.
    #[inline]
    pub fn add(&mut self, slot: Slot, oneway: bool) -> Result<(), OutOfMemory>
        requires number { slot.number ≡ self.old.tally.requests + 1 }
        requires unended { slot.outcome ≡ None }
        requires awaited { slot.awaited ≡ true }
        ensures { OnOk result (MakesAs oneway slot self.old self.new) }
    {
        if oneway {
            self.tally.add(&Some(Outcome::Sent));
            drop(slot);
            return Ok(());
        }
        self.open(slot)
    }

    /// A new request is open. Its slot comes last, when there is room for all.
    #[inline(always)]
    fn open(&mut self, slot: Slot) -> Result<(), OutOfMemory>
        requires number { slot.number ≡ self.old.tally.requests + 1 }
        requires unended { slot.outcome ≡ None }
        requires awaited { slot.awaited ≡ true }
        ensures { OnOk result (AddsOpen slot self.old self.new) }
    {
        let number = slot.number;
        let deadline = slot.deadline;
        self.slots.reserve(1)?;
        let key = self.slots.vacant_key();
        self.places.put(number, key)?;
        let alone = self.tally.left_open == 0;
        if let Err(refused) = self.deadlines.add(number, deadline, alone) {
            self.places.take(number);
            return Err(refused);
        }
        self.slots.insert_reserved(slot);
        self.tally.add(&None);
        Ok(())
    }

    /// Request n ends so, where it is open.
    #[inline(always)]
    pub fn end(&mut self, n: u64, how: Outcome)
        ensures { MovesAt n (ends_so how) (ended_at n how self.old) self.old self.new }
    {
        if let Some(key) = self.finish(n, how) {
            self.free(n, key);
        }
    }

    /// Request n is answered, where it is open. Memory is taken for more than 16 bytes of a payload
    /// that a name asks for. For want of it nothing changes.
    #[inline]
    pub fn answer(
        &mut self,
        alloc: Global,
        n: u64,
        code: u8,
        payload: &Bytes,
    ) -> Result<(), OutOfMemory>
        ensures moves { OnOk result (MovesAt n (ends_so (outcome.Answered code payload.now))
            (ended_at n (outcome.Answered code payload.now) self.old) self.old self.new) }
        ensures few { AreFew payload.now → IsOk result }
        ensures unchanged { OnErr result (self.new ≡ self.old) }
    {
        let payload = self.kept_of(alloc, n, payload)?;
        let how = Outcome::Answered {
            result: code,
            payload,
        };
        self.end(n, how);
        Ok(())
    }

    /// What is kept of the payload of an answer to request n: nothing where no name asks for it.
    #[inline(always)]
    fn kept_of(&self, alloc: Global, n: u64, payload: &Bytes) -> Result<Bytes, OutOfMemory>
        ensures same { IfOk result (λ kept. kept
            ≡ (if is_named (slot_at self.now n) then payload.now else [])) }
        ensures few { AreFew payload.now → IsOk result }
    {
        match self.get(n) {
            Some(slot) if slot.names > 0 => payload.copy(),
            _ => Ok(Bytes::new(alloc)),
        }
    }

    /// Request n is given up, and ends so, where it is open.
    pub fn give_up(&mut self, n: u64, how: Outcome)
        ensures { MovesAt n (gives_up_so how) (ended_at n how self.old) self.old self.new }
    {
        self.finish(n, how);
    }

    /// Request n ends so, where it is open, and its identifier stays in use. The key of its slot is
    /// answered then.
    #[inline(always)]
    fn finish(&mut self, n: u64, how: Outcome) -> Option<usize>
        ensures was_open { is_some result ≡ is_open_slot (slot_at self.old n) }
        ensures key { IfSome result (λ key. key_at self.new n ≡ Some key) }
        ensures moves { MovesAt n (gives_up_so how) (ended_at n how self.old) self.old self.new }
    {
        let Some(key) = self.places.get(n) else {
            drop(how);
            return None;
        };
        let Some(slot) = self.slots.get_mut(key) else {
            drop(how);
            return None;
        };
        if slot.outcome.is_some() {
            drop(how);
            return None;
        }
        self.deadlines.remove(n, slot.deadline);
        self.tally.end(&how);
        slot.give_up(how);
        let first = self.deadlines.first;
        self.deadlines.first = next_first(&self.slots, &self.places, n, first, &self.tally);
        Some(key)
    }

    /// The identifier of request n is free, where n has ended.
    #[inline]
    pub fn forget(&mut self, n: u64)
        ensures { MovesAt n forgets self.old.tally self.old self.new }
    {
        if let Some(key) = self.places.get(n) {
            self.free(n, key);
        }
    }

    /// The identifier of request n is free, whose slot has this key, where n has ended.
    #[inline]
    fn free(&mut self, n: u64, key: usize)
        requires { key_at self.old n ≡ Some key }
        ensures { MovesAt n forgets self.old.tally self.old self.new }
    {
        let Some(slot) = self.slots.get_mut(key) else {
            return;
        };
        if slot.outcome.is_none() {
            return;
        }
        slot.awaited = false;
        if !slot.is_asked_for() {
            self.let_go(n, key);
        }
    }

    /// Request n has one more name, where it is kept.
    #[inline(always)]
    pub fn keep(&mut self, n: u64)
        ensures { MovesAt n gets_name self.old.tally self.old self.new }
    {
        let Some(key) = self.places.get(n) else {
            return;
        };
        let Some(slot) = self.slots.get_mut(key) else {
            return;
        };
        slot.add_name();
    }

    /// Request n has one name less, where it is kept.
    pub fn loose(&mut self, n: u64)
        ensures { MovesAt n loses_name self.old.tally self.old self.new }
    {
        let Some(key) = self.places.get(n) else {
            return;
        };
        let Some(slot) = self.slots.get_mut(key) else {
            return;
        };
        slot.names = slot.names.saturating_sub(1);
        if !slot.is_asked_for() {
            self.let_go(n, key);
        }
    }

    /// The open requests of a side of a connection, in order of number.
    pub fn open_on(&self, alloc: Global, k: u64, side: Side) -> Result<Numbers, OutOfMemory>
        ensures { IfOk result (λ ns. AreThose (λ n. is_open_on k side (slot_at self.now n)) ns) }
    {
        let numbers = listed_among(alloc, &self.slots, &self.places, k, side, Listed::Open)?;
        Ok(numbers)
    }

    /// The requests of a side of a connection that have ended and whose identifiers are in use, in
    /// order of number.
    pub fn late_on(&self, alloc: Global, k: u64, side: Side) -> Result<Numbers, OutOfMemory>
        ensures { IfOk result (λ ns. AreThose (λ n. is_late_on k side (slot_at self.now n)) ns) }
    {
        let numbers = listed_among(alloc, &self.slots, &self.places, k, side, Listed::Late)?;
        Ok(numbers)
    }

    /// Request n, whose slot has this key, isn't kept any more. It isn't open.
    #[inline(always)]
    fn let_go(&mut self, n: u64, key: usize)
        requires key { key_at self.old n ≡ Some key }
        requires over { is_open_slot (slot_at self.old n) ≡ false }
        ensures { MovesAt n is_let_go self.old.tally self.old self.new }
    {
        self.places.take(n);
        self.places.trim();
        self.slots.try_remove(key);
    }

    /// A side is closed on which these requests are open, in order of number, and those were given
    /// up: the first end as disconnected, and the identifiers of the others are free. Where some of
    /// the first aren't open nothing is said of the counts.
    pub fn close(&mut self, unended: &[u64], late: &[u64])
        ensures { Closes unended.now late.now self.old self.new }
    {
        for n in unended {
            self.end(*n, Outcome::Disconnected);
        }
        for n in late {
            self.forget(*n);
        }
    }

    /// The open requests whose deadline came, in order of number.
    pub fn due(&self, alloc: Global, now: u64) -> Result<Numbers, OutOfMemory>
        ensures { IfOk result (λ ns. AreThose (λ n. is_due now (slot_at self.now n)) ns) }
    {
        if self.tally.left_open == 0 {
            return Ok(Numbers::new(alloc));
        }
        if self.deadlines.came_early(now) {
            return self.due_early(alloc, now);
        }
        due_in_order(
            alloc,
            &self.slots,
            &self.places,
            &self.deadlines,
            &self.tally,
            now,
        )
    }

    /// The same, where some may time out before one with a lower number.
    #[inline(never)]
    fn due_early(&self, alloc: Global, now: u64) -> Result<Numbers, OutOfMemory>
        ensures { IfOk result (λ ns. AreThose (λ n. is_due now (slot_at self.now n)) ns) }
    {
        let mut found = BTreeSet::new(alloc);
        for Reverse((deadline, number)) in self.deadlines.early.iter().rev() {
            if *deadline > now {
                break;
            }
            found.insert(*number)?;
        }
        for n in self.deadlines.first..=self.tally.requests {
            let Some(time) = deadline_at(&self.slots, &self.places, n) else {
                continue;
            };
            if time > now {
                break;
            }
            found.insert(n)?;
        }
        let due = in_order(alloc, &found)?;
        Ok(due)
    }

    /// The open request with the least number whose deadline came. It takes no memory.
    pub fn first_due(&self, now: u64) -> Option<u64>
        ensures { FindsLeast (λ n. is_due now (slot_at self.now n)) result }
    {
        let first = self.deadlines.first;
        let Some(earliest) = deadline_at(&self.slots, &self.places, first) else {
            return None;
        };
        if earliest <= now {
            return Some(first);
        }
        let mut least = None;
        for Reverse((deadline, number)) in self.deadlines.early.iter().rev() {
            if *deadline > now {
                break;
            }
            least = lesser(*number, least);
        }
        least
    }

    /// The key of the slot that the next request gets. No request has it.
    pub fn next_key(&self) -> usize
        ensures next { result ≡ self.now.next }
        ensures free { (n : ℕ) → key_at self.now n ≢ Some result }
    {
        self.slots.vacant_key()
    }
}

/// The lesser of a number and one that was found before.
fn lesser(n: u64, least: Option<u64>) -> Option<u64>
    ensures { result ≡ Some (lesser_of n least) }
{
    match least {
        Some(m) if m <= n => Some(m),
        _ => Some(n),
    }
}

/// The least number of an open request, where `ended` isn't open any more and `first` was the
/// least before. Where none is open it is `first`.
#[inline]
fn next_first(
    slots: &Slab<Slot>,
    places: &Table<usize>,
    ended: u64,
    first: u64,
    tally: &Tally,
) -> u64
    ensures { IsNext (time_of slots.now places.now) ended first tally.now result }
{
    if ended != first {
        return first;
    }
    if tally.left_open == 0 {
        return first;
    }
    for n in first..tally.requests {
        if deadline_at(slots, places, n).is_some() {
            return n;
        }
    }
    tally.requests
}

/// The open requests whose deadline came, in order of number, where none of these times out before
/// one with a lower number.
#[inline(never)]
fn due_in_order(
    alloc: Global,
    slots: &Slab<Slot>,
    places: &Table<usize>,
    deadlines: &Deadlines,
    tally: &Tally,
    now: u64,
) -> Result<Numbers, OutOfMemory>
    requires kept { IsKept slots.now places.now deadlines.now tally.now }
    requires none_early { came_early now deadlines.now.early.keys ≡ false }
    ensures { IfOk result
        (λ ns. AreThose
        (λ n. is_due now (slot_at (kept_in slots.now places.now tally.now) n)) ns) }
{
    let mut due = Numbers::new(alloc);
    for n in deadlines.first..=tally.requests {
        let Some(time) = deadline_at(slots, places, n) else {
            continue;
        };
        if time > now {
            break;
        }
        due.push(n)?;
    }
    Ok(due)
}

/// The deadline of request n, None where n isn't open.
#[inline]
fn deadline_at(slots: &Slab<Slot>, places: &Table<usize>, n: u64) -> Option<u64>
    ensures { result ≡ time_of slots.now places.now n }
{
    let key = places.get(n)?;
    let slot = slots.get(key)?;
    if slot.outcome.is_some() {
        return None;
    }
    Some(slot.deadline)
}
