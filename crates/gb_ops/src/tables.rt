//! Requests by identifier and by number.

ghost use Rattle.std.specs.Prelude.{◌≡◌, [], IfOk, IsOk, IsSome, OnErr, OnOk, nat_eq};
ghost use Rattle.std.specs.List.{IsDistinct};
ghost use Rattle.std.specs.List.Sorted.{IsStrictlySortedBy};
ghost use Rattle.std.specs.Map.{keys_of};
ghost use Rattle.std.specs.Ordering.{nat_cmp};
ghost use Rattle.gb_table.specs.Table.{Puts};
ghost use Rattle.gb_ops.specs.Finding.{FindsDue, FindsLeast, TellsIdle};
ghost use Rattle.gb_ops.specs.Listed.{late_among};
ghost use Rattle.gb_ops.specs.Places.{pending_among};
ghost use Rattle.gb_ops.specs.Tables.{
  AllCovered,
  Enters,
  IsEmpty,
  IsUnchanged,
  LeavesAs,
  MarksAs,
  ReleasesAs,
  holder_in,
  pending_in,
};

use crate::open_list::OpenList;
use crate::{Holder, Pending};
use gb_base::{Numbers, OutOfMemory};
use gb_table::Table;
use std::alloc::Global;
use std::collections::BTreeSet;

/// The requests of one side of a connection, in maps.
#[derive(Drop)]
pub struct Tables {
    /// By identifier, those that are open and those that were given up.
    pub holders: Table<Holder>,
    /// By number, those that are open.
    pub pending: OpenList,
    /// No deadline of those that are open is before it, in milliseconds.
    pub soonest: u64,
}

impl Tables {
    /// No request was begun.
    pub fn new(alloc: Global) -> Tables
        ensures { IsEmpty result }
    {
        Tables {
            holders: Table::new(alloc),
            pending: OpenList::new(alloc),
            soonest: u64::MAX,
        }
    }

    /// A request is open. What it had where it was open already is answered: its former identifier
    /// is in use still. After want of memory all is as before.
    #[inline(always)]
    pub fn enter(
        &mut self,
        label: u16,
        n: u64,
        deadline: u64,
    ) -> Result<Option<Pending>, OutOfMemory>
        ensures former { IfOk result (λ former. former ≡ pending_in self.old n) }
        ensures entered { OnOk result (Enters self.old self.new label n deadline) }
        ensures unchanged { OnErr result (IsUnchanged self.old self.new) }
    {
        let former = self.pending.insert(n, Pending { label, deadline })?;
        let holder = Holder {
            number: n,
            given_up: false,
        };
        if let Err(refused) = self.holders.put(u64::from(label), holder) {
            restore(&mut self.pending, n, former);
            return Err(refused);
        }
        self.soonest = self.soonest.min(deadline);
        Ok(former)
    }

    /// A request is open no more. None comes where it wasn't.
    pub fn leave(&mut self, n: u64) -> Option<Pending>
        ensures { LeavesAs self.old self.new n result }
    {
        let pending = self.pending.remove(n)?;
        if self.pending.is_empty() {
            self.soonest = u64::MAX;
        }
        Some(pending)
    }

    /// Nothing has an identifier any more. None comes where it wasn't in use.
    pub fn release(&mut self, label: u16) -> Option<Holder>
        ensures { ReleasesAs self.old self.new label result }
    {
        self.holders.take(u64::from(label))
    }

    /// Nothing is kept any more.
    pub fn clear(&mut self)
        ensures { IsEmpty self.new }
    {
        self.holders.clear();
        self.pending.clear();
        self.soonest = u64::MAX;
    }

    /// No request is open.
    pub fn is_idle(&self) -> bool
        ensures { TellsIdle (pending_in self.now) result }
    {
        self.pending.is_empty()
    }

    /// What an identifier is in use for.
    pub fn holder(&self, label: u16) -> Option<Holder>
        ensures { result ≡ holder_in self.now label }
    {
        self.holders.get(u64::from(label))
    }

    /// The request that has an identifier was given up.
    pub fn mark(&mut self, label: u16)
        ensures { MarksAs self.old self.new label }
    {
        let label = u64::from(label);
        if let Some(holder) = self.holders.get(label) {
            let given_up = Holder {
                number: holder.number,
                given_up: true,
            };
            self.holders.set(label, given_up);
        }
    }

    /// The open request with the least number.
    pub fn first(&self) -> Option<u64>
        ensures { FindsLeast (pending_in self.now) result }
    {
        self.pending.first()
    }

    /// The numbers of the open requests, in order.
    pub fn unended(&self, alloc: Global) -> Result<Numbers, OutOfMemory>
        ensures numbers { IfOk result (λ ns. ns ≡ keys_of self.now.pending) }
        ensures ordered { IsStrictlySortedBy nat_cmp (keys_of self.now.pending) }
        ensures few { self.now.pending ≡ [] → IsOk result }
    {
        let numbers = self.pending.numbers(alloc)?;
        Ok(numbers)
    }

    /// The numbers of the requests that were given up and have an identifier, in order.
    pub fn late(&self, alloc: Global) -> Result<Numbers, OutOfMemory>
        ensures numbers { IfOk result (λ ns. ns ≡ late_among [] self.now.holders) }
        ensures sorted { IfOk result (λ ns. IsStrictlySortedBy nat_cmp ns) }
        ensures unique { IfOk result (λ found. IsDistinct nat_eq (keys_of self.now.holders)) }
        ensures few { self.now.holders ≡ [] → IsOk result }
    {
        let found = self.given_up(alloc)?;
        let numbers = listed(alloc, &found)?;
        Ok(numbers)
    }

    /// The numbers of the requests that were given up and have an identifier.
    fn given_up(&self, alloc: Global) -> Result<BTreeSet<u64>, OutOfMemory>
        ensures found { IfOk result
            (λ found. found.keys ≡ late_among [] self.now.holders) }
        ensures unique { IfOk result (λ found. IsDistinct nat_eq (keys_of self.now.holders)) }
        ensures few { self.now.holders ≡ [] → IsOk result }
    {
        let mut found = BTreeSet::new(alloc);
        let holders = self.holders.entries(alloc)?;
        for (_, holder) in holders.items() {
            if holder.given_up {
                found.insert(holder.number)?;
            }
        }
        Ok(found)
    }

    /// The open request with the least number whose deadline came.
    pub fn first_due(&self, now: u64) -> Option<u64>
        ensures { AllCovered self.now → FindsDue (pending_in self.now) now result }
    {
        if now < self.soonest {
            return None;
        }
        self.pending.first_due(now)
    }
}

/// A request that is open has what it had before, or is open no more.
fn restore(pending: &mut OpenList, n: u64, former: Option<Pending>)
    requires { IsSome (pending_among pending.old n) }
    ensures restored { Puts (pending_among pending.old) (pending_among pending.new) n former }
    ensures ordered { IsStrictlySortedBy nat_cmp (keys_of pending.new) }
{
    match former {
        Some(former) => {
            let Ok(_) = pending.insert(n, former) else {
                unreachable!()
            };
        }
        None => {
            pending.remove(n);
        }
    }
}

/// The numbers of a set, in order.
fn listed(alloc: Global, found: &BTreeSet<u64>) -> Result<Numbers, OutOfMemory>
    ensures numbers { IfOk result (λ ns. ns ≡ found.now.keys) }
    ensures sorted { IfOk result (λ ns. IsStrictlySortedBy nat_cmp ns) }
    ensures few { found.now.keys ≡ [] → IsOk result }
{
    let mut numbers = Numbers::new(alloc);
    for number in found {
        numbers.push(*number)?;
    }
    Ok(numbers)
}
