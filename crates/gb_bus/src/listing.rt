//! The requests of a side of a connection, by what is kept of them.

ghost use Rattle.std.specs.Prelude.{◌≡◌, [], IfOk, nat_eq};
ghost use Rattle.std.specs.List.{IsDistinct};
ghost use Rattle.std.specs.List.Sorted.{IsStrictlySortedBy};
ghost use Rattle.std.specs.Map.{keys_of};
ghost use Rattle.std.specs.Ordering.{nat_cmp};
ghost use Rattle.slab.specs.Slab.{get};
ghost use Rattle.gb_bus.specs.Keeping.{numbers_where};
ghost use Rattle.gb_bus.specs.Slots.{is_listed_on};

use crate::slots::Slot;
use gb_base::{Numbers, OutOfMemory, Side};
use gb_table::Table;
use slab::Slab;
use std::alloc::Global;
use std::collections::BTreeSet;

/// Which requests of a side are listed.
#[derive(Clone, Copy)]
pub enum Listed {
    /// Those that are open.
    Open,
    /// Those that have ended and whose identifiers are in use.
    Late,
}

/// Such requests of a side of a connection among those that have a place, in order of number.
pub fn listed_among(
    alloc: Global,
    slots: &Slab<Slot>,
    places: &Table<usize>,
    k: u64,
    side: Side,
    which: Listed,
) -> Result<Numbers, OutOfMemory>
    ensures numbers { IfOk result
        (λ ns. ns
        ≡ numbers_where (λ key. is_listed_on which k side (get slots.now key)) []
        places.now) }
    ensures sorted { IfOk result (λ ns. IsStrictlySortedBy nat_cmp ns) }
    ensures unique { IfOk result (λ ns. IsDistinct nat_eq (keys_of places.now)) }
{
    let mut found = BTreeSet::new(alloc);
    let entries = places.entries(alloc)?;
    for (number, key) in entries.items() {
        if is_listed_at(slots, *key, k, side, which) {
            found.insert(*number)?;
        }
    }
    in_order(alloc, &found)
}

/// The numbers of a set, in order.
pub fn in_order(alloc: Global, found: &BTreeSet<u64>) -> Result<Numbers, OutOfMemory>
    ensures numbers { IfOk result (λ ns. ns ≡ found.now.keys) }
    ensures sorted { IsStrictlySortedBy nat_cmp found.now.keys }
{
    let mut numbers = Numbers::new(alloc);
    for number in found {
        numbers.push(*number)?;
    }
    Ok(numbers)
}

/// The slot under a key is that of such a request of a side of a connection.
fn is_listed_at(slots: &Slab<Slot>, key: usize, k: u64, side: Side, which: Listed) -> bool
    ensures { result ≡ is_listed_on which k side (get slots.now key) }
{
    let Some(slot) = slots.get(key) else {
        return false;
    };
    if slot.connection != k || slot.side != side {
        return false;
    }
    match which {
        Listed::Open => slot.outcome.is_none(),
        Listed::Late => slot.outcome.is_some() && slot.awaited,
    }
}
