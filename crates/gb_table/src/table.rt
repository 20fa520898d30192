//! A map from numbers that stand close together.

ghost use Rattle.std.specs.Prelude.{
  ◌≡◌,
  ◌≤◌,
  ◌<◌,
  ◌+◌,
  ℕ,
  None,
  Some,
  [],
  ◌∷◌,
  ◌++◌,
  IfOk,
  IsOk,
  OnErr,
  OnOk,
  length,
  nat_eq,
  option_map,
};
ghost use Rattle.std.specs.List.{IsDistinct};
ghost use Rattle.std.specs.Map.{keys_of};
ghost use Rattle.gb_table.specs.Table.{Puts, entries_from, item_at, item_in};

use gb_base::{OutOfMemory, Sequence};
use std::alloc::Global;
use std::collections::VecDeque;
use std::marker::Model;

/// A map from numbers to items. It has a place for each number from the least to the greatest that
/// was given an item, also where that was taken since, until `trim` or `clear` lets the place go.
/// So these numbers should stand close together. A contract sees those that have an item,
/// each with it.
#[derive(Drop)]
pub struct Table<T> {
    /// The number of the first place.
    first: u64,
    /// What stands at that number and those after it.
    places: VecDeque<Option<T>>,
}

impl<T> Model for Table<T> {
    ghost use Rattle.std.specs.Prelude.{ℕ, List, ◌≤◌, ◌+◌, length};
    ghost use Rattle.gb_table.specs.Table.{entries_from};

    ghost Value = { List (ℕ × T) };

    ghost view = { λ t. entries_from t.first t.places.items };

    ghost invariant = { λ t. t.first + length t.places.items ≤ 18446744073709551616 };
}

impl<T: Copy> Table<T> {
    /// No number has an item. It takes no memory yet.
    pub fn new(alloc: Global) -> Table<T>
        ensures { result ≡ [] }
    {
        Table {
            first: 0,
            places: VecDeque::new(alloc),
        }
    }

    /// The item of a number, None where it has none.
    #[inline]
    pub fn get(&self, n: u64) -> Option<T>
        ensures { result ≡ item_at self.now n }
    {
        if n < self.first {
            return None;
        }
        item_in(&self.places, (n - self.first) as usize)
    }

    /// A number has this item from now on. After want of memory all is as before.
    #[inline(always)]
    pub fn put(&mut self, n: u64, item: T) -> Result<(), OutOfMemory>
        ensures put { OnOk result (Puts (item_at self.old) (item_at self.new) n (Some item)) }
        ensures unchanged { OnErr result (self.new ≡ self.old) }
    {
        lead(&mut self.first, &mut self.places, n)?;
        let place = (n - self.first) as usize;
        if place == self.places.len() {
            self.places.push_back(Some(item))?;
            return Ok(());
        }
        extend(&mut self.places, place)?;
        self.places[place] = Some(item);
        Ok(())
    }

    /// A number that has an item has this one from now on.
    pub fn set(&mut self, n: u64, item: T)
        ensures { Puts (item_at self.old) (item_at self.new) n
            (option_map (λ old. item) (item_at self.old n)) }
    {
        if n < self.first {
            return;
        }
        let place = (n - self.first) as usize;
        if item_in(&self.places, place).is_some() {
            self.places[place] = Some(item);
        }
    }

    /// Takes the item of a number. None comes where it has none.
    #[inline]
    pub fn take(&mut self, n: u64) -> Option<T>
        ensures item { result ≡ item_at self.old n }
        ensures taken { Puts (item_at self.old) (item_at self.new) n None }
        ensures unchanged { result ≡ None → self.new ≡ self.old }
    {
        if n < self.first {
            return None;
        }
        let place = (n - self.first) as usize;
        let item = item_in(&self.places, place)?;
        self.places[place] = None;
        Some(item)
    }

    /// Places before the least number that has an item are let go. The numbers that get an item
    /// later should be greater than it: each lesser one brings back the places between.
    #[inline]
    pub fn trim(&mut self)
        ensures { self.new ≡ self.old }
    {
        trim(&mut self.first, &mut self.places);
    }

    /// No number has an item any more. The memory stays.
    pub fn clear(&mut self)
        ensures { self.new ≡ [] }
    {
        self.places.clear();
    }

    /// The numbers that have an item, each with it, in order. It takes no memory where none has.
    pub fn entries(&self, alloc: Global) -> Result<Sequence<(u64, T)>, OutOfMemory>
        ensures entries { IfOk result (λ es. es ≡ self.now) }
        ensures distinct { IfOk result (λ es. IsDistinct nat_eq (keys_of es)) }
        ensures few { self.now ≡ [] → IsOk result }
    {
        let mut entries = Sequence::new(alloc);
        for place in 0..self.places.len() {
            let n = self.first + place as u64;
            list(&mut entries, n, item_in(&self.places, place))?;
        }
        Ok(entries)
    }
}

/// What stands at a place.
#[inline]
fn item_in<T: Copy>(places: &VecDeque<Option<T>>, place: usize) -> Option<T>
    ensures { result ≡ item_in places.now.items place }
{
    match places.get(place) {
        Some(item) => *item,
        None => None,
    }
}

/// A number isn't before the first one from now on. It is the first where there is no place.
#[inline(always)]
fn lead<T: Copy>(
    first: &mut u64,
    places: &mut VecDeque<Option<T>>,
    n: u64,
) -> Result<(), OutOfMemory>
    requires { first.old + length places.old.items ≤ 18446744073709551616 }
    ensures same { entries_from first.new places.new.items
        ≡ entries_from first.old places.old.items }
    ensures end { first.new + length places.new.items ≤ 18446744073709551616 }
    ensures led { OnOk result (first.new ≤ n) }
{
    if places.is_empty() {
        *first = n;
        return Ok(());
    }
    while n < *first {
        places.push_front(None)?;
        *first -= 1;
    }
    Ok(())
}

/// A place is there from now on.
fn extend<T: Copy>(places: &mut VecDeque<Option<T>>, place: usize) -> Result<(), OutOfMemory>
    ensures same { (n : ℕ) → entries_from n places.new.items ≡ entries_from n places.old.items }
    ensures end { (last : ℕ) → place < last → length places.old.items ≤ last
        → length places.new.items ≤ last }
    ensures there { OnOk result (place < length places.new.items) }
{
    while places.len() <= place {
        places.push_back(None)?;
    }
    Ok(())
}

/// The first place has an item from now on, or there is none.
fn trim<T: Copy>(first: &mut u64, places: &mut VecDeque<Option<T>>)
    requires { first.old + length places.old.items ≤ 18446744073709551616 }
    ensures same { entries_from first.new places.new.items
        ≡ entries_from first.old places.old.items }
    ensures end { first.new + length places.new.items ≤ 18446744073709551616 }
{
    while let Some(None) = places.front() {
        places.pop_front();
        *first = first.saturating_add(1);
    }
}

/// Adds a number to entries, where it has an item.
fn list<T: Copy>(
    entries: &mut Sequence<(u64, T)>,
    n: u64,
    item: Option<T>,
) -> Result<(), OutOfMemory>
    ensures added { OnOk result (entries.new ≡ entries.old ++ entries_from n (item ∷ [])) }
    ensures few { item ≡ None → IsOk result }
{
    if let Some(item) = item {
        entries.push((n, item))?;
    }
    Ok(())
}
