//! The open requests in order of number.

ghost use Rattle.std.specs.Prelude.{
  ◌≡◌,
  ◌↔◌,
  ◌≤◌,
  [],
  IfOk,
  IsOk,
  IsSome,
  IsTrue,
  MatchOption,
  None,
  OnErr,
  OnOk,
  Some,
  drop,
  length,
  take,
};
ghost use Rattle.std.specs.List.Sorted.{IsStrictlySortedBy};
ghost use Rattle.std.specs.Map.{keys_of};
ghost use Rattle.std.specs.Ordering.{nat_cmp};
ghost use Rattle.gb_table.specs.Table.{Puts};
ghost use Rattle.gb_ops.specs.Finding.{FindsLeast, TellsIdle, due_in};
ghost use Rattle.gb_ops.specs.Places.{
  AllBelow,
  IsAt,
  IsInOrder,
  IsNowhere,
  NoneBelow,
  Rises,
  StartsOpen,
  TellsEmpty,
  opened,
  pending_among,
  request_at,
};

use crate::Pending;
use gb_base::{Numbers, OutOfMemory};
use std::alloc::Global;
use std::collections::VecDeque;
use std::marker::Model;

/// Up to twice so many places stay, however few requests are open.
const KEPT: usize = 32;

/// A place for a request.
#[derive(Clone, Copy)]
pub struct Place {
    /// The number of the request.
    pub number: u64,
    /// None where it is open no more.
    pub request: Option<Pending>,
}

/// The open requests in order of number. One that is open no more leaves its place empty, until
/// that is the first, or more than half of the places are empty. A contract sees those that are
/// open, each with its number.
#[derive(Drop)]
pub struct OpenList {
    places: VecDeque<Place>,
    /// How many requests are open. By it empty places are let go.
    count: usize,
}

impl Model for OpenList {
    ghost use Rattle.std.specs.Prelude.{ℕ, List};
    ghost use Rattle.gb_ops.specs.Places.{IsInOrder, opened};
    ghost use Rattle.gb_ops.specs.declared.entries.Pending.{Pending};

    ghost Value = { List (ℕ × Pending) };

    ghost view = { λ l. opened l.places.items };

    ghost invariant = { λ l. IsInOrder l.places.items };
}

impl OpenList {
    /// No request is open. It takes no memory yet.
    pub fn new(alloc: Global) -> OpenList
        ensures { result ≡ [] }
    {
        OpenList {
            places: VecDeque::new(alloc),
            count: 0,
        }
    }

    /// A request is open. What it had where it was open already is answered. After want of memory
    /// all is as before. A number that isn't greater than all others may take as long as there are
    /// places.
    #[inline(always)]
    pub fn insert(&mut self, n: u64, request: Pending) -> Result<Option<Pending>, OutOfMemory>
        ensures former { IfOk result (λ former. former ≡ pending_among self.old n) }
        ensures put { OnOk result
            (Puts (pending_among self.old) (pending_among self.new) n (Some request)) }
        ensures ordered { IsStrictlySortedBy nat_cmp (keys_of self.new) }
        ensures was_ordered { IsStrictlySortedBy nat_cmp (keys_of self.old) }
        ensures succeeds { IsSome (pending_among self.old n) → IsOk result }
        ensures unchanged { OnErr result (self.new ≡ self.old) }
    {
        let former = enter(&mut self.places, n, request)?;
        if former.is_none() {
            self.count = self.count.saturating_add(1);
        }
        Ok(former)
    }

    /// A request is open no more. None comes where it wasn't.
    #[inline(always)]
    pub fn remove(&mut self, n: u64) -> Option<Pending>
        ensures request { result ≡ pending_among self.old n }
        ensures removed { Puts (pending_among self.old) (pending_among self.new) n None }
        ensures ordered { IsStrictlySortedBy nat_cmp (keys_of self.new) }
        ensures unchanged { result ≡ None → self.new ≡ self.old }
    {
        let request = leave(&mut self.places, n)?;
        self.count = self.count.saturating_sub(1);
        if self.places.len() / 2 > self.count.max(KEPT) {
            compact(&mut self.places);
        }
        Some(request)
    }

    /// No request is open any more. The memory stays.
    pub fn clear(&mut self)
        ensures { self.new ≡ [] }
    {
        self.places.clear();
        self.count = 0;
    }

    /// No request is open.
    pub fn is_empty(&self) -> bool
        ensures tells { TellsIdle (pending_among self.now) result }
        ensures empty { IsTrue result → self.now ≡ [] }
    {
        self.places.is_empty()
    }

    /// The least number.
    pub fn first(&self) -> Option<u64>
        ensures { FindsLeast (pending_among self.now) result }
    {
        let place = self.places.front()?;
        Some(place.number)
    }

    /// The numbers in order.
    pub fn numbers(&self, alloc: Global) -> Result<Numbers, OutOfMemory>
        ensures numbers { IfOk result (λ ns. ns ≡ keys_of self.now) }
        ensures ordered { IsStrictlySortedBy nat_cmp (keys_of self.now) }
        ensures few { self.now ≡ [] → IsOk result }
    {
        let numbers = numbers_in(alloc, &self.places)?;
        Ok(numbers)
    }

    /// The least number of those whose deadline came.
    pub fn first_due(&self, now: u64) -> Option<u64>
        ensures due { result ≡ due_in now self.now }
        ensures ordered { IsStrictlySortedBy nat_cmp (keys_of self.now) }
    {
        due_among(&self.places, now)
    }
}

/// A request is open. What it had where it was open already is answered.
#[inline]
fn enter(
    places: &mut VecDeque<Place>,
    n: u64,
    request: Pending,
) -> Result<Option<Pending>, OutOfMemory>
    requires { IsInOrder places.old.items }
    ensures order { IsInOrder places.new.items }
    ensures former { IfOk result (λ former. former ≡ pending_among (opened places.old.items) n) }
    ensures put { OnOk result (Puts (pending_among (opened places.old.items))
        (pending_among (opened places.new.items)) n (Some request)) }
    ensures succeeds { IsSome (pending_among (opened places.old.items) n) → IsOk result }
    ensures unchanged { OnErr result (places.new.items ≡ places.old.items) }
{
    if is_last(places, n) {
        places.push_back(Place {
            number: n,
            request: Some(request),
        })?;
        return Ok(None);
    }
    enter_among(places, n, request)
}

/// A number is greater than all.
#[inline]
fn is_last(places: &VecDeque<Place>, n: u64) -> bool
    requires { Rises places.now.items }
    ensures { IsTrue result → AllBelow n places.now.items }
{
    match places.back() {
        Some(last) => last.number < n,
        None => true,
    }
}

/// A request is open whose number may be among the others.
#[inline(never)]
fn enter_among(
    places: &mut VecDeque<Place>,
    n: u64,
    request: Pending,
) -> Result<Option<Pending>, OutOfMemory>
    requires { IsInOrder places.old.items }
    ensures order { IsInOrder places.new.items }
    ensures former { IfOk result (λ former. former ≡ pending_among (opened places.old.items) n) }
    ensures put { OnOk result (Puts (pending_among (opened places.old.items))
        (pending_among (opened places.new.items)) n (Some request)) }
    ensures succeeds { IsSome (pending_among (opened places.old.items) n) → IsOk result }
    ensures unchanged { OnErr result (places.new.items ≡ places.old.items) }
{
    let place = Place {
        number: n,
        request: Some(request),
    };
    if let Some(at) = place_of(places, n) {
        let former = request_in(places, at);
        places[at] = place;
        return Ok(former);
    }
    let at = first_from(places, n);
    places.insert(at, place)?;
    Ok(None)
}

/// A request is open no more. None comes where it wasn't.
#[inline]
fn leave(places: &mut VecDeque<Place>, n: u64) -> Option<Pending>
    requires { IsInOrder places.old.items }
    ensures order { IsInOrder places.new.items }
    ensures request { result ≡ pending_among (opened places.old.items) n }
    ensures left { Puts (pending_among (opened places.old.items))
        (pending_among (opened places.new.items)) n None }
    ensures unchanged { result ≡ None → places.new.items ≡ places.old.items }
{
    if has_number(places, 0, n) {
        let request = request_in(places, 0);
        places.pop_front();
        trim(places);
        return request;
    }
    leave_among(places, n)
}

/// A request is open no more, which may be among others.
fn leave_among(places: &mut VecDeque<Place>, n: u64) -> Option<Pending>
    requires { IsInOrder places.old.items }
    ensures order { IsInOrder places.new.items }
    ensures request { result ≡ pending_among (opened places.old.items) n }
    ensures left { Puts (pending_among (opened places.old.items))
        (pending_among (opened places.new.items)) n None }
    ensures unchanged { result ≡ None → places.new.items ≡ places.old.items }
{
    let at = place_of(places, n)?;
    let request = request_in(places, at)?;
    places[at] = Place {
        number: n,
        request: None,
    };
    trim(places);
    Some(request)
}

/// The place of a number. It is as far behind the first as the numbers are apart, where all numbers
/// between have places.
#[inline]
fn place_of(places: &VecDeque<Place>, n: u64) -> Option<usize>
    requires { Rises places.now.items }
    ensures { MatchOption result (IsNowhere n places.now.items)
        (λ i. IsAt places.now.items i n) }
{
    if let Some(first) = places.front() {
        let near = n.saturating_sub(first.number) as usize;
        if has_number(places, near, n) {
            return Some(near);
        }
    }
    by_halves(places, n)
}

/// The place of a number, by halves.
#[inline(never)]
fn by_halves(places: &VecDeque<Place>, n: u64) -> Option<usize>
    requires { Rises places.now.items }
    ensures { MatchOption result (IsNowhere n places.now.items)
        (λ i. IsAt places.now.items i n) }
{
    let at = first_from(places, n);
    if has_number(places, at, n) {
        return Some(at);
    }
    None
}

/// The first place whose number isn't less than this one.
fn first_from(places: &VecDeque<Place>, n: u64) -> usize
    requires { Rises places.now.items }
    ensures bound { result ≤ length places.now.items }
    ensures below { AllBelow n (take result places.now.items) }
    ensures beyond { NoneBelow n (drop result places.now.items) }
{
    places.partition_point(|place| place.number < n)
}

/// A place has this number.
#[inline]
fn has_number(places: &VecDeque<Place>, at: usize, n: u64) -> bool
    ensures { IsTrue result ↔ IsAt places.now.items at n }
{
    match places.get(at) {
        Some(place) => place.number == n,
        None => false,
    }
}

/// The request in a place.
#[inline]
fn request_in(places: &VecDeque<Place>, at: usize) -> Option<Pending>
    ensures { result ≡ request_at places.now.items at }
{
    match places.get(at) {
        Some(place) => place.request,
        None => None,
    }
}

/// Empty places in front are let go.
#[inline]
fn trim(places: &mut VecDeque<Place>)
    requires { Rises places.old.items }
    ensures order { IsInOrder places.new.items }
    ensures same { opened places.new.items ≡ opened places.old.items }
{
    while starts_empty(places) {
        places.pop_front();
    }
}

/// The first place is empty.
#[inline]
fn starts_empty(places: &VecDeque<Place>) -> bool
    ensures { TellsEmpty places.now.items result }
{
    match places.front() {
        Some(place) => place.request.is_none(),
        None => false,
    }
}

/// All empty places are let go.
#[inline(never)]
fn compact(places: &mut VecDeque<Place>)
    requires { Rises places.old.items }
    ensures order { IsInOrder places.new.items }
    ensures same { opened places.new.items ≡ opened places.old.items }
{
    places.retain(|place| place.request.is_some());
}

/// The numbers of those that are open.
fn numbers_in(alloc: Global, places: &VecDeque<Place>) -> Result<Numbers, OutOfMemory>
    ensures numbers { IfOk result (λ ns. ns ≡ keys_of (opened places.now.items)) }
    ensures few { opened places.now.items ≡ [] → IsOk result }
{
    let mut numbers = Numbers::new(alloc);
    for place in places {
        if place.request.is_some() {
            numbers.push(place.number)?;
        }
    }
    Ok(numbers)
}

/// The first number of those whose deadline came.
fn due_among(places: &VecDeque<Place>, now: u64) -> Option<u64>
    ensures { result ≡ due_in now (opened places.now.items) }
{
    for place in places {
        if let Some(request) = place.request {
            if request.deadline <= now {
                return Some(place.number);
            }
        }
    }
    None
}
