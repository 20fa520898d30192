//! The ends where an item waits.

ghost use Rattle.std.specs.Prelude.{◌≡◌, true, false, [], ◌++◌, IfOk, IsOk, OnErr, OnOk};
ghost use Rattle.std.specs.List.Sorted.{IsStrictlySortedBy};
ghost use Rattle.gb_switch.specs.Places.{end_cmp};
ghost use Rattle.gb_switch.specs.WaitingEnds.{ComesBefore, IsBelow, IsLeast, Marks, ends_of, is_in};

use crate::Place;
use gb_base::{End, OutOfMemory, Sequence};
use std::alloc::Global;
use std::collections::BTreeSet;
use std::marker::Model;

/// The places of ends where an item waits. A contract sees the ends.
#[derive(Drop)]
pub struct Waiting {
    /// The least place. It takes no memory, and mostly no other is there.
    first: Option<Place>,
    /// The others, none where there is no first.
    behind: Behind,
}

impl Model for Waiting {
    ghost use Rattle.std.specs.Prelude.{List};
    ghost use Rattle.gb_base.specs.declared.end.End.{End};

    ghost Value = { List End };

    ghost use Rattle.gb_switch.specs.WaitingEnds.{ComesBefore, ends_of};

    ghost view = { λ w. ends_of w.first w.behind };

    ghost invariant = { λ w. ComesBefore w.first w.behind };
}

impl Waiting {
    /// Nothing waits.
    pub fn new(alloc: Global) -> Waiting
        ensures { result ≡ [] }
    {
        Waiting {
            first: None,
            behind: Behind::new(alloc),
        }
    }

    /// Adds a place. After want of memory all is as before.
    #[inline(always)]
    pub fn add(&mut self, place: Place) -> Result<(), OutOfMemory>
        requires { is_in self.old place ≡ false }
        ensures added { OnOk result (Marks self.old self.new place true) }
        ensures unchanged { OnErr result (self.new ≡ self.old) }
    {
        let Some(first) = self.first else {
            self.first = Some(place);
            return Ok(());
        };
        if place < first {
            self.behind.add_first(first)?;
            self.first = Some(place);
            return Ok(());
        }
        self.behind.add(place)?;
        Ok(())
    }

    /// Removes a place, which may be absent.
    #[inline(always)]
    pub fn remove(&mut self, place: Place)
        ensures { Marks self.old self.new place false }
    {
        if self.first == Some(place) {
            self.first = self.behind.pop_first();
        } else {
            self.behind.remove(place);
        }
    }

    /// The least place, None where nothing waits.
    pub fn first(&self) -> Option<Place>
        ensures { IsLeast self.now result }
    {
        self.first
    }

    /// The ends in order. It takes no memory where there is none.
    pub fn ends(&self, alloc: Global) -> Result<Sequence<End>, OutOfMemory>
        ensures ends { IfOk result (λ ends. ends ≡ self.now) }
        ensures sorted { IfOk result (λ ends. IsStrictlySortedBy end_cmp ends) }
        ensures few { self.now ≡ [] → IsOk result }
    {
        let mut ends = Sequence::new(alloc);
        if let Some(first) = self.first {
            ends.push(first.end())?;
        }
        self.behind.append_to(&mut ends)?;
        Ok(ends)
    }
}

/// The places behind the first. Where one comes before the first and goes again soon, the set of
/// others stays as it is. A contract sees the ends.
#[derive(Drop)]
struct Behind {
    /// The least of these. It takes no memory, and may be absent though others are there.
    second: Option<Place>,
    /// The others.
    others: BTreeSet<Place>,
}

impl Model for Behind {
    ghost use Rattle.std.specs.Prelude.{List};
    ghost use Rattle.gb_base.specs.declared.end.End.{End};

    ghost Value = { List End };

    ghost use Rattle.std.specs.Prelude.{IfSome};
    ghost use Rattle.gb_switch.specs.WaitingEnds.{IsBelow, ends_of};

    ghost view = { λ b. ends_of b.second b.others.keys };

    ghost invariant = { λ b. IfSome b.second (λ second. IsBelow second b.others.keys) };
}

impl Behind {
    /// Nothing waits behind the first.
    fn new(alloc: Global) -> Behind
        ensures { result ≡ [] }
    {
        Behind {
            second: None,
            others: BTreeSet::new(alloc),
        }
    }

    /// Adds a place that comes before all that are here. After want of memory all is as before.
    #[inline(always)]
    fn add_first(&mut self, place: Place) -> Result<(), OutOfMemory>
        requires { IsBelow place self.old }
        ensures added { OnOk result (Marks self.old self.new place true) }
        ensures unchanged { OnErr result (self.new ≡ self.old) }
    {
        let Some(second) = self.second else {
            self.second = Some(place);
            return Ok(());
        };
        self.others.insert(second)?;
        self.second = Some(place);
        Ok(())
    }

    /// Adds a place. After want of memory all is as before.
    #[inline(never)]
    fn add(&mut self, place: Place) -> Result<(), OutOfMemory>
        requires { is_in self.old place ≡ false }
        ensures added { OnOk result (Marks self.old self.new place true) }
        ensures unchanged { OnErr result (self.new ≡ self.old) }
    {
        let Some(second) = self.second else {
            self.others.insert(place)?;
            return Ok(());
        };
        if place < second {
            self.others.insert(second)?;
            self.second = Some(place);
            return Ok(());
        }
        self.others.insert(place)?;
        Ok(())
    }

    /// Removes a place, which may be absent.
    #[inline(never)]
    fn remove(&mut self, place: Place)
        ensures { Marks self.old self.new place false }
    {
        if self.second == Some(place) {
            self.second = None;
        } else {
            self.others.remove(&place);
        }
    }

    /// Takes the least place, None where there is none.
    #[inline(always)]
    fn pop_first(&mut self) -> Option<Place>
        ensures taken { ends_of result self.new ≡ self.old }
        ensures below { ComesBefore result self.new }
    {
        let Some(second) = self.second else {
            return pop_other(&mut self.others);
        };
        self.second = None;
        Some(second)
    }

    /// Appends the ends in order. It takes no memory where there is none.
    fn append_to(&self, ends: &mut Sequence<End>) -> Result<(), OutOfMemory>
        ensures appended { OnOk result (ends.new ≡ ends.old ++ self.now) }
        ensures sorted { OnOk result (IsStrictlySortedBy end_cmp self.now) }
        ensures few { self.now ≡ [] → IsOk result }
    {
        if let Some(second) = self.second {
            ends.push(second.end())?;
        }
        for place in &self.others {
            ends.push(place.end())?;
        }
        Ok(())
    }
}

/// Takes the least of the others, None where there is none.
#[inline(never)]
fn pop_other(others: &mut BTreeSet<Place>) -> Option<Place>
    ensures taken { ends_of result others.new.keys ≡ others.old.keys }
    ensures below { ComesBefore result others.new.keys }
{
    others.pop_first()
}
