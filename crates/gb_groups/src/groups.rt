//! Numbers in groups.

ghost use Rattle.std.specs.Prelude.{◌≡◌, ◌<◌, [], All, Contains, IfOk, IsOk, IsTrue, OnErr, OnOk};
ghost use Rattle.std.specs.BTreeSet.{insert_key};
ghost use Rattle.std.specs.List.Sorted.{IsStrictlySortedBy};
ghost use Rattle.std.specs.Ordering.{nat_cmp};
ghost use Rattle.gb_groups.specs.Groups.{AreNone, Regroups, left_out, numbers_in};

use gb_base::OutOfMemory;
use std::alloc::Global;
use std::marker::Model;

/// How many groups there are, one for each value of a byte.
const GROUPS: usize = 256;

/// Numbers in groups, those of each in rising order. A call takes time by what is in its group,
/// and none by what is in the others. A number greater than those that are there goes to the end
/// at once.
#[derive(Drop)]
pub struct Groups {
    lists: Vec<Vec<u64>>,
}

impl Model for Groups {
    ghost use Rattle.std.specs.Prelude.{ℕ, List};
    ghost use Rattle.gb_groups.specs.Groups.{AreRising, numbers_of};

    ghost Value = { List (List ℕ) };

    ghost view = { λ g. numbers_of g.lists.items };

    ghost invariant = { λ g. AreRising (numbers_of g.lists.items) };
}

impl Groups {
    /// No group has a number.
    pub fn new(alloc: Global) -> Result<Groups, OutOfMemory>
        ensures { IfOk result AreNone }
    {
        let mut lists = Vec::with_capacity(alloc, GROUPS)?;
        for _ in 0..GROUPS {
            lists.push(Vec::new(alloc))?;
        }
        Ok(Groups { lists })
    }

    /// The numbers of a group, in order.
    #[inline]
    pub fn of(&self, group: u8) -> &[u64]
        ensures numbers { result.now ≡ numbers_in self.now group }
        ensures rising { IsStrictlySortedBy nat_cmp result.now }
    {
        self.lists[usize::from(group)].as_slice()
    }

    /// A group has a number more, where it doesn't have it. After want of memory all is as before,
    /// and none is wanted for a number that is there.
    pub fn add(&mut self, group: u8, number: u64) -> Result<(), OutOfMemory>
        ensures added { OnOk result (Regroups self.old self.new group
            (insert_key nat_cmp (numbers_in self.old group) number)) }
        ensures unchanged { OnErr result (self.new ≡ self.old) }
        ensures there { Contains (numbers_in self.old group) number → IsOk result }
    {
        insert_in_order(&mut self.lists[usize::from(group)], number)?;
        Ok(())
    }

    /// A group doesn't have a number any more.
    pub fn remove(&mut self, group: u8, number: u64)
        ensures { Regroups self.old self.new group (left_out number (numbers_in self.old group)) }
    {
        take_out(&mut self.lists[usize::from(group)], number);
    }

    /// A group has no number any more. The memory stays.
    pub fn clear(&mut self, group: u8)
        ensures { Regroups self.old self.new group [] }
    {
        self.lists[usize::from(group)].clear();
    }
}

/// A list that rises has a number more, where it doesn't have it.
fn insert_in_order(list: &mut Vec<u64>, number: u64) -> Result<(), OutOfMemory>
    requires { IsStrictlySortedBy nat_cmp list.now.items }
    ensures added { OnOk result (list.new.items ≡ insert_key nat_cmp list.old.items number) }
    ensures unchanged { OnErr result (list.new.items ≡ list.old.items) }
    ensures there { Contains list.old.items number → IsOk result }
{
    if is_greater(list.as_slice(), number) {
        list.push(number)?;
        return Ok(());
    }
    let Err(place) = list.binary_search(&number) else {
        return Ok(());
    };
    list.insert(place, number)?;
    Ok(())
}

/// Whether a number is greater than all of a list that rises. Nothing is said at false.
#[inline]
fn is_greater(list: &[u64], number: u64) -> bool
    requires { IsStrictlySortedBy nat_cmp list.now }
    ensures { IsTrue result → All (λ m. m < number) list.now }
{
    match list.last() {
        None => true,
        Some(last) => *last < number,
    }
}

/// A list that rises doesn't have a number any more.
fn take_out(list: &mut Vec<u64>, number: u64)
    requires { IsStrictlySortedBy nat_cmp list.now.items }
    ensures { list.new.items ≡ left_out number list.old.items }
{
    let Ok(place) = list.binary_search(&number) else {
        return;
    };
    list.remove(place);
}
