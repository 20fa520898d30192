//! The names of requests.

ghost use Rattle.std.specs.Prelude.{◌≡◌, ◌<◌, None, [], IfOk, OnOk, OnErr, length};
ghost use Rattle.gb_machine.specs.Lists.{in_order, without};
ghost use Rattle.gb_machine.specs.Names.{named, same_name};
ghost use Rattle.gb_system.specs.Showing.{pair_before};

use crate::key::Key;
use gb_base::{OutOfMemory, sum};
use std::alloc::Global;
use std::collections::{BTreeMap, HashMap};
use std::marker::Model;

/// The names that are bound, each with its request. A contract sees them in order of
/// requester and word.
#[derive(Drop)]
pub struct Names {
    bound: HashMap<Key, u64>,
}

impl Model for Names {
    ghost use Rattle.std.specs.Prelude.{ℕ, List};
    ghost use Rattle.std.specs.HashMap.{IsUnique};
    ghost use Rattle.gb_base.specs.declared.name.Name.{Name};
    ghost use Rattle.gb_machine.specs.Lists.{sorted};
    ghost use Rattle.gb_machine.specs.Names.{same_name};
    ghost use Rattle.gb_system.specs.Showing.{pair_before};

    ghost Value = { List (Name × ℕ) };

    ghost view = { λ n. sorted pair_before n.bound.entries };

    ghost invariant = { λ n. IsUnique same_name n.bound };
}

impl Names {
    /// No name is bound.
    pub fn new(alloc: Global) -> Names
        ensures { result ≡ [] }
    {
        Names {
            bound: HashMap::new(alloc),
        }
    }

    /// Copies of the names in order, each with its request.
    pub fn in_order(&self, alloc: Global) -> Result<BTreeMap<Key, u64>, OutOfMemory>
        ensures { IfOk result (λ names. names.entries ≡ self.now) }
    {
        let mut names = BTreeMap::new(alloc);
        for (name, number) in &self.bound {
            let name = Key::of(name.name())?;
            names.insert(name, *number)?;
        }
        Ok(names)
    }

    /// The request that a name names, None where the name is free.
    #[inline(always)]
    pub fn get(&self, name: &Key) -> Option<u64>
        ensures { result ≡ named name.now self.now }
    {
        self.bound.get(name).copied()
    }

    /// Binds a free name. After want of memory all is as before. It also comes where so many names
    /// are bound that one more would have no number of 64 bits. Where the name is bound, and memory
    /// is found, nothing is said of the names.
    #[inline(always)]
    pub fn bind(&mut self, name: Key, number: u64) -> Result<(), OutOfMemory>
        ensures ok { OnOk result (named name self.old ≡ None
            → self.new ≡ in_order pair_before (name, number) self.old) }
        ensures err { OnErr result (self.new ≡ self.old) }
        ensures room { OnOk result (length self.old < 18446744073709551615) }
    {
        sum(self.bound.len() as u64, 1)?;
        self.bound.insert(name, number)?;
        self.make_room();
        Ok(())
    }

    /// Where the names fill their room there is four times as much, if memory is found: names are
    /// hashed anew each time that their room grows.
    #[inline]
    fn make_room(&mut self)
        ensures { self.new ≡ self.old }
    {
        let count = self.bound.len();
        if count == self.bound.capacity() {
            drop(self.bound.reserve(count.saturating_mul(3)));
        }
    }

    /// Frees a name, and answers the request that it named, None where it is free.
    pub fn free(&mut self, name: &Key) -> Option<u64>
        ensures number { result ≡ named name.now self.old }
        ensures freed { self.new ≡ without (λ p. same_name p.0 name.now) self.old }
        ensures none { result ≡ None → self.new ≡ self.old }
    {
        self.bound.remove(name)
    }
}
