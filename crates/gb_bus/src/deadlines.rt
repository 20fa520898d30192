//! By when open requests time out.

ghost use Rattle.std.specs.Prelude.{◌≡◌, [], OnErr, OnOk, true};
ghost use Rattle.gb_bus.specs.Keeping.{Adds, Removes, Retimed, Stays, came_early};

use gb_base::OutOfMemory;
use std::alloc::Global;
use std::cmp::Reverse;
use std::collections::BTreeSet;

/// What is kept of the deadlines of open requests beside those in their slots. Deadlines mostly
/// rise with the numbers of requests, so that the first open one is mostly the next to time out.
#[derive(Drop)]
pub struct Deadlines {
    /// The least number of an open request, if there is one.
    pub first: u64,
    /// No open request has a later deadline, if there is one.
    pub latest: u64,
    /// The deadlines with the numbers of those that time out before one with a lower number, the
    /// latest first.
    pub early: BTreeSet<Reverse<(u64, u64)>>,
}

impl Deadlines {
    /// No request is open.
    pub fn new(alloc: Global) -> Deadlines
        ensures { result.early.keys ≡ [] }
    {
        Deadlines {
            first: 0,
            latest: 0,
            early: BTreeSet::new(alloc),
        }
    }

    /// A new request is open, which may be the only one.
    #[inline]
    pub fn add(&mut self, number: u64, deadline: u64, alone: bool) -> Result<(), OutOfMemory>
        ensures adds { OnOk result (Adds number deadline alone self.old self.new) }
        ensures err { OnErr result (Stays self.old self.new) }
    {
        if alone {
            self.first = number;
            self.latest = deadline;
            return Ok(());
        }
        if deadline < self.latest {
            return self.add_early(number, deadline);
        }
        self.latest = deadline;
        Ok(())
    }

    /// One is open that times out before others.
    #[inline(never)]
    fn add_early(&mut self, number: u64, deadline: u64) -> Result<(), OutOfMemory>
        ensures first { self.new.first ≡ self.old.first }
        ensures latest { self.new.latest ≡ self.old.latest }
        ensures early { OnOk result (Retimed self.old.early self.new.early deadline number true) }
        ensures err { OnErr result (self.new.early.keys ≡ self.old.early.keys) }
    {
        self.early.insert(Reverse((deadline, number)))?;
        Ok(())
    }

    /// A request isn't open any more.
    #[inline]
    pub fn remove(&mut self, number: u64, deadline: u64)
        ensures { Removes number deadline self.old self.new }
    {
        if !self.early.is_empty() {
            self.early.remove(&Reverse((deadline, number)));
        }
    }

    /// One that times out before others is due.
    #[inline]
    pub fn came_early(&self, now: u64) -> bool
        ensures { result ≡ came_early now self.now.early.keys }
    {
        let Some(Reverse((deadline, _))) = self.early.last() else {
            return false;
        };
        *deadline <= now
    }
}
