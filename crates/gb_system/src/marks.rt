//! Connections with the hold mark.

ghost use Rattle.std.specs.Prelude.{◌≡◌, [], OnOk, false, true};
ghost use Rattle.gb_system.specs.Held.{MarksAs, is_marked};

use gb_base::OutOfMemory;
use std::alloc::Global;
use std::collections::BTreeSet;
use std::marker::Model;

/// The connections of which requests to the far side are held. A contract sees their numbers.
#[derive(Drop)]
pub struct Marks {
    marked: BTreeSet<u64>,
}

impl Model for Marks {
    ghost use Rattle.std.specs.Prelude.{ℕ, List};

    ghost Value = { List ℕ };

    ghost view = { λ m. m.marked.keys };
}

impl Marks {
    /// No connection has the mark.
    pub fn new(alloc: Global) -> Marks
        ensures { result ≡ [] }
    {
        Marks {
            marked: BTreeSet::new(alloc),
        }
    }

    /// A connection has the mark.
    pub fn has(&self, k: u64) -> bool
        ensures { result ≡ is_marked k self.now }
    {
        self.marked.contains(&k)
    }

    /// A connection has the mark from now on.
    pub fn add(&mut self, k: u64) -> Result<(), OutOfMemory>
        ensures { OnOk result (MarksAs self.old self.new k true) }
    {
        self.marked.insert(k)?;
        Ok(())
    }

    /// A connection has no mark any more.
    pub fn remove(&mut self, k: u64)
        ensures { MarksAs self.old self.new k false }
    {
        self.marked.remove(&k);
    }
}
