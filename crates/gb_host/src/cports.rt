//! The CPorts of the application processor that connections have.

ghost use Rattle.std.specs.Prelude.{◌≡◌, ◌==◌, ◌<◌, ◌≤◌, ◌∷◌, [], ◌++◌, ◌*◌, ◌^◌, ℕ, IfOk};
ghost use Rattle.std.specs.Prelude.{List, false, get_or, length, set};
ghost use Rattle.std.specs.List.{list_any};
ghost use Rattle.gb_base.specs.declared.interface.Link.{Link};
ghost use Rattle.gb_host.specs.Counts.{AreCounted, AreTaken};
ghost use Rattle.gb_machine.specs.Lists.{first_free};

use gb_base::{Link, OutOfMemory};
use std::alloc::Global;

/// The least CPort of the application processor that a connection to a module has.
const LEAST_CPORT: u16 = 1;

/// The greatest CPort of the application processor, and one more.
const CPORTS_END: u16 = 4096;

/// How many CPorts a block has.
const BLOCK: u16 = 64;

/// How many blocks the CPorts up to 4,095 make.
const BLOCKS: u16 = 64;

/// How many connections have each CPort of the application processor up to 4,095, the least that
/// none has, and for each block whether connections are known to have all its CPorts from 1.
#[derive(Drop)]
pub struct Cports {
    counts: Vec<u64>,
    full: Vec<bool>,
    least: u16,
}

impl Cports {
    /// No connection has a CPort.
    pub fn new(alloc: Global) -> Result<Cports, OutOfMemory>
        ensures { IfOk result (λ x. AreCounted x []) }
    {
        Ok(Cports {
            counts: vec![in alloc; 0; CPORTS_END as usize]?,
            full: vec![in alloc; false; BLOCKS as usize]?,
            least: LEAST_CPORT,
        })
    }

    /// The least CPort from 1 to 4,095 that no connection has.
    pub fn free(&self) -> Option<u16>
        ensures { (ls : List Link) → AreCounted self.now ls
            → result ≡ first_free (λ a. list_any (λ l. l.ap == a) ls) 4095 1 }
    {
        if self.least < CPORTS_END {
            Some(self.least)
        } else {
            None
        }
    }

    /// A connection more has its CPort.
    pub fn take(&mut self, link: Link)
        ensures { (ls : List Link) → length ls < 2 ^ 63 → AreCounted self.old ls
            → AreCounted self.new (ls ++ link ∷ []) }
    {
        let i = usize::from(link.ap);
        if i < self.counts.len() {
            let count = self.counts[i].saturating_add(1);
            self.counts[i] = count;
            self.least = self.unused(self.least);
        }
    }

    /// A connection fewer has its CPort.
    pub fn leave(&mut self, link: Link)
        ensures { (front behind : List Link) → AreCounted self.old (front ++ link ∷ behind)
            → AreCounted self.new (front ++ behind) }
    {
        let i = usize::from(link.ap);
        if i < self.counts.len() {
            let count = self.counts[i].saturating_sub(1);
            self.counts[i] = count;
            if count == 0 && link.ap >= LEAST_CPORT {
                self.mark(link.ap / BLOCK, false);
                self.least = self.least.min(link.ap);
            }
        }
    }

    /// The least CPort from this one to 4,095 that no connection has, or 4,096, where connections
    /// have all from 1 to below this one.
    fn unused(&mut self, from: u16) -> u16
        ensures counts { self.new.counts.items ≡ self.old.counts.items }
        ensures within { result ≤ 4096 }
        ensures taken { AreTaken self.old.counts.items self.old.full.items from
            → AreTaken self.new.counts.items self.new.full.items result }
        ensures here { result < 4096 → get_or self.new.counts.items result 0 ≡ 0 }
        ensures from { from ≤ 4096 → from ≤ result }
    {
        let block = from / BLOCK;
        if block >= BLOCKS {
            return CPORTS_END;
        }
        for ap in from..(block + 1) * BLOCK {
            if self.count(ap) == 0 {
                return ap;
            }
        }
        self.mark(block, true);
        self.unused_in_blocks(block + 1)
    }

    /// The same from the first CPort of a block. A block that is known to be full is passed over,
    /// and one that was looked through is known to be full.
    fn unused_in_blocks(&mut self, first: u16) -> u16
        ensures counts { self.new.counts.items ≡ self.old.counts.items }
        ensures within { result ≤ 4096 }
        ensures taken { AreTaken self.old.counts.items self.old.full.items (first * 64)
            → AreTaken self.new.counts.items self.new.full.items result }
        ensures here { result < 4096 → get_or self.new.counts.items result 0 ≡ 0 }
        ensures from { first ≤ 64 → first * 64 ≤ result }
    {
        for block in first..BLOCKS {
            if self.is_full(block) {
                continue;
            }
            for ap in block * BLOCK..(block + 1) * BLOCK {
                if self.count(ap) == 0 {
                    return ap;
                }
            }
            self.mark(block, true);
        }
        CPORTS_END
    }

    /// Whether a block is known to be full.
    fn is_full(&self, block: u16) -> bool
        ensures { result ≡ get_or self.now.full.items block false }
    {
        let i = usize::from(block);
        i < self.full.len() && self.full[i]
    }

    /// A block is known to be full, or isn't.
    fn mark(&mut self, block: u16, full: bool)
        ensures counts { self.new.counts.items ≡ self.old.counts.items }
        ensures full { self.new.full.items ≡ set self.old.full.items block full }
        ensures least { self.new.least ≡ self.old.least }
    {
        let i = usize::from(block);
        if i < self.full.len() {
            self.full[i] = full;
        }
    }

    /// How many connections have a CPort.
    fn count(&self, ap: u16) -> u64
        ensures { result ≡ get_or self.now.counts.items ap 0 }
    {
        let i = usize::from(ap);
        if i < self.counts.len() {
            self.counts[i]
        } else {
            0
        }
    }
}
