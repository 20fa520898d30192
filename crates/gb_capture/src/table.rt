//! The last requests by their direction and identifier.

ghost use Rattle.std.specs.Prelude.{◌≡◌, ℕ, Bool, None, IfOk, length, replicate};

use gb_base::OutOfMemory;
use std::alloc::Global;

/// How many identifiers there are.
const IDENTIFIERS: usize = 65_536;

/// The last request of its direction with its identifier.
#[derive(Clone, Copy)]
pub struct Asked {
    /// Its line.
    pub line: u32,
    /// Its type.
    pub kind: u8,
    /// A response to it came.
    pub answered: bool,
}

/// The last request of each direction with each identifier.
#[derive(Drop)]
pub struct Table {
    /// Those that the application processor sent.
    sent: Vec<Option<Asked>>,
    /// Those that it took.
    taken: Vec<Option<Asked>>,
    ghost sent_full: { length sent.items ≡ 65536 },
    ghost taken_full: { length taken.items ≡ 65536 },
}

impl Table {
    ghost use Rattle.gb_capture.specs.Tables.{Changes, last_in};

    /// Before the first request. All memory is taken here.
    pub fn new(alloc: Global) -> Result<Table, OutOfMemory>
        ensures { IfOk result (λ t. (from_ap : Bool) → (id : ℕ) → last_in t from_ap id ≡ None) }
    {
        Ok(Table {
            sent: slots(alloc)?,
            taken: slots(alloc)?,
        })
    }

    /// The last request of this direction with this identifier.
    pub fn get(&self, from_ap: bool, id: u16) -> Option<Asked>
        ensures { result ≡ last_in self.now from_ap id }
    {
        if from_ap {
            self.sent[usize::from(id)]
        } else {
            self.taken[usize::from(id)]
        }
    }

    /// The last request of this direction with this identifier is this one from now on.
    pub fn set(&mut self, from_ap: bool, id: u16, asked: Asked)
        ensures { Changes (last_in self.old) (last_in self.new) from_ap id (Some asked) }
    {
        if from_ap {
            self.sent[usize::from(id)] = Some(asked);
        } else {
            self.taken[usize::from(id)] = Some(asked);
        }
    }
}

/// A slot for each identifier, without a request.
fn slots(alloc: Global) -> Result<Vec<Option<Asked>>, OutOfMemory>
    ensures { IfOk result (λ s. s.items ≡ replicate 65536 None) }
{
    let mut slots = Vec::new(alloc);
    slots.resize(IDENTIFIERS, None)?;
    Ok(slots)
}
