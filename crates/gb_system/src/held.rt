//! The requests that are held.

ghost use Rattle.std.specs.Prelude.{◌≡◌, ◌≤◌, [], ◌∷◌, ◌++◌, OnOk};
ghost use Rattle.gb_system.specs.Held.{HoldsAs, TakesAs, held_at};

use gb_base::{Bytes, OutOfMemory};
use gb_bus::Asked;
use std::alloc::Global;
use std::boxed::Box;
use std::collections::{BTreeMap, VecDeque};
use std::marker::Model;

/// A request that was delivered to a module's CPort, and waits to be answered.
#[derive(Drop)]
pub struct HeldRequest {
    /// How to answer it.
    pub asked: Asked,
    /// Its payload.
    pub payload: Bytes,
}

/// A request in a queue of which the middle is taken: what moves up then is small. A contract sees
/// the request.
#[derive(Drop)]
struct Boxed {
    request: Box<HeldRequest>,
}

impl Model for Boxed {
    ghost use Rattle.gb_system.specs.declared.held.HeldRequest.{HeldRequest};

    ghost Value = { HeldRequest };

    ghost view = { λ b. b.request.value };
}

/// The requests that wait to be answered: those of each connection in the order in which
/// they were delivered.
#[derive(Drop)]
pub struct HeldRequests {
    alloc: Global,
    held: BTreeMap<u64, VecDeque<Boxed>>,
}

impl HeldRequests {
    ghost use Rattle.std.specs.Prelude.{ℕ};

    /// Nothing is held.
    pub fn new(alloc: Global) -> HeldRequests
        ensures { (k : ℕ) → held_at result k ≡ [] }
    {
        HeldRequests {
            alloc,
            held: BTreeMap::new(alloc),
        }
    }

    /// One more request is held on a connection.
    pub fn push(&mut self, k: u64, request: HeldRequest) -> Result<(), OutOfMemory>
        ensures { OnOk result (HoldsAs self.old self.new k (held_at self.old k ++ request ∷ [])) }
    {
        let request = Box::new(self.alloc, request)?;
        let boxed = Boxed { request };
        if let Some(requests) = self.held.get_mut(&k) {
            requests.push_back(boxed)?;
            return Ok(());
        }
        let mut first = VecDeque::new(self.alloc);
        first.push_back(boxed)?;
        self.held.insert(k, first)?;
        Ok(())
    }

    /// Takes the request at a place, from 1, among those of a connection, the oldest being the
    /// first. None comes where fewer are held there, and then nothing is taken.
    pub fn take(&mut self, k: u64, place: u32) -> Option<HeldRequest>
        requires { 1 ≤ place }
        ensures { TakesAs self.old self.new k place result }
    {
        let requests = self.held.get_mut(&k)?;
        let boxed = requests.remove((place - 1) as usize)?;
        Some(Box::into_inner(boxed.request))
    }

    /// What is held on a connection is lost.
    pub fn forget(&mut self, k: u64)
        ensures { HoldsAs self.old self.new k [] }
    {
        self.held.remove(&k);
    }
}
