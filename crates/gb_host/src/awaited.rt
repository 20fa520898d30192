//! The connections by the requests that they wait for.

ghost use Rattle.std.specs.Prelude.{◌≡◌, ◌∷◌, [], ◌++◌, true, List, Some, find, option_map};
ghost use Rattle.gb_base.specs.declared.interface.Link.{Link};
ghost use Rattle.gb_base.specs.declared.steps.SequenceStep.{SequenceStep};
ghost use Rattle.gb_host.specs.Awaited.{waits_for};
ghost use Rattle.gb_host.specs.Changes.{link_awaits};

use gb_base::{Link, SequenceStep};
use std::alloc::Global;
use std::collections::HashMap;

/// The number of the connection that waits for each request. One waits at most.
#[derive(Drop)]
pub struct Awaited {
    connections: HashMap<u64, u64>,
}

impl Awaited {
    ghost use Rattle.gb_host.specs.Awaited.{AreAwaited};

    /// No connection waits. It takes no memory yet.
    pub fn new(alloc: Global) -> Awaited
        ensures { AreAwaited result [] }
    {
        Awaited {
            connections: HashMap::new(alloc),
        }
    }

    /// The number of the connection that waits for a request.
    #[inline]
    pub fn of(&self, request: u64) -> Option<u64>
        ensures { (ls : List Link) → AreAwaited self.now ls
            → result ≡ option_map (λ l. l.connection) (find (waits_for request) ls) }
    {
        if self.connections.is_empty() {
            return None;
        }
        self.connections.get(&request).copied()
    }

    /// A connection waits for this from now on, where nothing else waits for the same request and
    /// memory is found. Nothing is said at false.
    pub fn change(&mut self, link: Link, awaits: Option<(u64, SequenceStep)>) -> bool
        ensures { (front behind : List Link) → AreAwaited self.old (front ++ link ∷ behind)
            → result ≡ true → AreAwaited self.new (front ++ link_awaits awaits link ∷ behind) }
    {
        self.leave(link);
        match awaits {
            Some((request, _)) => self.come(request, link.connection),
            None => true,
        }
    }

    /// A connection is there no more, or waits for nothing.
    pub fn leave(&mut self, link: Link)
        ensures { (front behind : List Link) → AreAwaited self.old (front ++ link ∷ behind)
            → AreAwaited self.new (front ++ behind) }
    {
        if let Some((request, _)) = link.awaits {
            self.connections.remove(&request);
        }
    }

    /// A connection more waits for a request, where nothing else does and memory is found. Nothing
    /// is said at false.
    fn come(&mut self, request: u64, connection: u64) -> bool
        ensures { (front behind : List Link) (l : Link) (step : SequenceStep)
            → l.connection ≡ connection → l.awaits ≡ Some (request, step)
            → AreAwaited self.old (front ++ behind) → result ≡ true
            → AreAwaited self.new (front ++ l ∷ behind) }
    {
        matches!(self.connections.insert(request, connection), Ok(None))
    }
}
