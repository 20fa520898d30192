//! What is looked up of the live connections.

ghost use Rattle.std.specs.Prelude.{
  ◌≡◌,
  IfOk,
  is_none,
  length,
  map,
  option_copied,
  option_map,
  find,
  true,
};
ghost use Rattle.std.specs.List.{filter, list_any};
ghost use Rattle.gb_machine.specs.Lists.{holds_of};
ghost use Rattle.gb_bus.specs.Ends.{is_far};
ghost use Rattle.gb_bus.specs.Overview.{count_at, known_as, waiting_in};
ghost use Rattle.gb_bus.specs.Parts.{
  earliest_in,
  ends_in,
  is_taken,
  is_wired_to,
  joins,
  next_in,
  numbered,
  ops_of,
  place_at,
  queue_of,
};

use crate::connections::Connections;
use crate::{Known, Waiting};
use gb_base::{End, Numbers, OutOfMemory, Sequence, Side};
use gb_ops::Ops;
use gb_switch::Place;
use std::alloc::Global;

impl Connections {
    /// A live connection has a number, a CPort of the application processor or a far end.
    pub fn is_taken(&self, number: u64, ap: u16, peer: End) -> bool
        requires far { is_far peer ≡ true }
        ensures { result ≡ is_taken number ap peer self.now }
    {
        if self.live.map.contains_key(&number) {
            return true;
        }
        if self.ends.contains_key(&Place::of(End::Ap(ap))) {
            return true;
        }
        self.ends.contains_key(&Place::of(peer))
    }

    /// Whether the live connection with a number is wired. None comes where it isn't live.
    #[inline]
    pub fn wired(&self, k: u64) -> Option<bool>
        ensures { result ≡ option_map (λ c. c.wired) (find (numbered k) self.now) }
    {
        Some(self.live.get(k)?.wired)
    }

    /// The ends of the live connection with a number.
    #[inline]
    pub fn ends(&self, k: u64) -> Option<(u16, End)>
        ensures { result ≡ option_map ends_in (find (numbered k) self.now) }
    {
        let connection = self.live.get(k)?;
        Some((connection.ap, connection.peer))
    }

    /// The requests of a side of the live connection with a number whose identifiers are in use.
    pub fn ops(&self, k: u64, side: Side) -> Option<&Ops>
        ensures { option_copied result
            ≡ option_map (ops_of side) (find (numbered k) self.now) }
    {
        let connection = self.live.get(k)?;
        Some(connection.ops(side))
    }

    /// No identifier is left on a side of a connection, or it isn't live.
    #[inline(always)]
    pub fn is_spent(&self, k: u64, side: Side) -> bool
        ensures { result ≡ is_none (next_in k side self.now) }
    {
        match self.live.get(k) {
            Some(connection) => connection.is_spent(side),
            None => true,
        }
    }

    /// How many messages wait toward a side of the live connection with a number.
    pub fn count(&self, k: u64, side: Side) -> Option<u64>
        ensures { result
            ≡ option_map (λ c. length (queue_of side c)) (find (numbered k) self.now) }
    {
        let connection = self.live.get(k)?;
        Some(connection.count(side))
    }

    /// The number of the connection of a CPort of the application processor with a module's.
    pub fn joining(&self, ap: u16, peer: End) -> Option<u64>
        ensures { result ≡ option_map (λ c. c.number) (find (joins ap peer) self.now) }
    {
        let number = *self.ends.get(&Place::of(End::Ap(ap)))?;
        let connection = self.live.get(number)?;
        if connection.joins(ap, peer) {
            Some(number)
        } else {
            None
        }
    }

    /// Some connection is wired to a module at an interface.
    pub fn is_wired_to(&self, intf: u8) -> bool
        ensures { result ≡ list_any (is_wired_to intf) self.now }
    {
        for number in self.grouped.of(intf) {
            if self.wires_to(*number, intf) {
                return true;
            }
        }
        false
    }

    /// The numbers of those that are wired to a module at an interface, in order.
    pub fn wired_to(&self, alloc: Global, intf: u8) -> Result<Numbers, OutOfMemory>
        ensures { IfOk result
            (λ ns. ns ≡ map (λ c. c.number) (filter (is_wired_to intf) self.now)) }
    {
        let mut numbers = Numbers::new(alloc);
        for number in self.grouped.of(intf) {
            if self.wires_to(*number, intf) {
                numbers.push(*number)?;
            }
        }
        Ok(numbers)
    }

    /// The connection with a number is wired to a module at an interface.
    fn wires_to(&self, k: u64, intf: u8) -> bool
        ensures { result ≡ holds_of (is_wired_to intf) (find (numbered k) self.now) }
    {
        match self.live.get(k) {
            Some(connection) => connection.is_wired_to(intf),
            None => false,
        }
    }

    /// The wired connection that names an end, and the side at which the end stands.
    #[inline(always)]
    pub fn place(&self, at: End) -> Option<(u64, Side)>
        ensures { result ≡ place_at at self.now }
    {
        if let Some(found) = self.live.counted(at) {
            return Some(found);
        }
        let number = *self.ends.get(&Place::of(at))?;
        let side = self.live.get(number)?.side_at(at)?;
        Some((number, side))
    }

    /// The first end at which something waits.
    pub fn first(&self) -> Option<End>
        ensures { result ≡ earliest_in self.now }
    {
        let place = self.waiting.first()?;
        Some(place.end())
    }

    /// What is told of each, in order.
    pub fn known(&self, alloc: Global) -> Result<Sequence<Known>, OutOfMemory>
        ensures { IfOk result (λ ks. ks ≡ map known_as self.now) }
    {
        let numbers = self.live.numbers(alloc)?;
        let mut known = Sequence::new(alloc);
        for number in numbers.items() {
            if let Some(told) = self.known_at(*number) {
                known.push(told)?;
            }
        }
        Ok(known)
    }

    /// What is told of the connection with a number.
    fn known_at(&self, k: u64) -> Option<Known>
        ensures { result ≡ option_map known_as (find (numbered k) self.now) }
    {
        Some(self.live.get(k)?.known(k))
    }

    /// The ends at which something waits, in the order in which queues are settled.
    pub fn waiting(&self, alloc: Global) -> Result<Sequence<Waiting>, OutOfMemory>
        ensures { IfOk result (λ ws. ws ≡ waiting_in self.now) }
    {
        let ends = self.waiting.ends(alloc)?;
        let mut waiting = Sequence::new(alloc);
        for at in ends.items() {
            waiting.push(Waiting {
                at: *at,
                count: self.count_at(*at),
            })?;
        }
        Ok(waiting)
    }

    /// How many messages wait at an end: none where no wired connection names it.
    fn count_at(&self, at: End) -> u64
        ensures { result ≡ count_at self.now at }
    {
        let Some((k, side)) = self.place(at) else {
            return 0;
        };
        match self.count(k, side) {
            Some(count) => count,
            None => 0,
        }
    }
}
