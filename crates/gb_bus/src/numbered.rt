//! The live connections by number.

ghost use Rattle.std.specs.Prelude.{◌≡◌, IfOk, IfSome, nat_eq, option_copied, true};
ghost use Rattle.std.specs.Borrow.{sem};
ghost use Rattle.std.specs.Option.{option_copied_mut};
ghost use Rattle.std.specs.Map.{keys_of};
ghost use Rattle.indexmap.specs.IndexMap.{IsUnique, get};
ghost use Rattle.gb_bus.specs.Seen.{by_number};

use crate::connection::Connection;
use crate::listing::in_order;
use gb_base::{End, Numbers, OutOfMemory, Side};
use indexmap::IndexMap;
use std::alloc::Global;
use std::collections::BTreeSet;

/// The live connections by number. The last one takes the place of one that is removed.
#[derive(Drop)]
pub struct Numbered {
    pub map: IndexMap<u64, Connection>,
}

impl Numbered {
    ghost use Rattle.gb_bus.specs.Numbered.{HasSide, IsPlaced, LendsAt, StandsAt};

    /// The connection with a number, None where it isn't live.
    #[inline]
    pub fn get(&self, k: u64) -> Option<&Connection>
        ensures { option_copied result ≡ get nat_eq self.now.map k }
    {
        let (_, connection) = self.map.get_index(self.place(k)?)?;
        Some(connection)
    }

    /// The same, which can be changed. No other changes.
    #[inline]
    pub fn get_mut(&mut self, k: u64) -> Option<&mut Connection>
        ensures* changes { sem 𝓛 (LendsAt self.entry k result) }
        ensures value { option_copied_mut result ≡ get nat_eq self.old.map k }
    {
        let place = self.place(k)?;
        self.map.get_index_mut(place)
    }

    /// The numbers of all, in order.
    pub fn numbers(&self, alloc: Global) -> Result<Numbers, OutOfMemory>
        ensures { IfOk result (λ ns. IsUnique nat_eq self.now.map
            → ns ≡ keys_of (by_number self.now.map.entries)) }
    {
        let mut found = BTreeSet::new(alloc);
        for (number, _) in &self.map {
            found.insert(*number)?;
        }
        let numbers = in_order(alloc, &found)?;
        Ok(numbers)
    }

    /// The place of the connection with a number, None where it isn't live.
    #[inline]
    fn place(&self, k: u64) -> Option<usize>
        ensures { IsPlaced self.now.map k result }
    {
        let counted = k.wrapping_sub(1) as usize;
        if self.stands_at(k, counted) {
            return Some(counted);
        }
        let (at, _, _) = self.map.get_full(&k)?;
        Some(at)
    }

    /// The connection with a number stands at a place: at its number, counted from 1, where none
    /// that was made before it is gone. Nothing is said at false.
    #[inline]
    fn stands_at(&self, k: u64, at: usize) -> bool
        ensures { result ≡ true → StandsAt self.now.map k at }
    {
        match self.map.get_index(at) {
            Some((number, _)) => *number == k,
            None => false,
        }
    }

    /// The connection that has an end, and the side at which the end stands, where it is wired and
    /// stands at the number that its CPort of the application processor has too. So it does in a run
    /// where none that was made before it is gone. Nothing is said at None.
    #[inline]
    pub fn counted(&self, at: End) -> Option<(u64, Side)>
        ensures { IfSome result (λ found. HasSide self.now.map found.0 at found.1) }
    {
        let counted = match at {
            End::Svc => 0,
            End::Ap(ap) => usize::from(ap),
            End::Module { .. } => return None,
        };
        let (number, connection) = self.map.get_index(counted)?;
        let side = connection.side_at(at)?;
        Some((*number, side))
    }
}
