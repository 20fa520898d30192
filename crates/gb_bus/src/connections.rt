//! The live connections.

ghost use Rattle.std.specs.Prelude.{
  ◌≡◌,
  [],
  ◌∷◌,
  OnOk,
  IfOk,
  OnErr,
  false,
  true,
};
ghost use Rattle.gb_bus.specs.Ends.{is_far};
ghost use Rattle.gb_bus.specs.Seen.{connection_before};
ghost use Rattle.gb_machine.specs.Lists.{at_first, in_order, without};
ghost use Rattle.gb_bus.specs.Parts.{
  cleared,
  closed,
  is_taken,
  new_connection,
  numbered,
  put,
  soiled,
  svc,
  with_wire,
};

use crate::connection::Draft;
use crate::ends::other_side;
use crate::numbered::Numbered;
use crate::queue::{Item, ask_item};
use crate::spare::Spare;
use crate::{SendFault, end_numbers, interface_numbers};
use gb_base::{End, OutOfMemory, Side};
use gb_groups::Groups;
use gb_ops::Matched;
use gb_payload::protocols::SVC;
use gb_switch::{Place, Waiting};
use indexmap::IndexMap;
use std::alloc::Global;
use std::collections::HashMap;
use std::marker::Model;

/// The live connections, with what waits on them. A contract sees them in order of number.
#[derive(Drop)]
pub struct Connections {
    /// By number.
    pub(crate) live: Numbered,
    /// The number of the one that has an end.
    pub(crate) ends: HashMap<Place, u64>,
    /// The numbers of those whose far ends are at an interface, by interface.
    pub(crate) grouped: Groups,
    /// The ends where something waits.
    pub(crate) waiting: Waiting,
    /// Those that are there no more.
    pub(crate) spare: Spare,
}

impl Model for Connections {
    ghost use Rattle.std.specs.Prelude.{List};
    ghost use Rattle.gb_bus.specs.Connection.{Connection};

    ghost Value = { List Connection };

    ghost use Rattle.gb_bus.specs.Index.{AreKept};
    ghost use Rattle.gb_bus.specs.Seen.{seen_in_order};

    ghost view = { λ c. seen_in_order c.live.map.entries };

    ghost invariant = { λ c. AreKept c.live.map c.ends c.waiting c.grouped };
}

impl Connections {
    ghost use Rattle.gb_bus.specs.Parts.{TakesFrontAs};
    ghost use Rattle.gb_bus.specs.Sides.{AsksIn, GivesUpIn, MatchesIn, RespondsIn};

    /// The connection of the supervisory controller alone, open for ever.
    pub fn new(alloc: Global) -> Result<Connections, OutOfMemory>
        ensures { IfOk result (λ x. x ≡ svc ∷ []) }
    {
        let mut connections = Connections::none(alloc)?;
        connections.add(alloc, 1, 0, End::Svc, SVC)?;
        connections.wire(1);
        Ok(connections)
    }

    /// There is none.
    fn none(alloc: Global) -> Result<Connections, OutOfMemory>
        ensures { IfOk result (λ x. x ≡ []) }
    {
        let grouped = Groups::new(alloc)?;
        Ok(Connections {
            live: Numbered {
                map: IndexMap::new(alloc),
            },
            ends: HashMap::new(alloc),
            grouped,
            waiting: Waiting::new(alloc),
            spare: Spare::new(alloc),
        })
    }

    /// Adds a connection where its number belongs. After want of memory all is as before.
    pub fn add(
        &mut self,
        alloc: Global,
        number: u64,
        ap: u16,
        peer: End,
        protocol: u8,
    ) -> Result<(), OutOfMemory>
        requires far { is_far peer ≡ true }
        requires free { is_taken number ap peer self.old ≡ false }
        ensures added { OnOk result
            (self.new ≡ in_order connection_before (new_connection number ap peer protocol)
            self.old) }
        ensures unchanged { OnErr result (self.new ≡ self.old) }
    {
        let near = End::Ap(ap);
        let connection = self.spare.take(alloc, ap, peer, protocol)?;
        interface_numbers::add(&mut self.grouped, peer, number)?;
        if let Err(refused) = end_numbers::set(&mut self.ends, near, peer, number) {
            interface_numbers::remove(&mut self.grouped, peer, number);
            return Err(refused);
        }
        match self.live.map.insert(number, connection) {
            Ok(former) => {
                drop(former);
                Ok(())
            }
            Err(refused) => {
                end_numbers::unset(&mut self.ends, near, peer);
                interface_numbers::remove(&mut self.grouped, peer, number);
                Err(OutOfMemory::from(refused))
            }
        }
    }

    /// A connection is wired.
    pub fn wire(&mut self, k: u64)
        ensures { self.new ≡ at_first (numbered k) with_wire self.old }
    {
        let Some(connection) = self.live.get_mut(k) else {
            return;
        };
        connection.wire();
    }

    /// A connection isn't wired any more, what waited in its queues is lost, and all identifiers of
    /// its far side are free.
    pub fn unwire(&mut self, k: u64)
        ensures { self.new ≡ at_first (numbered k) cleared self.old }
    {
        let Some(connection) = self.live.get_mut(k) else {
            return;
        };
        connection.clear(&mut self.waiting);
    }

    /// The application processor's side of a connection is closed, and all its
    /// identifiers are free.
    pub fn shut(&mut self, k: u64)
        ensures { self.new ≡ at_first (numbered k) closed self.old }
    {
        let Some(connection) = self.live.get_mut(k) else {
            return;
        };
        connection.shut();
    }

    /// Raw bytes were injected on a connection.
    pub fn soil(&mut self, k: u64)
        ensures { self.new ≡ at_first (numbered k) soiled self.old }
    {
        let Some(connection) = self.live.get_mut(k) else {
            return;
        };
        connection.soil();
    }

    /// A connection is there no more.
    pub fn remove(&mut self, k: u64)
        ensures { self.new ≡ without (numbered k) self.old }
    {
        let Some(mut connection) = self.live.map.swap_remove(&k) else {
            return;
        };
        end_numbers::unset(&mut self.ends, End::Ap(connection.ap), connection.peer);
        interface_numbers::remove(&mut self.grouped, connection.peer, k);
        connection.lose(&mut self.waiting);
        self.spare.keep(connection);
    }

    /// A request of a side of a connection is open from now on, unless it is unidirectional, and
    /// waits toward the other side. Its identifier is answered, and whether it is lost, since the
    /// connection isn't wired. Where it isn't live, and where no identifier is left, nothing
    /// changes.
    #[inline]
    pub fn ask(
        &mut self,
        alloc: Global,
        k: u64,
        draft: &Draft<'_>,
    ) -> Result<(u16, bool), SendFault>
        ensures { AsksIn self.old self.new k draft.now.side draft.now.number draft.now.kind
            draft.now.payload.now draft.now.deadline draft.now.oneway result }
    {
        let Some(connection) = self.live.get_mut(k) else {
            return Err(SendFault::NoConnection);
        };
        let label = connection.label_for(draft)?;
        if !connection.wired {
            return Ok((label, true));
        }
        let item = ask_item(alloc, draft, label)?;
        connection.push(other_side(draft.side), item, &mut self.waiting)?;
        Ok((label, false))
    }

    /// What an answer with an identifier comes to on a side of a connection: to request `number`,
    /// or to whichever has the identifier. The identifier is free then. Unknown comes where it
    /// isn't in use there, or not for that request.
    #[inline]
    pub fn matched(&mut self, k: u64, side: Side, number: Option<u64>, label: u16) -> Matched
        ensures { MatchesIn self.old self.new k side number label result }
    {
        let Some(connection) = self.live.get_mut(k) else {
            return Matched::Unknown;
        };
        connection.matched(side, number, label)
    }

    /// What a response to request `number` comes to on a side of a connection, and before that
    /// whether the connection is unclean: then it goes by its identifier alone. The identifier is
    /// free then.
    #[inline]
    pub fn responded(&mut self, k: u64, side: Side, number: u64, label: u16) -> (bool, Matched)
        ensures { RespondsIn self.old self.new k side number label result }
    {
        let Some(connection) = self.live.get_mut(k) else {
            return (false, Matched::Unknown);
        };
        connection.responded(side, number, label)
    }

    /// Request n of a side of a connection is given up, where it is open. Its identifier
    /// stays in use.
    pub fn give_up(&mut self, k: u64, side: Side, n: u64)
        ensures { GivesUpIn self.old self.new k side n }
    {
        let Some(connection) = self.live.get_mut(k) else {
            return;
        };
        connection.give_up(side, n);
    }

    /// Adds a message to the queue toward a side of a connection. It is lost where the connection
    /// isn't wired.
    #[inline(always)]
    pub fn push(&mut self, k: u64, side: Side, item: Item) -> Result<(), OutOfMemory>
        ensures { OnOk result (self.new ≡ at_first (numbered k) (put side item) self.old) }
    {
        let Some(connection) = self.live.get_mut(k) else {
            drop(item);
            return Ok(());
        };
        connection.push(side, item, &mut self.waiting)?;
        Ok(())
    }

    /// Takes the front message toward a side of a connection.
    #[inline(always)]
    pub fn pop(&mut self, k: u64, side: Side) -> Option<Item>
        ensures { TakesFrontAs self.old self.new k side result }
    {
        let connection = self.live.get_mut(k)?;
        connection.pop(side, &mut self.waiting)
    }
}
