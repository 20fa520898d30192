//! A live connection.

ghost use Rattle.std.specs.Prelude.{◌≡◌, IfOk, OnOk, is_none, length, true};
ghost use Rattle.gb_bus.specs.Ends.{is_far};
ghost use Rattle.gb_bus.specs.Index.{IsMarked, Remarks};
ghost use Rattle.gb_bus.specs.Parts.{
  cleared,
  TakesFront,
  closed,
  idled,
  end_at,
  is_wired_to,
  joins,
  new_connection,
  next_of,
  ops_of,
  put,
  queue_of,
  side_at,
  soiled,
  with_wire,
};
ghost use Rattle.gb_bus.specs.Seen.{seen};
ghost use Rattle.gb_bus.specs.Sides.{BeginsOn, HasEndsOf, GivesUpOn, LabelsOn};
ghost use Rattle.gb_bus.specs.Sides.{MatchesAs, MatchesOn, RespondsOn, is_other};
ghost use Rattle.gb_bus.specs.Overview.{known_as};

use crate::queue::Item;
use crate::{Known, SendFault};
use gb_base::{End, OutOfMemory, Side};
use gb_ops::{BeginFault, Matched, Ops};
use gb_switch::{Place, Queue, Waiting};
use std::alloc::Global;

/// A request that a side of a connection is to make.
#[derive(Clone, Copy)]
pub struct Draft<'a> {
    /// The side.
    pub side: Side,
    /// Its number.
    pub number: u64,
    /// Its type.
    pub kind: u8,
    /// Its payload.
    pub payload: &'a [u8],
    /// When it times out, in milliseconds.
    pub deadline: u64,
    /// It is unidirectional.
    pub oneway: bool,
}

/// A connection between a CPort of the application processor and a far end.
#[derive(Drop)]
pub struct Connection {
    /// The CPort of the application processor.
    pub ap: u16,
    /// The far end.
    pub peer: End,
    /// The protocol that is spoken on it.
    pub protocol: u8,
    /// It is wired.
    pub wired: bool,
    /// No raw bytes were injected.
    pub clean: bool,
    /// The side of the application processor is closed.
    pub shut: bool,
    /// The requests of the application processor's side whose identifiers are in use.
    pub ap_ops: Ops,
    /// Those of the far side.
    pub far_ops: Ops,
    /// What waits at the CPort of the application processor.
    pub to_ap: Queue<Item>,
    /// What waits at the far end.
    pub to_far: Queue<Item>,
}

impl Connection {
    /// A connection that isn't wired, on which nothing was drawn.
    pub fn new(alloc: Global, ap: u16, peer: End, protocol: u8) -> Result<Connection, OutOfMemory>
        ensures { IfOk result (λ x. seen 0 x ≡ new_connection 0 ap peer protocol) }
    {
        Ok(Connection {
            ap,
            peer,
            protocol,
            wired: false,
            clean: true,
            shut: false,
            ap_ops: Ops::new(alloc)?,
            far_ops: Ops::new(alloc)?,
            to_ap: Queue::new(alloc),
            to_far: Queue::new(alloc),
        })
    }

    /// A connection that is there no more becomes another, as a new one. It takes no memory: that
    /// of its lists is used again.
    pub fn renewed(self, ap: u16, peer: End, protocol: u8) -> Connection
        ensures { seen 0 result ≡ new_connection 0 ap peer protocol }
    {
        let mut connection = self;
        connection.ap = ap;
        connection.peer = peer;
        connection.protocol = protocol;
        connection.wired = false;
        connection.clean = true;
        connection.shut = false;
        connection.ap_ops.renew();
        connection.far_ops.renew();
        connection.to_ap.renew();
        connection.to_far.renew();
        connection
    }

    /// It is wired, to a module at an interface.
    pub fn is_wired_to(&self, intf: u8) -> bool
        ensures { result ≡ is_wired_to intf (seen 0 self.now) }
    {
        match self.peer {
            End::Module { intf: at, .. } => self.wired && at == intf,
            End::Ap(_) | End::Svc => false,
        }
    }

    /// It is that of a CPort of the application processor with a far end.
    pub fn joins(&self, ap: u16, peer: End) -> bool
        ensures { result ≡ joins ap peer (seen 0 self.now) }
    {
        self.ap == ap && self.peer == peer
    }

    /// The requests of a side whose identifiers are in use.
    #[inline]
    pub fn ops(&self, side: Side) -> &Ops
        ensures { result.now ≡ ops_of side (seen 0 self.now) }
    {
        match side {
            Side::Ap => &self.ap_ops,
            Side::Far => &self.far_ops,
        }
    }

    /// All identifiers of a side are in use.
    #[inline]
    pub fn is_spent(&self, side: Side) -> bool
        ensures { result ≡ is_none (next_of side (seen 0 self.now)) }
    {
        match side {
            Side::Ap => self.ap_ops.is_spent(),
            Side::Far => self.far_ops.is_spent(),
        }
    }

    /// Request n of a side is open from now on, and its identifier is answered. After NoLabel all
    /// is as before.
    #[inline]
    fn begin(&mut self, side: Side, n: u64, deadline: u64) -> Result<u16, BeginFault>
        ensures begun { BeginsOn (seen 0 self.old) (seen 0 self.new) side n deadline result }
        ensures ends { HasEndsOf (seen 0 self.old) (seen 0 self.new) }
    {
        match side {
            Side::Ap => self.ap_ops.begin(n, deadline),
            Side::Far => self.far_ops.begin(n, deadline),
        }
    }

    /// The identifier of a request, which is open from now on: 0 where it is unidirectional. After
    /// NoLabel all is as before.
    #[inline]
    pub fn label_for(&mut self, draft: &Draft<'_>) -> Result<u16, SendFault>
        ensures labels { LabelsOn (seen 0 self.old) (seen 0 self.new) draft.now.side
            draft.now.number draft.now.deadline draft.now.oneway result }
        ensures ends { HasEndsOf (seen 0 self.old) (seen 0 self.new) }
    {
        if draft.oneway {
            return Ok(0);
        }
        match self.begin(draft.side, draft.number, draft.deadline) {
            Ok(label) => Ok(label),
            Err(BeginFault::NoLabel) => Err(SendFault::NoLabel),
            Err(BeginFault::Memory(refused)) => Err(SendFault::Memory(refused)),
        }
    }

    /// What an answer with an identifier comes to on a side: to request `number`, or to whichever
    /// has the identifier. The identifier is free then. Unknown comes where the identifier isn't in
    /// use, or not for that request, which was over when its side was closed.
    #[inline]
    pub fn matched(&mut self, side: Side, number: Option<u64>, label: u16) -> Matched
        ensures { MatchesOn (seen 0 self.old) (seen 0 self.new) side number label result }
    {
        match side {
            Side::Ap => matched(&mut self.ap_ops, number, label),
            Side::Far => matched(&mut self.far_ops, number, label),
        }
    }

    /// What a response to request `number` comes to on a side, and before that whether raw bytes
    /// were injected: then it goes by its identifier alone.
    #[inline]
    pub fn responded(&mut self, side: Side, number: u64, label: u16) -> (bool, Matched)
        ensures { RespondsOn (seen 0 self.old) (seen 0 self.new) side number label result }
    {
        if self.clean {
            (false, self.matched(side, Some(number), label))
        } else {
            (true, self.matched(side, None, label))
        }
    }

    /// Request n of a side is given up, where it is open. Its identifier stays in use.
    pub fn give_up(&mut self, side: Side, n: u64)
        ensures { GivesUpOn (seen 0 self.old) (seen 0 self.new) side n }
    {
        match side {
            Side::Ap => self.ap_ops.give_up(n),
            Side::Far => self.far_ops.give_up(n),
        };
    }

    /// It is wired.
    pub fn wire(&mut self)
        ensures { seen 0 self.new ≡ with_wire (seen 0 self.old) }
    {
        self.wired = true;
    }

    /// Raw bytes were injected.
    pub fn soil(&mut self)
        ensures { seen 0 self.new ≡ soiled (seen 0 self.old) }
    {
        self.clean = false;
    }

    /// It isn't wired any more, what waits at its ends is lost, and all identifiers of the far side
    /// are free.
    pub fn clear(&mut self, waiting: &mut Waiting)
        requires { is_far self.old.peer ≡ true }
        ensures cleared { seen 0 self.new ≡ cleared (seen 0 self.old) }
        ensures marks { Remarks waiting.old waiting.new self.old self.new }
    {
        self.lose(waiting);
        self.wired = false;
        self.far_ops.close_all();
    }

    /// What waits at its ends is lost.
    pub fn lose(&mut self, waiting: &mut Waiting)
        requires { is_far self.old.peer ≡ true }
        ensures lost { seen 0 self.new ≡ idled (seen 0 self.old) }
        ensures marks { Remarks waiting.old waiting.new self.old self.new }
    {
        self.to_ap.clear(Place::of(End::Ap(self.ap)), waiting);
        self.to_far.clear(Place::of(self.peer), waiting);
    }

    /// The application processor's side is closed, and all its identifiers are free.
    pub fn shut(&mut self)
        ensures { seen 0 self.new ≡ closed (seen 0 self.old) }
    {
        self.shut = true;
        self.ap_ops.close_all();
    }

    /// Adds a message to the queue toward a side. It is lost where the connection isn't wired, and
    /// for want of memory, which leaves all else as before.
    #[inline(always)]
    pub fn push(&mut self, side: Side, item: Item, waiting: &mut Waiting) -> Result<(), OutOfMemory>
        requires far { is_far self.old.peer ≡ true }
        requires marked { IsMarked waiting.old self.old }
        ensures put { OnOk result (seen 0 self.new ≡ put side item (seen 0 self.old)) }
        ensures marks { Remarks waiting.old waiting.new self.old self.new }
    {
        if !self.wired {
            drop(item);
            return Ok(());
        }
        let at = Place::of(self.end(side));
        match side {
            Side::Ap => self.to_ap.push(item, at, waiting),
            Side::Far => self.to_far.push(item, at, waiting),
        }
    }

    /// Takes the front message of the queue toward a side.
    #[inline(always)]
    pub fn pop(&mut self, side: Side, waiting: &mut Waiting) -> Option<Item>
        requires far { is_far self.old.peer ≡ true }
        requires marked { IsMarked waiting.old self.old }
        ensures taken { TakesFront (seen 0 self.old) (seen 0 self.new) side result }
        ensures marks { Remarks waiting.old waiting.new self.old self.new }
    {
        let at = Place::of(self.end(side));
        match side {
            Side::Ap => self.to_ap.pop(at, waiting),
            Side::Far => self.to_far.pop(at, waiting),
        }
    }

    /// How many messages wait toward a side.
    pub fn count(&self, side: Side) -> u64
        ensures { result ≡ length (queue_of side (seen 0 self.now)) }
    {
        match side {
            Side::Ap => self.to_ap.len(),
            Side::Far => self.to_far.len(),
        }
    }

    /// The end at a side.
    #[inline]
    pub fn end(&self, side: Side) -> End
        ensures { result ≡ end_at side (seen 0 self.now) }
    {
        match side {
            Side::Ap => End::Ap(self.ap),
            Side::Far => self.peer,
        }
    }

    /// The side at which an end stands, None where it isn't wired or has no such end.
    #[inline]
    pub fn side_at(&self, at: End) -> Option<Side>
        ensures { result ≡ side_at at (seen 0 self.now) }
    {
        if !self.wired {
            return None;
        }
        if at == End::Ap(self.ap) {
            Some(Side::Ap)
        } else if at == self.peer {
            Some(Side::Far)
        } else {
            None
        }
    }

    /// What is told of it. It has this number.
    pub fn known(&self, number: u64) -> Known
        ensures { result ≡ known_as (seen number self.now) }
    {
        Known {
            number,
            ap: self.ap,
            peer: self.peer,
            protocol: self.protocol,
            clean: self.clean,
        }
    }
}

/// What an answer with an identifier comes to on one side.
#[inline(always)]
fn matched(ops: &mut Ops, number: Option<u64>, label: u16) -> Matched
    ensures { MatchesAs ops.old ops.new number label result }
{
    let Some(holder) = ops.holder(label) else {
        return Matched::Unknown;
    };
    if is_other(number, holder.number) {
        return Matched::Unknown;
    }
    ops.reply(label)
}

/// A request isn't the one that is asked for.
#[inline]
fn is_other(number: Option<u64>, n: u64) -> bool
    ensures { result ≡ is_other number n }
{
    match number {
        Some(asked) => asked != n,
        None => false,
    }
}
