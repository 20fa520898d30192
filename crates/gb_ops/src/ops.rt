//! The requests of one side of a connection.

ghost use Rattle.std.specs.Prelude.{◌≡◌, IfOk, IsOk, is_none};
ghost use Rattle.gb_ops.specs.Calls.{
  BeginsAs,
  ClosesAs,
  ExpiresAs,
  GivesUpAs,
  RepliesAs,
  emptied,
  no_operations,
};
ghost use Rattle.gb_ops.specs.Finding.{FindsDue, TellsIdle};
ghost use Rattle.gb_ops.specs.Listed.{AllEnded, AllFree, IsLate, IsOpen, Lists};
ghost use Rattle.gb_ops.specs.Operations.{holder_of, next_label, pending_at};

use crate::tables::Tables;
use crate::{BeginFault, Holder, Matched};
use gb_base::{Numbers, OutOfMemory};
use gb_labels::Labels;
use std::alloc::Global;
use std::marker::Model;

/// The requests of one side of a connection that are open, or were given up and not answered yet.
/// The identifier of each is in use.
#[derive(Drop)]
pub struct Ops {
    labels: Labels,
    tables: Tables,
}

impl Model for Ops {
    ghost use Rattle.gb_ops.specs.Operations.{Operations};
    ghost use Rattle.gb_ops.specs.Tables.{Kept};

    ghost Value = { Operations };

    ghost view = { λ o. record {
      holders = o.tables.holders;
      pending = o.tables.pending;
      last = o.labels.last;
    } };

    ghost invariant = { λ o. Kept o.labels o.tables };
}

impl Ops {
    /// No request was begun.
    pub fn new(alloc: Global) -> Result<Ops, OutOfMemory>
        ensures { IfOk result (λ x. x ≡ no_operations) }
    {
        Ok(Ops {
            labels: Labels::new(alloc)?,
            tables: Tables::new(alloc),
        })
    }

    /// Request n is open from now on, and its identifier is answered: the next one. `deadline` is
    /// in milliseconds. Where n was open already its former identifier is free. After each refusal
    /// all is as before.
    #[inline(always)]
    pub fn begin(&mut self, n: u64, deadline: u64) -> Result<u16, BeginFault>
        ensures { BeginsAs self.old self.new n deadline result }
    {
        let Ok(label) = self.labels.next() else {
            return Err(BeginFault::NoLabel);
        };
        let former = match self.tables.enter(label, n, deadline) {
            Ok(former) => former,
            Err(refused) => return Err(BeginFault::Memory(refused)),
        };
        if let Some(former) = former {
            self.tables.release(former.label);
            self.labels.free(former.label);
        }
        self.labels.take(label);
        Ok(label)
    }

    /// No identifier is left.
    pub fn is_spent(&self) -> bool
        ensures { result ≡ is_none (next_label self.now) }
    {
        self.labels.next().is_err()
    }

    /// The request that an answer with an identifier belongs to. The identifier is free then. It
    /// takes no memory.
    #[inline(always)]
    pub fn reply(&mut self, label: u16) -> Matched
        ensures { RepliesAs self.old self.new label result }
    {
        let Some(holder) = self.tables.release(label) else {
            return Matched::Unknown;
        };
        self.labels.free(label);
        if holder.given_up {
            return Matched::Late(holder.number);
        }
        self.tables.leave(holder.number);
        Matched::Open(holder.number)
    }

    /// What an identifier is in use for, None where it isn't in use.
    pub fn holder(&self, label: u16) -> Option<Holder>
        ensures { result ≡ holder_of self.now label }
    {
        self.tables.holder(label)
    }

    /// Gives up request n. Its identifier stays in use until its answer comes. false comes exactly
    /// where n isn't open. It takes no memory.
    pub fn give_up(&mut self, n: u64) -> bool
        ensures { GivesUpAs self.old self.new n result }
    {
        let Some(pending) = self.tables.leave(n) else {
            return false;
        };
        self.tables.mark(pending.label);
        true
    }

    /// No request is open. It takes no memory.
    pub fn is_idle(&self) -> bool
        ensures { TellsIdle (pending_at self.now) result }
    {
        self.tables.is_idle()
    }

    /// The numbers of the open requests, in order. It takes no memory where none is open.
    pub fn unended(&self, alloc: Global) -> Result<Numbers, OutOfMemory>
        ensures lists { IfOk result (λ ns. Lists (IsOpen self.now) ns) }
        ensures few { AllEnded self.now → IsOk result }
    {
        let numbers = self.tables.unended(alloc)?;
        Ok(numbers)
    }

    /// The numbers of the requests that were given up and not answered yet, in order. It takes no
    /// memory where no identifier is in use.
    pub fn late(&self, alloc: Global) -> Result<Numbers, OutOfMemory>
        ensures lists { IfOk result (λ ns. Lists (IsLate self.now) ns) }
        ensures few { AllFree self.now → IsOk result }
    {
        let numbers = self.tables.late(alloc)?;
        Ok(numbers)
    }

    /// The open request with the least number whose deadline came. It answers at once where no
    /// deadline has come of those that were begun since none was open; else it goes over the open
    /// requests in order of number, up to the first whose deadline came, or over all.
    pub fn first_due(&self, now: u64) -> Option<u64>
        ensures { FindsDue (pending_at self.now) now result }
    {
        self.tables.first_due(now)
    }

    /// Gives up the open request with the least number whose deadline came. It takes no memory.
    pub fn expire_one(&mut self, now: u64) -> Option<u64>
        ensures { ExpiresAs self.old self.new now result }
    {
        let n = self.first_due(now)?;
        self.give_up(n);
        Some(n)
    }

    /// Ends the open request with the least number. Where none is open all identifiers are free
    /// then. The last one drawn stays. It takes no memory.
    pub fn close_one(&mut self) -> Option<u64>
        ensures { ClosesAs self.old self.new result }
    {
        let Some(n) = self.tables.first() else {
            self.tables.clear();
            self.labels.free_all();
            return None;
        };
        if let Some(pending) = self.tables.leave(n) {
            self.tables.release(pending.label);
            self.labels.free(pending.label);
        }
        Some(n)
    }

    /// No request was begun, as in new ones. It takes no memory.
    pub fn renew(&mut self)
        ensures { self.new ≡ no_operations }
    {
        self.tables.clear();
        self.labels.renew();
    }

    /// No request is open any more, and all identifiers are free. The last one drawn stays. It
    /// takes no memory.
    pub fn close_all(&mut self)
        ensures { self.new ≡ emptied self.old }
    {
        self.tables.clear();
        self.labels.free_all();
    }
}
