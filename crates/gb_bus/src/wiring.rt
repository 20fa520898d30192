//! The bus: which connections there are, and what waits on them.

ghost use Rattle.std.specs.Prelude.{◌≡◌, ◌||◌, ◌++◌, []};
ghost use Rattle.std.specs.Prelude.{IfOk, IsOk, OnOk, OnErr, option_map, is_none};
ghost use Rattle.std.specs.List.{list_any};
ghost use Rattle.gb_base.specs.declared.end.Side.TheVariants as side;
ghost use Rattle.gb_machine.specs.Bus as machine;
ghost use Rattle.gb_machine.specs.Bus.{connection_of, place_of};
ghost use Rattle.gb_machine.specs.Labels.{next_label};
ghost use Rattle.gb_machine.specs.Plugging.{wired_numbers};
ghost use Rattle.gb_machine.specs.Requests.{is_idle};
ghost use Rattle.gb_machine.specs.Sending.{is_wired};
ghost use Rattle.gb_machine.specs.Waiting.{first_waiting};
ghost use Rattle.gb_machine.specs.Wiring.{
  detached,
  is_wired_to,
  joining,
  shut_down,
  unwired,
  wired,
};

use crate::{AttachFault, Bus};
use gb_base::{End, Numbers, OutOfMemory, Side, sum};

impl Bus {
    ghost use Rattle.gb_bus.specs.Listing.{AreThose};
    ghost use Rattle.gb_bus.specs.Slots.{is_late_on, is_open_on, slot_at};
    ghost use Rattle.gb_bus.specs.Stands.{Around, Stands};
    ghost use Rattle.gb_bus.specs.Wiring.{
      AttachesAs,
      EndsAs,
      IsQuiet,
      MayAttach,
      TakenAs,
      count_at,
      elsewhere,
      ends_of,
      number_of,
    };

    /// Makes a connection of a CPort of the application processor with a module's CPort, and
    /// answers its number. It isn't wired. Taken comes exactly where a live connection has the
    /// number, that CPort of the application processor or that of the module. After a refusal the
    /// bus is as before. Want of memory also comes where no number is left.
    pub fn attach(
        &mut self,
        ap: u16,
        intf: u8,
        cport: u16,
        protocol: u8,
    ) -> Result<u64, AttachFault>
        ensures step { (around : Around) (b : machine.Bus) → Stands around self.old b
            → MayAttach ap intf cport b
            → AttachesAs around self.new ap intf cport protocol b result }
        ensures taken { TakenAs self.old ap intf cport result }
        ensures unchanged { OnErr result (self.new ≡ self.old) }
    {
        let number = sum(self.made, 1)?;
        let peer = End::Module { intf, cport };
        if self.connections.is_taken(number, ap, peer) {
            return Err(AttachFault::Taken);
        }
        self.connections
            .add(self.alloc, number, ap, peer, protocol)?;
        self.made = number;
        Ok(number)
    }

    /// A connection is wired.
    pub fn wire(&mut self, k: u64)
        ensures step { (around : Around) (b : machine.Bus) → Stands around self.old b
            → Stands around self.new (wired k b) }
    {
        self.connections.wire(k);
    }

    /// A connection isn't wired any more: what waited in its queues is lost, and what was taken
    /// from them can't be answered any more. The open requests of its far side end as
    /// disconnected. Their numbers stand in `ended` after those that stood there, in order. After
    /// want of memory the bus and `ended` are as before. It takes no memory where the connection is
    /// live and no request of its far side is awaited.
    pub fn unwire(&mut self, k: u64, ended: &mut Numbers) -> Result<(), OutOfMemory>
        ensures step { OnOk result ((around : Around) (b : machine.Bus) → Stands around self.old b
            → EndsAs (elsewhere k around) self.new k side.Far b (unwired k b) ended.old ended.new) }
        ensures few { (around : Around) (b : machine.Bus) → Stands around self.old b
            → IsQuiet k side.Far b → IsOk result }
        ensures unchanged { OnErr result ((self.new ≡ self.old) × (ended.new ≡ ended.old)) }
    {
        let unended = self.unended(k, Side::Far)?;
        let late = self.late(k, Side::Far)?;
        note(ended, &unended)?;
        self.connections.unwire(k);
        self.slots.close(unended.items(), late.items());
        Ok(())
    }

    /// The application processor's side of a connection is closed: its open requests end as
    /// disconnected. Their numbers stand in `ended` after those that stood there, in order. After
    /// want of memory the bus and `ended` are as before. It takes no memory where the connection is
    /// live and no request of that side is awaited.
    pub fn shut(&mut self, k: u64, ended: &mut Numbers) -> Result<(), OutOfMemory>
        ensures step { OnOk result ((around : Around) (b : machine.Bus) → Stands around self.old b
            → EndsAs around self.new k side.Ap b (shut_down k b) ended.old ended.new) }
        ensures few { (around : Around) (b : machine.Bus) → Stands around self.old b
            → IsQuiet k side.Ap b → IsOk result }
        ensures unchanged { OnErr result ((self.new ≡ self.old) × (ended.new ≡ ended.old)) }
    {
        let unended = self.unended(k, Side::Ap)?;
        let late = self.late(k, Side::Ap)?;
        note(ended, &unended)?;
        self.connections.shut(k);
        self.slots.close(unended.items(), late.items());
        Ok(())
    }

    /// No request of the application processor is open on a connection, or it isn't live. It takes
    /// no memory.
    pub fn idle(&self, k: u64) -> bool
        ensures { (around : Around) (b : machine.Bus) → Stands around self.now b
            → result ≡ is_none (connection_of k b) || is_idle k b }
    {
        match self.connections.ops(k, Side::Ap) {
            Some(ops) => ops.is_idle(),
            None => true,
        }
    }

    /// The open requests of a side of a connection, in order of number. Where it isn't live they
    /// are looked for among all that are kept.
    fn unended(&self, k: u64, side: Side) -> Result<Numbers, OutOfMemory>
        ensures lists { IfOk result (λ ns. (around : Around) (b : machine.Bus)
            → Stands around self.now b
            → AreThose (λ n. is_open_on k side (slot_at self.now.slots n)) ns) }
        ensures few { (around : Around) (b : machine.Bus) → Stands around self.now b
            → IsQuiet k side b → IsOk result }
    {
        match self.connections.ops(k, side) {
            Some(ops) => ops.unended(self.alloc),
            None => self.slots.open_on(self.alloc, k, side),
        }
    }

    /// The requests of a side of a connection that were given up and not answered yet, in order of
    /// number. Where it isn't live they are looked for among all that are kept.
    fn late(&self, k: u64, side: Side) -> Result<Numbers, OutOfMemory>
        ensures lists { IfOk result (λ ns. (around : Around) (b : machine.Bus)
            → Stands around self.now b
            → AreThose (λ n. is_late_on k side (slot_at self.now.slots n)) ns) }
        ensures few { (around : Around) (b : machine.Bus) → Stands around self.now b
            → IsQuiet k side b → IsOk result }
    {
        match self.connections.ops(k, side) {
            Some(ops) => ops.late(self.alloc),
            None => self.slots.late_on(self.alloc, k, side),
        }
    }

    /// A connection is there no more.
    pub fn detach(&mut self, k: u64)
        ensures step { (around : Around) (b : machine.Bus) → Stands around self.old b
            → Stands around self.new (detached k b) }
    {
        self.connections.remove(k);
    }

    /// The live connection of a CPort of the application processor with a module's CPort.
    pub fn live(&self, ap: u16, intf: u8, cport: u16) -> Option<u64>
        ensures { (around : Around) (b : machine.Bus) → Stands around self.now b
            → result ≡ option_map (λ c. c.number) (joining ap intf cport b) }
    {
        self.connections.joining(ap, End::Module { intf, cport })
    }

    /// Connection k is live and wired.
    pub fn is_wired(&self, k: u64) -> bool
        ensures { (around : Around) (b : machine.Bus) → Stands around self.now b
            → result ≡ is_wired (connection_of k b) }
    {
        match self.connections.wired(k) {
            Some(wired) => wired,
            None => false,
        }
    }

    /// Some connection is wired to a module at an interface.
    pub fn is_wired_to(&self, intf: u8) -> bool
        ensures { (around : Around) (b : machine.Bus) → Stands around self.now b
            → result ≡ list_any (is_wired_to intf) b.connections }
    {
        self.connections.is_wired_to(intf)
    }

    /// The CPort of the application processor and the far end of a connection, None where
    /// it isn't live.
    pub fn ends(&self, k: u64) -> Option<(u16, End)>
        ensures { (around : Around) (b : machine.Bus) → Stands around self.now b
            → result ≡ option_map ends_of (connection_of k b) }
    {
        self.connections.ends(k)
    }

    /// The wired connection that an end names, None where there is none.
    #[inline(always)]
    pub fn named(&self, at: End) -> Option<u64>
        ensures { (around : Around) (b : machine.Bus) → Stands around self.now b
            → result ≡ option_map number_of (place_of at b.connections) }
    {
        let (connection, _) = self.connections.place(at)?;
        Some(connection)
    }

    /// The numbers of the connections that are wired to a module at an interface, in order.
    pub fn wired_to(&self, intf: u8) -> Result<Numbers, OutOfMemory>
        ensures { IfOk result (λ ns. (around : Around) (b : machine.Bus)
            → Stands around self.now b → ns ≡ wired_numbers intf b) }
    {
        let numbers = self.connections.wired_to(self.alloc, intf)?;
        Ok(numbers)
    }

    /// The first end at which something waits, in the order in which queues are settled.
    pub fn first(&self) -> Option<End>
        ensures { (around : Around) (b : machine.Bus) → Stands around self.now b
            → result ≡ first_waiting b }
    {
        self.connections.first()
    }

    /// How many messages wait at an end, None where no wired connection names it.
    pub fn waiting(&self, at: End) -> Option<u64>
        ensures { (around : Around) (b : machine.Bus) → Stands around self.now b
            → result ≡ option_map count_at (place_of at b.connections) }
    {
        let (connection, side) = self.connections.place(at)?;
        self.connections.count(connection, side)
    }

    /// No identifier is left on a side of a connection, or it isn't live.
    #[inline(always)]
    pub fn spent(&self, k: u64, side: Side) -> bool
        ensures { (around : Around) (b : machine.Bus) → Stands around self.now b
            → result ≡ is_none (next_label k side b) }
    {
        self.connections.is_spent(k, side)
    }
}

/// Numbers stand behind others. After want of memory all is as before.
fn note(ended: &mut Numbers, unended: &Numbers) -> Result<(), OutOfMemory>
    ensures noted { OnOk result (ended.new ≡ ended.old ++ unended.now) }
    ensures unchanged { OnErr result (ended.new ≡ ended.old) }
    ensures few { unended.now ≡ [] → IsOk result }
{
    if unended.items().is_empty() {
        return Ok(());
    }
    ended.extend(unended.items())?;
    Ok(())
}
