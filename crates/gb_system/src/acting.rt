//! What the application processor does of its own.

ghost use Rattle.std.specs.Prelude.{◌≡◌, [], ◌++◌, IfOk, OnOk, map};
ghost use Rattle.gb_base.specs.declared.end.Side.TheVariants as side;
ghost use Rattle.gb_machine.specs.HostActs.{fails, host_asks, notices};
ghost use Rattle.gb_machine.specs.Failures.{unsent};
ghost use Rattle.gb_machine.specs.Requests.{open_on};
ghost use Rattle.gb_machine.specs.State.{State};
ghost use Rattle.gb_machine.specs.Wires.{disconnected_told, shuts, unwires};
ghost use Rattle.gb_system.specs.Acting.{ActsAs, MakesAs};
ghost use Rattle.gb_laws.specs.Possible.{IsAskable, MayTurn};
ghost use Rattle.gb_system.specs.Acting.{asking_of, making_of, tells_of};
ghost use Rattle.gb_system.specs.Doing.{Does};
ghost use Rattle.gb_system.specs.Stands.{PartsStand};

use crate::asking::{DEFAULT_TIMEOUT, Draft};
use crate::parties::Parties;
use gb_base::{
    ConnState, Entries, Entry, HostEvent, Numbers, OutOfMemory, Outcome, Purpose, Reading, Side,
    TryCopy,
};
use gb_bus::AttachFault;
use gb_host::{Act, Acts, SVC};
use std::mem::replace;

impl Parties {
    /// The application processor takes notice of something, and does what it does then.
    pub fn notice(&mut self, event: HostEvent, told: &mut Entries) -> Result<(), OutOfMemory>
        ensures step { OnOk result ((s : State) → PartsStand [] self.old s
            → MayTurn event s
            → Does self.new (notices event) s told.old told.new) }
    {
        let mut acts = replace(&mut self.acts, Acts::new(self.alloc));
        self.host.on_into(event, &mut acts)?;
        acts.reverse();
        let mut skips = false;
        while let Some(act) = acts.pop() {
            if skips {
                skips = false;
                drop(act);
                continue;
            }
            skips = self.act(act, told)?;
        }
        self.acts = acts;
        Ok(())
    }

    /// Does an act. Answers whether the next one is left out: the request of a connection that
    /// wasn't made.
    fn act(&mut self, act: Act, told: &mut Entries) -> Result<bool, OutOfMemory>
        ensures step { IfOk result (λ skips. (s : State) → PartsStand [] self.old s
            → ActsAs self.old.host self.new act s skips told.old told.new) }
    {
        match act {
            Act::Ask {
                on,
                kind,
                payload,
                purpose,
            } => self.host_ask(on, kind, payload.items(), purpose, told)?,
            Act::Make {
                ap,
                intf,
                cport,
                protocol,
                purpose,
            } => return self.make(ap, intf, cport, protocol, purpose, told),
            Act::Shut { connection } => self.shut(connection, told)?,
            Act::Leave { connection } => self.bus.detach(connection),
            Act::Tell { entry } => told.push(entry)?,
        }
        Ok(false)
    }

    /// The application processor makes a request, and its sequence waits for it. It fails where no
    /// identifier is left.
    fn host_ask(
        &mut self,
        on: u64,
        kind: u8,
        payload: &[u8],
        purpose: Purpose,
        told: &mut Entries,
    ) -> Result<(), OutOfMemory>
        ensures step { OnOk result ((s : State) → PartsStand [] self.old s
            → IsAskable kind payload.now
            → Does self.new (host_asks (asking_of on kind payload.now purpose)) s told.old
            told.new) }
    {
        let deadline = self.deadline(DEFAULT_TIMEOUT)?;
        let q = Draft {
            connection: on,
            side: Side::Ap,
            kind,
            payload,
            deadline,
            oneway: false,
        };
        match self.ask(&q, told)? {
            Some(number) => self.host.awaits(purpose, number),
            None => self.fail(purpose, told)?,
        }
        Ok(())
    }

    /// Makes a connection and tells it. Answers true where no identifier is left for its request:
    /// then it fails.
    fn make(
        &mut self,
        ap: u16,
        intf: u8,
        cport: u16,
        protocol: u8,
        purpose: Purpose,
        told: &mut Entries,
    ) -> Result<bool, OutOfMemory>
        ensures step { IfOk result (λ skips. (s : State) → PartsStand [] self.old s
            → MakesAs self.old.host self.new (making_of ap intf cport protocol) purpose s skips
            told.old told.new) }
    {
        if self.bus.spent(SVC, Side::Ap) {
            self.fail(purpose, told)?;
            return Ok(true);
        }
        let connection = match self.bus.attach(ap, intf, cport, protocol) {
            Ok(connection) => connection,
            // It never comes: no live connection has an end of one that is made.
            Err(AttachFault::Taken) => return Ok(false),
            Err(AttachFault::Memory(refused)) => return Err(refused),
        };
        self.host.made(purpose, connection);
        told.push(Entry::Connection {
            number: connection,
            ap,
            intf,
            cport,
            state: ConnState::Opening,
        })?;
        Ok(false)
    }

    /// A sequence fails, since no identifier is left for its request, and this is told.
    fn fail(&mut self, purpose: Purpose, told: &mut Entries) -> Result<(), OutOfMemory>
        ensures step { OnOk result ((s : State) → PartsStand [] self.old s
            → Does self.new (fails (unsent purpose)) s told.old told.new) }
    {
        let acts = self.host.unsent(purpose)?;
        tell_all(told, acts.items())?;
        Ok(())
    }

    /// The application processor's side of a connection is closed.
    fn shut(&mut self, connection: u64, told: &mut Entries) -> Result<(), OutOfMemory>
        ensures step { OnOk result ((s : State) → PartsStand [] self.old s
            → Does self.new (shuts connection) s told.old told.new) }
        ensures host { self.new.host ≡ self.old.host }
    {
        let mut ended = Numbers::new(self.alloc);
        self.bus.shut(connection, &mut ended)?;
        tell_disconnected(told, ended.items())?;
        Ok(())
    }

    /// A connection is unwired: what is held there is lost, and its hold mark is taken back.
    /// Answers the requests of the far side that ended so, in order of number.
    pub fn unwire(&mut self, connection: u64, told: &mut Entries) -> Result<Numbers, OutOfMemory>
        ensures ended { IfOk result (λ ns. (s : State) → PartsStand [] self.old s
            → ns ≡ open_on connection side.Far s.bus) }
        ensures step { OnOk result ((s : State) → PartsStand [] self.old s
            → Does self.new (unwires connection) s told.old told.new) }
    {
        let mut ended = Numbers::new(self.alloc);
        self.bus.unwire(connection, &mut ended)?;
        self.holds.remove(connection);
        self.held.forget(connection);
        tell_disconnected(told, ended.items())?;
        Ok(ended)
    }
}

/// Tells what acts tell.
fn tell_all(told: &mut Entries, acts: &[Act]) -> Result<(), OutOfMemory>
    ensures { OnOk result (told.new ≡ told.old ++ tells_of acts.now) }
{
    for act in acts {
        if let Act::Tell { entry } = act {
            told.push(entry.copy()?)?;
        }
    }
    Ok(())
}

/// Requests ended as disconnected, in this order.
fn tell_disconnected(told: &mut Entries, numbers: &[u64]) -> Result<(), OutOfMemory>
    ensures { OnOk result (told.new ≡ told.old ++ map disconnected_told numbers.now) }
{
    for number in numbers {
        told.push(Entry::Ended {
            number: *number,
            outcome: Outcome::Disconnected,
            reading: Reading::Nothing,
        })?;
    }
    Ok(())
}
