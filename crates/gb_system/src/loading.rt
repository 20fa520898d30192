//! Firmware images, and the downloads of modules.

ghost use Rattle.std.specs.Prelude.{◌≡◌, ◌<◌, [], List, IfOk, None, OnErr, OnOk};
ghost use Rattle.gb_base.specs.declared.entry.Entry.{Entry};
ghost use Rattle.gb_base.specs.declared.event.Event.TheVariants as event;
ghost use Rattle.gb_formats.specs.ValidEvents.{IsValid};
ghost use Rattle.gb_machine.specs.Actions.{given};
ghost use Rattle.gb_machine.specs.Bus.{next_number};
ghost use Rattle.gb_machine.specs.Loading.{load_follows};
ghost use Rattle.gb_machine.specs.Modules.{module_at};
ghost use Rattle.gb_machine.specs.Responding.{disconnects};
ghost use Rattle.gb_machine.specs.State.{State};
ghost use Rattle.gb_module.specs.Loading.{refusal_in};
ghost use Rattle.gb_laws.specs.Possible.{IsAskable};
ghost use Rattle.gb_system.specs.Doing.{Does, EventAs};
ghost use Rattle.gb_system.specs.Loading.{
  IsFit,
  LoadsOver,
  asks_last,
  follows_by,
  load_way,
  module_refusal,
  unwired_why,
};
ghost use Rattle.gb_system.specs.Stands.{PartiesStand, PartsStand};

use crate::parties::Parties;
use crate::stop::Stop;
use gb_base::{End, Entries, Entry, Next, OutOfMemory, Outcome, OwnAsk, Refusal, Side, Tag, sum};
use gb_host::PutFault;

impl Parties {
    /// An image is given to the application processor.
    pub fn image(&mut self, tag: &Tag, bytes: &[u8]) -> Result<(), Stop>
        ensures step { (s : State) (told : List Entry) → PartiesStand self.old s
            → EventAs self.new s (event.Image tag.now bytes.now) told told result }
    {
        match self.host.image(tag, bytes) {
            Ok(()) => Ok(()),
            Err(PutFault::Taken) => Err(Stop::Refused(Refusal::Occupied)),
            Err(PutFault::Memory(refused)) => Err(Stop::Memory(refused)),
        }
    }

    /// The firmware device at a module's CPort begins to download the image of a tag.
    pub fn load(&mut self, intf: u8, cport: u16, tag: &Tag, told: &mut Entries) -> Result<(), Stop>
        requires { IsValid (event.Load intf cport tag.now) }
        ensures step { (s : State) → PartiesStand self.old s
            → EventAs self.new s (event.Load intf cport tag.now) told.old told.new result }
    {
        let connection = self.load_line(intf, cport)?;
        let own = self.modules.load(intf, cport, tag)?;
        self.load_ask(Some(connection), intf, cport, &own, told)?;
        Ok(())
    }

    /// A request ended: the download that waits for it goes on, is done or fails.
    pub fn load_on(
        &mut self,
        number: u64,
        how: &Outcome,
        told: &mut Entries,
    ) -> Result<(), OutOfMemory>
        ensures step { OnOk result ((s : State) → PartsStand [] self.old s
            → Does self.new (load_follows number how.now) s told.old told.new) }
    {
        let Some(whose) = self.loads.of(number) else {
            return Ok(());
        };
        let (intf, cport) = whose;
        let way = self.load_way(intf, cport);
        let Some(next) = self.modules.ended(intf, cport, how, way.is_some())? else {
            return Ok(());
        };
        self.load_next(intf, cport, way, next, told)?;
        Ok(())
    }

    /// A connection is unwired, and the downloads fail whose requests ended so.
    pub fn sever(&mut self, connection: u64, told: &mut Entries) -> Result<(), OutOfMemory>
        ensures step { OnOk result ((s : State) → PartsStand [] self.old s
            → Does self.new (disconnects connection) s told.old told.new) }
    {
        for number in self.unwire(connection, told)?.items() {
            self.load_on(*number, &Outcome::Disconnected, told)?;
        }
        Ok(())
    }

    /// The wired connection on which a download can begin at a module's CPort, or why it can't.
    fn load_line(&self, intf: u8, cport: u16) -> Result<u64, Refusal>
        ensures line { (s : State) → PartsStand [] self.now s → LoadsOver s intf cport result }
        ensures free { IfOk result (λ k.
            module_refusal (module_at intf self.now.modules) cport ≡ None) }
    {
        let may = self.modules.may_load(intf, cport);
        let Some(connection) = self.bus.named(End::Module { intf, cport }) else {
            return Err(why_unwired(may));
        };
        may?;
        if self.bus.spent(connection, Side::Far) {
            return Err(Refusal::NoLabel);
        }
        Ok(connection)
    }

    /// The wired connection on which the firmware device at a CPort can make a request. None where
    /// the CPort isn't wired, or no identifier is left.
    fn load_way(&self, intf: u8, cport: u16) -> Option<u64>
        ensures { (s : State) → PartsStand [] self.now s → result ≡ load_way intf cport s }
    {
        let connection = self.bus.named(End::Module { intf, cport })?;
        if self.bus.spent(connection, Side::Far) {
            return None;
        }
        Some(connection)
    }

    /// Makes the next request of a download, or tells its end.
    fn load_next(
        &mut self,
        intf: u8,
        cport: u16,
        way: Option<u64>,
        next: Next,
        told: &mut Entries,
    ) -> Result<(), OutOfMemory>
        ensures step { OnOk result ((s : State) → PartsStand [] self.old s → IsFit next
            → Does self.new (follows_by intf cport way next) s told.old told.new) }
    {
        match next {
            Next::Ask(own) => self.load_ask(way, intf, cport, &own, told)?,
            Next::Done { tag, size } => told.push(Entry::Download {
                intf,
                cport,
                tag,
                size: Some(size),
            })?,
            Next::Failed { tag } => told.push(Entry::Download {
                intf,
                cport,
                tag,
                size: None,
            })?,
        }
        Ok(())
    }

    /// The number of the next request that is made. Out of memory comes exactly where that has no
    /// number of 64 bits.
    fn next_request(&self) -> Result<u64, OutOfMemory>
        ensures number { IfOk result (λ n. (s : State) → PartsStand [] self.now s
            → n ≡ next_number s.bus) }
        ensures cause { OnErr result ((s : State) → PartsStand [] self.now s
            → 18446744073709551615 < next_number s.bus) }
    {
        sum(self.bus.tally().requests, 1)
    }

    /// The firmware device at a CPort makes a request, where there is a connection for it, and its
    /// number is kept. Out of memory also comes where that has no number of 64 bits.
    fn load_ask(
        &mut self,
        way: Option<u64>,
        intf: u8,
        cport: u16,
        own: &OwnAsk,
        told: &mut Entries,
    ) -> Result<(), OutOfMemory>
        ensures step { OnOk result ((s : State) → PartsStand [] self.old s
            → IsAskable own.now.kind own.now.payload
            → Does self.new (given way (λ k. asks_last k intf cport own.now)) s told.old told.new) }
    {
        let Some(connection) = way else {
            return Ok(());
        };
        let number = self.next_request()?;
        self.loads.put(intf, cport, number)?;
        self.far_ask(connection, own.kind, own.payload.items(), own.oneway, told)?;
        Ok(())
    }
}

/// Why no download begins at a CPort that isn't wired, by whether the module may begin one.
fn why_unwired(may: Result<(), Refusal>) -> Refusal
    ensures { result ≡ unwired_why (refusal_in may) }
{
    match may {
        Err(Refusal::NoInterface) => Refusal::NoInterface,
        Err(Refusal::NoCport) => Refusal::NoCport,
        _ => Refusal::NoConnection,
    }
}
