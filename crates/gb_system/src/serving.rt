//! Requests that are served, each by the party at its end.

ghost use Rattle.std.specs.Prelude.{◌≡◌, ◌==◌, [], ◌∷◌, ◌++◌, ℕ, OnOk, true, false, option_map};
ghost use Rattle.gb_base.specs.declared.end.End.TheVariants as end;
ghost use Rattle.gb_base.specs.declared.end.Side.TheVariants as side;
ghost use Rattle.gb_base.specs.declared.entry.Entry.TheVariants as entry;
ghost use Rattle.gb_formats.specs.Results.{success};
ghost use Rattle.gb_machine.specs.Actions.{given, tell, ◌▸◌};
ghost use Rattle.gb_machine.specs.Bus.{Connection, Item};
ghost use Rattle.gb_machine.specs.HostActs.{notices};
ghost use Rattle.gb_machine.specs.Responding.{serves};
ghost use Rattle.gb_machine.specs.State.{State};
ghost use Rattle.gb_system.specs.Deciding.{action_of};
ghost use Rattle.gb_system.specs.Doing.{Does};
ghost use Rattle.gb_system.specs.Serving.{
  IsDelivered,
  MayNotice,
  MayServe,
  ServesAt,
  only,
  told_of,
};
ghost use Rattle.gb_system.specs.Stands.{PartsStand};

use crate::deciding::{Behind, decide};
use crate::parties::Parties;
use gb_base::{End, Entries, Entry, HostEvent, OutOfMemory, Side};
use gb_bridge_payload::SUCCESS;
use gb_bus::Asked;
use gb_host::HostServed;

impl Parties {
    /// Serves a request that was delivered at an end: its reply goes back, and then what it brings
    /// about is done and told.
    #[inline(always)]
    pub fn serve(
        &mut self,
        connection: u64,
        at: End,
        asked: &Asked,
        payload: &[u8],
        told: &mut Entries,
    ) -> Result<(), OutOfMemory>
        ensures step { OnOk result
            (ServesAt at self.old self.new connection asked.now payload.now told.old told.new) }
    {
        match at {
            End::Svc => self.serve_at_svc(connection, asked, payload, told)?,
            End::Ap(_) => self.serve_at_ap(connection, asked, payload, told)?,
            End::Module { intf, cport } => self.serve_at_module(
                connection, intf, cport, asked, payload, told,
            )?,
        }
        Ok(())
    }

    /// The supervisory controller serves a request.
    fn serve_at_svc(
        &mut self,
        connection: u64,
        asked: &Asked,
        payload: &[u8],
        told: &mut Entries,
    ) -> Result<(), OutOfMemory>
        ensures step { OnOk result ((s : State) (c : Connection) (item : Item)
            → (d : IsDelivered end.Svc connection asked.now payload.now s c item)
            → PartsStand (only connection side.Far item) self.old s
            → Does self.new (serves side.Far c d.request) s told.old told.new) }
    {
        let decision = decide(&self.bus, &mut self.ladder, asked.kind, payload);
        let answer = decision.payload.as_slice();
        self.answer(connection, Side::Far, asked, decision.result, answer, told)?;
        self.follow(decision.behind, told)?;
        Ok(())
    }

    /// Does what comes after a reply of the supervisory controller.
    fn follow(&mut self, behind: Behind, told: &mut Entries) -> Result<(), OutOfMemory>
        ensures step { OnOk result ((s : State) → PartsStand [] self.old s
            → Does self.new (action_of behind) s told.old told.new) }
    {
        match behind {
            Behind::Nothing => {}
            Behind::Wire { connection } => self.bus.wire(connection),
            Behind::Unwire { connection } => self.sever(connection, told)?,
        }
        Ok(())
    }

    /// The application processor serves a request. One that gets no reply is ignored where
    /// it is refused.
    fn serve_at_ap(
        &mut self,
        connection: u64,
        asked: &Asked,
        payload: &[u8],
        told: &mut Entries,
    ) -> Result<(), OutOfMemory>
        ensures step { OnOk result ((s : State) (c : Connection) (item : Item) (a : ℕ)
            → (d : IsDelivered (end.Ap a) connection asked.now payload.now s c item)
            → PartsStand (only connection side.Ap item) self.old s
            → MayServe side.Ap c d.request s
            → Does self.new (serves side.Ap c d.request) s told.old told.new) }
    {
        let served = self.host.serve(connection, asked.kind, payload)?;
        if asked.label == 0 {
            self.heed(asked.kind, served, told)?;
            return Ok(());
        }
        let answer = served.payload.items();
        self.answer(connection, Side::Ap, asked, served.result, answer, told)?;
        self.go_on(served.tell, served.then, told)?;
        Ok(())
    }

    /// Goes on after a request that gets no reply, or ignores it where it is refused.
    fn heed(&mut self, kind: u8, served: HostServed, told: &mut Entries) -> Result<(), OutOfMemory>
        ensures step { (served.result == success) ≡ true → OnOk result ((s : State)
            → PartsStand [] self.old s → MayNotice served.«then» s
            → Does self.new
            (given served.tell tell ▸ given served.«then» notices)
            s told.old told.new) }
        ensures ignored { (served.result == success) ≡ false → OnOk result
            ((self.new ≡ self.old) × (told.new ≡ told.old ++ entry.Ignored kind ∷ [])) }
    {
        if served.result != SUCCESS {
            told.push(Entry::Ignored { kind })?;
            return Ok(());
        }
        self.go_on(served.tell, served.then, told)?;
        Ok(())
    }

    /// Tells what came with a request, and takes notice of it.
    fn go_on(
        &mut self,
        entry: Option<Entry>,
        event: Option<HostEvent>,
        told: &mut Entries,
    ) -> Result<(), OutOfMemory>
        ensures step { OnOk result ((s : State) → PartsStand [] self.old s
            → MayNotice event s
            → Does self.new (given entry tell ▸ given event notices) s
            told.old told.new) }
    {
        tell_any(told, entry)?;
        if let Some(event) = event {
            self.notice(event, told)?;
        }
        Ok(())
    }
}

/// Tells an entry, where there is one.
fn tell_any(told: &mut Entries, entry: Option<Entry>) -> Result<(), OutOfMemory>
    ensures { OnOk result (told.new ≡ told.old ++ told_of entry) }
{
    if let Some(entry) = entry {
        told.push(entry)?;
    }
    Ok(())
}
