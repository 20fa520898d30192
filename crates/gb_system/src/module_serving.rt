//! Requests that modules serve.

ghost use Rattle.std.specs.Prelude.{◌≡◌, ◌≤◌, OnOk, length};
ghost use Rattle.gb_base.specs.declared.end.End.TheVariants as end;
ghost use Rattle.gb_base.specs.declared.end.Side.TheVariants as side;
ghost use Rattle.gb_bus.specs.Delivering.{MayReply};
ghost use Rattle.gb_formats.specs.Results.{most_payload};
ghost use Rattle.gb_machine.specs.Bus.{Connection, Item};
ghost use Rattle.gb_machine.specs.Responding.{serves};
ghost use Rattle.gb_machine.specs.State.{State};
ghost use Rattle.gb_system.specs.Doing.{Does};
ghost use Rattle.gb_system.specs.Drafts.{IsUpon};
ghost use Rattle.gb_system.specs.Serving.{only};
ghost use Rattle.gb_system.specs.Stands.{PartsStand};

use crate::parties::Parties;
use gb_base::{Entries, OutOfMemory, Side};
use gb_bridge_payload::NONEXISTENT;
use gb_bus::Asked;

impl Parties {
    /// A module serves a request at a CPort: its reply goes back, and then the requests of its own
    /// are made.
    pub fn serve_at_module(
        &mut self,
        connection: u64,
        intf: u8,
        cport: u16,
        asked: &Asked,
        payload: &[u8],
        told: &mut Entries,
    ) -> Result<(), OutOfMemory>
        ensures step { OnOk result ((s : State) (c : Connection) (item : Item)
            → PartsStand (only connection side.Far item) self.old s
            → IsUpon connection s.bus c → c.peer ≡ end.Module intf cport
            → (may : MayReply asked.now s.bus item) → payload.now ≡ may.request.payload
            → length may.request.payload ≤ most_payload
            → Does self.new (serves side.Far c may.request) s told.old told.new) }
    {
        let Some(served) = self.modules.serve(intf, cport, asked.kind, payload)? else {
            self.answer(connection, Side::Far, asked, NONEXISTENT, &[], told)?;
            return Ok(());
        };
        let answer = served.payload.items();
        self.answer(connection, Side::Far, asked, served.result, answer, told)?;
        self.far_ask_all(connection, served.asks.items(), told)?;
        Ok(())
    }
}
