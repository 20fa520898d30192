//! The Control responder.

ghost use Rattle.std.specs.Prelude.{◌≡◌, ◌≤◌, IfOk, IsOk, length};
ghost use Rattle.gb_base.specs.Bytes.{AreFew};
ghost use Rattle.gb_bridge_payload.specs.Serving.{ServesAs};
ghost use Rattle.gb_formats.specs.ControlRecords.{control_reply_payload};
ghost use Rattle.gb_formats.specs.ControlResponder.{control_asked, control_step, turn_step};
ghost use Rattle.gb_formats.specs.Module.{port_at};
ghost use Rattle.gb_formats.specs.Results.{answer_of};
ghost use Rattle.gb_module.specs.Turning.{changes, wants};
ghost use Rattle.gb_payload.specs.Views.{control_ask_of, control_reply_of};

use crate::module::Module;
use crate::turn::Turn;
use gb_base::{OutOfMemory, Served};
use gb_bridge_payload::{answered, fault_result, refused};
use gb_payload::{ControlAsk, ControlReply};
use std::alloc::Global;

impl Module {
    /// Serves a request of the Control protocol. An answer of few bytes takes no memory. After want
    /// of memory the module is as before.
    pub(crate) fn control(&mut self, kind: u8, payload: &[u8]) -> Result<Served, OutOfMemory>
        ensures step { ServesAs (control_step self.old kind payload.now) self.old self.new result }
        ensures few { AreFew (control_step self.old kind payload.now).served.payload → IsOk result }
    {
        match ControlAsk::read(kind, payload) {
            Ok(ask) => self.answer(ask),
            Err(fault) => Ok(refused(self.alloc, fault_result(fault))),
        }
    }

    /// Serves a request that was read.
    fn answer(&mut self, ask: ControlAsk) -> Result<Served, OutOfMemory>
        ensures step { ServesAs (control_asked self.old (control_ask_of ask))
            self.old self.new result }
        ensures few { AreFew (control_asked self.old (control_ask_of ask)).served.payload
            → IsOk result }
    {
        match ask {
            ControlAsk::Version { .. } => tell(
                self.alloc,
                ControlReply::Version { major: 0, minor: 1 },
            ),
            ControlAsk::GetManifestSize => {
                let size = self.manifest.items().len() as u16;
                tell(self.alloc, ControlReply::GetManifestSize { size })
            }
            ControlAsk::GetManifest => answered(self.alloc, self.manifest.items()),
            ControlAsk::Connected { cport } => Ok(self.turn(cport, Turn::Connected)),
            ControlAsk::Disconnected { cport } => Ok(self.turn(cport, Turn::Disconnected)),
            ControlAsk::Disconnecting { cport } => Ok(self.turn(cport, Turn::Disconnecting)),
        }
    }

    /// Changes the state of a CPort.
    fn turn(&mut self, cport: u16, turn: Turn) -> Served
        ensures { turn_step self.old (port_at self.old cport) (wants turn) (changes turn)
            ≡ record { after = self.new; served = result } }
    {
        let code = self.ports.turn(cport, turn);
        refused(self.alloc, code)
    }
}

/// The answer of success with this response of at most two bytes, which takes no memory.
fn tell(alloc: Global, reply: ControlReply<'_>) -> Result<Served, OutOfMemory>
    requires { length (control_reply_payload (control_reply_of reply)) ≤ 2 }
    ensures same { IfOk result
        (λ served. served ≡ answer_of (control_reply_payload (control_reply_of reply.entry))) }
    ensures few { IsOk result }
{
    let mut bytes = [0; 2];
    let Ok(size) = reply.write(&mut bytes) else {
        unreachable!()
    };
    answered(alloc, &bytes[..size])
}
