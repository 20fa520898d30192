//! The Loopback device.

ghost use Rattle.std.specs.Prelude.{◌≡◌, IfOk, IsOk};
ghost use Rattle.gb_base.specs.Bytes.{AreFew};
ghost use Rattle.gb_formats.specs.LoopbackDevice.{loopback_step};

use gb_base::{OutOfMemory, Served};
use gb_bridge_payload::{LoopbackAsk, answered, done, fault_result, refused};
use std::alloc::Global;
use std::marker::Model;

/// The Loopback device of a module (Greybus Specification, "Loopback Protocol"): it sends back
/// the bytes of a transfer, with the numbers that are reserved as they came. It keeps nothing
/// between requests.
#[derive(Drop)]
pub struct Loopback;

impl Model for Loopback {
    ghost use Rattle.std.specs.Prelude.{⊤};

    ghost Value = { ⊤ };

    ghost view = { λ _. tt };
}

impl Loopback {
    /// Serves a request of the application processor. An answer of few bytes takes no memory.
    pub fn serve(&self, alloc: Global, kind: u8, payload: &[u8]) -> Result<Served, OutOfMemory>
        ensures step { IfOk result (λ served. served ≡ loopback_step kind payload.now) }
        ensures few { AreFew (loopback_step kind payload.now).payload → IsOk result }
    {
        match LoopbackAsk::read(kind, payload) {
            Ok(LoopbackAsk::Ping) => Ok(done(alloc)),
            Ok(LoopbackAsk::Transfer(_)) => answered(alloc, payload),
            Ok(LoopbackAsk::Sink(_)) => Ok(done(alloc)),
            Err(fault) => Ok(refused(alloc, fault_result(fault))),
        }
    }
}
