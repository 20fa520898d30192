//! Modules.

ghost use Rattle.std.specs.Prelude.{◌≡◌, ◌≤◌, IfOk, length};
ghost use Rattle.gb_bridge_payload.specs.Serving.{ServesAs};
ghost use Rattle.gb_formats.specs.Module.{cport_state, module_of_kind, module_raw};
ghost use Rattle.gb_formats.specs.ModuleSteps.{module_serve, module_stir};
ghost use Rattle.gb_formats.specs.Results.{most_payload};
ghost use Rattle.gb_module.specs.Few.{FewSucceed, whole_answer};
ghost use Rattle.gb_module.specs.Steps.{with_ports};
ghost use Rattle.gb_module.specs.Stirring.{IsStir, StirsAs};
ghost use Rattle.gb_module.specs.Views.{cport_state_of, stir_of};

use crate::cport_state::CportState;
use crate::declared::declared_ports;
use crate::kinds;
use crate::port::Port;
use crate::ports::Ports;
use crate::stir::{Stir, StirFault};
use gb_base::{Bytes, Kind, OutOfMemory, OwnAsks, Served};
use std::alloc::Global;
use std::marker::Model;

/// The number of the Control CPort.
const CONTROL_CPORT: u16 = 0;

/// A module: the bytes of its manifest, and its CPorts with a device each. A contract sees both.
#[derive(Drop)]
pub struct Module {
    pub(crate) alloc: Global,
    pub(crate) manifest: Bytes,
    pub(crate) ports: Ports,
}

impl Model for Module {
    ghost use Rattle.std.specs.Prelude.{◌≤◌, length};
    ghost use Rattle.gb_formats.specs.Module.{Module};
    ghost use Rattle.gb_formats.specs.Results.{most_payload};

    ghost Value = { Module };

    ghost view = { λ m. record { manifest = m.manifest; ports = m.ports } };

    ghost invariant = { λ m. length m.manifest ≤ most_payload };
}

impl Module {
    /// A module of a kind, all of whose CPorts are off.
    pub fn of_kind(alloc: Global, kind: Kind) -> Result<Module, OutOfMemory>
        ensures { IfOk result (λ made. made ≡ module_of_kind kind) }
    {
        let ports = kinds::ports(alloc, kind)?;
        Module::of(alloc, kinds::manifest(kind), ports)
    }

    /// A module with these bytes as its manifest, at most 2,040, and with all CPorts off. Where the
    /// bytes are a manifest, it has a device for each CPort outside bundle 0 whose protocol is
    /// GPIO, I2C, SPI, UART, Loopback or Firmware Download. Where they aren't, it has none.
    pub fn raw(alloc: Global, manifest: &[u8]) -> Result<Module, OutOfMemory>
        requires { length manifest.now ≤ most_payload }
        ensures { IfOk result (λ made. made ≡ module_raw manifest.now) }
    {
        let ports = declared_ports(alloc, manifest)?;
        Module::of(alloc, manifest, ports)
    }

    /// A module with this manifest and these CPorts.
    fn of(alloc: Global, manifest: &[u8], ports: Vec<Port>) -> Result<Module, OutOfMemory>
        requires { length manifest.now ≤ most_payload }
        ensures { IfOk result (λ made. made ≡ with_ports manifest.now ports.items) }
    {
        Ok(Module {
            alloc,
            manifest: Bytes::from_slice(alloc, manifest)?,
            ports: Ports::new(ports)?,
        })
    }

    /// Serves a request at a CPort: CPort 0 is the Control responder, the others have a device
    /// each. A request at a CPort without a device is PROTOCOL_BAD. Requests of the module's own
    /// are left out where the CPort isn't on; a CPort that is off serves too, though no bus hands
    /// it a request. An answer of few bytes takes no memory where no request of its own is made or
    /// left out. After want of memory the module is as before.
    pub fn serve(&mut self, cport: u16, kind: u8, payload: &[u8]) -> Result<Served, OutOfMemory>
        ensures step { ServesAs (module_serve self.old cport kind payload.now)
            self.old self.new result }
        ensures few { FewSucceed (whole_answer self.old cport kind payload.now) result }
    {
        if cport == CONTROL_CPORT {
            return self.control(kind, payload);
        }
        self.ports.serve(cport, kind, payload)
    }

    /// What comes from outside to the device of a CPort: answers the requests that the module makes
    /// then, and none where the CPort isn't on. NoCport exactly where the module has no such device
    /// at the CPort. After each refusal the module is as before.
    pub fn stir(&mut self, cport: u16, what: Stir) -> Result<OwnAsks, StirFault>
        requires { IsStir what }
        ensures { StirsAs (module_stir self.old cport (stir_of what)) self.old self.new result }
    {
        self.ports.stir(cport, what)
    }

    /// The state of a CPort, off also where it has no device.
    pub fn state(&self, cport: u16) -> CportState
        ensures { cport_state_of result ≡ cport_state self.now cport }
    {
        match self.ports.get(cport) {
            Some(port) => port.state(),
            None => CportState::Off,
        }
    }
}
