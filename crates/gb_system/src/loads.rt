//! The last requests of firmware devices.

ghost use Rattle.std.specs.Prelude.{◌≡◌, ◌==◌, [], OnOk, option_map};
ghost use Rattle.gb_machine.specs.Lists.{without};
ghost use Rattle.gb_machine.specs.Loading.{last_asked, load_of};
ghost use Rattle.gb_system.specs.Loading.{whose};

use gb_base::OutOfMemory;
use std::alloc::Global;
use std::marker::Model;

/// The last request that the firmware device at a module's CPort made.
#[derive(Drop)]
pub struct Load {
    /// The interface.
    pub intf: u8,
    /// The CPort.
    pub cport: u16,
    /// The number of the request.
    pub request: u64,
}

impl Model for Load {
    ghost use Rattle.gb_machine.specs.State.{Load};

    ghost Value = { Load };

    ghost view = { λ l. record { intf = l.intf; cport = l.cport; request = l.request } };
}

/// The last request of each firmware device that made one. Its download waits for it.
#[derive(Drop)]
pub struct Loads {
    loads: Vec<Load>,
}

impl Model for Loads {
    ghost use Rattle.std.specs.Prelude.{List};
    ghost use Rattle.gb_machine.specs.State.{Load};

    ghost Value = { List Load };

    ghost view = { λ l. l.loads.items };
}

impl Loads {
    /// No firmware device made a request.
    pub fn new(alloc: Global) -> Loads
        ensures { result ≡ [] }
    {
        Loads {
            loads: Vec::new(alloc),
        }
    }

    /// The interface and the CPort whose last request has this number, None where there is none.
    pub fn of(&self, number: u64) -> Option<(u8, u16)>
        ensures { result ≡ option_map whose (load_of number self.now) }
    {
        for load in self.loads.iter() {
            if load.request == number {
                return Some((load.intf, load.cport));
            }
        }
        None
    }

    /// The request with this number is the last one of a CPort.
    pub fn put(&mut self, intf: u8, cport: u16, request: u64) -> Result<(), OutOfMemory>
        ensures { OnOk result (self.new ≡ last_asked intf cport request self.old) }
    {
        self.loads
            .retain(|load| load.intf != intf || load.cport != cport);
        self.loads.push(Load {
            intf,
            cport,
            request,
        })?;
        Ok(())
    }

    /// The CPorts of an interface made no request.
    pub fn forget(&mut self, intf: u8)
        ensures { self.new ≡ without (λ l. l.intf == intf) self.old }
    {
        self.loads.retain(|load| load.intf != intf);
    }
}
