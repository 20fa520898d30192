//! The application processor, and what it tells of what it knows.

ghost use Rattle.std.specs.Prelude.{◌≡◌, option_map, IfOk};
ghost use Rattle.gb_machine.specs.Host as machine;
ghost use Rattle.gb_machine.specs.Host.{first_host, interface_of, link_of};

use crate::connections::Connections;
use crate::interfaces::Interfaces;
use gb_base::{ConnState, Interface, IntfStage, OutOfMemory};
use gb_firmware::Images;
use std::alloc::Global;

/// The number of the connection of the supervisory controller.
pub const SVC: u64 = 1;

/// What the application processor tells of an interface.
#[derive(Clone, Copy)]
pub struct IntfView {
    /// Its stage.
    pub stage: IntfStage,
    /// Its device id, there once the supervisory controller gave it.
    pub device: Option<u8>,
}

/// A connection that is to be made. Its number comes with `made`, and its far end with the purpose.
#[derive(Clone, Copy)]
pub struct Pending {
    /// The CPort of the application processor.
    pub ap: u16,
    /// The protocol of the module's CPort.
    pub protocol: u8,
}

/// The application processor. It knows the interfaces that modules were inserted at, and its
/// connections to modules, and it has firmware images.
#[derive(Drop)]
pub struct Host {
    pub(crate) alloc: Global,
    pub(crate) interfaces: Interfaces,
    pub(crate) links: Connections,
    pub(crate) images: Images,
    pub(crate) pending: Option<Pending>,
}

impl Host {
    ghost use Rattle.gb_host.specs.Stands.{Stands, view_of};

    /// The application processor before anything was inserted or an image was given.
    pub fn new(alloc: Global) -> Result<Host, OutOfMemory>
        ensures { IfOk result (λ x. Stands x first_host) }
    {
        Ok(Host {
            alloc,
            interfaces: Interfaces::new(alloc),
            links: Connections::new(alloc)?,
            images: Images::new(alloc)?,
            pending: None,
        })
    }

    /// The state of the connection to a module with a number, None exactly where there is none. It
    /// takes no memory.
    #[inline]
    pub fn state(&self, connection: u64) -> Option<ConnState>
        ensures step { (h : machine.Host) → Stands self.now h
            → result ≡ option_map (λ l. l.state) (link_of connection h) }
    {
        Some(self.links.of(connection)?.state)
    }

    /// What is known of an interface, None exactly where it is absent. It takes no memory.
    pub fn interface(&self, intf: u8) -> Option<IntfView>
        ensures step { (h : machine.Host) → Stands self.now h
            → result ≡ option_map view_of (interface_of intf h) }
    {
        let interface = self.interfaces.at(intf)?;
        let device = if interface.has_device {
            interface.device
        } else {
            None
        };
        Some(IntfView {
            stage: interface.stage,
            device,
        })
    }

    /// What is known of the interfaces, in order of number. It takes no memory.
    pub fn interfaces(&self) -> &[Interface]
        ensures step { (h : machine.Host) → Stands self.now h → result.now ≡ h.interfaces }
    {
        self.interfaces.items()
    }
}
