//! When the application processor refuses what is asked of it.

ghost use Rattle.std.specs.Prelude.{◌≡◌, option_map};
ghost use Rattle.gb_host.specs.Known.{HasAccepted};
ghost use Rattle.gb_machine.specs.Host as machine;
ghost use Rattle.gb_machine.specs.Host.{control_of, cport_of, link_at};
ghost use Rattle.gb_machine.specs.HostRefusals.{
  connect_conditions,
  disconnect_conditions,
  drain_conditions,
  is_bridged,
  is_closing,
  is_ending,
  is_kept,
  link_conditions,
  send_conditions,
};
ghost use Rattle.gb_machine.specs.Lists.{first_met, holds_of};
ghost use Rattle.gb_manifest.specs.Values.{view_of};

use crate::Host;
use gb_base::{ConnState, Interface, IntfStage, Refusal};
use gb_bridge_payload::uart_kinds::SEND_DATA;
use gb_manifest::{CportView, Manifest};
use gb_payload::control_kinds::{CONNECTED, DISCONNECTED, DISCONNECTING};
use gb_payload::protocols::{FIRMWARE, GPIO, I2C, LOOPBACK, SPI, UART};

impl Host {
    ghost use Rattle.gb_host.specs.Refusing.{RefusesAs, SendsAs};
    ghost use Rattle.gb_host.specs.Stands.{Stands};

    /// Whether a connection to a CPort of an interface may be made: Ok, or why not. It
    /// takes no memory.
    pub fn may_connect(&self, intf: u8, cport: u16) -> Result<(), Refusal>
        ensures step { (h : machine.Host) → Stands self.now h
            → RefusesAs (first_met (connect_conditions intf cport h)) result }
    {
        let Some(interface) = self.interfaces.at(intf) else {
            return Err(Refusal::NoInterface);
        };
        match interface.stage {
            IntfStage::Enumerating => return Err(Refusal::NotEnumerated),
            IntfStage::Failed => return Err(Refusal::Failed),
            _ => {}
        }
        let Some(view) = declared(interface, cport) else {
            return Err(Refusal::NoCport);
        };
        if !is_bridged(view) {
            return Err(Refusal::Unsupported);
        }
        if self.links.at(intf, cport).is_some() {
            return Err(Refusal::Occupied);
        }
        if self.links.free_cport().is_none() {
            return Err(Refusal::CportsSpent);
        }
        Ok(())
    }

    /// The connection on which a request to a CPort of an interface is sent, or why none is. It
    /// takes no memory.
    pub fn may_send(&self, intf: u8, cport: u16) -> Result<u64, Refusal>
        ensures step { (h : machine.Host) → Stands self.now h
            → SendsAs (first_met (send_conditions intf cport h)) (link_at intf cport h) result }
    {
        if self.interfaces.at(intf).is_none() {
            return Err(Refusal::NoInterface);
        }
        self.open_at(intf, cport)
    }

    /// Whether the connection to a CPort of an interface may be closed: Ok, or why not. The Control
    /// connection stays. It takes no memory.
    pub fn may_disconnect(&self, intf: u8, cport: u16) -> Result<(), Refusal>
        ensures step { (h : machine.Host) → Stands self.now h
            → RefusesAs (first_met (disconnect_conditions intf cport h)) result }
    {
        if self.interfaces.at(intf).is_none() {
            return Err(Refusal::NoInterface);
        }
        if cport == 0 {
            return Err(Refusal::Unsupported);
        }
        self.unclosed_at(intf, cport)?;
        Ok(())
    }

    /// The connection to a CPort of an interface that may be closed once the requests on it have
    /// ended, or why none is. The Control connection stays. It takes no memory.
    pub fn may_drain(&self, intf: u8, cport: u16) -> Result<u64, Refusal>
        ensures step { (h : machine.Host) → Stands self.now h
            → SendsAs (first_met (drain_conditions intf cport h)) (link_at intf cport h) result }
    {
        self.may_disconnect(intf, cport)?;
        self.open_at(intf, cport)
    }

    /// The connection to the Control CPort of an interface, None where there is none. It
    /// takes no memory.
    pub fn control(&self, intf: u8) -> Option<u64>
        ensures step { (h : machine.Host) → Stands self.now h → result ≡ control_of intf h }
    {
        Some(self.links.at(intf, 0)?.connection)
    }

    /// Whether requests of a type are the application processor's own on the connection to a CPort
    /// of an interface: CONNECTED, DISCONNECTED and DISCONNECTING on Control, and SEND_DATA, which
    /// takes credits, on a UART. It takes no memory.
    pub fn keeps(&self, intf: u8, cport: u16, kind: u8) -> bool
        ensures step { (h : machine.Host) → Stands self.now h
            → result ≡ holds_of (λ l. is_kept l kind) (link_at intf cport h) }
    {
        match self.links.at(intf, cport) {
            Some(link) => link.cport == 0
                && matches!(kind, CONNECTED | DISCONNECTED | DISCONNECTING)
                || link.protocol == UART && kind == SEND_DATA,
            None => false,
        }
    }

    /// The connection to a CPort of an interface, or why nothing is sent on it.
    #[inline]
    fn open_at(&self, intf: u8, cport: u16) -> Result<u64, Refusal>
        ensures step { (h : machine.Host) → Stands self.now h
            → SendsAs (first_met (link_conditions is_ending (link_at intf cport h)))
            (link_at intf cport h) result }
    {
        let Some(link) = self.links.at(intf, cport) else {
            return Err(Refusal::NoConnection);
        };
        match link.state {
            ConnState::Open => Ok(link.connection),
            ConnState::Draining | ConnState::Closing => Err(Refusal::Closing),
            ConnState::Failed => Err(Refusal::Failed),
            _ => Err(Refusal::NoConnection),
        }
    }

    /// The connection to a CPort of an interface that may be closed, or why there is none.
    fn unclosed_at(&self, intf: u8, cport: u16) -> Result<u64, Refusal>
        ensures step { (h : machine.Host) → Stands self.now h
            → SendsAs (first_met (link_conditions is_closing (link_at intf cport h)))
            (link_at intf cport h) result }
    {
        let Some(link) = self.links.at(intf, cport) else {
            return Err(Refusal::NoConnection);
        };
        match link.state {
            ConnState::Open | ConnState::Draining => Ok(link.connection),
            ConnState::Closing => Err(Refusal::Closing),
            ConnState::Failed => Err(Refusal::Failed),
            _ => Err(Refusal::NoConnection),
        }
    }
}

/// The CPort of an interface, outside bundle 0, that its manifest declares.
pub(crate) fn declared(interface: &Interface, cport: u16) -> Option<CportView>
    requires { HasAccepted interface.now }
    ensures { option_map view_of result ≡ cport_of cport interface.now }
{
    let bytes = interface.manifest.items();
    if bytes.is_empty() {
        return None;
    }
    let manifest = Manifest::accepted(bytes);
    let view = manifest.cport(cport)?;
    if view.bundle == 0 { None } else { Some(view) }
}

/// The protocol of a CPort is connected: GPIO, I2C, UART, SPI, Loopback or Firmware Download.
fn is_bridged(view: CportView) -> bool
    ensures { result ≡ is_bridged (view_of view) }
{
    matches!(view.protocol, GPIO | I2C | UART | SPI | LOOPBACK | FIRMWARE)
}
