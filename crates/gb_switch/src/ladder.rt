//! The power levels and device ids of interfaces.

ghost use Rattle.std.specs.Prelude.{◌≡◌, ◌<◌, ◌≤◌, ◌==◌, nat_lt, not, [], List, IsErr, false};
ghost use Rattle.std.specs.Prelude.{option_and_then};
ghost use Rattle.gb_machine.specs.Host.{is_device};
ghost use Rattle.gb_machine.specs.Ports.{is_powered, level_of, powered, unpowered};
ghost use Rattle.gb_machine.specs.State as machine;

use crate::port::{Level, Port};
use crate::{NotReady, NotRouted, Rung};

/// How many interface numbers there are.
const INTERFACES: usize = 32;

/// The least device id of a module.
const LEAST_DEVICE: u8 = 2;

/// The greatest device id of a module.
const GREATEST_DEVICE: u8 = 31;

/// The power levels and device ids of interfaces. Modules are plugged at interfaces 2 to 31. At any
/// other nothing is plugged.
#[derive(Clone, Copy)]
pub struct Ladder {
    ports: [Option<Port>; INTERFACES],
}

impl Ladder {
    ghost use Rattle.gb_switch.specs.Climbing.{ClimbsAs, HasOther, ReadyAs, RisesAs, UnroutesAs};
    ghost use Rattle.gb_switch.specs.Levels.{PutsAt, plugged_at};
    ghost use Rattle.gb_switch.specs.Stands.{IsInterface, Stands};

    /// Nothing is plugged.
    pub fn new() -> Ladder
        ensures { Stands result [] }
    {
        Ladder {
            ports: [None; INTERFACES],
        }
    }

    /// A module is plugged at an interface, 2 to 31: its power is off, and it has no device id.
    /// What was plugged there is gone.
    pub fn plug(&mut self, intf: u8)
        requires { IsInterface intf }
        ensures step { (ports : List machine.Port) → Stands self.old ports
            → is_powered intf ports ≡ false → Stands self.new (powered intf ports) }
        ensures again { (ports : List machine.Port) → Stands self.old ports
            → Stands self.new (powered intf (unpowered intf ports)) }
    {
        self.put(
            intf,
            Some(Port {
                level: Level::Off,
                device: None,
            }),
        );
    }

    /// The module at an interface, 2 to 31, is pulled.
    pub fn pull(&mut self, intf: u8)
        requires { IsInterface intf }
        ensures step { (ports : List machine.Port) → Stands self.old ports
            → Stands self.new (unpowered intf ports) }
    {
        self.put(intf, None);
    }

    /// An interface climbs a rung: it has at least the level of the rung then.
    pub fn climb(&mut self, intf: u8, rung: Rung) -> Result<(), NotReady>
        ensures step { (ports : List machine.Port) → Stands self.old ports
            → ClimbsAs self.new intf rung ports result }
        ensures unchanged { IsErr result → self.new ≡ self.old }
    {
        match rung {
            Rung::Vsys => self.rise(intf, Level::Off, Level::Vsys),
            Rung::Refclk => self.rise(intf, Level::Vsys, Level::Refclk),
            Rung::Unipro => self.rise(intf, Level::Refclk, Level::Unipro),
            Rung::Active => self.rise(intf, Level::Unipro, Level::Active),
            Rung::Device(device) => self.give_device(intf, device),
            Rung::Route(device) => self.route(intf, device),
        }
    }

    /// An interface loses its route, and keeps its device id. NotRouted where it has none.
    pub fn unroute(&mut self, intf: u8) -> Result<(), NotRouted>
        ensures step { (ports : List machine.Port) → Stands self.old ports
            → UnroutesAs self.new intf ports result }
        ensures unchanged { IsErr result → self.new ≡ self.old }
    {
        let Some(port) = self.port(intf) else {
            return Err(NotRouted);
        };
        if !port.is_routed() {
            return Err(NotRouted);
        }
        self.put(
            intf,
            Some(Port {
                level: Level::Named,
                device: port.device,
            }),
        );
        Ok(())
    }

    /// A route leads to an interface: its level is 6.
    pub fn routed(&self, intf: u8) -> bool
        ensures routed { (ports : List machine.Port) → Stands self.now ports
            → result ≡ (level_of intf ports == 6) }
        ensures greatest { (ports : List machine.Port) → Stands self.now ports
            → result ≡ not (nat_lt (level_of intf ports) 6) }
    {
        match self.port(intf) {
            Some(port) => port.is_routed(),
            None => false,
        }
    }

    /// An interface that is `from` at least rises to `to` at least.
    fn rise(&mut self, intf: u8, from: Level, to: Level) -> Result<(), NotReady>
        ensures { RisesAs self.old self.new intf from to result }
    {
        let port = self.ready(intf, from)?;
        self.put(intf, Some(port.raised(to)));
        Ok(())
    }

    /// An active interface gets a device id.
    fn give_device(&mut self, intf: u8, device: u8) -> Result<(), NotReady>
        ensures step { (ports : List machine.Port) → Stands self.old ports
            → ClimbsAs self.new intf (Rung.Device device) ports result }
        ensures unchanged { IsErr result → self.new ≡ self.old }
    {
        let port = self.ready(intf, Level::Active)?;
        if device < LEAST_DEVICE || device > GREATEST_DEVICE {
            return Err(NotReady::Taken);
        }
        if port.is_routed() || self.is_elsewhere(intf, device) {
            return Err(NotReady::Taken);
        }
        self.put(
            intf,
            Some(Port {
                level: Level::Named,
                device: Some(device),
            }),
        );
        Ok(())
    }

    /// A route leads to an interface that has this device id.
    fn route(&mut self, intf: u8, device: u8) -> Result<(), NotReady>
        ensures step { (ports : List machine.Port) → Stands self.old ports
            → ClimbsAs self.new intf (Rung.Route device) ports result }
        ensures unchanged { IsErr result → self.new ≡ self.old }
    {
        let port = self.ready(intf, Level::Named)?;
        if !has_device(&Some(port), device) {
            return Err(NotReady::Below);
        }
        self.put(intf, Some(port.raised(Level::Routed)));
        Ok(())
    }

    /// What is plugged at an interface that is `from` at least.
    fn ready(&self, intf: u8, from: Level) -> Result<Port, NotReady>
        ensures { ReadyAs self.now intf from result }
    {
        match self.port(intf) {
            Some(port) if port.level.number() >= from.number() => Ok(port),
            _ => Err(NotReady::Below),
        }
    }

    /// An interface other than `intf` has this device id.
    fn is_elsewhere(&self, intf: u8, device: u8) -> bool
        ensures { HasOther self.now intf device result }
    {
        for (other, port) in self.ports.iter().enumerate() {
            if other != usize::from(intf) && has_device(port, device) {
                return true;
            }
        }
        false
    }

    /// What is plugged at an interface.
    fn port(&self, intf: u8) -> Option<Port>
        ensures { result ≡ plugged_at intf self.now }
    {
        *self.ports.get(usize::from(intf))?
    }

    /// This is plugged at an interface now.
    fn put(&mut self, intf: u8, port: Option<Port>)
        requires { intf < 32 }
        ensures { PutsAt self.old self.new intf port }
    {
        self.ports[usize::from(intf)] = port;
    }
}

/// A slot has an interface with this device id.
fn has_device(slot: &Option<Port>, device: u8) -> bool
    ensures { result ≡ is_device device (option_and_then (λ p. p.device) slot.now) }
{
    match slot {
        Some(port) => port.device == Some(device),
        None => false,
    }
}
