//! What `show` tells.

ghost use Rattle.std.specs.Prelude.{◌≡◌, ◌++◌, IfOk, OnOk, map};
ghost use Rattle.gb_base.specs.declared.event.Event.TheVariants as event;
ghost use Rattle.gb_bus.specs.Stands.{Around, Stands};
ghost use Rattle.gb_host.specs.Stands.{host_of};
ghost use Rattle.gb_machine.specs.Bus as machine;
ghost use Rattle.gb_machine.specs.Host.{link_of};
ghost use Rattle.gb_machine.specs.Show.{interface_shown, name_shown, state_of};
ghost use Rattle.gb_machine.specs.State.{State};
ghost use Rattle.gb_system.specs.Doing.{EventAs};
ghost use Rattle.gb_system.specs.Showing.{AreTold, known_shown, lines, waiting_shown};
ghost use Rattle.gb_system.specs.Stands.{PartiesStand};

use crate::names::Names;
use crate::parties::Parties;
use crate::stop::Stop;
use gb_base::{ConnState, Entries, Entry, Interface, OutOfMemory, Text};
use gb_bus::{Bus, Known, Waiting};
use gb_host::Host;
use gb_report::{connection_line, interface_line, name_line, now_line, queue_line};
use std::alloc::Global;

impl Parties {
    /// Tells what there is, and changes nothing: the time, each interface that the application
    /// processor knows, each live connection, each queue that isn't empty, and each name.
    pub fn show(&self, told: &mut Entries) -> Result<(), Stop>
        ensures step { (s : State) → PartiesStand self.now s
            → EventAs self.now s event.Show told.old told.new result }
    {
        let text = now_line(self.alloc, self.time)?;
        told.push(Entry::Shown { text })?;
        show_interfaces(self.alloc, self.host.interfaces(), told)?;
        let known = self.bus.connections()?;
        show_connections(self.alloc, &self.host, known.items(), told)?;
        let waiting = self.bus.queues()?;
        show_queues(self.alloc, waiting.items(), told)?;
        show_names(self.alloc, &self.bus, &self.names, told)?;
        Ok(())
    }
}

/// Tells each interface.
fn show_interfaces(
    alloc: Global,
    known: &[Interface],
    told: &mut Entries,
) -> Result<(), OutOfMemory>
    ensures { OnOk result (told.new ≡ told.old ++ lines (map interface_shown known.now)) }
{
    for interface in known {
        let text = interface_text(alloc, interface)?;
        told.push(Entry::Shown { text })?;
    }
    Ok(())
}

/// The line of an interface.
fn interface_text(alloc: Global, interface: &Interface) -> Result<Text, OutOfMemory>
    ensures { IfOk result (λ t. t ≡ interface_shown interface.now) }
{
    let device = if interface.has_device {
        interface.device
    } else {
        None
    };
    let text = interface_line(alloc, interface.intf, interface.stage, device)?;
    Ok(text)
}

/// Tells each connection, in the state that the application processor knows.
fn show_connections(
    alloc: Global,
    host: &Host,
    known: &[Known],
    told: &mut Entries,
) -> Result<(), OutOfMemory>
    ensures { OnOk result
        (told.new ≡ told.old ++ lines (map (known_shown (host_of host.now)) known.now)) }
{
    for connection in known {
        let text = connection_text(alloc, host, *connection)?;
        told.push(Entry::Shown { text })?;
    }
    Ok(())
}

/// The line of a connection.
fn connection_text(alloc: Global, host: &Host, known: Known) -> Result<Text, OutOfMemory>
    ensures { IfOk result (λ t. t ≡ known_shown (host_of host.now) known) }
{
    let state = state_in(host, known.number);
    let text = connection_line(
        alloc,
        known.number,
        known.ap,
        known.peer,
        known.protocol,
        state,
        known.clean,
    )?;
    Ok(text)
}

/// The state of a connection. That of the supervisory controller is open for ever.
fn state_in(host: &Host, connection: u64) -> ConnState
    ensures { result ≡ state_of (link_of connection (host_of host.now)) }
{
    match host.state(connection) {
        Some(state) => state,
        None => ConnState::Open,
    }
}

/// Tells each queue.
fn show_queues(alloc: Global, waiting: &[Waiting], told: &mut Entries) -> Result<(), OutOfMemory>
    ensures { OnOk result (told.new ≡ told.old ++ lines (map waiting_shown waiting.now)) }
{
    for queue in waiting {
        let text = queue_line(alloc, queue.at, queue.count)?;
        told.push(Entry::Shown { text })?;
    }
    Ok(())
}

/// Tells each name, and how its request stands.
fn show_names(
    alloc: Global,
    bus: &Bus,
    names: &Names,
    told: &mut Entries,
) -> Result<(), OutOfMemory>
    ensures { OnOk result ((around : Around) (b : machine.Bus) → Stands around bus.now b
        → AreTold around.names names.now b
        → told.new ≡ told.old ++ lines (map (name_shown b) names.now)) }
{
    let ordered = names.in_order(alloc)?;
    for (name, number) in &ordered {
        let text = name_line(alloc, name.name(), *number, bus.outcome(*number))?;
        told.push(Entry::Shown { text })?;
    }
    Ok(())
}
