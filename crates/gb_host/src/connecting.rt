//! Connecting a CPort, and closing a connection.

ghost use Rattle.std.specs.Prelude.{◌≡◌, ◌∷◌, ◌++◌, [], OnOk, Some, option_and_then};
ghost use Rattle.std.specs.Prelude.{option_map};
ghost use Rattle.gb_base.specs.declared.entry.ConnState.TheVariants as state;
ghost use Rattle.gb_host.specs.Turning.{left_acts, spelled};
ghost use Rattle.gb_machine.specs.Failures as told;
ghost use Rattle.gb_machine.specs.Host.{cport_of, interface_of, link_at};
ghost use Rattle.gb_machine.specs.HostTurns.{host_connects, host_disconnects, host_drains};
ghost use Rattle.gb_machine.specs.HostTurns.{host_idle};
ghost use Rattle.gb_machine.specs.Sequences.{link_closed, link_left, link_opened};
ghost use Rattle.gb_machine.specs.Turns as turns;
ghost use Rattle.gb_manifest.specs.Values.{view_of};

use crate::failing::link_told;
use crate::refusing::declared;
use crate::{Act, Acts, Host};
use gb_base::{ConnState, Link, OutOfMemory, Purpose, SequenceStep};
use gb_manifest::CportView;

impl Host {
    ghost use Rattle.gb_host.specs.Stands.{host_of};
    ghost use Rattle.gb_host.specs.Turning.{TurnsAfter};

    /// The connect sequence of a CPort begins.
    pub(crate) fn connect(
        &mut self,
        acts: &mut Acts,
        intf: u8,
        cport: u16,
    ) -> Result<(), OutOfMemory>
        ensures { TurnsAfter (host_connects intf cport (host_of self.old))
            acts.old acts.new self.old self.new result }
    {
        let Some(view) = self.view(intf, cport) else {
            return Ok(());
        };
        let Some(ap) = self.links.free_cport() else {
            return Ok(());
        };
        let purpose = Purpose {
            intf,
            cport,
            step: SequenceStep::CreateConnection,
        };
        self.open(acts, purpose, ap, view.protocol)
    }

    /// The CPort of an interface that its manifest declares.
    fn view(&self, intf: u8, cport: u16) -> Option<CportView>
        ensures { option_map view_of result
            ≡ option_and_then (cport_of cport) (interface_of intf (host_of self.now)) }
    {
        match self.interfaces.at(intf) {
            Some(interface) => declared(interface, cport),
            None => None,
        }
    }

    /// The close sequence of a connection begins, and its ids are free.
    pub(crate) fn disconnect(
        &mut self,
        acts: &mut Acts,
        intf: u8,
        cport: u16,
    ) -> Result<(), OutOfMemory>
        ensures { TurnsAfter (host_disconnects intf cport (host_of self.old))
            acts.old acts.new self.old self.new result }
    {
        let Some(link) = self.links.at(intf, cport) else {
            return Ok(());
        };
        begin_close(acts, link)?;
        let purpose = Purpose {
            intf,
            cport,
            step: SequenceStep::TellDisconnecting,
        };
        self.ask_in_state(acts, purpose, ConnState::Closing)?;
        self.images.forget(link.connection);
        Ok(())
    }

    /// A connection drains: it closes once the requests on it have ended.
    pub(crate) fn drain(&mut self, acts: &mut Acts, intf: u8, cport: u16) -> Result<(), OutOfMemory>
        ensures { TurnsAfter (host_drains intf cport (host_of self.old))
            acts.old acts.new self.old self.new result }
    {
        let purpose = Purpose {
            intf,
            cport,
            step: SequenceStep::TellDisconnecting,
        };
        self.tell_link(acts, purpose, ConnState::Draining)?;
        self.links.set_state(intf, cport, ConnState::Draining);
        Ok(())
    }

    /// No request is open on a connection: its close sequence begins where it drains.
    pub(crate) fn idle(&mut self, acts: &mut Acts, connection: u64) -> Result<(), OutOfMemory>
        ensures { TurnsAfter (host_idle connection (host_of self.old))
            acts.old acts.new self.old self.new result }
    {
        let Some(link) = self.links.of(connection) else {
            return Ok(());
        };
        if link.state != ConnState::Draining {
            return Ok(());
        }
        self.disconnect(acts, link.intf, link.cport)
    }

    /// The connection of a purpose is open.
    pub(crate) fn link_opened(
        &mut self,
        acts: &mut Acts,
        purpose: Purpose,
    ) -> Result<(), OutOfMemory>
        ensures { TurnsAfter (link_opened purpose (host_of self.old))
            acts.old acts.new self.old self.new result }
    {
        self.tell_link(acts, purpose, ConnState::Open)?;
        self.links
            .set_state(purpose.intf, purpose.cport, ConnState::Open);
        Ok(())
    }

    /// The connection of a purpose is closed, and there no more.
    pub(crate) fn link_closed(
        &mut self,
        acts: &mut Acts,
        purpose: Purpose,
    ) -> Result<(), OutOfMemory>
        ensures { TurnsAfter (link_closed purpose (host_of self.old))
            acts.old acts.new self.old self.new result }
    {
        self.tell_left(acts, purpose)?;
        self.links.remove(purpose.intf, purpose.cport);
        Ok(())
    }

    /// The connection of a purpose is given up and told to be closed, where there is one.
    fn tell_left(&self, acts: &mut Acts, purpose: Purpose) -> Result<(), OutOfMemory>
        ensures { OnOk result (acts.new ≡ acts.old ++ spelled (left_acts
            (link_at purpose.intf purpose.cport (host_of self.now)))) }
    {
        let Some(link) = self.links.at(purpose.intf, purpose.cport) else {
            return Ok(());
        };
        leave(acts, link)?;
        Ok(())
    }
}

/// A connection is shut, and told to be closing.
fn begin_close(acts: &mut Acts, link: Link) -> Result<(), OutOfMemory>
    ensures { OnOk result (acts.new ≡ acts.old ++ spelled (turns.Act.Shut link.connection
        ∷ turns.Act.Tell (told.link_told state.Closing link) ∷ [])) }
{
    acts.push(Act::Shut {
        connection: link.connection,
    })?;
    acts.push(link_told(link, ConnState::Closing))?;
    Ok(())
}

/// A connection is given up, and told to be closed.
pub(crate) fn leave(acts: &mut Acts, link: Link) -> Result<(), OutOfMemory>
    ensures { OnOk result (acts.new ≡ acts.old ++ spelled (left_acts (Some link))) }
{
    acts.push(Act::Leave {
        connection: link.connection,
    })?;
    acts.push(link_told(link, ConnState::Closed))?;
    Ok(())
}
