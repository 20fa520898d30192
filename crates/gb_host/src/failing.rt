//! What fails where a sequence of the application processor fails.

ghost use Rattle.std.specs.Prelude.{◌≡◌, ◌∷◌, ◌++◌, [], OnOk, map};
ghost use Rattle.gb_base.specs.declared.entry.Entry.TheVariants as entry;
ghost use Rattle.gb_host.specs.Turning.{spelled};
ghost use Rattle.gb_host.specs.declared.acts.Act.TheVariants as act;
ghost use Rattle.gb_machine.specs.Failures as told;
ghost use Rattle.gb_machine.specs.Failures.{control_fails, interface_fails, link_fails, step_fails};
ghost use Rattle.gb_machine.specs.Failures.{told_of, unsent, without_device};
ghost use Rattle.gb_machine.specs.Host as machine;
ghost use Rattle.gb_machine.specs.Host.{link_at, with_interface};
ghost use Rattle.gb_machine.specs.SequenceSteps.{at_step};
ghost use Rattle.gb_machine.specs.Turns as turns;
ghost use Rattle.gb_machine.specs.Turns.{failed_turn};

use crate::{Act, Acts, Host};
use gb_base::{ConnState, Entry, IntfStage, Link, OutOfMemory, Purpose, SequenceStep};

impl Host {
    ghost use Rattle.gb_host.specs.Stands.{Stands, host_of};
    ghost use Rattle.gb_host.specs.Turning.{TurnsAfter, TurnsAs};

    /// No identifier was left for the request of a purpose: its sequence fails. No connection was
    /// made then, and no device id is taken. After want of memory nothing has changed.
    pub fn unsent(&mut self, purpose: Purpose) -> Result<Acts, OutOfMemory>
        ensures step { (h : machine.Host) → Stands self.old h
            → TurnsAs (failed_turn (unsent purpose h)) self.old self.new result }
    {
        let mut acts = Acts::new(self.alloc);
        self.unsent_fails(&mut acts, purpose)?;
        Ok(acts)
    }

    /// What is told where no identifier was left for the request of a purpose goes to the end of
    /// the acts.
    fn unsent_fails(&mut self, acts: &mut Acts, purpose: Purpose) -> Result<(), OutOfMemory>
        ensures { TurnsAfter (failed_turn (unsent purpose (host_of self.old)))
            acts.old acts.new self.old self.new result }
    {
        match purpose.step {
            SequenceStep::CreateControl => self.interface_fails(acts, purpose),
            SequenceStep::CreateConnection => Ok(()),
            SequenceStep::GiveDevice => self.device_fails(acts, purpose),
            _ => self.step_fails(acts, purpose),
        }
    }

    /// A step of a sequence isn't answered as it should be: its connection fails in a connect or
    /// close, the interface in an enumeration, and both where the Control connection was
    /// to be made.
    pub(crate) fn step_fails(
        &mut self,
        acts: &mut Acts,
        purpose: Purpose,
    ) -> Result<(), OutOfMemory>
        ensures { TurnsAfter (failed_turn (step_fails purpose.step purpose (host_of self.old)))
            acts.old acts.new self.old self.new result }
    {
        match purpose.step {
            SequenceStep::CreateControl => self.control_fails(acts, purpose),
            SequenceStep::CreateConnection
            | SequenceStep::TellConnected
            | SequenceStep::TellDisconnecting
            | SequenceStep::TellDisconnected
            | SequenceStep::DestroyConnection => self.link_fails(acts, purpose),
            _ => self.interface_fails(acts, purpose),
        }
    }

    /// The connection of a purpose fails.
    fn link_fails(&mut self, acts: &mut Acts, purpose: Purpose) -> Result<(), OutOfMemory>
        ensures { TurnsAfter (failed_turn (link_fails purpose (host_of self.old)))
            acts.old acts.new self.old self.new result }
    {
        self.tell_link(acts, purpose, ConnState::Failed)?;
        self.links
            .set_state(purpose.intf, purpose.cport, ConnState::Failed);
        Ok(())
    }

    /// The interface of a purpose fails.
    pub(crate) fn interface_fails(
        &mut self,
        acts: &mut Acts,
        purpose: Purpose,
    ) -> Result<(), OutOfMemory>
        ensures { TurnsAfter (failed_turn (interface_fails purpose (host_of self.old)))
            acts.old acts.new self.old self.new result }
    {
        tell_interface(acts, purpose.intf, IntfStage::Failed)?;
        self.interfaces.set_stage(purpose.intf, IntfStage::Failed);
        Ok(())
    }

    /// The interface of a purpose fails, and is to have no device id.
    fn device_fails(&mut self, acts: &mut Acts, purpose: Purpose) -> Result<(), OutOfMemory>
        ensures { TurnsAfter (failed_turn (interface_fails purpose
            (with_interface purpose.intf without_device (host_of self.old))))
            acts.old acts.new self.old self.new result }
    {
        tell_interface(acts, purpose.intf, IntfStage::Failed)?;
        self.interfaces.set_device(purpose.intf, None);
        self.interfaces.set_stage(purpose.intf, IntfStage::Failed);
        Ok(())
    }

    /// The Control connection fails, and then its interface.
    fn control_fails(&mut self, acts: &mut Acts, purpose: Purpose) -> Result<(), OutOfMemory>
        ensures { TurnsAfter (failed_turn (control_fails purpose (host_of self.old)))
            acts.old acts.new self.old self.new result }
    {
        self.tell_link(acts, purpose, ConnState::Failed)?;
        tell_interface(acts, purpose.intf, IntfStage::Failed)?;
        self.links
            .set_state(purpose.intf, purpose.cport, ConnState::Failed);
        self.interfaces.set_stage(purpose.intf, IntfStage::Failed);
        Ok(())
    }

    /// It is told that the connection of a purpose has a state, where there is one.
    pub(crate) fn tell_link(
        &self,
        acts: &mut Acts,
        purpose: Purpose,
        to: ConnState,
    ) -> Result<(), OutOfMemory>
        ensures { OnOk result (acts.new ≡ acts.old ++ spelled (map turns.Act.Tell
            (told_of to (link_at purpose.intf purpose.cport (host_of self.now))))) }
    {
        if let Some(link) = self.links.at(purpose.intf, purpose.cport) {
            acts.push(link_told(link, to))?;
        }
        Ok(())
    }
}

/// It is told that an interface has a stage.
pub(crate) fn tell_interface(acts: &mut Acts, intf: u8, stage: IntfStage) -> Result<(), OutOfMemory>
    ensures { OnOk result (acts.new ≡ acts.old
        ++ spelled (turns.Act.Tell (entry.Interface intf stage) ∷ [])) }
{
    acts.push(Act::Tell {
        entry: Entry::Interface { intf, stage },
    })?;
    Ok(())
}

/// It is told that a connection has a state.
pub(crate) fn link_told(link: Link, to: ConnState) -> Act
    ensures { result ≡ act.Tell (told.link_told to link) }
{
    Act::Tell {
        entry: Entry::Connection {
            number: link.connection,
            ap: link.ap,
            intf: link.intf,
            cport: link.cport,
            state: to,
        },
    }
}

/// The same purpose at another step.
pub(crate) fn to_step(purpose: Purpose, step: SequenceStep) -> Purpose
    ensures { result ≡ at_step step purpose }
{
    Purpose {
        intf: purpose.intf,
        cport: purpose.cport,
        step,
    }
}
