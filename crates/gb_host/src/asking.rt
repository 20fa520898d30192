//! The requests that a sequence makes, and the connections that it opens.

ghost use Rattle.std.specs.Prelude.{◌≡◌, ◌∷◌, ◌++◌, [], OnOk, find};
ghost use Rattle.gb_host.specs.Asking.{target_of};
ghost use Rattle.gb_machine.specs.Host.{in_state, interface_of, with_interface, with_link, link_at};
ghost use Rattle.gb_machine.specs.SequenceSteps.{payload_of};
ghost use Rattle.gb_machine.specs.Sequences.{ap_in, asking, device_in, goes_on, opens, step_asked};
ghost use Rattle.gb_machine.specs.Sequences.{target, way_of};

use crate::failing::to_step;
use crate::host::{Pending, SVC};
use crate::interfaces::Change;
use crate::payloads::{Target, asks_control, kind, payload, speaks_of_ap};
use crate::{Act, Acts, Host};
use gb_base::{ConnState, OutOfMemory, Purpose, SequenceStep};

impl Host {
    ghost use Rattle.gb_host.specs.Changes.{changed};
    ghost use Rattle.gb_host.specs.Stands.{host_of};
    ghost use Rattle.gb_host.specs.Turning.{TurnsAfter, asks};

    /// The request of a purpose is made. Where there is no Control connection for it,
    /// its step fails.
    pub(crate) fn ask(&mut self, acts: &mut Acts, purpose: Purpose) -> Result<(), OutOfMemory>
        ensures { TurnsAfter (step_asked purpose (host_of self.old))
            acts.old acts.new self.old self.new result }
    {
        let Some(on) = self.way(purpose) else {
            return self.step_fails(acts, purpose);
        };
        let ap = self.ap(purpose);
        self.request(acts, on, ap, purpose)?;
        Ok(())
    }

    /// The same sequence goes on with another step.
    pub(crate) fn go_on(
        &mut self,
        acts: &mut Acts,
        purpose: Purpose,
        step: SequenceStep,
    ) -> Result<(), OutOfMemory>
        ensures { TurnsAfter (goes_on step purpose (host_of self.old))
            acts.old acts.new self.old self.new result }
    {
        self.ask(acts, to_step(purpose, step))
    }

    /// The interface of a purpose is changed, and then its request is made.
    pub(crate) fn ask_changed(
        &mut self,
        acts: &mut Acts,
        purpose: Purpose,
        change: Change,
    ) -> Result<(), OutOfMemory>
        ensures { TurnsAfter (step_asked purpose
            (with_interface purpose.intf (changed change) (host_of self.old)))
            acts.old acts.new self.old self.new result }
    {
        let back = self.interfaces.back(purpose.intf, change);
        self.interfaces.change(purpose.intf, change);
        match self.ask(acts, purpose) {
            Ok(()) => Ok(()),
            Err(refused) => {
                self.interfaces.change(purpose.intf, back);
                Err(refused)
            }
        }
    }

    /// The connection of a purpose has a state from now on, and then the request is made.
    pub(crate) fn ask_in_state(
        &mut self,
        acts: &mut Acts,
        purpose: Purpose,
        to: ConnState,
    ) -> Result<(), OutOfMemory>
        ensures { TurnsAfter (step_asked purpose
            (with_link purpose.intf purpose.cport (in_state to) (host_of self.old)))
            acts.old acts.new self.old self.new result }
    {
        let back = self.links.state(purpose.intf, purpose.cport, to);
        self.links.set_state(purpose.intf, purpose.cport, to);
        match self.ask(acts, purpose) {
            Ok(()) => Ok(()),
            Err(refused) => {
                self.links.set_state(purpose.intf, purpose.cport, back);
                Err(refused)
            }
        }
    }

    /// A connection is to be made on a CPort of the application processor, and then the
    /// request for it.
    pub(crate) fn open(
        &mut self,
        acts: &mut Acts,
        purpose: Purpose,
        ap: u16,
        protocol: u8,
    ) -> Result<(), OutOfMemory>
        ensures { TurnsAfter (opens ap protocol purpose (host_of self.old))
            acts.old acts.new self.old self.new result }
    {
        acts.push(Act::Make {
            ap,
            intf: purpose.intf,
            cport: purpose.cport,
            protocol,
            purpose,
        })?;
        self.request(acts, SVC, ap, purpose)?;
        self.links.reserve()?;
        self.pending = Some(Pending { ap, protocol });
        Ok(())
    }

    /// The request of a purpose on a connection goes to the end of the acts.
    pub(crate) fn request(
        &self,
        acts: &mut Acts,
        on: u64,
        ap: u16,
        purpose: Purpose,
    ) -> Result<(), OutOfMemory>
        ensures { OnOk result (acts.new ≡ acts.old
            ++ asks (asking on purpose (target ap purpose (host_of self.now))) ∷ []) }
    {
        let target = self.target(ap, purpose);
        let payload = payload(self.alloc, purpose.step, target);
        acts.push(Act::Ask {
            on,
            kind: kind(purpose.step),
            payload,
            purpose,
        })?;
        Ok(())
    }

    /// The connection on which the request of a purpose goes.
    fn way(&self, purpose: Purpose) -> Option<u64>
        ensures { result ≡ way_of purpose (host_of self.now) }
    {
        if !asks_control(purpose.step) {
            return Some(SVC);
        }
        Some(self.links.at(purpose.intf, 0)?.connection)
    }

    /// What the request of a purpose speaks of.
    fn target(&self, ap: u16, purpose: Purpose) -> Target
        ensures { target_of result ≡ target ap purpose (host_of self.now) }
    {
        Target {
            intf: purpose.intf,
            cport: purpose.cport,
            ap,
            device: self.device(purpose.intf),
        }
    }

    /// The application processor's CPort of the connection of a purpose, where its request speaks
    /// of that. Else, and where there is none, 0.
    fn ap(&self, purpose: Purpose) -> u16
        ensures { payload_of purpose.step (target result purpose (host_of self.now))
            ≡ payload_of purpose.step (target (ap_in (link_at purpose.intf purpose.cport
            (host_of self.now))) purpose (host_of self.now)) }
    {
        if !speaks_of_ap(purpose.step) {
            return 0;
        }
        match self.links.at(purpose.intf, purpose.cport) {
            Some(link) => link.ap,
            None => 0,
        }
    }

    /// The device id of an interface, 0 where it has none.
    fn device(&self, intf: u8) -> u8
        ensures { result ≡ device_in (interface_of intf (host_of self.now)) }
    {
        match self.interfaces.at(intf) {
            Some(interface) => interface.device.unwrap_or(0),
            None => 0,
        }
    }
}
