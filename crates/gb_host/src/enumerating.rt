//! The enumeration of an interface.

ghost use Rattle.std.specs.Prelude.{◌≡◌, ◌+◌, ◌≤◌, ◌∷◌, ◌++◌, [], IfOk, OnOk};
ghost use Rattle.gb_base.specs.declared.entry.Entry.TheVariants as entry;
ghost use Rattle.gb_base.specs.declared.entry.IntfStage.TheVariants as stage;
ghost use Rattle.gb_base.specs.declared.steps.SequenceStep.TheVariants as steps;
ghost use Rattle.gb_formats.specs.Manifest.{check_answer};
ghost use Rattle.gb_host.specs.Turning.{begins, begun, spelled};
ghost use Rattle.gb_machine.specs.Failures.{interface_fails};
ghost use Rattle.gb_machine.specs.Host.{free_cport, free_device, interface_of, with_interface};
ghost use Rattle.gb_machine.specs.HostTurns.{host_inserted, one_by_one};
ghost use Rattle.gb_machine.specs.Lists.{span};
ghost use Rattle.gb_machine.specs.SequenceSteps.{at_step};
ghost use Rattle.gb_machine.specs.Sequences.{begins_control, begins_device, control_opened};
ghost use Rattle.gb_machine.specs.Sequences.{device_given, enumerated, manifest_checked};
ghost use Rattle.gb_machine.specs.Sequences.{manifest_told, size_known, size_told};
ghost use Rattle.gb_machine.specs.Turns as turns;
ghost use Rattle.gb_machine.specs.Turns.{failed_turn, telling, turn};
ghost use Rattle.gb_manifest.specs.Checks.{IsAccepted};

use crate::failing::{tell_interface, to_step};
use crate::host::SVC;
use crate::interfaces::Change;
use crate::replies::{refused_in, size_in};
use crate::{Act, Acts, Host};
use gb_base::{Bytes, ConnState, Entry, IntfStage, OutOfMemory, Purpose, Sequence, SequenceStep};
use gb_manifest::Refused;
use gb_payload::protocols::CONTROL;
use std::alloc::Global;

impl Host {
    ghost use Rattle.gb_host.specs.Stands.{host_of};
    ghost use Rattle.gb_host.specs.Turning.{TurnsAfter};

    /// The enumeration of each interface of a module begins, in order of number.
    pub(crate) fn inserted(
        &mut self,
        acts: &mut Acts,
        primary: u8,
        count: u8,
    ) -> Result<(), OutOfMemory>
        ensures { primary + count ≤ 256 → TurnsAfter
            (one_by_one (host_inserted primary) (span primary count) (host_of self.old))
            acts.old acts.new self.old self.new result }
    {
        let intfs = span(self.alloc, primary, count)?;
        self.begin_all(acts, intfs.items())?;
        self.interfaces.add(self.alloc, primary, intfs.items())?;
        Ok(())
    }

    /// The enumerations of interfaces begin, one after another.
    fn begin_all(&self, acts: &mut Acts, intfs: &[u8]) -> Result<(), OutOfMemory>
        ensures { OnOk result (acts.new ≡ acts.old ++ spelled (begun intfs.now)) }
    {
        for intf in intfs {
            self.begin(acts, *intf)?;
        }
        Ok(())
    }

    /// It is told that the enumeration of an interface begins, and its power is asked for.
    fn begin(&self, acts: &mut Acts, intf: u8) -> Result<(), OutOfMemory>
        ensures { OnOk result (acts.new ≡ acts.old ++ spelled (begins intf)) }
    {
        let purpose = Purpose {
            intf,
            cport: 0,
            step: SequenceStep::EnableVsys,
        };
        tell_interface(acts, intf, IntfStage::Enumerating)?;
        self.request(acts, SVC, 0, purpose)?;
        Ok(())
    }

    /// An interface gets the least device id that is free, or fails where none is.
    pub(crate) fn begin_device(
        &mut self,
        acts: &mut Acts,
        purpose: Purpose,
    ) -> Result<(), OutOfMemory>
        ensures { TurnsAfter (begins_device (free_device (host_of self.old))
            (at_step steps.GiveDevice purpose) (host_of self.old))
            acts.old acts.new self.old self.new result }
    {
        let purpose = to_step(purpose, SequenceStep::GiveDevice);
        let Some(device) = self.interfaces.free_device() else {
            return self.interface_fails(acts, purpose);
        };
        self.ask_changed(acts, purpose, Change::Device(Some(device)))
    }

    /// The supervisory controller gave an interface its device id.
    pub(crate) fn device_given(
        &mut self,
        acts: &mut Acts,
        purpose: Purpose,
    ) -> Result<(), OutOfMemory>
        ensures { TurnsAfter (device_given purpose (host_of self.old))
            acts.old acts.new self.old self.new result }
    {
        let purpose = to_step(purpose, SequenceStep::CreateRoute);
        self.ask_changed(acts, purpose, Change::HasDevice(true))
    }

    /// The Control connection is made on the least CPort that is free. Its interface fails where
    /// none is.
    pub(crate) fn begin_control(
        &mut self,
        acts: &mut Acts,
        purpose: Purpose,
    ) -> Result<(), OutOfMemory>
        ensures { TurnsAfter (begins_control (free_cport (host_of self.old))
            (at_step steps.CreateControl purpose) (host_of self.old))
            acts.old acts.new self.old self.new result }
    {
        let purpose = to_step(purpose, SequenceStep::CreateControl);
        let Some(ap) = self.links.free_cport() else {
            return self.interface_fails(acts, purpose);
        };
        self.open(acts, purpose, ap, CONTROL)
    }

    /// The Control connection is open, and the version is asked.
    pub(crate) fn control_opened(
        &mut self,
        acts: &mut Acts,
        purpose: Purpose,
    ) -> Result<(), OutOfMemory>
        ensures { TurnsAfter (control_opened purpose (host_of self.old))
            acts.old acts.new self.old self.new result }
    {
        self.tell_link(acts, purpose, ConnState::Open)?;
        let purpose = to_step(purpose, SequenceStep::AskVersion);
        self.ask_in_state(acts, purpose, ConnState::Open)?;
        Ok(())
    }

    /// The size of the manifest was told.
    pub(crate) fn size_told(
        &mut self,
        acts: &mut Acts,
        purpose: Purpose,
        payload: &[u8],
    ) -> Result<(), OutOfMemory>
        ensures { TurnsAfter (size_told purpose payload.now (host_of self.old))
            acts.old acts.new self.old self.new result }
    {
        let purpose = to_step(purpose, SequenceStep::AskManifest);
        self.ask_changed(acts, purpose, Change::Size(size_in(payload)))
    }

    /// The manifest came. The interface fails where it hasn't the length that was told.
    pub(crate) fn manifest_told(
        &mut self,
        acts: &mut Acts,
        purpose: Purpose,
        bytes: Bytes,
    ) -> Result<(), OutOfMemory>
        ensures { TurnsAfter (manifest_told purpose bytes (host_of self.old))
            acts.old acts.new self.old self.new result }
    {
        if bytes.items().len() != usize::from(self.size_known(purpose.intf)) {
            return self.interface_fails(acts, purpose);
        }
        self.manifest_checked(acts, purpose, bytes)
    }

    /// The manifest is accepted, or refused and named.
    fn manifest_checked(
        &mut self,
        acts: &mut Acts,
        purpose: Purpose,
        bytes: Bytes,
    ) -> Result<(), OutOfMemory>
        ensures { TurnsAfter (manifest_checked (check_answer bytes) purpose bytes
            (host_of self.old))
            acts.old acts.new self.old self.new result }
    {
        match refused_in(bytes.items()) {
            None => self.enumerated(acts, purpose, bytes),
            Some(refused) => self.manifest_refused(acts, purpose, refused),
        }
    }

    /// The interface is enumerated with this manifest, which was accepted.
    fn enumerated(
        &mut self,
        acts: &mut Acts,
        purpose: Purpose,
        bytes: Bytes,
    ) -> Result<(), OutOfMemory>
        requires { IsAccepted bytes }
        ensures { TurnsAfter (turn
            (with_interface purpose.intf (enumerated bytes) (host_of self.old))
            (turns.Act.Tell (entry.Interface purpose.intf stage.Enumerated) ∷ []))
            acts.old acts.new self.old self.new result }
    {
        tell_interface(acts, purpose.intf, IntfStage::Enumerated)?;
        self.interfaces.enumerate(purpose.intf, bytes);
        Ok(())
    }

    /// The manifest is refused, and the interface fails.
    fn manifest_refused(
        &mut self,
        acts: &mut Acts,
        purpose: Purpose,
        refused: Refused,
    ) -> Result<(), OutOfMemory>
        ensures { TurnsAfter (telling (entry.Manifest purpose.intf refused.at refused.reason)
            (failed_turn (interface_fails purpose (host_of self.old))))
            acts.old acts.new self.old self.new result }
    {
        acts.push(Act::Tell {
            entry: Entry::Manifest {
                intf: purpose.intf,
                at: refused.at,
                reason: refused.reason,
            },
        })?;
        self.interface_fails(acts, purpose)?;
        Ok(())
    }

    /// The size of its manifest that was told of an interface, 0 where it is absent.
    fn size_known(&self, intf: u8) -> u16
        ensures { result ≡ size_known (interface_of intf (host_of self.now)) }
    {
        match self.interfaces.at(intf) {
            Some(interface) => interface.size,
            None => 0,
        }
    }
}

/// So many interfaces from the primary one on; those beyond 255 are left out.
fn span(alloc: Global, primary: u8, count: u8) -> Result<Sequence<u8>, OutOfMemory>
    ensures { primary + count ≤ 256 → IfOk result (λ intfs. intfs ≡ span primary count) }
{
    let mut intfs = Sequence::new(alloc);
    for n in 0..count {
        let Some(intf) = primary.checked_add(n) else {
            return Ok(intfs);
        };
        intfs.push(intf)?;
    }
    Ok(intfs)
}
