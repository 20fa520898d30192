//! The start of the supervisory controller, and modules that come and go.

ghost use Rattle.std.specs.Prelude.{◌≡◌, ◌≤◌, ℕ, List, [], false, length, IfNone, OnOk};
ghost use Rattle.gb_base.specs.Kinds.{most_kinds};
ghost use Rattle.gb_base.specs.declared.event.Event.TheVariants as event;
ghost use Rattle.gb_formats.specs.Results.{most_payload};
ghost use Rattle.gb_formats.specs.ValidEvents.{HasKinds, IsIntf};
ghost use Rattle.gb_machine.specs.Actions.{when};
ghost use Rattle.gb_machine.specs.Lists.{first_met};
ghost use Rattle.gb_machine.specs.OwnAsking.{far_asks};
ghost use Rattle.gb_machine.specs.Plugging.{pulls_one, tells_inserted, tells_removed, with_plugged};
ghost use Rattle.gb_machine.specs.Ports.{is_powered};
ghost use Rattle.gb_machine.specs.Refusals.{insert_conditions};
ghost use Rattle.gb_machine.specs.State.{State};
ghost use Rattle.gb_laws.specs.Possible.{IsAskable};
ghost use Rattle.gb_system.specs.Doing.{Does, EventAs};
ghost use Rattle.gb_system.specs.Drafts.{own_ask};
ghost use Rattle.gb_system.specs.Plugging.{IsWithin};
ghost use Rattle.gb_system.specs.Stands.{PartiesStand, PartsStand};

use crate::modules::Plugged;
use crate::parties::Parties;
use crate::stop::Stop;
use gb_base::{Entries, Kinds, OutOfMemory, Refusal, Side};
use gb_bridge_payload::MOST_PAYLOAD;
use gb_host::SVC;
use gb_module::Module;
use gb_payload::svc_kinds::{HELLO, MODULE_INSERTED, MODULE_REMOVED, PROTOCOL_VERSION};

/// The greatest interface of a module, and one more.
const INTERFACES_END: u8 = 32;

impl Parties {
    /// The supervisory controller starts: it sends its version, HELLO, and each module that
    /// is plugged.
    pub fn boot(&mut self, told: &mut Entries) -> Result<(), Stop>
        ensures step { (s : State) → PartiesStand self.old s
            → EventAs self.new s event.Boot told.old told.new result }
    {
        if self.booted {
            return Err(Stop::Refused(Refusal::Occupied));
        }
        self.booted = true;
        self.svc_ask(PROTOCOL_VERSION, &[0, 1], told)?;
        self.svc_ask(HELLO, &[1, 0, 1], told)?;
        for i in 0..self.modules.count() {
            if let Some(span) = self.modules.told_at(i) {
                self.tell_inserted(span.primary, span.count, told)?;
            }
        }
        Ok(())
    }

    /// A module is plugged with an interface for each of these kinds. Its primary one is 2 to 31.
    pub fn insert(&mut self, intf: u8, kinds: &Kinds, told: &mut Entries) -> Result<(), Stop>
        requires intf { IsIntf intf }
        requires kinds { HasKinds kinds.now }
        ensures step { (s : State) → PartiesStand self.old s
            → EventAs self.new s (event.Insert intf kinds.now) told.old told.new result }
    {
        let count = kinds.items().len() as u8;
        if let Some(why) = self.insert_refusal(intf, count, 0) {
            return Err(Stop::Refused(why));
        }
        for (i, kind) in kinds.items().iter().enumerate() {
            let body = Module::of_kind(self.alloc, *kind)?;
            self.plug(Plugged {
                intf: intf + i as u8,
                primary: intf,
                count,
                body,
            })?;
        }
        self.tell_plugged(intf, count, told)?;
        Ok(())
    }

    /// A module of one interface, 2 to 31, is plugged with these bytes as its manifest.
    pub fn insert_raw(&mut self, intf: u8, manifest: &[u8], told: &mut Entries) -> Result<(), Stop>
        requires { IsIntf intf }
        ensures step { (s : State) → PartiesStand self.old s
            → EventAs self.new s (event.InsertRaw intf manifest.now) told.old told.new result }
    {
        if let Some(why) = self.insert_refusal(intf, 1, manifest.len()) {
            return Err(Stop::Refused(why));
        }
        let body = Module::raw(self.alloc, manifest)?;
        self.plug(Plugged {
            intf,
            primary: intf,
            count: 1,
            body,
        })?;
        self.tell_plugged(intf, 1, told)?;
        Ok(())
    }

    /// The module that has this interface is pulled: all of its interfaces, one after another.
    pub fn pull(&mut self, intf: u8, told: &mut Entries) -> Result<(), Stop>
        ensures step { (s : State) → PartiesStand self.old s
            → EventAs self.new s (event.Pull intf) told.old told.new result }
    {
        let Some(span) = self.modules.span(intf) else {
            return Err(Stop::Refused(Refusal::NoInterface));
        };
        if self.bus.spent(SVC, Side::Far) {
            return Err(Stop::Refused(Refusal::NoLabel));
        }
        for i in 0..span.count {
            self.pull_one(span.primary + i, told)?;
        }
        self.tell_removed(span.primary, told)?;
        Ok(())
    }

    /// Why no module of so many interfaces, from this one on, and with so many bytes in its
    /// manifest can be plugged.
    fn insert_refusal(&self, intf: u8, count: u8, size: usize) -> Option<Refusal>
        requires intf { IsIntf intf }
        requires few { count ≤ most_kinds }
        ensures is { (s : State) (manifest : List ℕ) → PartsStand [] self.now s
            → length manifest ≡ size
            → result ≡ first_met (insert_conditions s intf count manifest) }
        ensures within { IfNone result (IsWithin intf count) }
        ensures fits { IfNone result (size ≤ most_payload) }
    {
        if intf + count > INTERFACES_END {
            return Some(Refusal::OutOfRange);
        }
        if self.modules.any(intf, count) {
            return Some(Refusal::Occupied);
        }
        if size > MOST_PAYLOAD {
            return Some(Refusal::TooLarge);
        }
        if self.bus.spent(SVC, Side::Far) {
            return Some(Refusal::NoLabel);
        }
        None
    }

    /// A part of a module is plugged, without power.
    fn plug(&mut self, part: Plugged) -> Result<(), OutOfMemory>
        requires { IsIntf part.intf }
        ensures step { OnOk result ((s : State) → PartsStand [] self.old s
            → is_powered part.intf s.ports ≡ false → length part.body.manifest ≤ most_payload
            → PartsStand [] self.new (with_plugged part s)) }
    {
        let intf = part.intf;
        self.modules.plug(part)?;
        self.ladder.plug(intf);
        Ok(())
    }

    /// One interface of a module is pulled: its connections are unwired in order of number.
    fn pull_one(&mut self, intf: u8, told: &mut Entries) -> Result<(), OutOfMemory>
        requires { IsIntf intf }
        ensures step { OnOk result ((s : State) → PartsStand [] self.old s
            → Does self.new (pulls_one intf) s told.old told.new) }
    {
        for connection in self.bus.wired_to(intf)?.items() {
            self.unwire(*connection, told)?;
        }
        self.modules.unplug(intf);
        self.loads.forget(intf);
        self.ladder.pull(intf);
        Ok(())
    }

    /// MODULE_INSERTED of a module that is plugged, once the supervisory controller has started.
    fn tell_plugged(
        &mut self,
        primary: u8,
        count: u8,
        told: &mut Entries,
    ) -> Result<(), OutOfMemory>
        ensures step { OnOk result ((s : State) → PartsStand [] self.old s → Does self.new
            (when s.booted (tells_inserted primary count)) s told.old told.new) }
    {
        if self.booted {
            self.tell_inserted(primary, count, told)?;
        }
        Ok(())
    }

    /// MODULE_INSERTED of a module, by its primary interface and how many it has.
    fn tell_inserted(
        &mut self,
        primary: u8,
        count: u8,
        told: &mut Entries,
    ) -> Result<(), OutOfMemory>
        ensures step { OnOk result ((s : State) → PartsStand [] self.old s
            → Does self.new (tells_inserted primary count) s told.old told.new) }
    {
        self.svc_ask(MODULE_INSERTED, &[primary, count, 0, 0], told)?;
        Ok(())
    }

    /// MODULE_REMOVED of a module by its primary interface, once the supervisory controller has
    /// started. Of which interfaces it tells is remembered for the laws alone.
    fn tell_removed(&mut self, primary: u8, told: &mut Entries) -> Result<(), OutOfMemory>
        ensures step { OnOk result ((s : State) (all : List ℕ) → PartsStand [] self.old s
            → Does self.new (when s.booted (tells_removed primary all)) s told.old told.new) }
    {
        if self.booted {
            self.svc_ask(MODULE_REMOVED, &[primary], told)?;
        }
        Ok(())
    }

    /// The supervisory controller makes a request, where an identifier is left.
    fn svc_ask(&mut self, kind: u8, payload: &[u8], told: &mut Entries) -> Result<(), OutOfMemory>
        ensures step { OnOk result ((s : State) → PartsStand [] self.old s
            → IsAskable kind payload.now
            → Does self.new (far_asks 1 (own_ask kind payload.now false)) s told.old told.new) }
    {
        self.far_ask(SVC, kind, payload, false, told)
    }
}
