//! The interfaces that modules were inserted at.

ghost use Rattle.std.specs.Prelude.{◌≡◌, ◌<◌, ◌≤◌, ◌+◌, nat_lt, [], None, IfOk, IfSome, OnErr};
ghost use Rattle.std.specs.Prelude.{OnOk, find, insert, length, map, option_copied, true};
ghost use Rattle.std.specs.List.{filter, list_any, position_from};
ghost use Rattle.std.specs.Vec.{vec_capacity, vec_len};
ghost use Rattle.gb_base.specs.declared.interface.Interface.{Interface};
ghost use Rattle.gb_host.specs.Changes.{with_module};
ghost use Rattle.gb_host.specs.declared.interfaces.Change.TheVariants as change;
ghost use Rattle.gb_host.specs.Known.{AreQuiet, HasAccepted};
ghost use Rattle.gb_machine.specs.Host.{has_device_id, has_primary, intf_before, is_device};
ghost use Rattle.gb_machine.specs.Host.{is_intf, new_interface, staged};
ghost use Rattle.gb_machine.specs.Lists.{at_first, first_free, in_order, without};
ghost use Rattle.gb_machine.specs.Sequences.{enumerated};
ghost use Rattle.gb_machine.specs.Waits.{interface_waits};
ghost use Rattle.gb_manifest.specs.Checks.{IsAccepted};

use crate::waiting::purpose_in;
use gb_base::{Bytes, Interface, IntfStage, OutOfMemory, Purpose, Sequence, SequenceStep};
use std::alloc::Global;
use std::marker::Model;

/// The least device id that an interface gets.
const LEAST_DEVICE: u8 = 2;

/// The greatest device id, and one more.
const DEVICES_END: u8 = 32;

/// A change of what is known of an interface.
#[derive(Clone, Copy)]
pub enum Change {
    /// It is to have a device id, or none.
    Device(Option<u8>),
    /// The supervisory controller gave it its device id, or didn't.
    HasDevice(bool),
    /// The size of its manifest in bytes, as it was told.
    Size(u16),
}

/// The interfaces that modules were inserted at, in order of number: thirty at most. A contract
/// sees them alone. Where it is kept that no enumeration waits, none is looked at for one. Their
/// manifests were accepted, so none is checked again.
#[derive(Drop)]
pub struct Interfaces {
    known: Vec<Interface>,
    quiet: bool,
}

impl Model for Interfaces {
    ghost use Rattle.std.specs.Prelude.{List};
    ghost use Rattle.gb_base.specs.declared.interface.Interface.{Interface};

    ghost Value = { List Interface };

    ghost use Rattle.gb_host.specs.Known.{AreKept};

    ghost view = { λ x. x.known.items };

    ghost invariant = { λ x. AreKept x.quiet x.known.items };
}

impl Interfaces {
    ghost use Rattle.gb_host.specs.Changes.{changed, interface_awaits, with_device};

    /// No interfaces. It takes no memory yet.
    pub fn new(alloc: Global) -> Interfaces
        ensures { result ≡ [] }
    {
        Interfaces {
            known: Vec::new(alloc),
            quiet: true,
        }
    }

    /// The interfaces in order of number.
    pub fn items(&self) -> &[Interface]
        ensures { result.now ≡ self.now }
    {
        self.known.as_slice()
    }

    /// What is known of an interface.
    pub fn at(&self, intf: u8) -> Option<&Interface>
        ensures found { option_copied result ≡ find (is_intf intf) self.now }
        ensures accepted { IfSome result (λ x. HasAccepted x.now) }
    {
        for interface in &self.known {
            if interface.intf == intf {
                return Some(interface);
            }
        }
        None
    }

    /// The purpose of a request that an enumeration waits for.
    #[inline]
    pub fn waiting(&self, number: u64) -> Option<Purpose>
        ensures { result ≡ interface_waits number self.now }
    {
        if self.quiet {
            return None;
        }
        self.sought(number)
    }

    /// The purpose of a request that an enumeration waits for, looked for one by one.
    fn sought(&self, number: u64) -> Option<Purpose>
        ensures { result ≡ interface_waits number self.now }
    {
        for interface in &self.known {
            if let Some(purpose) = purpose_in(number, interface.intf, 0, interface.awaits) {
                return Some(purpose);
            }
        }
        None
    }

    /// The least device id from 2 to 31 that no interface has.
    pub fn free_device(&self) -> Option<u8>
        ensures { result ≡ first_free (λ d. list_any (has_device_id d) self.now) 30 2 }
    {
        for device in LEAST_DEVICE..DEVICES_END {
            if !self.has_device(device) {
                return Some(device);
            }
        }
        None
    }

    /// The interfaces of a module, by its primary one, in order of number.
    pub fn of(&self, alloc: Global, primary: u8) -> Result<Sequence<u8>, OutOfMemory>
        ensures { IfOk result (λ intfs.
            intfs ≡ map (λ x. x.intf) (filter (has_primary primary) self.now)) }
    {
        let mut intfs = Sequence::new(alloc);
        for interface in &self.known {
            if interface.primary == primary {
                intfs.push(interface.intf)?;
            }
        }
        Ok(intfs)
    }

    /// These interfaces of a module are known from now on, and their enumerations begin. After a
    /// refusal nothing has changed.
    pub fn add(&mut self, alloc: Global, primary: u8, intfs: &[u8]) -> Result<(), OutOfMemory>
        ensures ok { OnOk result (self.new ≡ with_module primary intfs.now self.old) }
        ensures err { OnErr result (self.new ≡ self.old) }
    {
        self.known.reserve(intfs.len())?;
        add_all(&mut self.known, alloc, primary, intfs);
        Ok(())
    }

    /// An interface is absent from now on.
    pub fn remove(&mut self, intf: u8)
        ensures { self.new ≡ without (is_intf intf) self.old }
    {
        self.known.retain(|interface| interface.intf != intf);
    }

    /// An interface is changed.
    pub fn change(&mut self, intf: u8, change: Change)
        ensures { self.new ≡ at_first (is_intf intf) (changed change) self.old }
    {
        match change {
            Change::Device(device) => self.set_device(intf, device),
            Change::HasDevice(has_device) => self.set_has_device(intf, has_device),
            Change::Size(size) => self.set_size(intf, size),
        }
    }

    /// The change that puts back what a change is about to replace.
    pub fn back(&self, intf: u8, change: Change) -> Change
        ensures { at_first (is_intf intf) (changed result)
            (at_first (is_intf intf) (changed change) self.now) ≡ self.now }
    {
        let Some(interface) = self.at(intf) else {
            return change;
        };
        match change {
            Change::Device(_) => Change::Device(interface.device),
            Change::HasDevice(_) => Change::HasDevice(interface.has_device),
            Change::Size(_) => Change::Size(interface.size),
        }
    }

    /// What the enumeration of an interface waits for.
    pub fn awaits(&self, intf: u8) -> Option<(u64, SequenceStep)>
        ensures { at_first (is_intf intf) (interface_awaits result)
            (at_first (is_intf intf) (interface_awaits None) self.now) ≡ self.now }
    {
        match self.at(intf) {
            Some(interface) => interface.awaits,
            None => None,
        }
    }

    /// An interface has a stage from now on.
    pub fn set_stage(&mut self, intf: u8, to: IntfStage)
        ensures { self.new ≡ at_first (is_intf intf) (staged to) self.old }
    {
        if let Some(i) = self.index(intf) {
            self.known[i].stage = to;
        }
    }

    /// An interface is to have a device id, or none.
    pub fn set_device(&mut self, intf: u8, device: Option<u8>)
        ensures { self.new ≡ at_first (is_intf intf) (with_device device) self.old }
    {
        if let Some(i) = self.index(intf) {
            self.known[i].device = device;
        }
    }

    /// The supervisory controller gave an interface its device id, or didn't.
    fn set_has_device(&mut self, intf: u8, has_device: bool)
        ensures { self.new ≡ at_first (is_intf intf) (changed (change.HasDevice has_device))
            self.old }
    {
        if let Some(i) = self.index(intf) {
            self.known[i].has_device = has_device;
        }
    }

    /// The size of the manifest of an interface was told.
    fn set_size(&mut self, intf: u8, size: u16)
        ensures { self.new ≡ at_first (is_intf intf) (changed (change.Size size)) self.old }
    {
        if let Some(i) = self.index(intf) {
            self.known[i].size = size;
        }
    }

    /// An interface is enumerated with this manifest, which was accepted.
    pub fn enumerate(&mut self, intf: u8, manifest: Bytes)
        requires { IsAccepted manifest }
        ensures { self.new ≡ at_first (is_intf intf) (enumerated manifest) self.old }
    {
        if let Some(i) = self.index(intf) {
            let interface = &mut self.known[i];
            enumerate(interface, manifest);
        }
    }

    /// The enumeration of an interface waits for this.
    pub fn set_awaits(&mut self, intf: u8, awaits: Option<(u64, SequenceStep)>)
        ensures { self.new ≡ at_first (is_intf intf) (interface_awaits awaits) self.old }
    {
        if let Some(i) = self.index(intf) {
            self.known[i].awaits = awaits;
            self.quiet = are_quiet(self.known.as_slice());
        }
    }

    /// Where an interface stands.
    fn index(&self, intf: u8) -> Option<usize>
        ensures first { result ≡ position_from (is_intf intf) 0 self.now }
        ensures within { IfSome result (λ i. i < length self.now) }
    {
        for (i, interface) in self.known.iter().enumerate() {
            if interface.intf == intf {
                return Some(i);
            }
        }
        None
    }

    /// Some interface is to have a device id.
    fn has_device(&self, device: u8) -> bool
        ensures { result ≡ list_any (has_device_id device) self.now }
    {
        for interface in &self.known {
            if is_device(device, interface.device) {
                return true;
            }
        }
        false
    }
}

/// These interfaces of a module are known from now on, where there is room for them.
fn add_all(known: &mut Vec<Interface>, alloc: Global, primary: u8, intfs: &[u8])
    requires { vec_len known.old + length intfs.now ≤ vec_capacity known.old }
    ensures { known.new.items ≡ with_module primary intfs.now known.old.items }
{
    for intf in intfs {
        add(known, new_interface(alloc, primary, *intf));
    }
}

/// An interface is known from now on, where there is room for it.
fn add(known: &mut Vec<Interface>, interface: Interface)
    requires { vec_len known.old < vec_capacity known.old }
    ensures items { known.new.items ≡ in_order intf_before interface known.old.items }
    ensures len { vec_len known.new ≡ vec_len known.old + 1 }
    ensures capacity { vec_capacity known.old ≤ vec_capacity known.new }
{
    let place = place(known.as_slice(), interface.intf);
    let _placed = known.insert(place, interface);
}

/// An interface of a module, whose enumeration begins.
fn new_interface(alloc: Global, primary: u8, intf: u8) -> Interface
    ensures { result ≡ new_interface primary intf }
{
    Interface {
        intf,
        primary,
        stage: IntfStage::Enumerating,
        device: None,
        has_device: false,
        size: 0,
        manifest: Bytes::new(alloc),
        awaits: None,
    }
}

/// Where an interface belongs in the order of numbers: behind those up to its own.
fn place(known: &[Interface], intf: u8) -> usize
    ensures order { (x : Interface) → x.intf ≡ intf
        → insert known.now result x ≡ in_order intf_before x known.now }
    ensures within { result ≤ length known.now }
{
    match index_above(known, intf) {
        Some(i) => i,
        None => known.len(),
    }
}

/// Where the first interface of a greater number stands.
fn index_above(known: &[Interface], intf: u8) -> Option<usize>
    ensures first { result ≡ position_from (λ x. nat_lt intf x.intf) 0 known.now }
    ensures within { IfSome result (λ i. i < length known.now) }
{
    for (i, interface) in known.iter().enumerate() {
        if intf < interface.intf {
            return Some(i);
        }
    }
    None
}

/// An interface is enumerated with this manifest.
fn enumerate(interface: &mut Interface, manifest: Bytes)
    ensures { interface.new ≡ enumerated manifest interface.old }
{
    interface.stage = IntfStage::Enumerated;
    interface.manifest = manifest;
}

/// No enumeration of these interfaces waits.
fn are_quiet(known: &[Interface]) -> bool
    ensures { result ≡ true → AreQuiet known.now }
{
    for interface in known {
        if interface.awaits.is_some() {
            return false;
        }
    }
    true
}

/// A device id is this one.
fn is_device(device: u8, id: Option<u8>) -> bool
    ensures { result ≡ is_device device id }
{
    match id {
        Some(id) => id == device,
        None => false,
    }
}
