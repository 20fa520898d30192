//! The CPorts of a manifest.

ghost use Rattle.std.specs.Prelude.{◌≡◌, ◌∷◌, ◌++◌, IfOk, List, OnOk};
ghost use Rattle.gb_formats.specs.Descriptors as descriptors;
ghost use Rattle.gb_formats.specs.Manifest.{check_answer};
ghost use Rattle.gb_formats.specs.Module.{ports_in, raw_ports};
ghost use Rattle.gb_manifest.specs.Values.{descriptor_of};
ghost use Rattle.gb_module.specs.DeclaredPorts.{Declares};

use crate::device::Device;
use crate::port::Port;
use gb_base::OutOfMemory;
use gb_manifest::{Descriptor, Descriptors, check};
use std::alloc::Global;

/// The bundle of the Control CPort.
const CONTROL_BUNDLE: u8 = 0;

/// The CPorts with a device of a manifest. None where the bytes are no manifest.
pub fn declared_ports(alloc: Global, manifest: &[u8]) -> Result<Vec<Port>, OutOfMemory>
    ensures { IfOk result (λ ports. ports.items ≡ raw_ports (check_answer manifest.now)) }
{
    match check(manifest) {
        Ok(declared) => ports_in(alloc, declared.descriptors()),
        Err(_) => Ok(Vec::new(alloc)),
    }
}

/// The CPorts outside bundle 0 whose protocol has a device, in order.
fn ports_in(alloc: Global, descriptors: Descriptors<'_>) -> Result<Vec<Port>, OutOfMemory>
    ensures { IfOk result (λ ports. ports.items ≡ ports_in descriptors.entry) }
{
    let mut ports = Vec::new(alloc);
    for descriptor in descriptors {
        add_port(alloc, &descriptor, &mut ports)?;
    }
    Ok(ports)
}

/// The CPort that a descriptor declares is added, if that stands outside bundle 0 and has a device.
fn add_port(
    alloc: Global,
    descriptor: &Descriptor<'_>,
    ports: &mut Vec<Port>,
) -> Result<(), OutOfMemory>
    ensures { OnOk result ((later : List descriptors.Descriptor)
        → ports.new.items ++ ports_in later
        ≡ ports.old.items ++ ports_in (descriptor_of descriptor.now ∷ later)) }
{
    if let Some(port) = port_of(alloc, descriptor)? {
        ports.push(port)?;
    }
    Ok(())
}

/// The CPort that a descriptor declares, if that stands outside bundle 0 and has a device.
fn port_of(alloc: Global, descriptor: &Descriptor<'_>) -> Result<Option<Port>, OutOfMemory>
    ensures { IfOk result (λ port. Declares (descriptor_of descriptor.now) port) }
{
    let Descriptor::Cport {
        id,
        bundle,
        protocol,
    } = descriptor
    else {
        return Ok(None);
    };
    if *bundle == CONTROL_BUNDLE {
        return Ok(None);
    }
    let Some(device) = Device::of(alloc, *protocol)? else {
        return Ok(None);
    };
    Ok(Some(Port::new(alloc, *id, *protocol, device)))
}
