//! The manifests of the kinds, and their CPorts.

ghost use Rattle.std.specs.Prelude.{◌≡◌, ◌≤◌, [], ◌++◌, IfOk, OnOk, length};
ghost use Rattle.gb_formats.specs.Devices.{device_of};
ghost use Rattle.gb_formats.specs.Kinds as formats;
ghost use Rattle.gb_formats.specs.Module.{port_onto, ports_of};
ghost use Rattle.gb_formats.specs.Results.{most_payload};

use crate::device::Device;
use crate::port::Port;
use gb_base::{Kind, OutOfMemory};
use gb_payload::protocols::{FIRMWARE, GPIO, I2C, LOOPBACK, SPI, UART};
use std::alloc::Global;

/// The manifest of a kind: behind the header, with a descriptor a line, strings 1 and 2 for vendor
/// and product, bundle 0 with CPort 0 for Control, and bundle 1 with the kind's CPorts.
pub fn manifest(kind: Kind) -> &'static [u8]
    ensures is { result.now ≡ formats.kind_manifest kind }
    ensures short { length result.now ≤ most_payload }
{
    match kind {
        Kind::Gpio => {
            b"\x48\0\0\x01\
              \x08\0\x01\0\x01\x02\0\0\
              \x10\0\x02\0\x07\x01Greybus\0\0\0\
              \x0c\0\x02\0\x04\x02GPIO\0\0\
              \x08\0\x03\0\0\0\0\0\
              \x08\0\x03\0\x01\x0a\0\0\
              \x08\0\x04\0\0\0\0\0\
              \x08\0\x04\0\x01\0\x01\x02"
        }
        Kind::I2c => {
            b"\x48\0\0\x01\
              \x08\0\x01\0\x01\x02\0\0\
              \x10\0\x02\0\x07\x01Greybus\0\0\0\
              \x0c\0\x02\0\x03\x02I2C\0\0\0\
              \x08\0\x03\0\0\0\0\0\
              \x08\0\x03\0\x01\x0a\0\0\
              \x08\0\x04\0\0\0\0\0\
              \x08\0\x04\0\x01\0\x01\x03"
        }
        Kind::Spi => {
            b"\x48\0\0\x01\
              \x08\0\x01\0\x01\x02\0\0\
              \x10\0\x02\0\x07\x01Greybus\0\0\0\
              \x0c\0\x02\0\x03\x02SPI\0\0\0\
              \x08\0\x03\0\0\0\0\0\
              \x08\0\x03\0\x01\x0a\0\0\
              \x08\0\x04\0\0\0\0\0\
              \x08\0\x04\0\x01\0\x01\x0b"
        }
        Kind::Uart => {
            b"\x48\0\0\x01\
              \x08\0\x01\0\x01\x02\0\0\
              \x10\0\x02\0\x07\x01Greybus\0\0\0\
              \x0c\0\x02\0\x04\x02UART\0\0\
              \x08\0\x03\0\0\0\0\0\
              \x08\0\x03\0\x01\x0a\0\0\
              \x08\0\x04\0\0\0\0\0\
              \x08\0\x04\0\x01\0\x01\x04"
        }
        Kind::Bridge => {
            b"\x60\0\0\x01\
              \x08\0\x01\0\x01\x02\0\0\
              \x10\0\x02\0\x07\x01Greybus\0\0\0\
              \x0c\0\x02\0\x06\x02Bridge\
              \x08\0\x03\0\0\0\0\0\
              \x08\0\x03\0\x01\x0a\0\0\
              \x08\0\x04\0\0\0\0\0\
              \x08\0\x04\0\x01\0\x01\x02\
              \x08\0\x04\0\x02\0\x01\x03\
              \x08\0\x04\0\x03\0\x01\x0b\
              \x08\0\x04\0\x04\0\x01\x04"
        }
        Kind::Loopback => {
            b"\x4c\0\0\x01\
              \x08\0\x01\0\x01\x02\0\0\
              \x10\0\x02\0\x07\x01Greybus\0\0\0\
              \x10\0\x02\0\x08\x02Loopback\0\0\
              \x08\0\x03\0\0\0\0\0\
              \x08\0\x03\0\x01\x11\0\0\
              \x08\0\x04\0\0\0\0\0\
              \x08\0\x04\0\x01\0\x01\x11"
        }
        Kind::Firmware => {
            b"\x4c\0\0\x01\
              \x08\0\x01\0\x01\x02\0\0\
              \x10\0\x02\0\x07\x01Greybus\0\0\0\
              \x10\0\x02\0\x08\x02Firmware\0\0\
              \x08\0\x03\0\0\0\0\0\
              \x08\0\x03\0\x01\xff\0\0\
              \x08\0\x04\0\0\0\0\0\
              \x08\0\x04\0\x01\0\x01\x17"
        }
    }
}

/// The CPorts of a kind: those with a device that its manifest declares.
pub fn ports(alloc: Global, kind: Kind) -> Result<Vec<Port>, OutOfMemory>
    ensures { IfOk result (λ ports. ports.items ≡ ports_of (formats.kind_cports kind)) }
{
    let mut ports = Vec::new(alloc);
    match kind {
        Kind::Gpio => add(&mut ports, 1, GPIO)?,
        Kind::I2c => add(&mut ports, 1, I2C)?,
        Kind::Spi => add(&mut ports, 1, SPI)?,
        Kind::Uart => add(&mut ports, 1, UART)?,
        Kind::Bridge => {
            add(&mut ports, 1, GPIO)?;
            add(&mut ports, 2, I2C)?;
            add(&mut ports, 3, SPI)?;
            add(&mut ports, 4, UART)?;
        }
        Kind::Loopback => add(&mut ports, 1, LOOPBACK)?,
        Kind::Firmware => add(&mut ports, 1, FIRMWARE)?,
    }
    Ok(ports)
}

/// A CPort goes to the end, if its protocol has a device. In line, since its protocol is known
/// where it is called, and its device is then laid at its place at once.
#[inline(always)]
fn add(ports: &mut Vec<Port>, number: u16, protocol: u8) -> Result<(), OutOfMemory>
    ensures { OnOk result (ports.new.items
        ≡ ports.old.items ++ port_onto number protocol (device_of protocol) []) }
{
    let alloc = *ports.allocator();
    if let Some(device) = Device::of(alloc, protocol)? {
        ports.push(Port::new(alloc, number, protocol, device))?;
    }
    Ok(())
}
