//! A program of one's own on the layers: it decodes a message, checks a manifest, and steps a
//! system in which a module with that manifest is plugged, connected and asked.
#![tactic(auto)]

ghost use Rattle.std.specs.Prelude.{◌≡◌, [], OnOk};
ghost use Rattle.gb_example.specs.Example.{HasRun, begins_with_success, counted, protocol_in};
ghost use Rattle.gb_example.specs.Example.{protocol_of, session_of};
ghost use Rattle.gb_formats.specs.ValidEvents.{IsName};

mod rig;

use gb_base::{BridgeAsk, Bytes, Event, Name, OutOfMemory, Word};
use gb_bridge_payload::SUCCESS;
use gb_bridge_payload::gpio_kinds::LINE_COUNT;
use gb_manifest::{Manifest, check};
use gb_wire::{RESPONSE, decode};
use rig::Rig;
use std::alloc::Global;
use std::io;
use std::process::ExitCode;

/// A response of type 82 with identifier 1, result 00 and the payload 07.
const ANSWER: [u8; 9] = [9, 0, 1, 0, 0x82, 0, 0, 0, 7];

/// A manifest of an interface, bundle 1 of class 0a, and in it CPort 3 with protocol 02, GPIO.
const MANIFEST: [u8; 28] = [
    28, 0, 0, 1, 8, 0, 1, 0, 0, 0, 0, 0, 8, 0, 3, 0, 1, 10, 0, 0, 8, 0, 4, 0, 3, 0, 1, 2,
];

fn main(rt: HostRuntime) -> ExitCode {
    let Some(word) = Word::from_bytes(b"lines") else {
        return ExitCode::FAILURE;
    };
    let Ok(mut rig) = Rig::new(rt.alloc()) else {
        return ExitCode::FAILURE;
    };
    let ran = session(&mut rig, rt.alloc(), Name { who: 0, word }, &MANIFEST);
    if ran.is_err() || tell(&rt, &rig).is_err() {
        return ExitCode::FAILURE;
    }
    ExitCode::SUCCESS
}

/// Writes what the message and the manifest are, and the report.
fn tell(rt: &HostRuntime, rig: &Rig) -> io::Result<()> {
    let answers = is_success(&ANSWER, 1);
    let protocol = protocol(&MANIFEST, 3);
    println!(rt; "answers request 1 with success: {answers}")?;
    println!(rt; "protocol of CPort 3: {protocol:?}")?;
    print!(rt; "{}", rig.report())
}

/// Whether the bytes begin with a response of success to the request with this identifier.
fn is_success(bytes: &[u8], id: u16) -> bool
    ensures { result ≡ begins_with_success id bytes.now }
{
    match decode(bytes) {
        Ok((m, _size)) => m.id == id && m.kind >= RESPONSE && m.result == SUCCESS,
        Err(_) => false,
    }
}

/// The protocol of a CPort, None where the bytes are no manifest or declare no such CPort.
fn protocol(bytes: &[u8], cport: u16) -> Option<u8>
    ensures { result ≡ protocol_in cport bytes.now }
{
    match check(bytes) {
        Ok(manifest) => declared(&manifest, cport),
        Err(_) => None,
    }
}

/// The protocol that a manifest declares for a CPort.
fn declared(manifest: &Manifest<'_>, cport: u16) -> Option<u8>
    ensures { result ≡ protocol_of cport manifest.now }
{
    let view = manifest.cport(cport)?;
    Some(view.protocol)
}

/// On a rig that has stepped nothing: a module with this manifest comes to interface 2, its CPort 3
/// is connected, and a request of this name asks how many lines it has.
fn session(rig: &mut Rig, alloc: Global, name: Name, manifest: &[u8]) -> Result<(), OutOfMemory>
    requires name { IsName name }
    requires fresh { counted rig.old ≡ 0 }
    ensures { HasRun rig.old [] → OnOk result (HasRun rig.new (session_of name manifest.now)) }
{
    let manifest = Bytes::from_slice(alloc, manifest)?;
    let ask = BridgeAsk::Gpio {
        kind: LINE_COUNT,
        line: 0,
        value: 0,
    };
    rig.step(&Event::InsertRaw { intf: 2, manifest })?;
    rig.step(&Event::Boot)?;
    rig.step(&Event::Settle { most: 40 })?;
    rig.step(&Event::Connect { intf: 2, cport: 3 })?;
    rig.step(&Event::Settle { most: 10 })?;
    rig.step(&Event::Bridge {
        name,
        intf: 2,
        cport: 3,
        ask,
    })?;
    rig.step(&Event::Settle { most: 10 })
}
