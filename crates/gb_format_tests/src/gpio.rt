//! Requests in order, with what the GPIO device is to answer, and bridge lines and readings.

ghost use Rattle.std.specs.Prelude.{◌≡◌};
ghost use Rattle.gb_base.specs.declared.bridge.BridgeAsk.TheVariants as ask;
ghost use Rattle.gb_formats.specs.ValidEvents.{HasForm};

use crate::checks::{Row, is_answered, is_asked, is_not_asked};
use gb_base::{BridgeAsk, Reading};
use gb_gpio::{BridgeFault, Device, bridge, reading};
use std::alloc::Global;
use std::process::Abort;

/// Requests that are served, and those that line 3 refuses as it stands.
const SERVED: [Row<'_>; 24] = [
    (0x02, &[], 0x00, &[7]),
    (0x03, &[3], 0x00, &[]),
    (0x05, &[3], 0x00, &[1]),
    (0x08, &[3], 0x00, &[0]),
    (0x09, &[3, 1], 0x06, &[]),
    (0x07, &[3, 2], 0x06, &[]),
    (0x05, &[3], 0x00, &[1]),
    (0x07, &[3, 1], 0x00, &[]),
    (0x05, &[3], 0x00, &[0]),
    (0x08, &[3], 0x00, &[1]),
    (0x09, &[3, 2], 0x06, &[]),
    (0x08, &[3], 0x00, &[1]),
    (0x09, &[3, 0], 0x00, &[]),
    (0x08, &[3], 0x00, &[0]),
    (0x0a, &[3, 0xe8, 0x03], 0x00, &[]),
    (0x0b, &[3, 8], 0x00, &[]),
    (0x0b, &[3, 5], 0x06, &[]),
    (0x0c, &[3], 0x00, &[]),
    (0x0d, &[3], 0x00, &[]),
    (0x06, &[3], 0x00, &[]),
    (0x05, &[3], 0x00, &[1]),
    (0x04, &[3], 0x00, &[]),
    (0x05, &[3], 0x06, &[]),
    (0x03, &[7], 0x00, &[]),
];

/// Requests that are refused, and those that line 0 takes then.
const REFUSED: [Row<'_>; 27] = [
    (0x00, &[], 0x04, &[]),
    (0x01, &[0, 1], 0x04, &[]),
    (0x0f, &[0], 0x04, &[]),
    (0x0e, &[0], 0x04, &[]),
    (0x0e, &[], 0x04, &[]),
    (0x02, &[0], 0x06, &[]),
    (0x03, &[], 0x06, &[]),
    (0x03, &[8, 0], 0x06, &[]),
    (0x0a, &[8, 0], 0x06, &[]),
    (0x03, &[8], 0x08, &[]),
    (0x04, &[255], 0x08, &[]),
    (0x05, &[8], 0x08, &[]),
    (0x07, &[8, 2], 0x08, &[]),
    (0x09, &[8, 0], 0x08, &[]),
    (0x0b, &[8, 9], 0x08, &[]),
    (0x0d, &[8], 0x08, &[]),
    (0x05, &[0], 0x06, &[]),
    (0x06, &[0], 0x06, &[]),
    (0x07, &[0, 0], 0x06, &[]),
    (0x08, &[0], 0x06, &[]),
    (0x09, &[0, 0], 0x06, &[]),
    (0x0a, &[0, 0, 0], 0x06, &[]),
    (0x0b, &[0, 0], 0x06, &[]),
    (0x0c, &[0], 0x06, &[]),
    (0x0d, &[0], 0x06, &[]),
    (0x04, &[0], 0x00, &[]),
    (0x03, &[0], 0x00, &[]),
];

/// The device answers these requests so, one after the other.
fn serves(rt: &impl Abort, device: &mut Device, rows: &[Row<'_>]) {
    for row in rows.iter() {
        let served = device.serve(row.0, row.1).expect(rt, "memory");
        is_answered(rt, &served, row);
    }
}

/// A device as it is first.
fn first(rt: &impl Abort, alloc: Global) -> Device {
    Device::new(alloc).expect(rt, "memory")
}

#[test]
fn requests_are_answered(rt: HostRuntime) {
    serves(&rt, &mut first(&rt, rt.alloc()), &SERVED);
    serves(&rt, &mut first(&rt, rt.alloc()), &REFUSED);
}

/// A device whose line 3 is active and unmasked, and has this interrupt type.
fn watched(rt: &impl Abort, alloc: Global, irq: u8) -> Device {
    let mut device = first(rt, alloc);
    let rows: [Row<'_>; 3] = [
        (0x03, &[3], 0x00, &[]),
        (0x0b, &[3, irq], 0x00, &[]),
        (0x0d, &[3], 0x00, &[]),
    ];
    serves(rt, &mut device, &rows);
    device
}

/// Interrupt types, and which of the levels 0, 1, 1, 0 and 0 are interrupts then, from level 0.
const IRQS: [(u8, [bool; 5]); 6] = [
    (0, [false, false, false, false, false]),
    (1, [false, true, false, false, false]),
    (2, [false, false, false, true, false]),
    (3, [false, true, false, true, false]),
    (4, [false, true, true, false, false]),
    (8, [true, false, false, true, true]),
];

#[test]
fn levels_are_interrupts(rt: HostRuntime) {
    for (irq, fires) in IRQS.iter() {
        let mut device = watched(&rt, rt.alloc(), *irq);
        for (value, fired) in [0, 1, 1, 0, 0].iter().zip(fires) {
            let line = device.level(3, *value);
            assert!(rt; line == fired.then_some(3), "type {irq}, level {value}");
        }
    }
}

const MASKED: [Row<'_>; 1] = [(0x0c, &[3], 0x00, &[])];

/// Line 3 is unmasked, and out.
const OUT: [Row<'_>; 3] = [
    (0x0d, &[3], 0x00, &[]),
    (0x07, &[3, 0], 0x00, &[]),
    (0x08, &[3], 0x00, &[0]),
];

/// Line 3 is in, and its level is the one from outside.
const IN: [Row<'_>; 2] = [(0x06, &[3], 0x00, &[]), (0x08, &[3], 0x00, &[1])];

const INACTIVE: [Row<'_>; 1] = [(0x04, &[3], 0x00, &[])];

const ACTIVE: [Row<'_>; 2] = [(0x03, &[3], 0x00, &[]), (0x08, &[3], 0x00, &[1])];

/// After these requests level 1 of line 3 is an interrupt, or isn't.
fn interrupts(rt: &impl Abort, device: &mut Device, rows: &[Row<'_>], fired: bool) {
    serves(rt, device, rows);
    assert!(rt; device.level(3, 1) == fired.then_some(3));
}

#[test]
fn some_levels_are_no_interrupts(rt: HostRuntime) {
    let mut device = watched(&rt, rt.alloc(), 4);
    assert!(rt; device.level(2, 1).is_none());
    interrupts(&rt, &mut device, &MASKED, false);
    // The interrupt type stays while a line is out and in again, and so does its mask.
    interrupts(&rt, &mut device, &OUT, false);
    interrupts(&rt, &mut device, &IN, true);
    // The level stays over DEACTIVATE, and nothing else does.
    interrupts(&rt, &mut device, &INACTIVE, false);
    interrupts(&rt, &mut device, &ACTIVE, false);
}

/// A bridge line becomes this request.
fn becomes(rt: &impl Abort, ask: &BridgeAsk, kind: u8, payload: &[u8])
    requires { HasForm ask.now }
{
    let mut out = [0xff; 2040];
    let bridged = bridge(ask, &mut out);
    is_asked(rt, bridged, &out, kind, payload);
}

/// A bridge line becomes no request.
fn becomes_none(rt: &impl Abort, ask: &BridgeAsk)
    requires { HasForm ask.now }
{
    let mut out = [0xff; 2040];
    let bridged = bridge(ask, &mut out);
    is_not_asked(rt, bridged, &out, BridgeFault::Unsupported);
}

/// A GPIO request of a bridge line.
fn gpio(kind: u8, line: u8, value: u16) -> BridgeAsk
    ensures { result ≡ ask.Gpio kind line value }
{
    BridgeAsk::Gpio { kind, line, value }
}

#[test]
fn bridge_lines_become_requests(rt: HostRuntime) {
    becomes(&rt, &gpio(0x02, 0, 0), 0x02, &[]);
    becomes(&rt, &gpio(0x03, 1, 0), 0x03, &[1]);
    becomes(&rt, &gpio(0x05, 3, 0), 0x05, &[3]);
    becomes(&rt, &gpio(0x08, 255, 0), 0x08, &[255]);
    becomes(&rt, &gpio(0x0d, 11, 0), 0x0d, &[11]);
    becomes(&rt, &gpio(0x07, 5, 1), 0x07, &[5, 1]);
    becomes(&rt, &gpio(0x09, 255, 255), 0x09, &[255, 255]);
    becomes(&rt, &gpio(0x0b, 9, 8), 0x0b, &[9, 8]);
    becomes(&rt, &gpio(0x0a, 8, 65534), 0x0a, &[8, 0xfe, 0xff]);
}

#[test]
fn other_bridge_lines_are_unsupported(rt: HostRuntime) {
    becomes_none(&rt, &BridgeAsk::I2cFunctionality);
    becomes_none(&rt, &BridgeAsk::SpiConfig);
    becomes_none(&rt, &BridgeAsk::SpiDevice { select: 0 });
    becomes_none(&rt, &BridgeAsk::UartByte { kind: 5, value: 0 });
}

/// Payloads of responses, and what they say.
const READINGS: [(u8, &[u8], Reading); 17] = [
    (0x02, &[7], Reading::Number(8)),
    (0x02, &[255], Reading::Number(256)),
    (0x02, &[], Reading::Bad),
    (0x02, &[7, 0], Reading::Bad),
    (0x05, &[0], Reading::Out),
    (0x05, &[1], Reading::In),
    (0x05, &[2], Reading::Bad),
    (0x05, &[], Reading::Bad),
    (0x08, &[0], Reading::Number(0)),
    (0x08, &[1], Reading::Number(1)),
    (0x08, &[2], Reading::Bad),
    (0x08, &[1, 1], Reading::Bad),
    (0x03, &[], Reading::Nothing),
    (0x03, &[9], Reading::Nothing),
    (0x07, &[], Reading::Nothing),
    (0x01, &[], Reading::Nothing),
    (0x7f, &[1], Reading::Nothing),
];

#[test]
fn answers_are_read(rt: HostRuntime) {
    for (kind, payload, says) in READINGS.iter() {
        assert!(rt; reading(*kind, payload) == *says, "type {kind}");
    }
}
