//! Requests and stirs in order, with what modules are to answer.

ghost use Rattle.std.specs.Prelude.{◌≡◌, ◌≤◌, length};
ghost use Rattle.gb_module.specs.Stirring.{IsStir};

use gb_base::{Bytes, Kind};
use gb_manifest::check;
use gb_module::{CportState, Module, Stir, StirFault};
use std::alloc::Global;
use std::process::Abort;

/// A request at a CPort: the CPort, the type and the payload, and what is answered: the result and
/// the payload.
type Row<'a> = (u16, u8, &'a [u8], u8, &'a [u8]);

/// The module answers these requests so, one after the other, and makes no requests of its own.
fn serves(rt: &impl Abort, module: &mut Module, rows: &[Row]) {
    for (at, row) in rows.iter().enumerate() {
        let (cport, kind, payload, code, told) = *row;
        let served = module.serve(cport, kind, payload).expect(rt, "memory");
        let answer = (served.result, served.payload.items());
        assert!(rt; answer == (code, told), "row {at}");
        assert!(rt; served.asks.items().is_empty());
    }
}

/// What comes from outside at a CPort is answered by this many requests of the module's own, the
/// first of which has this type and payload.
fn asks(rt: &impl Abort, module: &mut Module, cport: u16, what: Stir, want: (usize, u8, &[u8]))
    requires { IsStir what }
{
    let asks = module.stir(cport, what).expect(rt, "memory");
    let (count, kind, payload) = want;
    assert!(rt; asks.items().len() == count);
    if let Some(ask) = asks.items().first() {
        assert!(rt; ask.kind == kind);
        assert!(rt; ask.payload.items() == payload);
    }
}

/// There is no such device at a CPort.
fn has_none(rt: &impl Abort, module: &mut Module, cport: u16, what: Stir)
    requires { IsStir what }
{
    assert!(rt; matches!(module.stir(cport, what), Err(StirFault::NoCport)));
}

/// A module of a kind.
fn made(rt: &impl Abort, alloc: Global, kind: Kind) -> Module {
    Module::of_kind(alloc, kind).expect(rt, "memory")
}

/// The manifest of a kind is that of the size and the bytes, and is accepted.
fn tells(rt: &impl Abort, alloc: Global, kind: Kind, size: u8, bytes: &[u8]) {
    let mut module = made(rt, alloc, kind);
    serves(rt, &mut module, &[(0, 0x03, &[], 0x00, &[size, 0])]);
    serves(rt, &mut module, &[(0, 0x04, &[], 0x00, bytes)]);
    assert!(rt; check(bytes).is_ok());
}

#[test]
fn kinds_have_their_manifests(rt: HostRuntime) {
    let gpio = b"\x48\0\0\x01\x08\0\x01\0\x01\x02\0\0\x10\0\x02\0\x07\x01Greybus\0\0\0\
        \x0c\0\x02\0\x04\x02GPIO\0\0\x08\0\x03\0\0\0\0\0\x08\0\x03\0\x01\x0a\0\0\
        \x08\0\x04\0\0\0\0\0\x08\0\x04\0\x01\0\x01\x02";
    let i2c = b"\x48\0\0\x01\x08\0\x01\0\x01\x02\0\0\x10\0\x02\0\x07\x01Greybus\0\0\0\
        \x0c\0\x02\0\x03\x02I2C\0\0\0\x08\0\x03\0\0\0\0\0\x08\0\x03\0\x01\x0a\0\0\
        \x08\0\x04\0\0\0\0\0\x08\0\x04\0\x01\0\x01\x03";
    let spi = b"\x48\0\0\x01\x08\0\x01\0\x01\x02\0\0\x10\0\x02\0\x07\x01Greybus\0\0\0\
        \x0c\0\x02\0\x03\x02SPI\0\0\0\x08\0\x03\0\0\0\0\0\x08\0\x03\0\x01\x0a\0\0\
        \x08\0\x04\0\0\0\0\0\x08\0\x04\0\x01\0\x01\x0b";
    let uart = b"\x48\0\0\x01\x08\0\x01\0\x01\x02\0\0\x10\0\x02\0\x07\x01Greybus\0\0\0\
        \x0c\0\x02\0\x04\x02UART\0\0\x08\0\x03\0\0\0\0\0\x08\0\x03\0\x01\x0a\0\0\
        \x08\0\x04\0\0\0\0\0\x08\0\x04\0\x01\0\x01\x04";
    let bridge = b"\x60\0\0\x01\x08\0\x01\0\x01\x02\0\0\x10\0\x02\0\x07\x01Greybus\0\0\0\
        \x0c\0\x02\0\x06\x02Bridge\x08\0\x03\0\0\0\0\0\x08\0\x03\0\x01\x0a\0\0\
        \x08\0\x04\0\0\0\0\0\x08\0\x04\0\x01\0\x01\x02\x08\0\x04\0\x02\0\x01\x03\
        \x08\0\x04\0\x03\0\x01\x0b\x08\0\x04\0\x04\0\x01\x04";
    let loopback = b"\x4c\0\0\x01\x08\0\x01\0\x01\x02\0\0\x10\0\x02\0\x07\x01Greybus\0\0\0\
        \x10\0\x02\0\x08\x02Loopback\0\0\x08\0\x03\0\0\0\0\0\x08\0\x03\0\x01\x11\0\0\
        \x08\0\x04\0\0\0\0\0\x08\0\x04\0\x01\0\x01\x11";
    tells(&rt, rt.alloc(), Kind::Gpio, 72, gpio);
    tells(&rt, rt.alloc(), Kind::I2c, 72, i2c);
    tells(&rt, rt.alloc(), Kind::Spi, 72, spi);
    tells(&rt, rt.alloc(), Kind::Uart, 72, uart);
    tells(&rt, rt.alloc(), Kind::Bridge, 96, bridge);
    tells(&rt, rt.alloc(), Kind::Loopback, 76, loopback);
}

/// Requests of the Control protocol, and at CPort 1 where it is connected, and at CPort 2.
const CONTROL: [Row; 29] = [
    (0, 0x01, &[0, 1], 0x00, &[0, 1]),
    (0, 0x01, &[7, 9], 0x00, &[0, 1]),
    (0, 0x01, &[0], 0x06, &[]),
    (0, 0x02, &[], 0x04, &[]),
    (0, 0x03, &[], 0x00, &[72, 0]),
    (0, 0x03, &[0], 0x06, &[]),
    (0, 0x04, &[0], 0x06, &[]),
    (0, 0x05, &[0, 0], 0x08, &[]),
    (0, 0x05, &[2, 0], 0x08, &[]),
    (0, 0x05, &[1], 0x06, &[]),
    (0, 0x06, &[2, 0], 0x08, &[]),
    (0, 0x06, &[1, 0], 0x06, &[]),
    (0, 0x0c, &[1, 0], 0x06, &[]),
    (0, 0x05, &[1, 0], 0x00, &[]),
    (1, 0x03, &[3], 0x00, &[]),
    (0, 0x05, &[1, 0], 0x06, &[]),
    (0, 0x06, &[1, 0], 0x06, &[]),
    (0, 0x0c, &[1, 0], 0x00, &[]),
    (1, 0x05, &[3], 0x00, &[1]),
    (0, 0x05, &[1, 0], 0x06, &[]),
    (0, 0x0c, &[1, 0], 0x06, &[]),
    (0, 0x0c, &[2, 0], 0x08, &[]),
    (0, 0x06, &[1, 0], 0x00, &[]),
    (0, 0x0c, &[1, 0], 0x06, &[]),
    (0, 0x05, &[1, 0], 0x00, &[]),
    (1, 0x05, &[3], 0x06, &[]),
    (0, 0x07, &[], 0x04, &[]),
    (0, 0x0d, &[1, 0], 0x04, &[]),
    (2, 0x02, &[], 0x04, &[]),
];

#[test]
fn control_answers(rt: HostRuntime) {
    serves(&rt, &mut made(&rt, rt.alloc(), Kind::Gpio), &CONTROL);
}

#[test]
fn a_quiet_cport_makes_no_requests(rt: HostRuntime) {
    let rise = Stir::Level { line: 3, value: 1 };
    let fall = Stir::Level { line: 3, value: 0 };
    let state = Stir::Serial { control: 2 };
    let mut module = made(&rt, rt.alloc(), Kind::Bridge);
    assert!(&rt; module.state(1) == CportState::Off);
    asks(&rt, &mut module, 1, rise, (0, 0, &[]));
    asks(&rt, &mut module, 4, state, (0, 0, &[]));
    has_none(&rt, &mut module, 1, state);
    has_none(&rt, &mut module, 2, rise);
    has_none(&rt, &mut module, 9, state);
    serves(&rt, &mut module, &CONNECTED);
    assert!(&rt; module.state(1) == CportState::On);
    asks(&rt, &mut module, 1, fall, (0, 0, &[]));
    asks(&rt, &mut module, 1, rise, (1, 0x0e, &[3]));
    asks(&rt, &mut module, 4, state, (1, 0x07, &[2]));
    let echoed = module
        .serve(4, 0x02, &[2, 0, 0x61, 0x62])
        .expect(&rt, "memory");
    assert!(&rt; echoed.asks.items().len() == 2);
    serves(&rt, &mut module, &DISCONNECTING);
    assert!(&rt; module.state(4) == CportState::Quiet);
    asks(&rt, &mut module, 1, fall, (0, 0, &[]));
    asks(&rt, &mut module, 1, rise, (0, 0, &[]));
    asks(&rt, &mut module, 4, state, (0, 0, &[]));
    serves(
        &rt,
        &mut module,
        &[
            (4, 0x02, &[1, 0, 0x61], 0x00, &[]),
            (1, 0x08, &[3], 0x00, &[1]),
        ],
    );
}

/// CPorts 1 and 4 are connected, and line 3 rises with an interrupt. Its level was 1 before.
const CONNECTED: [Row; 6] = [
    (0, 0x05, &[1, 0], 0x00, &[]),
    (0, 0x05, &[4, 0], 0x00, &[]),
    (1, 0x03, &[3], 0x00, &[]),
    (1, 0x08, &[3], 0x00, &[1]),
    (1, 0x0b, &[3, 1], 0x00, &[]),
    (1, 0x0d, &[3], 0x00, &[]),
];

/// CPorts 1 and 4 will be disconnected.
const DISCONNECTING: [Row; 2] = [(0, 0x0c, &[1, 0], 0x00, &[]), (0, 0x0c, &[4, 0], 0x00, &[])];

/// A manifest whose CPorts 5 and 9 are UARTs; CPort 3 has another protocol, and 12 is of bundle 0.
const MANIFEST: &[u8] = b"\x44\0\0\x01\x08\0\x01\0\0\0\0\0\
    \x08\0\x03\0\0\0\0\0\x08\0\x03\0\x01\x0a\0\0\
    \x08\0\x04\0\0\0\0\0\x08\0\x04\0\x05\0\x01\x04\x08\0\x04\0\x03\0\x01\x10\
    \x08\0\x04\0\x09\0\x01\x04\x08\0\x04\0\x0c\0\0\x02";

/// Requests at a module of this manifest.
const OF_MANIFEST: [Row; 8] = [
    (0, 0x03, &[], 0x00, &[68, 0]),
    (0, 0x04, &[], 0x00, MANIFEST),
    (0, 0x05, &[3, 0], 0x08, &[]),
    (0, 0x05, &[12, 0], 0x08, &[]),
    (0, 0x05, &[9, 0], 0x00, &[]),
    (9, 0x05, &[4], 0x06, &[]),
    (0, 0x05, &[5, 0], 0x00, &[]),
    (5, 0x05, &[3], 0x00, &[]),
];

/// Requests at a module whose bytes are no manifest.
const OF_NONE: [Row; 3] = [
    (0, 0x03, &[], 0x00, &[2, 0]),
    (0, 0x04, &[], 0x00, &[3, 0]),
    (0, 0x05, &[1, 0], 0x08, &[]),
];

#[test]
fn raw_manifests_make_modules(rt: HostRuntime) {
    let mut module = Module::raw(rt.alloc(), MANIFEST).expect(&rt, "memory");
    serves(&rt, &mut module, &OF_MANIFEST);
    let mut module = Module::raw(rt.alloc(), &[3, 0]).expect(&rt, "memory");
    serves(&rt, &mut module, &OF_NONE);
}
