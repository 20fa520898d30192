//! Lines as the grammar has them.

use gb_base::{BridgeAsk, End, Event, Kind, Name, OutOfMemory};
use gb_script::{event, first_line, made};
use std::alloc::Global;
use std::process::Abort;

#[test]
fn cuts_lines(rt: HostRuntime) {
    let mut rest = b"show\r\n\nboot".as_slice();
    for wanted in [b"show".as_slice(), b"", b"boot"] {
        let (line, behind) = first_line(rest).expect(&rt, "a line");
        assert!(rt; line == wanted);
        rest = behind;
    }
    assert!(rt; first_line(rest).is_none());
}

/// A line of requester 3 is an event of which this holds.
fn says<F: Fn(&Event) -> bool>(rt: &impl Abort, alloc: Global, line: &[u8], holds: F)
    requires { F.IsAlwaysCallable holds }
{
    let said = event(alloc, line, 3);
    assert!(rt; matches!(&said, Ok(Some(event)) if holds(event)));
}

/// Whether this is the name of requester 3 with this word.
fn is_named(name: &Name, word: &[u8]) -> bool {
    name.who == 3 && name.word.bytes() == word
}

/// A line delivers at this end.
fn delivers(rt: &impl Abort, alloc: Global, line: &[u8], end: End) {
    says(
        rt,
        alloc,
        line,
        |event| matches!(event, Event::Deliver { at } if *at == end),
    );
}

#[test]
fn reads_ends(rt: HostRuntime) {
    let alloc = rt.alloc();
    assert!(rt; matches!(event(alloc, b" # deliver svc", 0), Ok(None)));
    delivers(&rt, alloc, b"deliver  svc ", End::Svc);
    delivers(&rt, alloc, b"deliver ap 0", End::Ap(0));
    delivers(&rt, alloc, b"deliver ap 4095", End::Ap(4095));
    delivers(
        &rt,
        alloc,
        b"deliver 2 1",
        End::Module { intf: 2, cport: 1 },
    );
}

/// A line asks the SVC for a request with this name, type, payload and timeout.
fn asks(rt: &impl Abort, alloc: Global, line: &[u8], want: (&[u8], u8, &[u8], u32)) {
    says(rt, alloc, line, |event| match event {
        Event::Send {
            name,
            to: End::Svc,
            kind,
            payload,
            timeout,
        } => { name.who == 3 && (name.word.bytes(), *kind, payload.items(), *timeout) == want }
        _ => false,
    });
}

#[test]
fn reads_requests(rt: HostRuntime) {
    let alloc = rt.alloc();
    asks(&rt, alloc, b"send @x1 svc ping", (b"x1", 0x13, b"", 1000));
    let longest = b"send @abcdefghij012345 svc 7f 0Ab1";
    asks(
        &rt,
        alloc,
        longest,
        (b"abcdefghij012345", 0x7f, b"\x0a\xb1", 1000),
    );
    let latest = b"send @x svc 07 - timeout 4294967295";
    asks(&rt, alloc, latest, (b"x", 0x07, b"", u32::MAX));
}

#[test]
fn reads_names(rt: HostRuntime) {
    let alloc = rt.alloc();
    says(&rt, alloc, b" cancel  @z9", |event| {
        matches!(event, Event::Cancel { name } if is_named(name, b"z9"))
    });
    says(&rt, alloc, b"copy @a @b", |event| {
        matches!(event, Event::Copy { from, to } if is_named(from, b"a") && is_named(to, b"b"))
    });
    says(&rt, alloc, b"drop @a", |event| {
        matches!(event, Event::Forget { name } if is_named(name, b"a"))
    });
}

#[test]
fn reads_times_and_places(rt: HostRuntime) {
    let alloc = rt.alloc();
    says(
        &rt,
        alloc,
        b"settle 65535",
        |event| matches!(event, Event::Settle { most: 65535 }),
    );
    says(&rt, alloc, b"tick 4294967295", |event| {
        matches!(event, Event::Tick { millis: u32::MAX })
    });
    says(&rt, alloc, b"hold 31 4095", |event| {
        matches!(
            event,
            Event::Hold {
                intf: 31,
                cport: 4095
            }
        )
    });
    says(&rt, alloc, b"disconnect 31 0 drain", |event| {
        matches!(event, Event::Drain { intf: 31, cport: 0 })
    });
    says(&rt, alloc, b"answer 2 1 4294967295", |event| {
        matches!(
            event,
            Event::Answer {
                intf: 2,
                cport: 1,
                place: u32::MAX
            }
        )
    });
}

/// Whether a module whose interfaces are of these kinds is plugged, its primary interface at 2.
fn plugs(event: &Event, wanted: &[Kind]) -> bool {
    match event {
        Event::Insert { intf: 2, kinds } => kinds.items() == wanted,
        _ => false,
    }
}

#[test]
fn reads_kinds(rt: HostRuntime) {
    says(&rt, rt.alloc(), b"insert 2 gpio firmware", |event| {
        plugs(event, &[Kind::Gpio, Kind::Firmware])
    });
}

#[test]
fn reads_raw_bytes(rt: HostRuntime) {
    let alloc = rt.alloc();
    says(&rt, alloc, b"insert 2 raw 0aFf", |event| match event {
        Event::InsertRaw { intf: 2, manifest } => manifest.items() == b"\x0a\xff".as_slice(),
        _ => false,
    });
    says(&rt, alloc, b"inject 2 1 -", |event| match event {
        Event::Inject {
            intf: 2,
            cport: 1,
            bytes,
        } => bytes.items().is_empty(),
        _ => false,
    });
}

#[test]
fn reads_images(rt: HostRuntime) {
    let alloc = rt.alloc();
    says(&rt, alloc, b"image boot9 0aFf", |event| match event {
        Event::Image { tag, bytes } => {
            tag.bytes() == b"boot9".as_slice() && bytes.items() == b"\x0a\xff".as_slice()
        }
        _ => false,
    });
    says(&rt, alloc, b"load 31 4095 abcdefgh9", |event| match event {
        Event::Load {
            intf: 31,
            cport: 4095,
            tag,
        } => tag.bytes() == b"abcdefgh9".as_slice(),
        _ => false,
    });
}

/// A line for each form of a bridge line, and of what devices have from outside.
const BRIDGED: &[&str] = &[
    "gpio @x 2 1 count",
    "gpio @x 2 1 activate 255",
    "gpio @x 2 1 deactivate 0",
    "gpio @x 2 1 direction 7",
    "gpio @x 2 1 in 7",
    "gpio @x 2 1 out 7 255",
    "gpio @x 2 1 get 7",
    "gpio @x 2 1 set 7 1",
    "gpio @x 2 1 debounce 7 65535",
    "gpio @x 2 1 irq 7 3",
    "gpio @x 2 1 mask 7",
    "gpio @x 2 1 unmask 7",
    "gpio 2 1 level 7 1",
    "i2c @x 2 1 functionality",
    "i2c @x 2 1 transfer",
    "i2c @x 2 1 transfer w:50:fe r:7f:65535",
    "spi @x 2 1 config",
    "spi @x 2 1 device 255",
    "spi @x 2 1 transfer 0 255",
    "spi @x 2 1 transfer 0 0 x:0102 r:2 w:FF",
    "uart @x 2 1 send -",
    "uart @x 2 1 coding 4294967295 0 1 8 255",
    "uart @x 2 1 control 255",
    "uart @x 2 1 break 0",
    "uart @x 2 1 flush 3",
    "uart 2 1 state 255",
    "loopback @x 2 1 ping",
    "loopback @x 2 1 transfer 0aFf",
    "loopback @x 2 1 sink -",
];

#[test]
fn reads_bridge_lines(rt: HostRuntime) {
    for line in BRIDGED {
        says(&rt, rt.alloc(), line.as_bytes(), is_bridged);
    }
}

/// Whether a line was a bridge line, or something from outside.
fn is_bridged(event: &Event) -> bool {
    matches!(
        event,
        Event::Bridge { .. } | Event::Level { .. } | Event::SerialState { .. }
    )
}

/// A line that was made is an event of which this holds.
fn makes<F: Fn(&Event) -> bool>(rt: &impl Abort, made: Result<Event, OutOfMemory>, holds: F)
    requires { F.IsAlwaysCallable holds }
{
    assert!(rt; matches!(&made, Ok(event) if holds(event)));
}

#[test]
fn makes_lines_from_a_seed(rt: HostRuntime) {
    let alloc = rt.alloc();
    makes(
        &rt,
        made(alloc, 1, 1),
        |event| plugs(event, &[Kind::Bridge]),
    );
    makes(
        &rt,
        made(alloc, 1, 24),
        |event| matches!(event, Event::Tick { millis: 200 }),
    );
    makes(&rt, made(alloc, 1, 26), is_activate);
}

/// Whether this is `gpio @n3 2 1 activate 4`.
fn is_activate(event: &Event) -> bool {
    match event {
        Event::Bridge {
            name,
            intf: 2,
            cport: 1,
            ask: BridgeAsk::Gpio {
                kind: 0x03,
                line: 4,
                value: 0,
            },
        } => name.who == 0 && name.word.bytes() == b"n3".as_slice(),
        _ => false,
    }
}
