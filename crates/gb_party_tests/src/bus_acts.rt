//! What is done to a bus, and what comes of it.

use gb_base::{End, Numbers, Outcome, RawFault, Side};
use gb_bus::{AlreadyEnded, Arrival, Arrived, Asked, Bus, DeliverFault, SendFault};
use gb_payload::svc_kinds::PING;
use std::alloc::Global;
use std::process::Abort;

/// CPort 1 of the module at interface 2.
pub const LIGHT: End = End::Module { intf: 2, cport: 1 };

/// CPort 2 of the module at interface 2.
pub const FAN: End = End::Module { intf: 2, cport: 2 };

/// CPort 1 of the module at interface 3.
pub const KEYS: End = End::Module { intf: 3, cport: 1 };

/// CPort 2 of the module at interface 3.
pub const DISPLAY: End = End::Module { intf: 3, cport: 2 };

/// What is done. A connection has its number.
#[derive(Clone, Copy)]
pub enum Act {
    /// A ping with the payload 5, unidirectional or not.
    Send(u64, Side, bool),
    /// A delivery at an end that takes it or not.
    Deliver(End, bool),
    /// A reply with the payload 9 to a request with this number and identifier, and its result.
    Reply(u64, Side, u64, u16, u8),
    /// The same to a request that came as raw bytes.
    RawReply(u64, Side, u16, u8),
    /// These bytes are injected.
    Inject(u64, &'static [u8]),
    Cancel(u64),
    Expire(u64),
    ExpireOne(u64),
    Due(u64),
    Outcome(u64),
    Keep(u64),
    Loose(u64),
    About(u64),
    Wire(u64),
    Unwire(u64),
    Shut(u64),
    Waiting(End),
    Spent(u64, Side),
}

/// What comes of it. Of a payload it has the first byte.
#[derive(Clone, Copy, PartialEq, Eq)]
pub enum Seen {
    Done,
    Nothing,
    Sent(u64, u16, bool),
    NoLabel,
    Ask(u64, Option<u64>, u16, Option<u8>),
    Ended(u64, u64, u8, Option<u8>),
    Late(u64),
    LateLabel(u16),
    UnknownLabel(u16),
    Bad(RawFault),
    Dropped(Option<u64>, bool),
    NoConnection,
    QueueEmpty,
    NoMemory,
    AlreadyEnded,
    Answered(u8, Option<u8>),
    Cancelled,
    TimedOut,
    Disconnected,
    Unidirectional,
    /// How many requests ended or are due, and the first and the last of them.
    Numbers(usize, Option<u64>, Option<u64>),
    Count(u64),
    /// The connection of a request, and its side.
    About(u64, Side),
    Spent(bool),
}

/// A side of a connection sends a ping, which has 500 ms.
pub fn sends(bus: &mut Bus, k: u64, side: Side, oneway: bool) -> Seen {
    match bus.send(k, side, PING, &[5], 500, oneway) {
        Ok(sent) => Seen::Sent(sent.number, sent.label, sent.lost),
        Err(SendFault::NoLabel) => Seen::NoLabel,
        Err(SendFault::NoConnection) => Seen::NoConnection,
        Err(SendFault::Memory(_)) => Seen::NoMemory,
    }
}

fn brought(connection: u64, item: &Arrival) -> Seen {
    match item {
        Arrival::Ask { asked, payload } => Seen::Ask(
            connection,
            asked.number,
            asked.label,
            payload.items().first().copied(),
        ),
        Arrival::Ended {
            number,
            kind: _,
            result,
            payload,
        } => Seen::Ended(
            connection,
            *number,
            *result,
            payload.items().first().copied(),
        ),
        Arrival::Late { number } => Seen::Late(*number),
        Arrival::LateLabel { label } => Seen::LateLabel(*label),
        Arrival::UnknownLabel { label } => Seen::UnknownLabel(*label),
        Arrival::BadRaw { fault } => Seen::Bad(*fault),
        Arrival::Dropped { number, reply } => Seen::Dropped(*number, *reply),
    }
}

/// The front message toward an end is delivered, where requests are taken or not.
pub fn delivers(bus: &mut Bus, at: End, takes: bool) -> Seen {
    match bus.deliver(at, takes) {
        Ok(Arrived { connection, item }) => brought(connection, &item),
        Err(DeliverFault::NoConnection) => Seen::NoConnection,
        Err(DeliverFault::QueueEmpty) => Seen::QueueEmpty,
        Err(DeliverFault::Memory(_)) => Seen::NoMemory,
    }
}

/// A request that was delivered to a side is answered with this result.
pub fn replies(rt: &impl Abort, bus: &mut Bus, k: u64, side: Side, asked: Asked, code: u8) -> Seen {
    bus.reply(k, side, &asked, code, &[9]).expect(rt, "memory");
    Seen::Done
}

fn injects(rt: &impl Abort, bus: &mut Bus, k: u64, bytes: &[u8]) -> Seen {
    if bytes.len() > 2_048 {
        return Seen::NoMemory;
    }
    bus.inject(k, bytes).expect(rt, "memory");
    Seen::Done
}

fn gives_up(given_up: Result<(), AlreadyEnded>) -> Seen {
    match given_up {
        Ok(()) => Seen::Done,
        Err(AlreadyEnded) => Seen::AlreadyEnded,
    }
}

fn ended(bus: &Bus, n: u64) -> Seen {
    match bus.outcome(n) {
        None => Seen::Nothing,
        Some(Outcome::Answered { result, payload }) => {
            Seen::Answered(*result, payload.items().first().copied())
        }
        Some(Outcome::Cancelled) => Seen::Cancelled,
        Some(Outcome::Disconnected) => Seen::Disconnected,
        Some(Outcome::Sent) => Seen::Unidirectional,
        Some(Outcome::Timeout) => Seen::TimedOut,
    }
}

fn keeps(bus: &mut Bus, n: u64) -> Seen {
    bus.keep(n);
    Seen::Done
}

fn looses(bus: &mut Bus, n: u64) -> Seen {
    bus.loose(n);
    Seen::Done
}

fn tells_about(bus: &Bus, n: u64) -> Seen {
    match bus.about(n) {
        None => Seen::Nothing,
        Some(about) => Seen::About(about.connection, about.side),
    }
}

fn numbers(told: &Numbers) -> Seen {
    let told = told.items();
    Seen::Numbers(told.len(), told.first().copied(), told.last().copied())
}

fn is_due(rt: &impl Abort, bus: &Bus, now: u64) -> Seen {
    numbers(&bus.due(now).expect(rt, "memory"))
}

fn unwires(rt: &impl Abort, alloc: Global, bus: &mut Bus, k: u64) -> Seen {
    let mut told = Numbers::new(alloc);
    bus.unwire(k, &mut told).expect(rt, "memory");
    numbers(&told)
}

fn shuts(rt: &impl Abort, alloc: Global, bus: &mut Bus, k: u64) -> Seen {
    let mut told = Numbers::new(alloc);
    bus.shut(k, &mut told).expect(rt, "memory");
    numbers(&told)
}

fn wires(bus: &mut Bus, k: u64) -> Seen {
    bus.wire(k);
    Seen::Done
}

/// What comes of an act.
fn comes_of(rt: &impl Abort, alloc: Global, bus: &mut Bus, act: Act) -> Seen {
    match act {
        Act::Send(k, side, oneway) => sends(bus, k, side, oneway),
        Act::Deliver(at, takes) => delivers(bus, at, takes),
        Act::Reply(k, side, number, label, code) => {
            let asked = Asked {
                number: Some(number),
                label,
                kind: PING,
            };
            replies(rt, bus, k, side, asked, code)
        }
        Act::RawReply(k, side, label, code) => {
            let asked = Asked {
                number: None,
                label,
                kind: PING,
            };
            replies(rt, bus, k, side, asked, code)
        }
        Act::Inject(k, bytes) => injects(rt, bus, k, bytes),
        Act::Cancel(n) => gives_up(bus.cancel(n)),
        Act::Expire(n) => gives_up(bus.expire(n)),
        Act::ExpireOne(now) => bus.expire_one(now).map_or(Seen::Nothing, Seen::Count),
        Act::Due(now) => is_due(rt, bus, now),
        Act::Outcome(n) => ended(bus, n),
        Act::Keep(n) => keeps(bus, n),
        Act::Loose(n) => looses(bus, n),
        Act::About(n) => tells_about(bus, n),
        Act::Wire(k) => wires(bus, k),
        Act::Unwire(k) => unwires(rt, alloc, bus, k),
        Act::Shut(k) => shuts(rt, alloc, bus, k),
        Act::Waiting(at) => bus.waiting(at).map_or(Seen::Nothing, Seen::Count),
        Act::Spent(k, side) => Seen::Spent(bus.spent(k, side)),
    }
}

/// The acts of a table bring about what stands beside them.
pub fn plays(rt: &impl Abort, alloc: Global, bus: &mut Bus, rows: &[(Act, Seen)]) {
    for (row, (act, want)) in rows.iter().enumerate() {
        assert!(rt; comes_of(rt, alloc, bus, *act) == *want, "row {row}");
    }
}

/// A CPort of a module is connected to one of the application processor.
pub fn attaches(rt: &impl Abort, bus: &mut Bus, ap: u16, intf: u8, cport: u16, want: u64) {
    match bus.attach(ap, intf, cport, 2) {
        Ok(k) => {
            assert_eq!(rt; k, want);
            bus.wire(k);
        }
        Err(_) => assert!(rt; false),
    }
}

/// Two modules of two CPorts each, wired: connections 2 to 5 join AP CPorts 4 to 1 with interfaces
/// 3 and 2.
pub fn two_modules(rt: &impl Abort, alloc: Global) -> Bus {
    let mut bus = Bus::new(alloc).expect(rt, "memory");
    attaches(rt, &mut bus, 4, 3, 2, 2);
    attaches(rt, &mut bus, 3, 3, 1, 3);
    attaches(rt, &mut bus, 2, 2, 2, 4);
    attaches(rt, &mut bus, 1, 2, 1, 5);
    bus
}
