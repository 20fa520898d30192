//! Rows of the bus: requests, connections, identifiers and slots. The expected values are
//! worked by hand.

use crate::bus_acts::{
    Act, DISPLAY, FAN, KEYS, LIGHT, Seen, attaches, delivers, plays, replies, sends, two_modules,
};
use gb_base::{End, Side};
use gb_bus::{Asked, Bus};
use gb_payload::svc_kinds::PING;
use std::process::Abort;

/// Requests that succeed, fail, are dropped, are unidirectional, time out, and are answered late.
/// One that has ended is known as long as it has a name, or its answer hasn't come.
const REQUESTS: &[(Act, Seen)] = &[
    (Act::Keep(1), Seen::Done),
    (Act::Send(1, Side::Ap, false), Seen::Sent(1, 1, false)),
    (Act::Keep(1), Seen::Done),
    (Act::Keep(1), Seen::Done),
    (
        Act::Deliver(End::Svc, true),
        Seen::Ask(1, Some(1), 1, Some(5)),
    ),
    (Act::Reply(1, Side::Far, 1, 1, 0), Seen::Done),
    (Act::Outcome(1), Seen::Nothing),
    (
        Act::Deliver(End::Ap(0), true),
        Seen::Ended(1, 1, 0, Some(9)),
    ),
    (Act::Outcome(1), Seen::Answered(0, Some(9))),
    (Act::Loose(1), Seen::Done),
    (Act::About(1), Seen::About(1, Side::Ap)),
    (Act::Loose(1), Seen::Done),
    (Act::About(1), Seen::Nothing),
    (Act::Deliver(End::Ap(0), true), Seen::QueueEmpty),
    (Act::Send(1, Side::Ap, false), Seen::Sent(2, 2, false)),
    (
        Act::Deliver(End::Svc, true),
        Seen::Ask(1, Some(2), 2, Some(5)),
    ),
    (Act::Reply(1, Side::Far, 2, 2, 6), Seen::Done),
    (Act::Deliver(End::Ap(0), true), Seen::Ended(1, 2, 6, None)),
    (Act::Outcome(2), Seen::Nothing),
    (Act::Send(1, Side::Ap, true), Seen::Sent(3, 0, false)),
    (Act::About(3), Seen::Nothing),
    (Act::Deliver(End::Svc, false), Seen::Dropped(Some(3), false)),
    (Act::Send(1, Side::Ap, false), Seen::Sent(4, 3, false)),
    (Act::Cancel(4), Seen::Done),
    (Act::Cancel(4), Seen::AlreadyEnded),
    (Act::Outcome(4), Seen::Cancelled),
    (Act::Send(1, Side::Ap, false), Seen::Sent(5, 4, false)),
    (
        Act::Deliver(End::Svc, true),
        Seen::Ask(1, Some(4), 3, Some(5)),
    ),
    (Act::Reply(1, Side::Far, 4, 3, 0), Seen::Done),
    (Act::About(4), Seen::About(1, Side::Ap)),
    (Act::Deliver(End::Ap(0), true), Seen::Late(4)),
    (Act::About(4), Seen::Nothing),
    (Act::Due(499), Seen::Numbers(0, None, None)),
    (Act::Due(500), Seen::Numbers(1, Some(5), Some(5))),
    (Act::Expire(5), Seen::Done),
    (Act::Expire(5), Seen::AlreadyEnded),
    (Act::Outcome(5), Seen::TimedOut),
    (Act::Send(1, Side::Ap, false), Seen::Sent(6, 5, false)),
    (Act::ExpireOne(499), Seen::Nothing),
    (Act::ExpireOne(500), Seen::Count(6)),
    (Act::Outcome(6), Seen::TimedOut),
];

#[test]
fn requests_end(rt: HostRuntime) {
    let mut bus = Bus::new(rt.alloc()).expect(&rt, "memory");
    plays(&rt, rt.alloc(), &mut bus, REQUESTS);
}

/// The queues in the order in which they are settled.
const ORDER: &[End] = &[
    End::Svc,
    End::Ap(0),
    End::Ap(1),
    End::Ap(2),
    End::Ap(3),
    End::Ap(4),
    LIGHT,
    FAN,
    KEYS,
    DISPLAY,
];

/// A unidirectional request of each side of a connection.
fn fills(bus: &mut Bus, k: u64) {
    sends(bus, k, Side::Ap, true);
    sends(bus, k, Side::Far, true);
}

/// Something waits first at this end, and is delivered.
fn is_first(rt: &impl Abort, bus: &mut Bus, at: End) {
    assert_eq!(rt; bus.first(), Some(at));
    delivers(bus, at, true);
}

#[test]
fn ends_wait_in_order(rt: HostRuntime) {
    let mut bus = two_modules(&rt, rt.alloc());
    for k in 1..=5u64 {
        fills(&mut bus, k);
    }
    for at in ORDER {
        is_first(&rt, &mut bus, *at);
    }
}

/// Connection 5 carries both ways. Then it is unwired, and the side of the application processor of
/// connection 4 is closed.
const CLOSING: &[(Act, Seen)] = &[
    (Act::Send(5, Side::Ap, false), Seen::Sent(1, 1, false)),
    (Act::Send(5, Side::Far, false), Seen::Sent(2, 1, false)),
    (Act::Deliver(LIGHT, true), Seen::Ask(5, Some(1), 1, Some(5))),
    (
        Act::Deliver(End::Ap(1), true),
        Seen::Ask(5, Some(2), 1, Some(5)),
    ),
    (Act::Reply(5, Side::Ap, 2, 1, 0), Seen::Done),
    (Act::Deliver(LIGHT, true), Seen::Ended(5, 2, 0, Some(9))),
    (Act::Send(5, Side::Far, false), Seen::Sent(3, 2, false)),
    (Act::Keep(3), Seen::Done),
    (Act::Send(4, Side::Far, false), Seen::Sent(4, 1, false)),
    (Act::Send(5, Side::Far, false), Seen::Sent(5, 3, false)),
    (Act::Waiting(End::Ap(1)), Seen::Count(2)),
    (Act::Unwire(5), Seen::Numbers(2, Some(3), Some(5))),
    (Act::Outcome(1), Seen::Nothing),
    (Act::Outcome(3), Seen::Disconnected),
    (Act::About(5), Seen::Nothing),
    (Act::Outcome(4), Seen::Nothing),
    (Act::Waiting(LIGHT), Seen::Nothing),
    (Act::Deliver(LIGHT, true), Seen::NoConnection),
    (Act::Send(5, Side::Ap, false), Seen::Sent(6, 2, true)),
    (Act::Wire(5), Seen::Done),
    (Act::Reply(5, Side::Ap, 3, 2, 0), Seen::Done),
    (Act::Deliver(LIGHT, true), Seen::Late(3)),
    (Act::Waiting(End::Ap(1)), Seen::Count(0)),
    (Act::Send(4, Side::Ap, false), Seen::Sent(7, 1, false)),
    (Act::Send(4, Side::Ap, false), Seen::Sent(8, 2, false)),
    (Act::Cancel(7), Seen::Done),
    (Act::Keep(8), Seen::Done),
    (Act::Shut(4), Seen::Numbers(1, Some(8), Some(8))),
    (Act::About(7), Seen::Nothing),
    (Act::Outcome(8), Seen::Disconnected),
    (Act::Outcome(4), Seen::Nothing),
];

#[test]
fn connections_close(rt: HostRuntime) {
    let mut bus = two_modules(&rt, rt.alloc());
    plays(&rt, rt.alloc(), &mut bus, CLOSING);
}

/// On a connection that is gone nothing is made.
const GONE: &[(Act, Seen)] = &[
    (Act::Send(5, Side::Ap, false), Seen::NoConnection),
    (Act::Send(5, Side::Far, true), Seen::NoConnection),
    (Act::Spent(5, Side::Far), Seen::Spent(true)),
    (Act::Deliver(LIGHT, true), Seen::NoConnection),
    (Act::Spent(4, Side::Far), Seen::Spent(false)),
];

/// The connection of CPort 1 with CPort 1 of interface 2.
fn light_is_on(rt: &impl Abort, bus: &Bus, want: Option<u64>) {
    assert_eq!(rt; bus.live(1, 2, 1), want);
}

#[test]
fn a_cport_is_used_again(rt: HostRuntime) {
    let mut bus = two_modules(&rt, rt.alloc());
    light_is_on(&rt, &bus, Some(5));
    bus.detach(5);
    light_is_on(&rt, &bus, None);
    plays(&rt, rt.alloc(), &mut bus, GONE);
    attaches(&rt, &mut bus, 1, 2, 1, 6);
    light_is_on(&rt, &bus, Some(6));
}

/// Identifier n is drawn, and it isn't the last.
fn draws(rt: &impl Abort, bus: &mut Bus, n: u16) {
    assert!(rt; !bus.spent(1, Side::Ap), "before {n}");
    assert!(rt; sends(bus, 1, Side::Ap, false) == Seen::Sent(u64::from(n), n, false));
}

/// The application processor has none left, and the other side has. Identifier 1 is drawn again
/// once its request is answered.
const SPENT: &[(Act, Seen)] = &[
    (Act::Spent(1, Side::Ap), Seen::Spent(true)),
    (Act::Send(1, Side::Ap, false), Seen::NoLabel),
    (Act::Send(1, Side::Far, false), Seen::Sent(65_536, 1, false)),
    (
        Act::Deliver(End::Svc, true),
        Seen::Ask(1, Some(1), 1, Some(5)),
    ),
    (Act::Reply(1, Side::Far, 1, 1, 6), Seen::Done),
    (
        Act::Deliver(End::Ap(0), true),
        Seen::Ask(1, Some(65_536), 1, Some(5)),
    ),
    (Act::Deliver(End::Ap(0), true), Seen::Ended(1, 1, 6, None)),
    (Act::Send(1, Side::Ap, false), Seen::Sent(65_537, 1, false)),
    (Act::Spent(1, Side::Ap), Seen::Spent(true)),
];

#[test]
fn each_side_has_65535_identifiers(rt: HostRuntime) {
    let mut bus = Bus::new(rt.alloc()).expect(&rt, "memory");
    for n in 1..=65_535u16 {
        draws(&rt, &mut bus, n);
    }
    plays(&rt, rt.alloc(), &mut bus, SPENT);
}

/// A ping is sent, served, answered and met.
fn pings(rt: &impl Abort, bus: &mut Bus, n: u64) {
    let Seen::Sent(number, label, _) = sends(bus, 1, Side::Ap, false) else {
        panic!(rt; "request {n}");
    };
    delivers(bus, End::Svc, true);
    let asked = Asked {
        number: Some(number),
        label,
        kind: PING,
    };
    replies(rt, bus, 1, Side::Far, asked, 0);
    assert!(rt; delivers(bus, End::Ap(0), true) == Seen::Ended(1, n, 0, Some(9)));
}

#[test]
fn a_slot_is_used_again(rt: HostRuntime) {
    let mut bus = Bus::new(rt.alloc()).expect(&rt, "memory");
    for n in 1..=100_000u64 {
        pings(&rt, &mut bus, n);
    }
    assert!(rt; bus.next_slot() <= 1);
}
