//! Raw bytes on the bus. The expected values are worked by hand.

use crate::bus_acts::{Act, FAN, LIGHT, Seen, plays, two_modules};
use gb_base::{End, RawFault, Side, WireFault};
use gb_bus::Bus;
use std::process::Abort;

/// Requests 1, 2 and 3 are asked on connection 5, and 4 on connection 4, where nothing is injected.
/// Request 2 was answered before, and its answer goes by its identifier too. Bytes that aren't one
/// message are named, a response is matched by its identifier whatever its type is, and a request
/// is answered with its identifier.
const INJECTED: &[(Act, Seen)] = &[
    (Act::Send(5, Side::Ap, false), Seen::Sent(1, 1, false)),
    (Act::Send(5, Side::Ap, false), Seen::Sent(2, 2, false)),
    (Act::Send(5, Side::Ap, false), Seen::Sent(3, 3, false)),
    (Act::Send(4, Side::Ap, false), Seen::Sent(4, 1, false)),
    (Act::Deliver(LIGHT, true), Seen::Ask(5, Some(1), 1, Some(5))),
    (Act::Deliver(LIGHT, true), Seen::Ask(5, Some(2), 2, Some(5))),
    (Act::Reply(5, Side::Far, 2, 2, 0), Seen::Done),
    (Act::Cancel(3), Seen::Done),
    (Act::Inject(5, &[8, 0, 1]), Seen::Done),
    (Act::Inject(5, &[7, 0, 1, 0, 0x83, 0, 0, 0]), Seen::Done),
    (Act::Inject(5, &[8, 0, 1, 0, 2, 4, 0, 0]), Seen::Done),
    (
        Act::Inject(5, &[8, 0, 1, 0, 0x83, 0, 0, 0, 8, 0]),
        Seen::Done,
    ),
    (Act::Inject(5, &[9, 0, 1, 0, 0xff, 0, 0, 0, 6]), Seen::Done),
    (Act::Inject(5, &[9, 0, 3, 0, 0x80, 0, 0, 0, 6]), Seen::Done),
    (Act::Inject(5, &[8, 0, 3, 0, 0x80, 0, 0, 0]), Seen::Done),
    (Act::Inject(5, &[9, 0, 7, 0, 0x7f, 0, 0, 0, 6]), Seen::Done),
    (Act::Waiting(End::Ap(1)), Seen::Count(9)),
    (
        Act::Deliver(End::Ap(1), true),
        Seen::Ended(5, 2, 0, Some(9)),
    ),
    (
        Act::Deliver(End::Ap(1), true),
        Seen::Bad(RawFault::Wire(WireFault::Short { need: 8 })),
    ),
    (
        Act::Deliver(End::Ap(1), true),
        Seen::Bad(RawFault::Wire(WireFault::SizeBelowEight { size: 7 })),
    ),
    (
        Act::Deliver(End::Ap(1), true),
        Seen::Bad(RawFault::Wire(WireFault::RequestResult { result: 4 })),
    ),
    (
        Act::Deliver(End::Ap(1), true),
        Seen::Bad(RawFault::Extra { count: 2 }),
    ),
    (
        Act::Deliver(End::Ap(1), true),
        Seen::Ended(5, 1, 0, Some(6)),
    ),
    (Act::Deliver(End::Ap(1), true), Seen::LateLabel(3)),
    (Act::Deliver(End::Ap(1), true), Seen::UnknownLabel(3)),
    (
        Act::Deliver(End::Ap(1), true),
        Seen::Ask(5, None, 7, Some(6)),
    ),
    (Act::RawReply(5, Side::Ap, 7, 6), Seen::Done),
    (Act::Deliver(LIGHT, true), Seen::Ask(5, Some(3), 3, Some(5))),
    (Act::Deliver(LIGHT, true), Seen::UnknownLabel(7)),
    (Act::Reply(5, Side::Far, 1, 1, 0), Seen::Done),
    (Act::Inject(5, &[8, 0, 1, 0, 0x83, 0, 0, 0]), Seen::Done),
    (Act::Deliver(End::Ap(1), true), Seen::UnknownLabel(1)),
    (Act::Deliver(End::Ap(1), false), Seen::Dropped(None, false)),
    (Act::Deliver(FAN, true), Seen::Ask(4, Some(4), 1, Some(5))),
    (Act::Cancel(4), Seen::Done),
    (Act::Reply(4, Side::Far, 4, 1, 0), Seen::Done),
    (Act::Deliver(End::Ap(2), true), Seen::Late(4)),
];

/// Connections 5 and 4 are unclean or aren't.
fn is_unclean(rt: &impl Abort, bus: &Bus) {
    let told = bus.connections().expect(rt, "memory");
    for known in told.items() {
        assert_eq!(rt; known.clean, known.number != 5);
    }
}

#[test]
fn bytes_are_injected(rt: HostRuntime) {
    let mut bus = two_modules(&rt, rt.alloc());
    plays(&rt, rt.alloc(), &mut bus, INJECTED);
    is_unclean(&rt, &bus);
}
