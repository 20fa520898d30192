//! Requests are begun, answered, given up and listed, expire and are closed.

use gb_base::{Numbers, OutOfMemory};
use gb_ops::{BeginFault, Matched, Ops};
use std::process::Abort;

/// What a call answered.
#[derive(Clone, Copy, PartialEq, Eq)]
enum Seen {
    Begun(u16),
    Refused,
    Found(Matched),
    GaveUp(bool),
    Number(Option<u64>),
}

/// A call.
#[derive(Clone, Copy, Debug)]
enum Act {
    Begin(u64, u64),
    Reply(u16),
    GiveUp(u64),
    Expire(u64),
    Close,
}

fn comes_of(ops: &mut Ops, act: Act) -> Seen {
    match act {
        Act::Begin(n, deadline) => match ops.begin(n, deadline) {
            Ok(label) => Seen::Begun(label),
            Err(_) => Seen::Refused,
        },
        Act::Reply(label) => Seen::Found(ops.reply(label)),
        Act::GiveUp(n) => Seen::GaveUp(ops.give_up(n)),
        Act::Expire(now) => Seen::Number(ops.expire_one(now)),
        Act::Close => Seen::Number(ops.close_one()),
    }
}

fn plays(rt: &impl Abort, ops: &mut Ops, rows: &[(Act, Seen)]) {
    for (act, want) in rows {
        assert!(rt; comes_of(ops, *act) == *want, "{act:?}");
    }
}

/// Two expire at once in order of number, though the later one was to expire earlier.
const ROWS: &[(Act, Seen)] = &[
    (Act::Begin(3, 1000), Seen::Begun(1)),
    (Act::Begin(4, 900), Seen::Begun(2)),
    (Act::Begin(7, 2000), Seen::Begun(3)),
    (Act::Begin(9, 1500), Seen::Begun(4)),
    (Act::Expire(899), Seen::Number(None)),
    (Act::Expire(1000), Seen::Number(Some(3))),
    (Act::Expire(1000), Seen::Number(Some(4))),
    (Act::Expire(1000), Seen::Number(None)),
    (Act::GiveUp(3), Seen::GaveUp(false)),
    (Act::GiveUp(7), Seen::GaveUp(true)),
    (Act::Expire(5000), Seen::Number(Some(9))),
    (Act::Reply(3), Seen::Found(Matched::Late(7))),
    (Act::Reply(3), Seen::Found(Matched::Unknown)),
    (Act::Begin(10, 0), Seen::Begun(5)),
    (Act::Reply(5), Seen::Found(Matched::Open(10))),
    (Act::Begin(11, 1), Seen::Begun(6)),
    (Act::Begin(12, 0), Seen::Begun(7)),
    (Act::Close, Seen::Number(Some(11))),
    (Act::Close, Seen::Number(Some(12))),
    (Act::Close, Seen::Number(None)),
    (Act::Reply(1), Seen::Found(Matched::Unknown)),
    (Act::Begin(13, 0), Seen::Begun(8)),
];

#[test]
fn requests_end(rt: HostRuntime) {
    let mut ops = Ops::new(rt.alloc()).expect(&rt, "memory");
    plays(&rt, &mut ops, ROWS);
}

/// Begins n, and its identifier is this one.
fn begins(rt: &impl Abort, ops: &mut Ops, n: u64, label: u16) {
    assert!(rt; ops.begin(n, n) == Ok(label));
}

#[test]
fn given_up_identifiers_stay_in_use(rt: HostRuntime) {
    let mut ops = Ops::new(rt.alloc()).expect(&rt, "memory");
    for label in 1..=65_535u16 {
        begins(&rt, &mut ops, u64::from(label), label);
    }
    assert!(rt; ops.begin(65_536, 0) == Err(BeginFault::NoLabel));
    plays(&rt, &mut ops, &[(Act::GiveUp(1), Seen::GaveUp(true))]);
    plays(
        &rt,
        &mut ops,
        &[(Act::Reply(2), Seen::Found(Matched::Open(2)))],
    );
    begins(&rt, &mut ops, 65_536, 2);
    assert!(rt; ops.begin(65_537, 0) == Err(BeginFault::NoLabel));
}

/// These are the numbers.
fn lists(rt: &impl Abort, told: Result<Numbers, OutOfMemory>, want: &[u64]) {
    let numbers = told.expect(rt, "memory");
    assert!(rt; numbers.items() == want);
}

/// Requests 9 and 3 are given up, and 7 and 5 are open.
const LEFT: &[(Act, Seen)] = &[
    (Act::Begin(9, 0), Seen::Begun(1)),
    (Act::GiveUp(9), Seen::GaveUp(true)),
    (Act::Begin(3, 0), Seen::Begun(2)),
    (Act::Begin(7, 0), Seen::Begun(3)),
    (Act::Begin(5, 0), Seen::Begun(4)),
    (Act::GiveUp(3), Seen::GaveUp(true)),
];

#[test]
fn requests_are_listed_in_order(rt: HostRuntime) {
    let mut ops = Ops::new(rt.alloc()).expect(&rt, "memory");
    plays(&rt, &mut ops, LEFT);
    lists(&rt, ops.unended(rt.alloc()), &[5, 7]);
    lists(&rt, ops.late(rt.alloc()), &[3, 9]);
}
