//! Runs of the program over a source and a sink in memory, and runs of a system that are too long
//! for a script or that no report shows.

use crate::plain_run::run_plain;
use crate::run::run;
use gb_base::{
    Bytes, Entries, Entry, FreeGate, MemSink, MemSource, Numbers, Outcome, PlainSink, PlainSource,
    Sink, Source, Status,
};
use gb_script::event;
use gb_system::System;
use std::alloc::Global;
use std::process::Abort;
use std::thread::Threads;

/// A ping, its delivery and the delivery of its answer.
const PING: &[u8] = b"send @x svc ping\ndeliver svc\ndeliver ap 0\n";

/// What is reported of them.
const PING_REPORT: &[u8] = b"line 1 ok\n\
ask #1 ap 0 > svc type 13 size 8\n\
line 2 ok\n\
reply #1 svc > ap 0 result 00 size 8\n\
line 3 ok\n\
end #1 answered 00 -\n";

/// The word `run`.
fn run_word(rt: &impl Abort, alloc: Global) -> Vec<String> {
    let word = "run".to_string(alloc).expect(rt, "memory");
    vec![in alloc; word].expect(rt, "memory")
}

/// How the program ends with the word `run`.
fn ended<R: Threads + Sync + Abort, S: Source, K: Sink>(
    rt: &R,
    alloc: Global,
    source: &mut S,
    sink: &mut K,
) -> Status {
    let words = run_word(rt, alloc);
    run(rt, alloc, words.as_slice(), source, sink, &FreeGate)
}

/// How it ends where nothing but memory can be wanting.
fn ended_well<R: Threads + Sync + Abort>(
    rt: &R,
    alloc: Global,
    source: &mut PlainSource,
    sink: &mut PlainSink,
) -> Status {
    let words = run_word(rt, alloc);
    run_plain(rt, alloc, words.as_slice(), source, sink, &FreeGate)
}

/// These bytes.
pub fn bytes(rt: &impl Abort, alloc: Global, items: &[u8]) -> Bytes {
    Bytes::from_slice(alloc, items).expect(rt, "memory")
}

#[test]
fn a_script_is_reported(rt: HostRuntime) {
    let mut source = PlainSource::new(bytes(&rt, rt.alloc(), PING));
    let mut sink = PlainSink::new(rt.alloc());
    assert!(rt; ended_well(&rt, rt.alloc(), &mut source, &mut sink) == Status::Success);
    assert!(rt; sink.taken() == PING_REPORT);
}

/// A script, how many bytes a read gives, the read and the write that fail, where one does, the
/// status, what is taken, and how many bytes are left.
type Row<'a> = (&'a [u8], usize, u64, u64, Status, &'a [u8], usize);

/// This number alone.
pub fn only(rt: &impl Abort, alloc: Global, number: u64) -> Numbers {
    let mut numbers = Numbers::new(alloc);
    numbers.push(number).expect(rt, "memory");
    numbers
}

/// The program ends so.
fn ends<R: Threads + Sync + Abort>(rt: &R, alloc: Global, row: &Row) {
    let (script, step, read, write, wanted, output, left) = *row;
    assert!(rt; step >= 1);
    let mut source = MemSource::new(bytes(rt, alloc, script), step, only(rt, alloc, read));
    let mut sink = MemSink::new(alloc, only(rt, alloc, write));
    assert!(rt; ended(rt, alloc, &mut source, &mut sink) == wanted);
    assert!(rt; sink.taken() == output);
    assert_eq!(rt; source.left().len(), left);
}

#[test]
fn faults_are_told(rt: HostRuntime) {
    let rows: [Row; 4] = [
        (PING, 1, 0, 0, Status::Success, PING_REPORT, 0),
        (PING, 1, 1, 0, Status::ReadFault, b"", 42),
        (PING, 1, 17, 0, Status::ReadFault, b"", 26),
        (PING, 1, 0, 1, Status::WriteFault, b"", 25),
    ];
    for row in rows.iter() {
        ends(&rt, rt.alloc(), row);
    }
}

#[test]
fn what_was_read_is_reported_before_more_is_read(rt: HostRuntime) {
    let first = &PING_REPORT[..43];
    let bad = b"line 1: bad word 1\n";
    let rows: [Row; 5] = [
        (PING, 17, 2, 0, Status::ReadFault, first, 25),
        (PING, 42, 2, 2, Status::ReadFault, PING_REPORT, 0),
        (PING, 42, 0, 1, Status::WriteFault, b"", 0),
        (b"sned\n", 5, 2, 0, Status::Refused, bad, 0),
        (PING, 17, 0, 1, Status::WriteFault, b"", 25),
    ];
    for row in rows.iter() {
        ends(&rt, rt.alloc(), row);
    }
}

/// What a line brings about, which is in the grammar.
pub fn steps(rt: &impl Abort, alloc: Global, system: &mut System, line: &[u8]) -> Entries {
    assert!(rt; system.taken() < 4_294_967_295);
    match event(alloc, line, 0) {
        Ok(Some(e)) => system.step(&e).expect(rt, "memory"),
        _ => {
            assert!(rt; false);
            Entries::new(alloc)
        }
    }
}

/// A line is done.
pub fn does(rt: &impl Abort, alloc: Global, system: &mut System, line: &[u8]) {
    let told = steps(rt, alloc, system, line);
    assert!(rt; matches!(told.items().first(), Some(Entry::Done)));
    drop(told);
}

#[test]
fn an_outcome_is_told_while_the_request_has_a_name(rt: HostRuntime) {
    let mut system = System::new(rt.alloc()).expect(&rt, "memory");
    does(&rt, rt.alloc(), &mut system, b"send @x svc ping");
    assert!(rt; matches!(system.outcome(1), Some(None)));
    does(&rt, rt.alloc(), &mut system, b"settle 9");
    assert!(rt; matches!(system.outcome(1), Some(Some(Outcome::Answered { .. }))));
    does(&rt, rt.alloc(), &mut system, b"drop @x");
    assert!(rt; system.outcome(1).is_none());
    drop(system);
}

/// A GPIO module holds request 16, with identifier 1, which was given up.
const HELD: [&[u8]; 9] = [
    b"insert 2 gpio",
    b"boot",
    b"settle 40",
    b"connect 2 1",
    b"settle 10",
    b"hold 2 1",
    b"gpio @a 2 1 activate 0",
    b"deliver 2 1",
    b"cancel @a",
];

/// Another request is made and answered.
const ROUND: [&[u8]; 5] = [
    b"gpio @b 2 1 count",
    b"deliver 2 1",
    b"answer 2 1 2",
    b"deliver ap 2",
    b"drop @b",
];

/// Identifiers 2 to 65,535 come and go, while 1 is awaited.
fn goes_round(rt: &impl Abort, alloc: Global, system: &mut System) {
    for line in HELD.iter() {
        does(rt, alloc, system, line);
    }
    for _ in 0..65_534 {
        for line in ROUND.iter() {
            does(rt, alloc, system, line);
        }
    }
}

/// The line makes a request with this number and this identifier, which is below 256.
fn asks(rt: &impl Abort, alloc: Global, system: &mut System, line: &[u8], n: u64, label: u8) {
    let told = steps(rt, alloc, system, line);
    match told.items().get(1) {
        Some(Entry::Asked { number, bytes, .. }) => {
            assert!(rt; *number == n && bytes.items().get(2) == Some(&label));
        }
        _ => assert!(rt; false),
    }
    drop(told);
}

/// The answer to request 16 is late.
fn is_late(rt: &impl Abort, alloc: Global, system: &mut System, line: &[u8]) {
    let told = steps(rt, alloc, system, line);
    assert!(rt; matches!(told.items().get(1), Some(Entry::Late { number: 16 })));
    drop(told);
}

#[test]
fn an_identifier_that_comes_round_is_not_mistaken(rt: HostRuntime) {
    let alloc = rt.alloc();
    let mut system = System::new(alloc).expect(&rt, "memory");
    goes_round(&rt, alloc, &mut system);
    asks(&rt, alloc, &mut system, b"gpio @c 2 1 count", 65_551, 2);
    does(&rt, alloc, &mut system, b"answer 2 1 1");
    is_late(&rt, alloc, &mut system, b"deliver ap 2");
    asks(&rt, alloc, &mut system, b"gpio @d 2 1 count", 65_552, 3);
    does(&rt, alloc, &mut system, b"cancel @c");
    drop(system);
}
