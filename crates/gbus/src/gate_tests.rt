//! Scripts whose requesters wait for one another at their gates, are held there, so that the order
//! is known, or are counted.

use crate::run::run;
use gb_base::{Bytes, Entries, Gate, MemSink, MemSource, Numbers, Status};
use gb_report::append_all;
use std::alloc::Global;
use std::process::Abort;
use std::sync::atomic::{AtomicU64, Ordering};
use std::thread;
use std::thread::Threads;

/// How often a requester looks for what it waits for.
const LOOKS: u32 = 100_000_000;

/// Requester 1 asks a module's driver, and requester 2 pulls the module.
const PULLED: &[u8] = b"insert 2 gpio\nboot\nsettle 40\nconnect 2 1\nsettle 10\nrequester 1\n\
gpio @a 2 1 activate 0\nrequester 2\npull 2\ndeliver ap 0\n";

/// What is written where the requesters of a script call this gate.
fn shared<R: Threads + Sync + Abort, G: Gate>(
    rt: &R,
    alloc: Global,
    script: Bytes,
    gate: &G,
) -> MemSink {
    let word = "share".to_string(alloc).expect(rt, "memory");
    let words = vec![in alloc; word].expect(rt, "memory");
    let mut source = MemSource::new(script, 4096, Numbers::new(alloc));
    let mut sink = MemSink::new(alloc, Numbers::new(alloc));
    let status = run(rt, alloc, words.as_slice(), &mut source, &mut sink, gate);
    assert!(rt; status == Status::Success);
    sink
}

/// A requester looks for another one to have come.
fn is_met(other: &AtomicU64) -> bool {
    for _ in 0..LOOKS {
        if other.load(Ordering::SeqCst) == 1 {
            return true;
        }
        thread::yield_now();
    }
    false
}

/// Each of two requesters waits before its first line until the other one has come to its own.
#[derive(Drop)]
struct Meeting {
    came: [AtomicU64; 2],
    met: AtomicU64,
}

impl Meeting {
    fn meet(&self, own: &AtomicU64, other: &AtomicU64) {
        own.store(1, Ordering::SeqCst);
        if is_met(other) {
            self.met.fetch_add(1, Ordering::SeqCst);
        }
    }
}

impl Gate for Meeting {
    fn before(&self, requester: u8, turn: u64, _last: &Entries) {
        let [one, two] = &self.came;
        if requester == 1 && turn == 1 {
            self.meet(one, two);
        }
        if requester == 2 && turn == 1 {
            self.meet(two, one);
        }
    }
}

// One thread alone never sees both.
#[test]
fn requesters_run_at_once(rt: HostRuntime) {
    let gate = Meeting {
        came: [AtomicU64::new(0), AtomicU64::new(0)],
        met: AtomicU64::new(0),
    };
    drop(shared(&rt, rt.alloc(), pulled(&rt, rt.alloc()), &gate));
    assert_eq!(&rt; gate.met.load(Ordering::SeqCst), 2);
}

/// A requester is held before its first line until another one has come to a call of its gate, with
/// what is told of its line before.
#[derive(Drop)]
struct Holding {
    alloc: Global,
    held: u8,
    other: u8,
    turn: u64,
    line: u32,
    told: &'static str,
    came: AtomicU64,
    saw: AtomicU64,
}

/// These entries of a line are told so.
fn is_told(alloc: Global, line: u32, entries: &Entries, told: &str) -> bool {
    let mut text = String::new(alloc);
    append_all(entries.items(), line, false, &mut text).is_ok() && text.as_str() == told
}

impl Gate for Holding {
    fn before(&self, requester: u8, turn: u64, last: &Entries) {
        let is_there = requester == self.other && turn == self.turn;
        if is_there && is_told(self.alloc, self.line, last, self.told) {
            self.came.store(1, Ordering::SeqCst);
        }
        if requester == self.held && turn == 1 && is_met(&self.came) {
            self.saw.store(1, Ordering::SeqCst);
        }
    }
}

/// The script in which a module is pulled.
fn pulled(rt: &impl Abort, alloc: Global) -> Bytes {
    Bytes::from_slice(alloc, PULLED).expect(rt, "memory")
}

/// It is shared in this order where its requesters are held so.
fn is_shared<R: Threads + Sync + Abort>(rt: &R, alloc: Global, gate: &Holding, order: &[u8]) {
    let sink = shared(rt, alloc, pulled(rt, alloc), gate);
    assert_eq!(rt; gate.saw.load(Ordering::SeqCst), 1);
    assert!(rt; sink.taken().starts_with(order));
}

#[test]
fn a_request_behind_the_pull_is_refused(rt: HostRuntime) {
    let gate = Holding {
        alloc: rt.alloc(),
        held: 1,
        other: 2,
        turn: 3,
        line: 10,
        told: "line 10 ok\nreply #16 ap 0 > svc result 00 size 8\nconnection 2 ap 1 2 0 closed\n\
connection 3 ap 2 2 1 closed\ninterface 2 removed\n",
        came: AtomicU64::new(0),
        saw: AtomicU64::new(0),
    };
    is_shared(&rt, rt.alloc(), &gate, b"order 0 0 0 0 0 2 2 1\n");
}

#[test]
fn a_request_before_the_pull_is_asked(rt: HostRuntime) {
    let gate = Holding {
        alloc: rt.alloc(),
        held: 2,
        other: 1,
        turn: 2,
        line: 7,
        told: "line 7 ok\nask #16 ap 2 > 2 1 type 03 size 9\n",
        came: AtomicU64::new(0),
        saw: AtomicU64::new(0),
    };
    is_shared(&rt, rt.alloc(), &gate, b"order 0 0 0 0 0 1 2 2\n");
}

/// Counts the calls of all gates.
#[derive(Drop)]
struct Counting {
    calls: AtomicU64,
}

impl Gate for Counting {
    fn before(&self, _requester: u8, _turn: u64, _last: &Entries) {
        self.calls.fetch_add(1, Ordering::SeqCst);
    }
}

const HEADINGS: [&[u8]; 8] = [
    b"requester 1\n",
    b"requester 2\n",
    b"requester 3\n",
    b"requester 4\n",
    b"requester 5\n",
    b"requester 6\n",
    b"requester 7\n",
    b"requester 8\n",
];

/// The script of eight requesters with 200 lines each.
fn long_script(rt: &impl Abort, alloc: Global) -> Bytes {
    let mut script = Bytes::new(alloc);
    for heading in HEADINGS.iter() {
        script.extend(heading).expect(rt, "memory");
        for _ in 0..200 {
            script.extend(b"tick 1\n").expect(rt, "memory");
        }
    }
    script
}

// A requester calls its gate once for each line that it runs in its thread, and once more.
#[test]
fn fewer_than_one_line_in_ten_is_kept_for_later(rt: HostRuntime) {
    let gate = Counting {
        calls: AtomicU64::new(0),
    };
    drop(shared(&rt, rt.alloc(), long_script(&rt, rt.alloc()), &gate));
    assert!(&rt; gate.calls.load(Ordering::SeqCst) > 8 + 1600 - 160);
}
