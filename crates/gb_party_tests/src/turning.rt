//! The sequences of the application processor step by step. What it does is worked by hand from the
//! Greybus Specification.

use gb_base::{Bytes, ConnState, Entry, HostEvent, IntfStage, Outcome};
use gb_host::{Act, Host};
use std::alloc::Global;
use std::process::Abort;

/// What the application processor takes notice of.
#[derive(Clone, Copy)]
enum What<'a> {
    /// A module with its primary interface and their number.
    In(u8, u8),
    Out(u8),
    Connect(u8, u16),
    Close(u8, u16),
    Drain(u8, u16),
    /// None of its requests is open on a connection.
    Idle(u64),
    /// Its last request is answered with a result and a payload.
    Answer(u8, &'a [u8]),
    /// Its last request isn't answered in time.
    Late,
}

use What::{Answer, Close, Connect, Drain, Idle, In, Late, Out};

/// A manifest with CPort 1 of GPIO in bundle 1.
const GPIO: &[u8] = b"\x48\0\0\x01\
\x08\0\x01\0\x01\x02\0\0\
\x10\0\x02\0\x07\x01Greybus\0\0\0\
\x0c\0\x02\0\x04\x02GPIO\0\0\
\x08\0\x03\0\0\0\0\0\
\x08\0\x03\0\x01\x0a\0\0\
\x08\0\x04\0\0\0\0\0\
\x08\0\x04\0\x01\0\x01\x02";

/// The same with version 1, which is refused at byte 2.
const NEWER: &[u8] = b"\x48\0\x01\x01\
\x08\0\x01\0\x01\x02\0\0\
\x10\0\x02\0\x07\x01Greybus\0\0\0\
\x0c\0\x02\0\x04\x02GPIO\0\0\
\x08\0\x03\0\0\0\0\0\
\x08\0\x03\0\x01\x0a\0\0\
\x08\0\x04\0\0\0\0\0\
\x08\0\x04\0\x01\0\x01\x02";

/// An enumeration, a connection that is made and closed, and a removal.
const STEPS: &[(What, &str)] = &[
    (In(2, 1), "intf 2 enumerating;ask 1 33 [2];"),
    (Answer(0, &[0]), "ask 1 35 [2];"),
    (Answer(0, &[0]), "ask 1 37 [2];"),
    (Answer(0, &[0]), "ask 1 39 [2];"),
    (Answer(0, &[0, 3]), "ask 1 3 [2, 2];"),
    (Answer(0, &[]), "ask 1 11 [1, 1, 2, 2];"),
    (
        Answer(0, &[]),
        "make 1 2 0 0;ask 1 7 [1, 1, 0, 2, 0, 0, 0, 0];",
    ),
    (Answer(0, &[]), "conn 2 open;ask 2 1 [0, 1];"),
    (Answer(0, &[0, 1]), "ask 2 3 [];"),
    (Answer(0, &[72, 0]), "ask 2 4 [];"),
    (Answer(0, GPIO), "intf 2 enumerated;"),
    (
        Connect(2, 1),
        "make 2 2 1 2;ask 1 7 [1, 2, 0, 2, 1, 0, 0, 0];",
    ),
    (Answer(0, &[]), "ask 2 5 [1, 0];"),
    (Answer(0, &[]), "conn 3 open;"),
    (Close(2, 1), "shut 3;conn 3 closing;ask 2 12 [1, 0];"),
    (Answer(0, &[]), "ask 2 6 [1, 0];"),
    (Answer(0, &[]), "ask 1 8 [1, 2, 0, 2, 1, 0];"),
    (Answer(0, &[]), "leave 3;conn 3 closed;"),
    (Out(2), "shut 2;leave 2;conn 2 closed;intf 2 removed;"),
];

/// After so many steps, what comes in place of the next, and what is done then.
const OTHERWISE: &[(usize, What, &str)] = &[
    (
        0,
        In(2, 2),
        "intf 2 enumerating;ask 1 33 [2];intf 3 enumerating;ask 1 33 [3];",
    ),
    (1, Answer(0, &[1]), "intf 2 failed;"),
    (1, Late, "intf 2 failed;"),
    (2, Answer(6, &[]), "intf 2 failed;"),
    (3, Answer(0, &[]), "intf 2 failed;"),
    (4, Answer(0, &[0, 2]), "intf 2 failed;"),
    (5, Answer(6, &[]), "intf 2 failed;"),
    (6, Late, "intf 2 failed;"),
    (7, Answer(6, &[]), "conn 2 failed;intf 2 failed;"),
    (8, Answer(0, &[0]), "intf 2 failed;"),
    (9, Answer(1, &[]), "intf 2 failed;"),
    (10, Answer(0, &[72, 0]), "intf 2 failed;"),
    (10, Answer(0, NEWER), "manifest 2 2;intf 2 failed;"),
    (12, Answer(6, &[]), "conn 3 failed;"),
    (13, Late, "conn 3 failed;"),
    (14, Drain(2, 1), "conn 3 draining;"),
    (14, Idle(3), ""),
    (15, Late, "conn 3 failed;"),
    (16, Answer(1, &[]), "conn 3 failed;"),
    (17, Answer(8, &[]), "conn 3 failed;"),
    (4, Out(2), "intf 2 removed;"),
    (9, Out(2), "shut 2;leave 2;conn 2 closed;intf 2 removed;"),
];

/// An application processor, with the numbers of its last request and connection.
#[derive(Drop)]
struct Play {
    host: Host,
    request: u64,
    connection: u64,
}

fn first_play(rt: &impl Abort, alloc: Global) -> Play {
    Play {
        host: Host::new(alloc).expect(rt, "memory"),
        request: 0,
        connection: 1,
    }
}

/// What is taken notice of, where the last request has this number.
fn event(rt: &impl Abort, alloc: Global, number: u64, what: What<'_>) -> HostEvent {
    match what {
        In(primary, count) => HostEvent::Inserted { primary, count },
        Out(primary) => HostEvent::Removed { primary },
        Connect(intf, cport) => HostEvent::Connect { intf, cport },
        Close(intf, cport) => HostEvent::Disconnect { intf, cport },
        Drain(intf, cport) => HostEvent::Drain { intf, cport },
        Idle(connection) => HostEvent::Idle { connection },
        Answer(result, payload) => HostEvent::Ended {
            number,
            outcome: Outcome::Answered {
                result,
                payload: Bytes::from_slice(alloc, payload).expect(rt, "memory"),
            },
        },
        Late => HostEvent::Ended {
            number,
            outcome: Outcome::Timeout,
        },
    }
}

fn stage_word(stage: IntfStage) -> &'static str {
    match stage {
        IntfStage::Enumerating => "enumerating",
        IntfStage::Enumerated => "enumerated",
        IntfStage::Failed => "failed",
        IntfStage::Removed => "removed",
    }
}

fn state_word(state: ConnState) -> &'static str {
    match state {
        ConnState::Opening => "opening",
        ConnState::Open => "open",
        ConnState::Draining => "draining",
        ConnState::Closing => "closing",
        ConnState::Closed => "closed",
        ConnState::Failed => "failed",
    }
}

/// The text of what is told.
fn entry_text(rt: &impl Abort, alloc: Global, entry: &Entry) -> String {
    match entry {
        Entry::Interface { intf, stage } => {
            let word = stage_word(*stage);
            format!(in alloc; "intf {intf} {word};").expect(rt, "memory")
        }
        Entry::Connection { number, state, .. } => {
            let word = state_word(*state);
            format!(in alloc; "conn {number} {word};").expect(rt, "memory")
        }
        Entry::Manifest { intf, at, .. } => {
            format!(in alloc; "manifest {intf} {at};").expect(rt, "memory")
        }
        _ => String::new(alloc),
    }
}

/// The text of an act.
fn act_text(rt: &impl Abort, alloc: Global, act: &Act) -> String {
    match act {
        Act::Ask {
            on,
            kind,
            payload,
            ..
        } => {
            let payload = payload.items();
            format!(in alloc; "ask {on} {kind} {payload:?};").expect(rt, "memory")
        }
        Act::Make {
            ap,
            intf,
            cport,
            protocol,
            ..
        } => format!(in alloc; "make {ap} {intf} {cport} {protocol};").expect(rt, "memory"),
        Act::Shut { connection } => { format!(in alloc; "shut {connection};").expect(rt, "memory") }
        Act::Leave { connection } => {
            format!(in alloc; "leave {connection};").expect(rt, "memory")
        }
        Act::Tell { entry } => entry_text(rt, alloc, entry),
    }
}

/// An act is done: a connection or a request gets the next number.
fn does(play: &mut Play, act: &Act) {
    match act {
        Act::Make { purpose, .. } => {
            play.connection = play.connection.saturating_add(1);
            play.host.made(*purpose, play.connection);
        }
        Act::Ask { purpose, .. } => {
            play.request = play.request.saturating_add(1);
            play.host.awaits(*purpose, play.request);
        }
        _ => {}
    }
}

/// The text of an act is put at the end.
fn put(rt: &impl Abort, alloc: Global, act: &Act, text: &mut String) {
    let words = act_text(rt, alloc, act);
    text.push_str(words.as_str()).expect(rt, "memory");
}

/// What is done at an event, and its text is put at the end.
fn takes(rt: &impl Abort, alloc: Global, play: &mut Play, what: What<'_>, text: &mut String) {
    let event = event(rt, alloc, play.request, what);
    let acts = play.host.on(event).expect(rt, "memory");
    for act in acts.items() {
        does(play, act);
        put(rt, alloc, act, text);
    }
}

/// At an event this is done.
fn plays(rt: &impl Abort, alloc: Global, play: &mut Play, what: What<'_>, want: &str) {
    let mut text = String::new(alloc);
    takes(rt, alloc, play, what, &mut text);
    assert_eq!(rt; text.as_str(), want);
}

/// So many steps are gone.
fn goes(rt: &impl Abort, alloc: Global, play: &mut Play, steps: usize) {
    for row in STEPS.iter().take(steps) {
        plays(rt, alloc, play, row.0, row.1);
    }
}

/// After so many steps this is done at an event.
fn plays_after(rt: &impl Abort, alloc: Global, row: &(usize, What, &str)) {
    let mut play = first_play(rt, alloc);
    goes(rt, alloc, &mut play, row.0);
    plays(rt, alloc, &mut play, row.1, row.2);
}

#[test]
fn sequences_go_step_by_step(rt: HostRuntime) {
    plays_after(&rt, rt.alloc(), &(STEPS.len(), Late, ""));
}

#[test]
fn steps_go_otherwise(rt: HostRuntime) {
    for row in OTHERWISE {
        plays_after(&rt, rt.alloc(), row);
    }
}
