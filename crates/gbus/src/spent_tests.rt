//! Runs of a system of which the identifiers or the CPorts are used up, which are too long
//! for a script.

use crate::tests::{does, steps};
use gb_base::{Entry, IntfStage};
use gb_report::append_all;
use gb_system::System;
use std::alloc::Global;
use std::process::Abort;

/// This is told of a line.
fn tells(rt: &impl Abort, alloc: Global, system: &mut System, line: &[u8], wanted: &str) {
    let told = steps(rt, alloc, system, line);
    let mut text = String::new(alloc);
    append_all(told.items(), 1, false, &mut text).expect(rt, "memory");
    assert_eq!(rt; text.as_str(), wanted);
    drop(told);
}

/// Each identifier is used up by a request that was given up.
fn spends(rt: &impl Abort, alloc: Global, system: &mut System, send: &[u8]) {
    for _ in 0..65_535 {
        does(rt, alloc, system, send);
        does(rt, alloc, system, b"cancel @x");
        does(rt, alloc, system, b"drop @x");
    }
}

#[test]
fn an_identifier_is_free_once_its_answer_came(rt: HostRuntime) {
    let alloc = rt.alloc();
    let ping = b"send @x svc ping";
    let mut system = System::new(alloc).expect(&rt, "memory");
    spends(&rt, alloc, &mut system, ping);
    tells(&rt, alloc, &mut system, ping, "line 1 refused NoLabel\n");
    does(&rt, alloc, &mut system, b"deliver svc");
    tells(
        &rt,
        alloc,
        &mut system,
        b"deliver ap 0",
        "line 1 ok\nlate #1\n",
    );
    let asked = "line 1 ok\nask #65536 ap 0 > svc type 13 size 8\n";
    tells(&rt, alloc, &mut system, ping, asked);
    drop(system);
}

/// A bridge is enumerated, and its CPort 1 is connected.
const CONNECTED: [&[u8]; 5] = [
    b"insert 2 bridge",
    b"boot",
    b"settle 40",
    b"connect 2 1",
    b"settle 10",
];

#[test]
fn a_connection_fails_where_control_has_no_identifier(rt: HostRuntime) {
    let alloc = rt.alloc();
    let mut system = System::new(alloc).expect(&rt, "memory");
    for line in CONNECTED.iter() {
        does(&rt, alloc, &mut system, line);
    }
    spends(&rt, alloc, &mut system, b"send @x 2 0 01 0001");
    let refused = "line 1 refused NoLabel\n";
    tells(&rt, alloc, &mut system, b"disconnect 2 1", refused);
    does(&rt, alloc, &mut system, b"connect 2 2");
    does(&rt, alloc, &mut system, b"deliver svc");
    let failed = "line 1 ok\nend #65551 answered 00 -\nconnection 4 ap 3 2 2 failed\n";
    tells(&rt, alloc, &mut system, b"deliver ap 0", failed);
    tells(&rt, alloc, &mut system, b"disconnect 2 1 drain", DRAINED);
    drop(system);
}

/// What is told of a drain for which Control has no identifier.
const DRAINED: &str = "line 1 ok\nconnection 3 ap 2 2 1 draining\n\
    connection 3 ap 2 2 1 closing\nconnection 3 ap 2 2 1 failed\n";

/// A manifest of 2,036 bytes up to its CPorts 1 to 252.
const MANIFEST: &str = "f4070001080001000000000008000300010a0000";

/// A module with these CPorts is plugged.
fn plugs(rt: &impl Abort, alloc: Global, system: &mut System, intf: u8) {
    let mut line = format!(in alloc; "insert {intf} raw {MANIFEST}").expect(rt, "memory");
    for cport in 1..=252u8 {
        let text = format!(in alloc; "08000400{cport:02x}000102").expect(rt, "memory");
        line.push_str(text.as_str()).expect(rt, "memory");
    }
    does(rt, alloc, system, line.as_bytes());
}

/// The CPorts of a module up to this one are connected.
fn connects(rt: &impl Abort, alloc: Global, system: &mut System, intf: u8, last: u8) {
    for cport in 1..=last {
        let line = format!(in alloc; "connect {intf} {cport}").expect(rt, "memory");
        does(rt, alloc, system, line.as_bytes());
    }
}

/// All that waits is delivered, and then the enumeration of this interface has failed.
fn settles_failed(rt: &impl Abort, alloc: Global, system: &mut System, failed: u8) {
    let told = steps(rt, alloc, system, b"settle 65535");
    let mut is_told = false;
    for entry in told.items().iter() {
        if matches!(entry, Entry::Interface { intf, stage: IntfStage::Failed } if *intf == failed) {
            is_told = true;
        }
    }
    assert!(rt; is_told);
    drop(told);
}

#[test]
fn all_cports_are_taken(rt: HostRuntime) {
    let alloc = rt.alloc();
    let mut system = System::new(alloc).expect(&rt, "memory");
    for intf in 2..=18u8 {
        plugs(&rt, alloc, &mut system, intf);
    }
    does(&rt, alloc, &mut system, b"boot");
    does(&rt, alloc, &mut system, b"settle 65535");
    for intf in 2..=17u8 {
        connects(&rt, alloc, &mut system, intf, 252);
    }
    connects(&rt, alloc, &mut system, 18, 46);
    let refused = "line 1 refused CportsSpent\n";
    tells(&rt, alloc, &mut system, b"connect 18 47", refused);
    does(&rt, alloc, &mut system, b"insert 19 gpio");
    settles_failed(&rt, alloc, &mut system, 19);
    drop(system);
}
