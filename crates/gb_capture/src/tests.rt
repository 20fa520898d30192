//! Audits by public calls: that memory is found, and what is found and written.

ghost use Rattle.std.specs.Prelude.{◌≡◌, ◌≤◌};
ghost use Rattle.gb_capture.specs.Audits.{last_line};

use crate::{Audit, Auditor, Turn, captured};
use gb_base::{CaptureFault, Finding, Verdict};
use gb_script::Line;
use gb_wire::Message;
use std::process::Abort;

/// The line with this number.
fn line(number: u32, text: &str) -> Line<'_>
    ensures { result.number ≡ number }
{
    Line {
        number,
        bytes: text.as_bytes(),
        long: false,
    }
}

/// This is written.
fn writes(rt: &impl Abort, auditor: &Auditor, text: &str) {
    assert!(rt; auditor.text() == text.as_bytes());
}

#[test]
fn a_capture_is_audited(rt: HostRuntime) {
    let mut auditor = Auditor::new(rt.alloc()).expect(&rt, "memory");
    let asked = auditor
        .take(line(1, "> 0800010013000000"))
        .expect(&rt, "memory");
    assert!(rt; asked == Turn::Next);
    writes(&rt, &auditor, "");
    auditor
        .take(line(2, "> 0800010013000000"))
        .expect(&rt, "memory");
    writes(&rt, &auditor, "line 2 reused 1\n");
    auditor
        .take(line(3, "< 0800010093000000"))
        .expect(&rt, "memory");
    writes(&rt, &auditor, "");
    auditor.close().expect(&rt, "memory");
    writes(&rt, &auditor, "faults 1 pairs 1 open 1\n");
}

#[test]
fn a_bad_line_is_refused(rt: HostRuntime) {
    let mut auditor = Auditor::new(rt.alloc()).expect(&rt, "memory");
    let turn = auditor.take(line(1, "> -")).expect(&rt, "memory");
    assert!(rt; turn == Turn::Refused);
    writes(&rt, &auditor, "line 1: short 8\n");
}

#[test]
fn a_message_is_read_and_judged(rt: HostRuntime) {
    let mut room = [0; 4_096];
    let Ok(Some((from_ap, m))) = captured(b"< 0900090093000001ff", &mut room) else {
        panic!(&rt; "a message");
    };
    assert!(rt; !from_ap);
    assert!(rt; m.payload == [0xff].as_slice());
    let mut audit = Audit::new(rt.alloc()).expect(&rt, "memory");
    assert!(rt; audit.take(1, from_ap, &m) == Some(Finding::Orphan));
    let verdict = Verdict {
        faults: 1,
        pairs: 0,
        unpaired: 0,
    };
    assert!(rt; audit.verdict() == verdict);
}

#[test]
fn bytes_behind_a_message_are_told(rt: HostRuntime) {
    let mut room = [0; 4_096];
    let Err(why) = captured(b"> 0800010013000000ff", &mut room) else {
        panic!(&rt; "a fault");
    };
    assert!(rt; why == CaptureFault::Extra { count: 1 });
}

/// An audit, and the line of its last message.
#[derive(Drop)]
struct Asking {
    audit: Audit,
    line: u32,
    ghost counted: { last_line audit ≤ line },
}

impl Asking {
    /// The next line has a request with this identifier, of which nothing is found.
    fn ask(&mut self, rt: &impl Abort, id: u16) {
        let m = Message {
            id,
            kind: 2,
            result: 0,
            payload: &[],
        };
        assert!(rt; self.line < 65_535);
        self.line += 1;
        let found = self.audit.take(self.line, true, &m);
        assert!(rt; found.is_none());
    }
}

#[test]
fn all_identifiers_are_open_at_once(rt: HostRuntime) {
    let audit = Audit::new(rt.alloc()).expect(&rt, "memory");
    let mut asking = Asking { audit, line: 0 };
    for id in 1..=u16::MAX {
        asking.ask(&rt, id);
    }
    let verdict = Verdict {
        faults: 0,
        pairs: 0,
        unpaired: 65_535,
    };
    assert!(&rt; asking.audit.verdict() == verdict);
}
