//! Lines of the report, of a dump and of a check.

use gb_base::{Bytes, End, Entry, LineReason, Outcome, Reading, Reason, Tag, Text};
use gb_manifest::{Refused, check};
use gb_report::{Counts, put, put_accepted, put_dump, put_refusal, put_refused, put_summary};
use std::alloc::Global;
use std::process::Abort;

/// An entry of line 7 has this text, with the bytes of messages.
fn is_told(rt: &impl Abort, alloc: Global, entry: &Entry, want: &str) {
    let mut out = Text::new(alloc);
    put(alloc, entry, 7, true, &mut out).expect(rt, "memory");
    assert_eq!(rt; out.items(), want.as_bytes());
}

/// A message from the application processor.
fn asked(rt: &impl Abort, alloc: Global, message: &[u8]) -> Entry {
    Entry::Asked {
        number: 1,
        from: End::Ap(0),
        to: End::Svc,
        kind: 0x13,
        size: 8,
        bytes: Bytes::from_slice(alloc, message).expect(rt, "memory"),
        lost: true,
    }
}

/// A request that was answered with a reading.
fn answered(rt: &impl Abort, alloc: Global, bytes: &[u8]) -> Entry {
    let payload = Bytes::from_slice(alloc, bytes).expect(rt, "memory");
    Entry::Ended {
        number: u64::MAX,
        outcome: Outcome::Answered { result: 0, payload },
        reading: Reading::Number(7),
    }
}

/// A download of `boot` that is over.
fn loaded(rt: &impl Abort, size: Option<u32>) -> Entry {
    Entry::Download {
        intf: 2,
        cport: 1,
        tag: Tag::from_bytes(b"boot").expect(rt, "a tag"),
        size,
    }
}

#[test]
fn downloads_have_their_lines(rt: HostRuntime) {
    let alloc = rt.alloc();
    let told = "download 2 1 boot done 4294967295\n";
    is_told(&rt, alloc, &loaded(&rt, Some(u32::MAX)), told);
    is_told(&rt, alloc, &loaded(&rt, None), "download 2 1 boot failed\n");
}

#[test]
fn entries_have_their_lines(rt: HostRuntime) {
    is_told(&rt, rt.alloc(), &Entry::Done, "line 7 ok\n");
    let ping = asked(&rt, rt.alloc(), b"\x08\0\x01\0\x13\0\0\0");
    let told = "ask #1 ap 0 > svc type 13 size 8 0800010013000000 lost\n";
    is_told(&rt, rt.alloc(), &ping, told);
    let ended = answered(&rt, rt.alloc(), b"\x0a\xff");
    let told = "end #18446744073709551615 answered 00 0aff = 7\n";
    is_told(&rt, rt.alloc(), &ended, told);
}

/// The manifest of an interface, and a string with bytes of every sort.
const ODD: &[u8] = b"\x1c\0\0\xff\x08\0\x01\0\0\0\xa5\0\
    \x10\0\x02\0\x09\x05\"\\\x1f ~\x7f\xffa\n\0";

const ODD_TOLD: &str = "line 12: bad byte 3
line 13: missing word 4
manifest version 0.255 size 28
interface vendor 0 product 0 features a5
string 5 \"\\x22\\x5c\\x1f ~\\x7f\\xffa\\x0a\"
manifest ok 28
refused 12 descriptor short
";

#[test]
fn other_lines_follow_one_another(rt: HostRuntime) {
    let alloc = rt.alloc();
    let m = check(ODD).expect(&rt, "this is a manifest");
    let mut out = Text::new(alloc);
    put_refusal(alloc, 12, &LineReason::BadByte(3), &mut out).expect(&rt, "memory");
    put_refusal(alloc, 13, &LineReason::MissingWord(4), &mut out).expect(&rt, "memory");
    put_dump(alloc, &m, &mut out).expect(&rt, "memory");
    put_accepted(alloc, &m, &mut out).expect(&rt, "memory");
    let (at, reason) = (12, Reason::DescriptorShort);
    put_refused(alloc, &Refused { at, reason }, &mut out).expect(&rt, "memory");
    assert_eq!(rt; out.items(), ODD_TOLD.as_bytes());
}

/// Counts that differ.
const COUNTS: Counts = Counts {
    refused: 9,
    requests: 21,
    answered: 1,
    cancelled: 2,
    timeout: 3,
    disconnected: 4,
    sent: 5,
    left_open: 6,
};

#[test]
fn a_summary_has_its_line(rt: HostRuntime) {
    let mut out = Text::new(rt.alloc());
    put_summary(rt.alloc(), 20024, &COUNTS, &mut out).expect(&rt, "memory");
    let told = "lines 20024 refused 9 requests 21 answered 1 cancelled 2 timeout 3 \
        disconnected 4 sent 5 open 6\n";
    assert_eq!(rt; out.items(), told.as_bytes());
}
