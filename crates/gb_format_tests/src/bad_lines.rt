//! Bad lines: for each form a reason at its first or last place.

use gb_base::LineReason;
use gb_base::LineReason::{BadByte, BadWord, ExtraWord, MissingWord};
use gb_script::{LineFault, event};
use std::alloc::Global;

/// Bad lines, and why they are bad.
const LINES: &[(&str, LineReason)] = &[
    ("sned", BadWord(1)),
    ("boot x", ExtraWord(2)),
    ("insert", MissingWord(2)),
    ("insert 1 gpio", BadWord(2)),
    ("insert 2 gpi", BadWord(3)),
    ("insert 2 gpio gpio uart spi i2c", ExtraWord(7)),
    ("insert 2 raw 0", BadWord(4)),
    ("insert 2 raw 00 x", ExtraWord(5)),
    ("pull x", BadWord(2)),
    ("connect 2", MissingWord(3)),
    ("connect 2 4096", BadWord(3)),
    ("connect 2 1 x", ExtraWord(4)),
    ("disconnect 2 1 drains", ExtraWord(4)),
    ("disconnect 2 1 drain x", ExtraWord(5)),
    ("send x ap 0", BadWord(2)),
    ("send @x ap 0", BadWord(3)),
    ("send @x svc 80 -", BadWord(4)),
    ("send @x svc ping timeout", MissingWord(6)),
    ("send @x svc 13 - timeout 4294967296", BadWord(7)),
    ("send @x 2 1 02 - timeout 5 x", ExtraWord(9)),
    ("deliver 1", BadWord(2)),
    ("deliver ap 4096", BadWord(3)),
    ("deliver 2 x", BadWord(3)),
    ("settle 65536", BadWord(2)),
    ("hold 2 1 x", ExtraWord(4)),
    ("answer 2 1 4294967296", BadWord(4)),
    ("cancel @x x", ExtraWord(3)),
    ("copy @x y", BadWord(3)),
    ("drop @x @y", ExtraWord(3)),
    ("tick 1 x", ExtraWord(3)),
    ("inject 2 1 0g", BadWord(4)),
    ("image Boot 0", BadWord(2)),
    ("image boot 0", BadWord(3)),
    ("load 2 1", MissingWord(4)),
    ("load 2 1 abcdefghij x", BadWord(4)),
    ("load 2 1 boot x", ExtraWord(5)),
    ("insert x gpio", BadWord(2)),
    ("hold", MissingWord(2)),
    ("hold 2 4096", BadWord(3)),
    ("answer", MissingWord(2)),
    ("answer 1 1 1", BadWord(2)),
    ("disconnect", MissingWord(2)),
    ("disconnect 1 1", BadWord(2)),
    ("inject", MissingWord(2)),
    ("inject 1 1 00", BadWord(2)),
    ("copy", MissingWord(2)),
    ("drop x", BadWord(2)),
    ("tick 4294967296", BadWord(2)),
    ("gpio", MissingWord(2)),
    ("gpio @x 2 1 flip", BadWord(5)),
    ("gpio @x 2 1 debounce 0 65536", BadWord(7)),
    ("gpio 2 1 level 8", BadWord(5)),
    ("i2c @x 2 1 functionality x", ExtraWord(6)),
    ("i2c @x 2 1 transfer r:50:1 r:80:1", BadWord(7)),
    ("spi @x 2 1 device 256", BadWord(6)),
    ("spi @x 2 1 transfer 0 0 r:1 r:01", BadWord(9)),
    ("uart @x 2 1 coding 1 1 1 8", MissingWord(10)),
    ("uart @x 2 1 break 0 0", ExtraWord(7)),
    ("uart 2 1 state 256", BadWord(5)),
    ("i2c @x 2", MissingWord(4)),
    ("spi @X 2 1 config", BadWord(2)),
    ("spi @x 2 1 transfer 0 256", BadWord(7)),
    ("uart @x 2 1 control", MissingWord(6)),
    ("uart @x 2 1 flush 256", BadWord(6)),
    ("uart @x 2 1 coding", MissingWord(6)),
    ("loopback 2 1 ping", BadWord(2)),
    ("loopback @x 2 1 pong", BadWord(5)),
    ("loopback @x 2 1 ping 00", ExtraWord(6)),
    ("loopback @x 2 1 transfer 0", BadWord(6)),
    ("loopback @x 2 1 sink", MissingWord(6)),
    ("gpio @x 2 1 set", MissingWord(6)),
    ("gpio @x 1 1 count", BadWord(3)),
];

/// The bytes come before the words, and the length before the bytes.
const BYTES: &[(&[u8], LineReason)] = &[
    (b"\t", BadByte(1)),
    (b"# caf\xe9", BadByte(6)),
    (b"boot\r", BadByte(5)),
    (b"sned\x7f\x1f", BadByte(5)),
    (b"deliver svc\x00", BadByte(12)),
];

/// Whether a line is bad for this reason.
fn is_bad(alloc: Global, line: &[u8], why: LineReason) -> bool {
    matches!(event(alloc, line, 0), Err(LineFault::Bad(reason)) if reason == why)
}

#[test]
fn names_words(rt: HostRuntime) {
    for (line, why) in LINES {
        assert!(rt; is_bad(rt.alloc(), line.as_bytes(), *why), "{line}");
    }
}

#[test]
fn names_bytes(rt: HostRuntime) {
    for (line, why) in BYTES {
        assert!(rt; is_bad(rt.alloc(), line, *why), "{why:?}");
    }
}

#[test]
fn names_long_lines(rt: HostRuntime) {
    let line = [b' '; 8193];
    assert!(rt; matches!(event(rt.alloc(), &line[..8192], 0), Ok(None)));
    assert!(rt; is_bad(rt.alloc(), &line, LineReason::Long));
}
