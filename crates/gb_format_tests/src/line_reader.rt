//! Lines that are read one by one.

use gb_base::{Bytes, MemSource, Numbers};
use gb_script::{LineReader, LineStop};
use std::alloc::Global;
use std::process::Abort;

/// How many bytes of each letter stand in the text: a short line, one of 8,192 bytes with CR, one
/// of 8,193 bytes without, and a last one that doesn't end.
const TEXT: [(u8, usize); 10] = [
    (b'a', 3),
    (b'\n', 1),
    (b'b', 8_192),
    (b'\r', 1),
    (b'\n', 1),
    (b'c', 8_193),
    (b'\n', 2),
    (b'd', 5),
    (b'\r', 1),
    (b'e', 1),
];

/// How many bytes are handed out of each line, and whether it is long.
const LINES: [(usize, bool); 5] = [
    (3, false),
    (8_192, false),
    (8_192, true),
    (0, false),
    (7, false),
];

/// The text.
fn text(rt: &impl Abort, alloc: Global) -> Bytes {
    let mut text = Bytes::new(alloc);
    for (byte, times) in TEXT.iter() {
        for _ in 0..*times {
            text.push(*byte).expect(rt, "memory");
        }
    }
    text
}

/// The next line is of this length, and long or not.
fn comes(
    rt: &impl Abort,
    reader: &mut LineReader,
    source: &mut MemSource,
    length: usize,
    long: bool,
) {
    assert!(rt; reader.next(source) == Ok(true));
    let line = reader.line();
    assert!(rt; line.bytes.len() == length);
    assert!(rt; line.long == long);
}

#[test]
fn lines_are_read_across_reads(rt: HostRuntime) {
    for step in [1, 7, 4_095, 4_096, 5_000] {
        let text = text(&rt, rt.alloc());
        let mut source = MemSource::new(text, step, Numbers::new(rt.alloc()));
        let mut reader = LineReader::new(rt.alloc()).expect(&rt, "memory");
        for (length, long) in LINES.iter() {
            comes(&rt, &mut reader, &mut source, *length, *long);
        }
        assert!(rt; reader.line().number == 5);
        assert!(rt; reader.next(&mut source) == Ok(false));
    }
}

/// A source whose second read fails.
fn failing(rt: &impl Abort, alloc: Global, text: &[u8]) -> MemSource {
    let mut failing = Numbers::new(alloc);
    failing.push(2).expect(rt, "memory");
    let text = Bytes::from_slice(alloc, text).expect(rt, "memory");
    MemSource::new(text, 10, failing)
}

/// The next line has these bytes.
fn reads(rt: &impl Abort, reader: &mut LineReader, source: &mut MemSource, bytes: &[u8]) {
    assert!(rt; reader.next(source) == Ok(true));
    assert!(rt; reader.line().bytes == bytes);
}

/// The next line can't be read.
fn stops(rt: &impl Abort, reader: &mut LineReader, source: &mut MemSource) {
    assert!(rt; reader.next(source) == Err(LineStop::ReadFault));
}

#[test]
fn nothing_is_read_while_a_line_is_held(rt: HostRuntime) {
    let mut source = failing(&rt, rt.alloc(), b"one\r\ntwo\nthree\n");
    let mut reader = LineReader::new(rt.alloc()).expect(&rt, "memory");
    reads(&rt, &mut reader, &mut source, b"one");
    reads(&rt, &mut reader, &mut source, b"two");
    stops(&rt, &mut reader, &mut source);
    stops(&rt, &mut reader, &mut source);
    assert!(rt; source.left() == b"hree\n".as_slice());
}
