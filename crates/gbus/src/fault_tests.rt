//! Runs of which each read fails in turn, and then each write.

use crate::plain_run::run_plain;
use crate::run::run;
use crate::tests::{bytes, only};
use gb_base::{FreeGate, MemSink, MemSource, PlainSink, PlainSource, Status};
use std::alloc::Global;
use std::process::Abort;
use std::thread::Threads;

/// How many bytes a read gives.
const STEP: usize = 7;

/// A module is plugged and enumerated.
const PLUGGING: &[u8] = b"insert 2 gpio\nboot\nsettle 40\n";

/// The lines of requester 0 and of another one, which have one order.
const SHARED: &[u8] = b"boot\nrequester 1\nsend @x svc ping\ndeliver svc\n";

/// The shortest manifest.
const MANIFEST: &[u8] = b"\x0c\0\0\x01\x08\0\x01\0\0\0\0\0";

/// The words of a run.
fn words_of(rt: &impl Abort, alloc: Global, first: &str, second: &str) -> Vec<String> {
    let mut words = Vec::new(alloc);
    for word in [first, second].iter() {
        if !word.is_empty() {
            words
                .push(word.to_string(alloc).expect(rt, "memory"))
                .expect(rt, "memory");
        }
    }
    words
}

/// What is written of an input where nothing fails.
fn output<R: Threads + Sync + Abort>(
    rt: &R,
    alloc: Global,
    words: &[String],
    input: &[u8],
) -> PlainSink {
    let mut source = PlainSource::new(bytes(rt, alloc, input));
    let mut sink = PlainSink::new(alloc);
    assert!(rt; run_plain(rt, alloc, words, &mut source, &mut sink, &FreeGate) == Status::Success);
    sink
}

/// How a run ends of which a read or a write fails, and what is written.
fn failed<R: Threads + Sync + Abort>(
    rt: &R,
    alloc: Global,
    words: &[String],
    input: &[u8],
    read: u64,
    write: u64,
) -> (Status, MemSink) {
    let mut source = MemSource::new(bytes(rt, alloc, input), STEP, only(rt, alloc, read));
    let mut sink = MemSink::new(alloc, only(rt, alloc, write));
    let status = run(rt, alloc, words, &mut source, &mut sink, &FreeGate);
    (status, sink)
}

/// The first lines that have ended among so many bytes.
fn lines_among(input: &[u8], count: usize) -> &[u8] {
    let front = &input[..count.min(input.len())];
    let mut end = 0;
    for (at, b) in front.iter().enumerate() {
        if *b == b'\n' {
            end = at + 1;
        }
    }
    front.get(..end).unwrap_or(&[])
}

/// The first lines.
fn first_lines(input: &[u8], count: u64) -> &[u8] {
    let mut left = count;
    for (at, b) in input.iter().enumerate() {
        if left == 0 {
            return input.get(..at).unwrap_or(&[]);
        }
        if *b == b'\n' {
            left -= 1;
        }
    }
    input
}

/// The run ends so, and what is written is what is written of this front of the input, and a front
/// of what is written of all of it.
fn is_cut<R: Threads + Sync + Abort>(
    rt: &R,
    alloc: Global,
    words: &[String],
    ran: (Status, MemSink),
    wanted: Status,
    front: &[u8],
    whole: &PlainSink,
) {
    let (status, sink) = ran;
    assert!(rt; status == wanted);
    assert!(rt; whole.taken().starts_with(sink.taken()));
    let part = output(rt, alloc, words, front);
    assert!(rt; sink.taken() == part.taken());
    drop(sink);
    drop(part);
}

/// Each read fails in turn: the lines that had ended are reported.
fn reads_fail<R: Threads + Sync + Abort>(rt: &R, alloc: Global, words: &[String], input: &[u8]) {
    let whole = output(rt, alloc, words, input);
    let reads = input.len().div_ceil(STEP) + 1;
    for read in 1..=reads {
        let ran = failed(rt, alloc, words, input, read as u64, 0);
        let front = lines_among(input, STEP * (read - 1));
        is_cut(rt, alloc, words, ran, Status::ReadFault, front, &whole);
    }
    let ran = failed(rt, alloc, words, input, reads as u64 + 1, 0);
    is_cut(rt, alloc, words, ran, Status::Success, input, &whole);
    drop(whole);
}

/// Each write fails in turn: the lines before that are reported. Of the script no two lines end in
/// one read, so that each line has a write of its own.
fn writes_fail<R: Threads + Sync + Abort>(
    rt: &R,
    alloc: Global,
    words: &[String],
    input: &[u8],
    lines: u64,
) {
    let whole = output(rt, alloc, words, input);
    for write in 1..=lines {
        let ran = failed(rt, alloc, words, input, 0, write);
        let front = first_lines(input, write - 1);
        is_cut(rt, alloc, words, ran, Status::WriteFault, front, &whole);
    }
    let ran = failed(rt, alloc, words, input, 0, lines.saturating_add(1));
    is_cut(rt, alloc, words, ran, Status::Success, input, &whole);
    drop(whole);
}

#[test]
fn a_script_is_cut_where_a_call_fails(rt: HostRuntime) {
    let words = words_of(&rt, rt.alloc(), "run", "--hex");
    reads_fail(&rt, rt.alloc(), words.as_slice(), PLUGGING);
    writes_fail(&rt, rt.alloc(), words.as_slice(), PLUGGING, 3);
    drop(words);
}

/// The words, the input, and how many reads there are.
type Row<'a> = (&'a str, &'a str, &'a [u8], u64);

/// A run ends so where this call fails, and nothing is written.
fn writes_nothing<R: Threads + Sync + Abort>(
    rt: &R,
    alloc: Global,
    words: &[String],
    input: &[u8],
    read: u64,
    write: u64,
    wanted: Status,
) {
    let (status, sink) = failed(rt, alloc, words, input, read, write);
    assert!(rt; status == wanted);
    assert!(rt; sink.taken().is_empty());
    drop(sink);
}

/// A run ends well where the calls that would fail don't come.
fn writes_whole<R: Threads + Sync + Abort>(
    rt: &R,
    alloc: Global,
    words: &[String],
    input: &[u8],
    read: u64,
) {
    let (status, sink) = failed(rt, alloc, words, input, read, 2);
    assert!(rt; status == Status::Success);
    let whole = output(rt, alloc, words, input);
    assert!(rt; sink.taken() == whole.taken());
    drop(sink);
    drop(whole);
}

/// Each read fails in turn, and the one write.
fn fails_whole<R: Threads + Sync + Abort>(rt: &R, alloc: Global, row: &Row) {
    let (first, second, input, reads) = *row;
    let words = words_of(rt, alloc, first, second);
    let after = reads.saturating_add(1);
    for read in 1..=reads {
        writes_nothing(
            rt,
            alloc,
            words.as_slice(),
            input,
            read,
            0,
            Status::ReadFault,
        );
    }
    writes_nothing(rt, alloc, words.as_slice(), input, 0, 1, Status::WriteFault);
    writes_whole(rt, alloc, words.as_slice(), input, after);
    drop(words);
}

#[test]
fn nothing_is_written_of_a_whole_input_where_a_call_fails(rt: HostRuntime) {
    let rows: [Row; 4] = [
        ("check", "", MANIFEST, 3),
        ("dump", "", MANIFEST, 3),
        ("share", "", SHARED, 8),
        ("drive", "1", b"", 0),
    ];
    for row in rows.iter() {
        fails_whole(&rt, rt.alloc(), row);
    }
}
