use gb_base::{
    BridgeAsk, Bytes, End, Entry, Event, Failed, I2cOp, I2cOps, Kind, Kinds, MemSink, MemSource,
    Name, NoRoom, Numbers, Outcome, OwnAsk, OwnAsks, PlainSink, PlainSource, Served, Sink, Source,
    SpiOp, SpiOps, StdSink, StdSource, Text, TryCopy, Word, WriteStop,
};
use std::alloc::Global;
use std::process::Abort;

#[test]
fn errors_are_shown(rt: HostRuntime) {
    let failed = Failed.to_string(rt.alloc()).expect(&rt, "memory");
    assert!(rt; failed.as_str() == "failed");
    let no_room = NoRoom.to_string(rt.alloc()).expect(&rt, "memory");
    assert!(rt; no_room.as_str() == "no room");
}

/// Bytes that are a word, or are none.
const WORDS: [(&[u8], bool); 6] = [
    (b"a", true),
    (b"x9", true),
    (b"abcdefghij012345", true),
    (b"abcdefghij0123456", false),
    (b"", false),
    (b"aB", false),
];

#[test]
fn words_are_read(rt: HostRuntime) {
    for (bytes, good) in WORDS.iter() {
        let read = Word::from_bytes(bytes);
        assert!(rt; read.is_some() == *good);
        if let Some(word) = read {
            assert!(rt; word.bytes() == *bytes);
        }
    }
}

/// A list of these bytes.
fn bytes_of(rt: &impl Abort, alloc: Global, bytes: &[u8]) -> Bytes {
    Bytes::from_slice(alloc, bytes).expect(rt, "memory")
}

/// A list of one number.
fn one_number(rt: &impl Abort, alloc: Global, number: u64) -> Numbers {
    let mut numbers = Numbers::new(alloc);
    numbers.push(number).expect(rt, "memory");
    numbers
}

#[test]
fn lists_grow(rt: HostRuntime) {
    let mut bytes = bytes_of(&rt, rt.alloc(), b"ab");
    bytes.push(7).expect(&rt, "memory");
    bytes.extend(b"cd").expect(&rt, "memory");
    let copy = bytes.copy().expect(&rt, "memory");
    assert!(rt; copy.items() == b"ab\x07cd".as_slice());
    let numbers = one_number(&rt, rt.alloc(), 7).copy().expect(&rt, "memory");
    assert!(rt; numbers.items() == [7].as_slice());
}

#[test]
fn members_are_added(rt: HostRuntime) {
    let mut numbers = one_number(&rt, rt.alloc(), 7);
    numbers.extend(&[8, 9]).expect(&rt, "memory");
    numbers.insert(1, 5).expect(&rt, "memory");
    assert!(rt; numbers.items() == [7, 5, 8, 9].as_slice());
}

#[test]
fn texts_grow(rt: HostRuntime) {
    let mut text = Text::new(rt.alloc());
    text.append("ab").expect(&rt, "memory");
    text.push(99).expect(&rt, "memory");
    let copy = text.copy().expect(&rt, "memory");
    assert!(rt; copy.items() == b"abc".as_slice());
}

#[test]
fn events_are_copied(rt: HostRuntime) {
    let word = Word::from_bytes(b"x1").expect(&rt, "a word");
    let event = Event::Send {
        name: Name { who: 3, word },
        to: End::Svc,
        kind: 2,
        payload: bytes_of(&rt, rt.alloc(), b"ab"),
        timeout: 5,
    };
    let copy = event.copy().expect(&rt, "memory");
    assert!(rt;
        matches!(&copy, Event::Send { payload, .. } if payload.items() == b"ab".as_slice())
    );
}

#[test]
fn kinds_are_copied(rt: HostRuntime) {
    let mut kinds = Kinds::one(Kind::Gpio);
    kinds.push(Kind::Uart);
    let event = Event::Insert { intf: 2, kinds };
    let copy = event.copy().expect(&rt, "memory");
    assert!(rt;
        matches!(&copy, Event::Insert { intf: 2, kinds }
        if kinds.items() == [Kind::Gpio, Kind::Uart].as_slice())
    );
}

#[test]
fn entries_are_copied(rt: HostRuntime) {
    let entry = Entry::Received {
        intf: 2,
        cport: 3,
        bytes: bytes_of(&rt, rt.alloc(), b"ab"),
    };
    let copy = entry.copy().expect(&rt, "memory");
    assert!(rt;
        matches!(&copy, Entry::Received { bytes, .. } if bytes.items() == b"ab".as_slice())
    );
}

#[test]
fn asks_are_copied(rt: HostRuntime) {
    let mut ops = I2cOps::new(rt.alloc());
    ops.push(I2cOp::Get { addr: 80, len: 4 })
        .expect(&rt, "memory");
    let transfer = BridgeAsk::I2cTransfer { ops };
    let copy = transfer.copy().expect(&rt, "memory");
    assert!(rt; matches!(copy, BridgeAsk::I2cTransfer { .. }));
}

#[test]
fn ops_are_copied(rt: HostRuntime) {
    let bytes = bytes_of(&rt, rt.alloc(), b"ab");
    let mut ops = SpiOps::new(rt.alloc());
    ops.push(SpiOp::Put { bytes }).expect(&rt, "memory");
    let copy = ops.copy().expect(&rt, "memory");
    assert!(rt; copy.items().len() == 1);
}

#[test]
fn outcomes_are_copied(rt: HostRuntime) {
    let payload = Bytes::new(rt.alloc());
    let outcome = Outcome::Answered { result: 6, payload };
    let copy = outcome.copy().expect(&rt, "memory");
    assert!(rt; matches!(copy, Outcome::Answered { result: 6, .. }));
}

#[test]
fn answers_are_copied(rt: HostRuntime) {
    let payload = bytes_of(&rt, rt.alloc(), b"a");
    let (kind, oneway) = (14, true);
    let mut asks = OwnAsks::new(rt.alloc());
    asks.push(OwnAsk {
        kind,
        payload,
        oneway,
    })
    .expect(&rt, "memory");
    let payload = Bytes::new(rt.alloc());
    let served = Served {
        result: 0,
        payload,
        asks,
    };
    let copy = served.copy().expect(&rt, "memory");
    assert!(rt; copy.asks.items().len() == 1);
}

#[test]
fn plain_sources_give_their_bytes(rt: HostRuntime) {
    let mut buf = [0; 4];
    let mut source = PlainSource::new(bytes_of(&rt, rt.alloc(), b"abcde"));
    for count in [4, 1, 0] {
        assert!(rt; source.read(&mut buf) == Ok(count));
    }
}

#[test]
fn standard_sources_give_their_bytes(rt: HostRuntime) {
    let mut buf = [0; 4];
    let bytes: &[u8] = b"fgh";
    let mut source = StdSource::new(bytes);
    for count in [3, 0] {
        assert!(rt; source.read(&mut buf) == Ok(count));
    }
    assert!(rt; buf == *b"fgh\0");
}

#[test]
fn reads_fail_where_told(rt: HostRuntime) {
    let failing = one_number(&rt, rt.alloc(), 2);
    let mut source = MemSource::new(bytes_of(&rt, rt.alloc(), b"abc"), 1, failing);
    let mut buf = [0; 4];
    for answer in [Ok(1), Err(Failed), Ok(1), Ok(1), Ok(0)] {
        assert!(rt; source.read(&mut buf) == answer);
    }
    assert!(rt; source.left().is_empty());
}

#[test]
fn writes_fail_where_told(rt: HostRuntime) {
    let mut sink = MemSink::new(rt.alloc(), one_number(&rt, rt.alloc(), 2));
    for answer in [Ok(2), Err(WriteStop::Failed), Ok(2)] {
        assert!(rt; sink.write(b"ab") == answer);
    }
    assert!(rt; sink.taken() == b"abab".as_slice());
}

#[test]
fn plain_sinks_take_their_bytes(rt: HostRuntime) {
    let mut sink = PlainSink::new(rt.alloc());
    assert!(rt; sink.write(b"ab") == Ok(2));
    assert!(rt; sink.taken() == b"ab".as_slice());
}

#[test]
fn standard_sinks_take_their_bytes(rt: HostRuntime) {
    let mut bytes = Vec::new(rt.alloc());
    let mut sink = StdSink::new(&mut bytes);
    assert!(rt; sink.write(b"cd") == Ok(2));
    assert!(rt; sink.write(b"") == Ok(0));
    drop(sink);
    assert!(rt; bytes.as_slice() == b"cd".as_slice());
}

#[test]
fn standard_sinks_can_be_full(rt: HostRuntime) {
    let mut room = [0; 1];
    let full: &mut [u8] = &mut room;
    let mut sink = StdSink::new(full);
    assert!(rt; sink.write(b"ef") == Ok(1));
    assert!(rt; sink.write(b"f") == Err(WriteStop::Failed));
}
