//! A download, by the requests that a loader makes and what the images answer.

use crate::checks::{Row, is_answered};
use gb_base::{Next, Outcome, Served, Tag};
use gb_firmware::{Images, Loader};
use std::process::Abort;

/// A request: its type and payload.
type Ask<'a> = (u8, &'a [u8]);

/// The requests for an image of 513 bytes.
const FIND: Ask<'_> = (0x01, b"boot\0\0\0\0\0\0");

const FIRST: Ask<'_> = (0x02, b"\x01\0\0\0\0\0\x02\0\0");

const LAST: Ask<'_> = (0x02, b"\x01\0\x02\0\0\x01\0\0\0");

const RELEASE: Ask<'_> = (0x03, b"\x01");

/// The tag of the image.
fn boot(rt: &impl Abort) -> Tag {
    Tag::from_bytes(b"boot").expect(rt, "a tag")
}

/// A download begins with this request.
fn begins(rt: &impl Abort, loader: &mut Loader, want: Ask<'_>) {
    let own = loader.begin(&boot(rt)).expect(rt, "no download runs");
    assert_eq!(rt; (own.kind, own.payload.items()), want);
}

/// The images answer the request of a loader whose download runs: what follows.
fn follows(rt: &impl Abort, images: &mut Images, loader: &mut Loader, ask: Ask<'_>) -> Next {
    let served = images.serve(2, ask.0, ask.1).expect(rt, "memory");
    let Served {
        result: code,
        payload,
        asks: _,
    } = served;
    assert!(rt; loader.is_running());
    let outcome = Outcome::Answered {
        result: code,
        payload,
    };
    loader.ended(&outcome).expect(rt, "memory")
}

/// The images answer a request, and the loader makes this one.
fn goes_on(rt: &impl Abort, images: &mut Images, loader: &mut Loader, ask: Ask<'_>, want: Ask<'_>) {
    let next = follows(rt, images, loader, ask);
    assert!(rt; matches!(&next, Next::Ask(own) if (own.kind, own.payload.items()) == want));
}

/// The images answer a request, and the download is done: 513 bytes are kept.
fn is_done(rt: &impl Abort, images: &mut Images, loader: &mut Loader, ask: Ask<'_>) {
    let next = follows(rt, images, loader, ask);
    assert!(rt; matches!(&next, Next::Done { tag, size: 513 } if *tag == boot(rt)));
    assert!(rt; matches!(loader.kept(), Some((_, bytes)) if bytes == [7; 513].as_slice()));
}

#[test]
fn an_image_is_loaded(rt: HostRuntime) {
    let mut images = Images::new(rt.alloc()).expect(&rt, "memory");
    let mut loader = Loader::new(rt.alloc());
    images.put(&boot(&rt), &[7; 513]).expect(&rt, "memory");
    begins(&rt, &mut loader, FIND);
    goes_on(&rt, &mut images, &mut loader, FIND, FIRST);
    goes_on(&rt, &mut images, &mut loader, FIRST, LAST);
    goes_on(&rt, &mut images, &mut loader, LAST, RELEASE);
    is_done(&rt, &mut images, &mut loader, RELEASE);
}

/// The images answer a request so.
fn answers(rt: &impl Abort, images: &mut Images, row: &Row<'_>) {
    let served = images.serve(2, row.0, row.1).expect(rt, "memory");
    is_answered(rt, &served, row);
}

/// An id that is freed is the next one.
const LENT: [Row<'_>; 4] = [
    (0x01, b"boot\0\0\0\0\0\0", 0x00, b"\x01\x01\0\0\0"),
    (0x03, b"\x01", 0x00, b""),
    (0x03, b"\x01", 0x08, b""),
    (0x01, b"boot\0\0\0\0\0\0", 0x00, b"\x01\x01\0\0\0"),
];

#[test]
fn ids_are_freed(rt: HostRuntime) {
    let mut images = Images::new(rt.alloc()).expect(&rt, "memory");
    images.put(&boot(&rt), &[7]).expect(&rt, "memory");
    for row in LENT.iter() {
        answers(&rt, &mut images, row);
    }
    images.forget(2);
    answers(&rt, &mut images, &(0x03, b"\x01", 0x08, b""));
}
