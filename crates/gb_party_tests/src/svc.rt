//! Rows of the supervisory controller's table. The expected values are those of the table.

use gb_svc::{SvcServed, serve};
use gb_switch::Ladder;
use std::process::Abort;

/// A request: its type and payload, and what is answered: the result byte and the payload.
type Row<'a> = (u8, &'a [u8], u8, &'a [u8]);

/// The requests from level 1 to level 6 of interface 2, which gets device id 4.
const STEPS: [Row; 6] = [
    (0x21, &[2], 0, &[0]),
    (0x23, &[2], 0, &[0]),
    (0x25, &[2], 0, &[0]),
    (0x27, &[2], 0, &[0, 3]),
    (0x03, &[2, 4], 0, &[]),
    (0x0b, &[1, 1, 2, 4], 0, &[]),
];

/// A request is answered so.
fn answers(rt: &impl Abort, ladder: &mut Ladder, row: &Row) {
    let (kind, payload, code, told) = *row;
    match serve(ladder, kind, payload) {
        SvcServed::Answer { result, payload } => {
            assert!(rt; (result, payload.as_slice()) == (code, told), "type {kind}");
        }
        _ => assert!(rt; false, "type {kind} isn't answered"),
    }
}

/// Interface 2 has this level, and nothing else is plugged.
fn at_level(rt: &impl Abort, level: usize) -> Ladder {
    let mut ladder = Ladder::new();
    ladder.plug(2);
    for row in STEPS.iter().take(level) {
        answers(rt, &mut ladder, row);
    }
    ladder
}

/// Levels, and how a request is answered there. Each step wants the one before.
const ROWS: &[(usize, Row)] = &[
    (0, (0x23, &[2], 0x08, &[])),
    (1, (0x25, &[2], 0x08, &[])),
    (2, (0x27, &[2], 0x08, &[])),
    (3, (0x03, &[2, 4], 0x08, &[])),
    (4, (0x0b, &[1, 1, 2, 4], 0x08, &[])),
    (6, (0x21, &[2], 0x00, &[0])),
    (6, (0x23, &[2], 0x00, &[0])),
    (6, (0x25, &[2], 0x00, &[0])),
    (6, (0x27, &[2], 0x00, &[0, 3])),
    (0, (0x13, &[], 0x00, &[])),
    (0, (0x7f, &[], 0x04, &[])),
    (6, (0x21, &[3], 0x08, &[])),
    (6, (0x21, &[255], 0x08, &[])),
    (6, (0x21, &[], 0x06, &[])),
    (6, (0x21, &[2, 0], 0x06, &[])),
    (4, (0x03, &[2, 1], 0x06, &[])),
    (4, (0x03, &[2, 32], 0x06, &[])),
    (6, (0x03, &[2, 5], 0x06, &[])),
    (5, (0x0b, &[2, 1, 2, 4], 0x08, &[])),
    (5, (0x0b, &[1, 2, 2, 4], 0x08, &[])),
    (5, (0x0b, &[1, 1, 2, 5], 0x08, &[])),
    (5, (0x07, &[1, 5, 0, 2, 1, 0, 0, 0], 0x08, &[])),
    (6, (0x07, &[2, 5, 0, 2, 1, 0, 0, 0], 0x08, &[])),
    (6, (0x08, &[2, 5, 0, 2, 1, 0], 0x08, &[])),
    (5, (0x0c, &[1, 2], 0x08, &[])),
    (6, (0x0c, &[2, 2], 0x08, &[])),
    (6, (0x13, &[0], 0x06, &[])),
    (6, (0x01, &[], 0x04, &[])),
    (6, (0x02, &[0, 0, 1], 0x04, &[])),
    (6, (0x1f, &[2, 1, 0, 0], 0x04, &[])),
    (6, (0x20, &[2], 0x04, &[])),
];

/// At a level a request is answered so.
fn answers_at(rt: &impl Abort, row: &(usize, Row)) {
    let mut ladder = at_level(rt, row.0);
    answers(rt, &mut ladder, &row.1);
}

#[test]
fn requests_are_answered(rt: HostRuntime) {
    for row in ROWS {
        answers_at(&rt, row);
    }
}

#[test]
fn connections_decide(rt: HostRuntime) {
    let mut ladder = at_level(&rt, 6);
    let create = serve(&mut ladder, 0x07, &[1, 5, 1, 2, 3, 0, 0, 0]);
    assert!(rt;
        matches!(
            create,
            SvcServed::Create {
                ap: 261,
                intf: 2,
                cport: 3
            }
        )
    );
    let destroy = serve(&mut ladder, 0x08, &[1, 5, 1, 9, 3, 0]);
    assert!(rt;
        matches!(
            destroy,
            SvcServed::Destroy {
                ap: 261,
                intf: 9,
                cport: 3
            }
        )
    );
    let unroute = serve(&mut ladder, 0x0c, &[1, 2]);
    assert!(rt; matches!(unroute, SvcServed::Unroute { intf: 2 }));
    assert!(rt; ladder.routed(2), "it has it until then");
}
