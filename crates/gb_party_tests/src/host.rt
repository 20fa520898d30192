//! The application processor before anything was inserted, and what it answers.

use gb_base::{Entry, HostEvent, IntfStage, Purpose, Refusal, SequenceStep};
use gb_host::{Act, Host};
use std::process::Abort;

/// A request of the supervisory controller: its type and payload, what is answered, and the primary
/// interface and the count of what is inserted then, zeros for nothing.
type Row<'a> = (u8, &'a [u8], u8, &'a [u8], (u8, u8));

/// Requests with what they are answered.
const REQUESTS: [Row; 8] = [
    (0x01, &[0, 1], 0x00, &[0, 1], (0, 0)),
    (0x02, &[1, 0, 1], 0x00, &[], (0, 0)),
    (0x1f, &[2, 3, 0, 0], 0x00, &[], (2, 3)),
    (0x20, &[2], 0x00, &[], (0, 0)),
    (0x20, &[], 0x06, &[], (0, 0)),
    (0x1f, &[2, 1, 0], 0x06, &[], (0, 0)),
    (0x13, &[], 0x04, &[], (0, 0)),
    (0x7f, &[], 0x04, &[], (0, 0)),
];

/// A request of the supervisory controller is answered so.
fn serves(rt: &impl Abort, host: &mut Host, row: &Row) {
    let (kind, payload, code, told, inserted) = *row;
    let served = host.serve(1, kind, payload).expect(rt, "memory");
    let answer = (served.result, served.payload.items());
    assert!(rt; answer == (code, told), "type {kind}");
    let module = match served.then {
        Some(HostEvent::Inserted { primary, count }) => (primary, count),
        _ => (0, 0),
    };
    assert!(rt; module == inserted);
}

/// No identifier was left for this step at interface 2, which is told to have failed.
fn fails(rt: &impl Abort, host: &mut Host, step: SequenceStep) {
    let purpose = Purpose {
        intf: 2,
        cport: 0,
        step,
    };
    let acts = host.unsent(purpose).expect(rt, "memory");
    assert!(rt;
        matches!(
            acts.items(),
            [Act::Tell {
                entry: Entry::Interface {
                    intf: 2,
                    stage: IntfStage::Failed
                }
            }]
        )
    );
}

#[test]
fn the_supervisory_controller_is_answered(rt: HostRuntime) {
    let mut host = Host::new(rt.alloc()).expect(&rt, "memory");
    for row in REQUESTS.iter() {
        serves(&rt, &mut host, row);
    }
}

#[test]
fn nothing_is_known_first(rt: HostRuntime) {
    let mut host = Host::new(rt.alloc()).expect(&rt, "memory");
    assert!(rt; matches!(host.may_connect(2, 1), Err(Refusal::NoInterface)));
    assert!(rt; matches!(host.may_send(2, 0), Err(Refusal::NoInterface)));
    assert!(rt; host.interface(2).is_none());
    assert!(rt; host.state(2).is_none());
    fails(&rt, &mut host, SequenceStep::EnableVsys);
    fails(&rt, &mut host, SequenceStep::CreateControl);
}
