//! Rows of the power sequence, whose expected values are those of its table.

use gb_switch::{Ladder, NotReady, NotRouted, Rung};
use std::process::Abort;

const DONE: Result<(), NotReady> = Ok(());

const BELOW: Result<(), NotReady> = Err(NotReady::Below);

const TAKEN: Result<(), NotReady> = Err(NotReady::Taken);

/// The rungs from level 1 to level 6.
const RUNGS: [Rung; 6] = [
    Rung::Vsys,
    Rung::Refclk,
    Rung::Unipro,
    Rung::Active,
    Rung::Device(2),
    Rung::Route(2),
];

/// Interface 2 has this level, and nothing else is plugged.
fn at_level(rt: &impl Abort, level: usize) -> Ladder {
    let mut ladder = Ladder::new();
    ladder.plug(2);
    for rung in RUNGS.iter().take(level) {
        assert!(rt; ladder.climb(2, *rung) == DONE);
    }
    ladder
}

/// What each rung is answered at the levels from 0 to 6.
const ANSWERS: [(Rung, [Result<(), NotReady>; 7]); 9] = [
    (Rung::Vsys, [DONE, DONE, DONE, DONE, DONE, DONE, DONE]),
    (Rung::Refclk, [BELOW, DONE, DONE, DONE, DONE, DONE, DONE]),
    (Rung::Unipro, [BELOW, BELOW, DONE, DONE, DONE, DONE, DONE]),
    (Rung::Active, [BELOW, BELOW, BELOW, DONE, DONE, DONE, DONE]),
    (
        Rung::Device(3),
        [BELOW, BELOW, BELOW, BELOW, DONE, DONE, TAKEN],
    ),
    (
        Rung::Device(1),
        [BELOW, BELOW, BELOW, BELOW, TAKEN, TAKEN, TAKEN],
    ),
    (
        Rung::Device(32),
        [BELOW, BELOW, BELOW, BELOW, TAKEN, TAKEN, TAKEN],
    ),
    (
        Rung::Route(2),
        [BELOW, BELOW, BELOW, BELOW, BELOW, DONE, DONE],
    ),
    (
        Rung::Route(3),
        [BELOW, BELOW, BELOW, BELOW, BELOW, BELOW, BELOW],
    ),
];

/// At this level of interface 2 a rung is answered so.
fn climbs(rt: &impl Abort, level: usize, rung: Rung, answer: Result<(), NotReady>) {
    let mut ladder = at_level(rt, level);
    assert!(rt;
        ladder.climb(2, rung) == answer,
        "{rung:?} at level {level}"
    );
}

#[test]
fn each_rung_at_each_level(rt: HostRuntime) {
    for (rung, answers) in ANSWERS.iter() {
        for (level, answer) in answers.iter().enumerate() {
            climbs(&rt, level, *rung, *answer);
        }
    }
}

#[test]
fn a_lower_rung_leaves_the_level(rt: HostRuntime) {
    let mut ladder = at_level(&rt, 6);
    assert!(rt; ladder.climb(2, Rung::Vsys) == DONE);
    assert!(rt; ladder.routed(2), "it has its route still");
}

#[test]
fn a_device_id_is_of_one_interface(rt: HostRuntime) {
    let mut ladder = at_level(&rt, 5);
    ladder.plug(31);
    for rung in RUNGS.iter().take(4) {
        assert!(rt; ladder.climb(31, *rung) == DONE);
    }
    assert!(rt; ladder.climb(31, Rung::Device(2)) == TAKEN);
    assert!(rt; ladder.climb(2, Rung::Device(2)) == DONE, "its own");
    ladder.pull(2);
    assert!(rt; ladder.climb(31, Rung::Device(2)) == DONE, "it is free");
}

#[test]
fn a_route_is_lost(rt: HostRuntime) {
    let mut ladder = at_level(&rt, 6);
    assert!(rt; ladder.unroute(2) == Ok(()));
    assert!(rt; !ladder.routed(2), "it has no route");
    assert!(rt; ladder.unroute(2) == Err(NotRouted));
    assert!(rt;
        ladder.climb(2, Rung::Route(2)) == DONE,
        "device id 2 is kept"
    );
}

#[test]
fn a_plugged_module_is_off(rt: HostRuntime) {
    let mut ladder = at_level(&rt, 6);
    ladder.pull(2);
    assert!(rt; ladder.climb(2, Rung::Vsys) == BELOW, "nothing is plugged");
    ladder.plug(2);
    assert!(rt; ladder.climb(2, Rung::Refclk) == BELOW, "its power is off");
}

/// Nothing is plugged at an interface.
fn is_empty(rt: &impl Abort, ladder: &mut Ladder, intf: u8) {
    for rung in RUNGS.iter() {
        assert!(rt; ladder.climb(intf, *rung) == BELOW, "at {intf}");
    }
    assert!(rt; ladder.unroute(intf) == Err(NotRouted), "at {intf}");
    assert!(rt; !ladder.routed(intf), "at {intf}");
}

#[test]
fn nothing_is_plugged_elsewhere(rt: HostRuntime) {
    let mut ladder = at_level(&rt, 6);
    for intf in [0, 1, 3, 31, 32, 40, 255] {
        is_empty(&rt, &mut ladder, intf);
    }
}
