//! Identifiers are drawn, freed and drawn again.

use gb_labels::Labels;
use std::process::Abort;

/// Draws this identifier, or none.
fn draws(rt: &impl Abort, labels: &mut Labels, want: Option<u16>) {
    assert!(rt; labels.draw().ok() == want);
}

#[test]
fn identifiers_come_round(rt: HostRuntime) {
    let mut labels = Labels::new(rt.alloc()).expect(&rt, "memory");
    for label in 1..=65_535u16 {
        draws(&rt, &mut labels, Some(label));
    }
    draws(&rt, &mut labels, None);
    for label in [64u16, 65_000, 2, 127] {
        labels.free(label);
    }
    for label in [2u16, 64, 127, 65_000] {
        draws(&rt, &mut labels, Some(label));
    }
    draws(&rt, &mut labels, None);
    labels.free_all();
    draws(&rt, &mut labels, Some(65_001));
}
