//! A manifest that is read, and specs that are written.

use gb_base::{Bytes, Reason};
use gb_manifest::{
    BundleSpec, Bundles, CportSpec, Cports, ManifestSpec, Refused, StringSpec, Strings, WriteFault,
    check, write,
};
use std::alloc::Global;
use std::process::Abort;

/// The manifest of a module with one GPIO CPort.
const GPIO: [u8; 72] = *b"\x48\0\0\x01\
\x08\0\x01\0\x01\x02\0\0\
\x10\0\x02\0\x07\x01Greybus\0\0\0\
\x0c\0\x02\0\x04\x02GPIO\0\0\
\x08\0\x03\0\0\0\0\0\
\x08\0\x03\0\x01\x0a\0\0\
\x08\0\x04\0\0\0\0\0\
\x08\0\x04\0\x01\0\x01\x02";

/// Adds a string to a spec.
fn add_string(rt: &impl Abort, alloc: Global, spec: &mut ManifestSpec, id: u8, text: &[u8]) {
    let bytes = Bytes::from_slice(alloc, text).expect(rt, "memory");
    spec.strings
        .push(StringSpec { id, bytes })
        .expect(rt, "memory");
}

/// Adds a bundle and a CPort of it to a spec.
fn add_cport(rt: &impl Abort, spec: &mut ManifestSpec, bundle: BundleSpec, cport: CportSpec) {
    spec.bundles.push(bundle).expect(rt, "memory");
    spec.cports.push(cport).expect(rt, "memory");
}

/// The spec of the GPIO manifest, with CPort 1 in this bundle.
fn gpio_spec(rt: &impl Abort, alloc: Global, bundle: u8) -> ManifestSpec {
    let mut spec = ManifestSpec {
        minor: 1,
        vendor: 1,
        product: 2,
        features: 0,
        strings: Strings::new(alloc),
        bundles: Bundles::new(alloc),
        cports: Cports::new(alloc),
    };
    add_string(rt, alloc, &mut spec, 1, b"Greybus");
    add_string(rt, alloc, &mut spec, 2, b"GPIO");
    let control = BundleSpec { id: 0, class: 0 };
    let port = |id, bundle, protocol| CportSpec {
        id,
        bundle,
        protocol,
    };
    add_cport(rt, &mut spec, control, port(0, 0, 0));
    let bridged = BundleSpec { id: 1, class: 10 };
    add_cport(rt, &mut spec, bridged, port(1, bundle, 2));
    spec
}

#[test]
fn writes_specs(rt: HostRuntime) {
    let spec = gpio_spec(&rt, rt.alloc(), 1);
    let bytes = write(rt.alloc(), &spec).expect(&rt, "a manifest");
    assert!(rt; bytes.items() == GPIO.as_slice());
}

#[test]
fn refuses_specs(rt: HostRuntime) {
    let mut spec = gpio_spec(&rt, rt.alloc(), 7);
    is_refused(
        &rt,
        rt.alloc(),
        &spec,
        WriteFault::Rule(Reason::CportBundle),
    );
    // A string that is too long is told first.
    add_string(&rt, rt.alloc(), &mut spec, 9, &[0; 256]);
    is_refused(&rt, rt.alloc(), &spec, WriteFault::StringLong { id: 9 });
}

/// A spec is refused so.
fn is_refused(rt: &impl Abort, alloc: Global, spec: &ManifestSpec, why: WriteFault) {
    assert!(rt; matches!(write(alloc, spec), Err(fault) if fault == why));
}

#[test]
fn reads_manifests(rt: HostRuntime) {
    assert!(rt; check(&GPIO[..71]).is_err());
    let m = check(&GPIO).expect(&rt, "the GPIO manifest is one");
    assert!(rt; (m.minor(), m.size()) == (1, 72));
    let found = m.cport(1).map(|cport| (cport.bundle, cport.protocol));
    assert!(rt; found == Some((1, 2)));
    assert!(rt; m.cport(2).is_none());
    assert!(rt; m.descriptors().count() == 7);
}

#[test]
fn types_begin_at_one(rt: HostRuntime) {
    let mut bytes = GPIO;
    bytes[6] = 0;
    let (at, reason) = (6, Reason::DescriptorType);
    assert!(rt; check(&bytes).err() == Some(Refused { at, reason }));
}
