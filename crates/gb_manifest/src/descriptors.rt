//! The descriptors of a manifest, in order.

ghost use Rattle.std.specs.Prelude.{◌≡◌, IsOk};
ghost use Rattle.gb_manifest.specs.Walks.{descriptors_in, walk_of};

use crate::descriptor::Descriptor;
use crate::walk::Walk;
use std::marker::Model;

/// The descriptors of a manifest that are left, in order. Strings are lent out of its bytes.
#[derive(Drop)]
pub struct Descriptors<'a> {
    walk: Walk<'a>,
}

impl<'a> Model for Descriptors<'a> {
    ghost use Rattle.std.specs.Prelude.{List, IsOk};
    ghost use Rattle.gb_formats.specs.Descriptors.{Descriptor};
    ghost use Rattle.gb_manifest.specs.Walks.{descriptors_in, walk_of};

    ghost Value = { List Descriptor };

    ghost view = { λ d. descriptors_in (walk_of d.walk) };

    ghost invariant = { λ d. IsOk (walk_of d.walk) };
}

impl<'a> Descriptors<'a> {
    /// Those of a walk that meets no refusal.
    pub(crate) fn new(walk: Walk<'a>) -> Descriptors<'a>
        requires { IsOk (walk_of walk) }
        ensures { result ≡ descriptors_in (walk_of walk.entry) }
    {
        Descriptors { walk }
    }

    /// The same descriptors.
    pub(crate) fn again(&self) -> Descriptors<'a>
        ensures { result ≡ self.now }
    {
        Descriptors { walk: self.walk }
    }
}

impl<'a> Iterator for Descriptors<'a> {
    ghost use Rattle.std.specs.Iterator.{YieldsFirstBy, item_count};
    ghost use Rattle.gb_manifest.specs.Values.{descriptor_of};

    type Item = Descriptor<'a>;

    ghost next_gives = { YieldsFirstBy descriptor_of (λ rest. rest) };

    ghost remaining = { item_count (λ rest. rest) };

    fn next(&mut self) -> Option<Descriptor<'a>> {
        match self.walk.next() {
            Some((_, d)) => Some(d),
            None => None,
        }
    }
}
