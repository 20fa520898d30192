//! The kinds of a module's interfaces.

ghost use Rattle.std.specs.Prelude.{◌≡◌, ◌<◌, ◌≤◌, [], ◌∷◌, ◌++◌, ⊤, length};
ghost use Rattle.gb_base.specs.Kinds.{most_kinds};

use crate::{Kind, OutOfMemory, TryCopy};
use arrayvec::ArrayVec;
use std::alloc::AllocError;
use std::marker::Model;

/// The most interfaces of a module.
const MOST: usize = 4;

/// The kinds of a module's interfaces, rising: four at most, which lie in the value itself. A
/// contract sees the list of them.
#[derive(Drop)]
pub struct Kinds {
    kinds: ArrayVec<Kind, MOST>,
}

impl Model for Kinds {
    ghost use Rattle.std.specs.Prelude.{◌≤◌, List, length};
    ghost use Rattle.gb_base.specs.Kinds.{most_kinds};
    ghost use Rattle.gb_base.specs.declared.event.Kind.{Kind};

    ghost Value = { List Kind };

    ghost view = { λ k. k.kinds.items };

    ghost invariant = { λ k. length k.kinds.items ≤ most_kinds };
}

impl Kinds {
    /// The kind of a module's one interface.
    pub fn one(kind: Kind) -> Kinds
        ensures { result ≡ kind ∷ [] }
    {
        let mut kinds = ArrayVec::new();
        kinds.push(kind);
        Kinds { kinds }
    }

    /// The kind of one interface more.
    pub fn push(&mut self, kind: Kind)
        requires { length self.old < most_kinds }
        ensures { self.new ≡ self.old ++ kind ∷ [] }
    {
        self.kinds.push(kind);
    }

    /// The kinds in order.
    pub fn items(&self) -> &[Kind]
        ensures items { result.now ≡ self.now }
        ensures few { length result.now ≤ most_kinds }
    {
        self.kinds.as_slice()
    }
}

impl TryCopy for Kinds {
    ghost is_infallible = { λ _. ⊤ };

    fn copy(&self) -> Result<Kinds, OutOfMemory> {
        let kinds = ArrayVec::try_from(self.kinds.as_slice()).unwrap();
        Ok(Kinds { kinds })
    }
}

impl Clone for Kinds {
    ghost is_clone = { λ x y. y ≡ x };

    ghost is_infallible = { λ _. ⊤ };

    fn clone(&self) -> Result<Kinds, AllocError> {
        Ok(self.copy()?)
    }
}
