//! The growing list of the public surface. A contract sees it as the list of its members.

ghost use Rattle.std.specs.Prelude.{◌≡◌, ◌≤◌, [], ◌∷◌, ◌++◌, OnOk, OnErr, IfOk, IsOk, ⊤};
ghost use Rattle.std.specs.Prelude.{MatchOption, insert, length, reverse};

use crate::OutOfMemory;
use std::alloc::Global;
use std::marker::Model;

/// Values that can be copied where memory is found.
pub trait TryCopy: Drop {
    /// Holds of a value whose copy takes no memory.
    ghost is_infallible: { Self → Type 0 } = { λ _. ⊥ };

    /// A copy, which equals the value.
    fn copy(&self) -> Result<Self, OutOfMemory>
        ensures same { IfOk result (λ o. o ≡ self.now) }
        ensures succeeds { is_infallible self.now → IsOk result };
}

/// A list that grows at its end. It keeps the allocator that it was made with.
#[derive(Drop)]
pub struct Sequence<T> {
    members: Vec<T>,
}

/// Numbers of requests.
pub type Numbers = Sequence<u64>;

impl<T> Model for Sequence<T> {
    ghost use Rattle.std.specs.Prelude.{List};

    ghost Value = { List T };

    ghost view = { λ s. s.members.items };
}

impl<T> Sequence<T> {
    /// The empty list. It takes no memory yet.
    pub fn new(alloc: Global) -> Self
        ensures { result ≡ [] }
    {
        Sequence {
            members: Vec::new(alloc),
        }
    }

    /// The members in order.
    pub fn items(&self) -> &[T]
        ensures { result.now ≡ self.now }
    {
        self.members.as_slice()
    }
}

impl<T: Drop> Sequence<T> {
    /// Adds a member at the end. After a refusal the list is as before.
    pub fn push(&mut self, member: T) -> Result<(), OutOfMemory>
        ensures ok { OnOk result (self.new ≡ self.old ++ member ∷ []) }
        ensures err { OnErr result (self.new ≡ self.old) }
    {
        self.members.reserve(1)?;
        self.members.push_reserved(member);
        Ok(())
    }

    /// No members from now on. The memory stays.
    pub fn clear(&mut self)
        ensures { self.new ≡ [] }
    {
        self.members.clear();
    }

    /// The members stand in the opposite order from now on.
    pub fn reverse(&mut self)
        ensures { self.new ≡ reverse self.old }
    {
        self.members.reverse();
    }

    /// Takes the last member. None comes where there is none.
    pub fn pop(&mut self) -> Option<T>
        ensures { MatchOption result ((self.old ≡ []) × (self.new ≡ []))
            (λ m. self.old ≡ self.new ++ m ∷ []) }
    {
        self.members.pop()
    }

    /// Adds a member in front of that at `place`, or at the end where `place` is the length. After
    /// a refusal the list is as before.
    pub fn insert(&mut self, place: usize, member: T) -> Result<(), OutOfMemory>
        requires { place ≤ length self.old }
        ensures ok { OnOk result (self.new ≡ insert self.old place member) }
        ensures err { OnErr result (self.new ≡ self.old) }
    {
        self.members.insert(place, member)?;
        Ok(())
    }
}

impl<T: Copy> Sequence<T> {
    /// Adds these members at the end. After a refusal the list is as before.
    pub fn extend(&mut self, members: &[T]) -> Result<(), OutOfMemory>
        ensures ok { OnOk result (self.new ≡ self.old ++ members.now) }
        ensures err { OnErr result (self.new ≡ self.old) }
    {
        self.members.extend_from_slice(members)?;
        Ok(())
    }
}

impl TryCopy for u64 {
    ghost is_infallible = { λ _. ⊤ };

    fn copy(&self) -> Result<u64, OutOfMemory> {
        Ok(*self)
    }
}

impl<T: TryCopy> TryCopy for Sequence<T> {
    ghost is_infallible = { λ s. s ≡ [] };

    fn copy(&self) -> Result<Sequence<T>, OutOfMemory> {
        let mut members = Vec::with_capacity(*self.members.allocator(), self.members.len())?;
        for member in &self.members {
            members.push(member.copy()?)?;
        }
        Ok(Sequence { members })
    }
}
