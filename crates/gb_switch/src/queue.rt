//! What waits at an end.

ghost use Rattle.std.specs.Prelude.{◌≡◌, [], ◌∷◌, ◌++◌, OnErr, OnOk, false, length};
ghost use Rattle.std.specs.Prelude.{◌<◌, true};
ghost use Rattle.std.specs.VecDeque.{deque_capacity, deque_len};
ghost use Rattle.gb_switch.specs.Queue.{TakesAs, has_items};
ghost use Rattle.gb_switch.specs.WaitingEnds.{Marks, is_in};

use crate::Place;
use crate::waiting::Waiting;
use gb_base::OutOfMemory;
use std::alloc::Global;
use std::collections::VecDeque;
use std::marker::Model;

/// What waits at an end, in the order in which it came. A contract sees the items. The end is
/// marked among those where an item waits exactly while one does.
#[derive(Drop)]
pub struct Queue<T> {
    items: VecDeque<T>,
}

impl<T> Model for Queue<T> {
    ghost use Rattle.std.specs.Prelude.{List};

    ghost Value = { List T };

    ghost view = { λ q. q.items.items };
}

impl<T: Drop> Queue<T> {
    /// Nothing waits. It takes no memory yet.
    pub fn new(alloc: Global) -> Queue<T>
        ensures { result ≡ [] }
    {
        Queue {
            items: VecDeque::new(alloc),
        }
    }

    /// Adds an item at the end. For want of memory it is lost, and all else is as before.
    #[inline(always)]
    pub fn push(&mut self, item: T, at: Place, waiting: &mut Waiting) -> Result<(), OutOfMemory>
        requires { is_in waiting.old at ≡ has_items self.old }
        ensures pushed { OnOk result (self.new ≡ self.old ++ item ∷ []) }
        ensures unchanged { OnErr result (self.new ≡ self.old) }
        ensures marked { Marks waiting.old waiting.new at (has_items self.new) }
    {
        if let Err(refused) = make_room(&mut self.items, at, waiting) {
            drop(item);
            return Err(refused);
        }
        self.items.push_back_reserved(item);
        Ok(())
    }

    /// Takes the front item. None comes where there is none.
    #[inline(always)]
    pub fn pop(&mut self, at: Place, waiting: &mut Waiting) -> Option<T>
        requires { is_in waiting.old at ≡ has_items self.old }
        ensures taken { TakesAs self.old self.new result }
        ensures marked { Marks waiting.old waiting.new at (has_items self.new) }
    {
        let front = self.items.pop_front()?;
        if self.items.is_empty() {
            waiting.remove(at);
        }
        Some(front)
    }

    /// All that waits is lost.
    pub fn clear(&mut self, at: Place, waiting: &mut Waiting)
        ensures cleared { self.new ≡ [] }
        ensures marked { Marks waiting.old waiting.new at false }
    {
        self.items.clear();
        waiting.remove(at);
    }

    /// Nothing waits, as in a new one. Whether the end is marked stays.
    pub fn renew(&mut self)
        ensures { self.new ≡ [] }
    {
        self.items.clear();
    }

    /// How many items wait.
    pub fn len(&self) -> u64
        ensures { result ≡ length self.now }
    {
        self.items.len() as u64
    }
}

/// A queue has room for one more item, and the end where it waits is marked. After want of memory
/// all is as before.
#[inline(always)]
fn make_room<T: Drop>(
    items: &mut VecDeque<T>,
    at: Place,
    waiting: &mut Waiting,
) -> Result<(), OutOfMemory>
    requires { is_in waiting.old at ≡ has_items items.old.items }
    ensures items { items.new.items ≡ items.old.items }
    ensures room { OnOk result (deque_len items.new < deque_capacity items.new) }
    ensures marked { OnOk result (Marks waiting.old waiting.new at true) }
    ensures unchanged { OnErr result (waiting.new ≡ waiting.old) }
{
    items.reserve(1)?;
    if items.is_empty() {
        waiting.add(at)?;
    }
    Ok(())
}
