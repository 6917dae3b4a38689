// A queue with room that was reserved: first in, first out.
ghost use Rattle.std.specs.Prelude.{◌≡◌, ◌<◌, ◌≤◌, ◌+◌, [], ◌∷◌, ◌++◌, OnOk, OnErr, MatchOption, IsTrue, ◌↔◌, drop, length};

use std::alloc::{AllocError, Global};
use std::collections::VecDeque;
use std::marker::Model;

/// A queue, and how many items can be put without taking memory.
#[derive(Drop)]
pub struct Queue<T> {
    items: VecDeque<T>,
}

impl<T> Model for Queue<T> {
    ghost use Rattle.std.specs.Prelude.{List, ℕ, ◌-◌};
    ghost use Rattle.std.specs.VecDeque.{deque_len, deque_capacity};
    ghost use Rattle.std.specs.Coded.{coded_list, coded_ℕ, coded×};

    ghost Value = { List T × ℕ };

    ghost coded = { coded× (coded_list T.code) coded_ℕ };

    ghost view = { λ q. (q.items.items, deque_capacity q.items - deque_len q.items) };
}

impl<T> Queue<T> {
    /// No item. It takes no memory.
    pub fn new(alloc: Global) -> Queue<T>
        ensures { result.0 ≡ [] }
    {
        Queue {
            items: VecDeque::new(alloc),
        }
    }

    /// The first item; none exactly where the queue is empty.
    pub fn front(&self) -> Option<&T>
        ensures { MatchOption result (self.now.0 ≡ []) (λ x. self.now.0 ≡ x.now ∷ drop 1 self.now.0) }
    {
        self.items.front()
    }

    /// Whether there is no item.
    pub fn is_empty(&self) -> bool
        ensures { IsTrue result ↔ (self.now.0 ≡ []) }
    {
        self.items.is_empty()
    }

    /// The number of items that can be put without taking memory.
    pub fn spare(&self) -> usize
        ensures { result ≡ self.now.1 }
    {
        self.items.capacity() - self.items.len()
    }

    /// Room for n more. Nothing else changes. Where memory is taken, the queue doubles at least.
    pub fn reserve(&mut self, n: usize) -> Result<(), AllocError>
        ensures items { self.new.0 ≡ self.old.0 }
        ensures more { self.old.1 ≤ self.new.1 }
        ensures ok { OnOk result (n ≤ self.new.1) }
        ensures err { OnErr result (self.new ≡ self.old) }
    {
        if n <= self.spare() {
            return Ok(());
        }
        let more = n.max(self.items.len());
        self.items.reserve_exact(more)
    }

    /// Adds an item at the end.
    pub fn put(&mut self, item: T)
        requires { 0 < self.old.1 }
        ensures items { self.new.0 ≡ self.old.0 ++ item ∷ [] }
        ensures spare { self.old.1 ≤ self.new.1 + 1 }
    {
        self.items.push_back_reserved(item);
    }
}

impl<T: Drop> Queue<T> {
    /// Adds these items at the end.
    pub fn put_all(&mut self, items: Vec<T>)
        requires { length items.items ≤ self.old.1 }
        ensures items { self.new.0 ≡ self.old.0 ++ items.items }
        ensures spare { self.old.1 ≤ self.new.1 + length items.items }
    {
        for item in items {
            self.put(item);
        }
    }

    /// Takes the first item; none exactly where the queue is empty.
    pub fn pop(&mut self) -> Option<T>
        ensures items { MatchOption result ((self.old.0 ≡ []) × (self.new.0 ≡ [])) (λ x. self.old.0 ≡ x ∷ self.new.0) }
        ensures spare { self.old.1 ≤ self.new.1 }
    {
        self.items.pop_front()
    }

    /// Lets the first item go.
    pub fn drop_front(&mut self)
        requires { 0 < length self.old.0 }
        ensures items { self.new.0 ≡ drop 1 self.old.0 }
        ensures spare { self.old.1 ≤ self.new.1 }
    {
        let _first = self.items.pop_front();
    }
}
