// A list that grows at its end, with room that was reserved.
ghost use Rattle.std.specs.Prelude.{◌≡◌, ◌<◌, ◌≤◌, ◌+◌, [], ◌∷◌, ◌++◌, OnOk, OnErr, length, ◌^◌};

use std::alloc::{AllocError, Global};
use std::marker::Model;

/// A list, and how many items can be put without taking memory.
#[derive(Drop)]
pub struct Log<T> {
    items: Vec<T>,
}

impl<T> Model for Log<T> {
    ghost use Rattle.std.specs.Prelude.{List, ℕ, ◌-◌, vec_len, vec_capacity};
    ghost use Rattle.std.specs.Coded.{coded_list, coded_ℕ, coded×};

    ghost Value = { List T × ℕ };

    ghost coded = { coded× (coded_list T.code) coded_ℕ };

    ghost view = { λ q. (q.items.items, vec_capacity q.items - vec_len q.items) };
}

impl<T> Log<T> {
    /// No item. It takes no memory.
    pub fn new(alloc: Global) -> Log<T>
        ensures { result.0 ≡ [] }
    {
        Log {
            items: Vec::new(alloc),
        }
    }

    /// The items, in order.
    pub fn as_slice(&self) -> &[T]
        ensures { result.now ≡ self.now.0 }
    {
        self.items.as_slice()
    }

    /// The number of items.
    pub fn len(&self) -> usize
        ensures items { result ≡ length self.now.0 }
        ensures few { result < 2 ^ 63 }
    {
        self.items.len()
    }

    /// The place, from 1, of the item that is put next.
    pub fn next_place(&self) -> u64
        ensures { result ≡ length self.now.0 + 1 }
    {
        self.items.len() as u64 + 1
    }

    /// The number of items that can be put without taking memory.
    pub fn spare(&self) -> usize
        ensures { result ≡ self.now.1 }
    {
        self.items.capacity() - self.items.len()
    }

    /// Room for n more. Nothing else changes.
    pub fn reserve(&mut self, n: usize) -> Result<(), AllocError>
        ensures items { self.new.0 ≡ self.old.0 }
        ensures more { self.old.1 ≤ self.new.1 }
        ensures ok { OnOk result (n ≤ self.new.1) }
        ensures err { OnErr result (self.new ≡ self.old) }
    {
        self.items.reserve(n)
    }

    /// Adds an item at the end.
    pub fn put(&mut self, item: T)
        requires { 0 < self.old.1 }
        ensures items { self.new.0 ≡ self.old.0 ++ item ∷ [] }
        ensures spare { self.old.1 ≤ self.new.1 + 1 }
    {
        self.items.push_reserved(item);
    }
}

impl<T: Drop> Log<T> {
    /// Adds these items at the end.
    pub fn put_all(&mut self, items: Vec<T>)
        requires { length items.items ≤ self.old.1 }
        ensures items { self.new.0 ≡ self.old.0 ++ items.items }
        ensures spare { self.old.1 ≤ self.new.1 + length items.items }
    {
        for item in items {
            self.put(item);
        }
    }
}
