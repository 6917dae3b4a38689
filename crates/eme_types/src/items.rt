// Lists over `Vec`.
ghost use Rattle.std.specs.Prelude.{◌≡◌, [], ◌∷◌, ◌++◌, length, IfOk, OnOk, OnErr};

use std::alloc::{AllocError, Global};
use std::marker::Model;

/// A value that can be copied into new memory.
pub trait Copies: Drop {
    /// An equal value. It is taken from the allocator that the value keeps.
    fn copy(&self) -> Result<Self, AllocError>
        ensures { IfOk result (λ x. x ≡ self.now) };

    /// Equal values, in order.
    fn copy_all(alloc: Global, items: &[Self]) -> Result<Vec<Self>, AllocError>
        ensures { IfOk result (λ copied. copied.items ≡ items.now) }
    {
        let mut copied = Vec::with_capacity(alloc, items.len())?;
        for item in items {
            copied.push(item.copy()?)?;
        }
        Ok(copied)
    }
}

/// A `Vec` that contracts see as the list of its items. It keeps its allocator.
#[derive(Drop)]
pub struct Items<T> {
    items: Vec<T>,
}

/// A byte text.
pub type Bytes = Items<u8>;

impl<T> Model for Items<T> {
    ghost use Rattle.std.specs.Prelude.{List};
    ghost use Rattle.std.specs.Coded.{coded_list};

    ghost Value = { List T };

    ghost coded = { coded_list T.code };

    ghost view = { λ it. it.items.items };
}

impl<T> Items<T> {
    /// No item. It takes no memory.
    pub fn new(alloc: Global) -> Items<T>
        ensures { result ≡ [] }
    {
        Items {
            items: Vec::new(alloc),
        }
    }

    /// No item, with room for `count` of them.
    pub fn with_capacity(alloc: Global, count: usize) -> Result<Items<T>, AllocError>
        ensures { IfOk result (λ x. x ≡ []) }
    {
        Ok(Items {
            items: Vec::with_capacity(alloc, count)?,
        })
    }

    /// The items of a `Vec`, without a copy.
    pub fn from_vec(items: Vec<T>) -> Items<T>
        ensures { result ≡ items.items }
    {
        Items { items }
    }

    /// The items as a `Vec`, without a copy.
    pub fn into_vec(self) -> Vec<T>
        ensures { result.items ≡ self }
    {
        self.items
    }

    /// The number of items.
    pub fn len(&self) -> usize
        ensures { result ≡ length self.now }
    {
        self.items.len()
    }

    /// The items, in order.
    pub fn as_slice(&self) -> &[T]
        ensures { result.now ≡ self.now }
    {
        self.items.as_slice()
    }
}

impl<T: Drop> Items<T> {
    /// Adds an item at the end.
    pub fn push(&mut self, item: T) -> Result<(), AllocError>
        ensures ok { OnOk result (self.new ≡ self.old ++ item ∷ []) }
        ensures err { OnErr result (self.new ≡ self.old) }
    {
        self.items.push(item)?;
        Ok(())
    }
}

impl<T: Copy> Items<T> {
    /// Copies of these items, in order.
    pub fn from_slice(alloc: Global, items: &[T]) -> Result<Items<T>, AllocError>
        ensures { IfOk result (λ x. x ≡ items.now) }
    {
        Ok(Items {
            items: Vec::from_slice(alloc, items)?,
        })
    }

    /// Adds copies of these items at the end, all of them or none.
    pub fn extend_from_slice(&mut self, items: &[T]) -> Result<(), AllocError>
        ensures ok { OnOk result (self.new ≡ self.old ++ items.now) }
        ensures err { OnErr result (self.new ≡ self.old) }
    {
        self.items.extend_from_slice(items)
    }
}

impl Copies for u8 {
    fn copy(&self) -> Result<u8, AllocError> {
        Ok(*self)
    }

    fn copy_all(alloc: Global, items: &[u8]) -> Result<Vec<u8>, AllocError> {
        Vec::from_slice(alloc, items)
    }
}

impl Copies for u32 {
    fn copy(&self) -> Result<u32, AllocError> {
        Ok(*self)
    }
}

impl<T: Copies> Copies for Items<T> {
    fn copy(&self) -> Result<Items<T>, AllocError> {
        let items = T::copy_all(*self.items.allocator(), self.items.as_slice())?;
        Ok(Items { items })
    }
}
