//! Lists.

ghost use Rattle.std.specs.Prelude.{◌≡◌, ◌<◌, [], ◌∷◌, ◌++◌, Some, OnOk, OnErr, length, slice_get};

use crate::memory::Memory;
use std::alloc::Global;
use std::marker::Model;

/// Items in their order, seen as a list. `at` lends one.
pub struct List<T: Drop> {
    items: Vec<T>,
}

impl<T: Drop> Drop for List<T> {
    fn drop(self) {
        let List { items: _ } = self;
    }
}

impl<T: Drop> Model for List<T> {
    ghost use Rattle.std.specs.Prelude.{List};

    ghost Value = { List T };

    ghost view = { λ l. l.items.items };
}

impl<T: Drop> List<T> {
    /// No items. It takes no memory.
    pub fn new(alloc: Global) -> List<T>
        ensures { result ≡ [] }
    {
        List {
            items: Vec::new(alloc),
        }
    }

    /// The list of a vector's items. It takes no memory.
    pub fn from_vec(items: Vec<T>) -> List<T>
        ensures { result ≡ items.items }
    {
        List { items }
    }

    /// Appends an item. After `Memory` the list is unchanged.
    pub fn push(&mut self, item: T) -> Result<(), Memory>
        ensures ok { OnOk result (self.new ≡ self.old ++ item ∷ []) }
        ensures err { OnErr result (self.new ≡ self.old) }
    {
        self.items.push(item)?;
        Ok(())
    }

    /// How many items there are.
    pub fn len(&self) -> usize
        ensures { result ≡ length self.now }
    {
        self.items.len()
    }

    /// The item at place `i`, counted from 0, where `i` is less than `len`.
    pub fn at(&self, i: usize) -> &T
        requires { i < length self.now }
        ensures { slice_get self.now i ≡ Some result.now }
    {
        &self.items[i]
    }
}

/// Items that are copied, in their order, seen as a list. `at` copies one.
#[derive(Drop)]
pub struct CopyList<T: Copy + Drop> {
    items: Vec<T>,
}

impl<T: Copy + Drop> Model for CopyList<T> {
    ghost use Rattle.std.specs.Prelude.{List};

    ghost Value = { List T };

    ghost view = { λ l. l.items.items };
}

impl<T: Copy + Drop> CopyList<T> {
    /// No items. It takes no memory.
    pub fn new(alloc: Global) -> CopyList<T>
        ensures { result ≡ [] }
    {
        CopyList {
            items: Vec::new(alloc),
        }
    }

    /// The list of a vector's items. It takes no memory.
    pub fn from_vec(items: Vec<T>) -> CopyList<T>
        ensures { result ≡ items.items }
    {
        CopyList { items }
    }

    /// Appends an item. After `Memory` the list is unchanged.
    pub fn push(&mut self, item: T) -> Result<(), Memory>
        ensures ok { OnOk result (self.new ≡ self.old ++ item ∷ []) }
        ensures err { OnErr result (self.new ≡ self.old) }
    {
        self.items.push(item)?;
        Ok(())
    }

    /// How many items there are.
    pub fn len(&self) -> usize
        ensures { result ≡ length self.now }
    {
        self.items.len()
    }

    /// The item at place `i`, counted from 0, where `i` is less than `len`.
    pub fn at(&self, i: usize) -> T
        requires { i < length self.now }
        ensures { slice_get self.now i ≡ Some result }
    {
        self.items[i]
    }

    /// All items, in order.
    pub fn all(&self) -> &[T]
        ensures { result.now ≡ self.now }
    {
        &self.items
    }
}
