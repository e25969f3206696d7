//! Lists of nodes.

ghost use Rattle.std.specs.Prelude.{◌≡◌, ◌<◌, [], ◌∷◌, ◌++◌, Some, OnOk, OnErr, length, slice_get};

use std::alloc::Global;
use vcp_base::{Memory, append};

/// Nodes in their order, none of which holds such a list.
pub struct Nodes<T: Drop> {
    pub items: Vec<T>,
}

impl<T: Drop> Drop for Nodes<T> {
    fn drop(self) {
        let Nodes { items: _ } = self;
    }
}

impl<T: Drop> Nodes<T> {
    /// A list of no nodes. It takes no memory.
    pub fn new(alloc: Global) -> Nodes<T>
        ensures { result.items.items ≡ [] }
    {
        Nodes {
            items: Vec::new(alloc),
        }
    }

    /// Appends a node. After `Memory` the list is unchanged.
    pub fn push(&mut self, item: T) -> Result<(), Memory>
        ensures items { OnOk result (self.new.items.items ≡ self.old.items.items ++ item ∷ []) }
        ensures unchanged { OnErr result (self.new.items.items ≡ self.old.items.items) }
    {
        append(&mut self.items, item)
    }

    /// How many nodes there are.
    pub fn len(&self) -> usize
        ensures { result ≡ length self.now.items.items }
    {
        self.items.len()
    }

    /// The node at place `i`, counted from 0, where `i` is less than `len`.
    pub fn at(&self, i: usize) -> &T
        requires { i < length self.now.items.items }
        ensures { slice_get self.now.items.items i ≡ Some result.now }
    {
        &self.items[i]
    }
}
