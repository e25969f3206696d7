//! Items that are appended.

ghost use Rattle.std.specs.Prelude.{◌≡◌, [], ◌∷◌, ◌++◌, OnOk, OnErr};

use crate::memory::Memory;

/// Appends an item. After `Memory` nothing is changed.
pub fn append<T: Drop>(items: &mut Vec<T>, item: T) -> Result<(), Memory>
    ensures items { OnOk result (items.new.items ≡ items.old.items ++ item ∷ []) }
    ensures unchanged { OnErr result (items.new.items ≡ items.old.items) }
{
    items.push(item)?;
    Ok(())
}
