//! Lists that have room.

ghost use Rattle.std.specs.Prelude.{◌≡◌, ◌<◌, ◌≤◌, ◌++◌, ◌∷◌, [], false, length, vec_capacity};

use std::alloc::Global;

/// An empty list with room for so many items. The flag is set where there is no memory for it.
pub(crate) fn with_room<T>(alloc: Global, items: usize, full: &mut bool) -> Vec<T>
    ensures empty { result.items ≡ [] }
    ensures room { full.new ≡ false → items ≤ vec_capacity result }
    ensures before { full.new ≡ false → full.old ≡ false }
{
    match Vec::with_capacity(alloc, items) {
        Ok(list) => list,
        Err(_) => {
            *full = true;
            Vec::new(alloc)
        }
    }
}

/// Appends an item where there is room.
pub(crate) fn append<T>(list: &mut Vec<T>, item: T)
    requires { length list.old.items < vec_capacity list.old }
    ensures items { list.new.items ≡ list.old.items ++ item ∷ [] }
    ensures capacity { vec_capacity list.old ≤ vec_capacity list.new }
{
    list.push_reserved(item);
}
