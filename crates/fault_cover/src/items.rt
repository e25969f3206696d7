//! Items of lists.

ghost use Rattle.std.specs.Prelude.{◌≡◌, ◌<◌, Some, length, slice_get};

/// The item at a place.
pub(crate) fn item<T: Copy>(items: &[T], i: usize) -> T
    requires { i < length items.now }
    ensures { slice_get items.now i ≡ Some result }
{
    items[i]
}
