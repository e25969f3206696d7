//! Names, which are told apart without regard to case.

ghost use Rattle.std.specs.Prelude.{◌≡◌, ◌++◌, ◌∷◌, [], not, true, false, bytes_eq, None, IfOk, OnOk};
ghost use Rattle.std.specs.List.{list_any};
ghost use Rattle.image_file.specs.Entries.{lower, name_by};
ghost use Rattle.image_file.specs.Readings.{Takes, Keeps};

use crate::fields::fault::{FieldFault, ReadError};
use crate::fields::reading::Reader;
use indexmap::IndexSet;
use std::alloc::Global;
use std::marker::Model;
use vcp_base::{MOST_NAME_BYTES, Memory, Text, is_name};

/// Names in lower case, in the order in which they came; none is there twice.
pub struct Keys {
    alloc: Global,
    keys: IndexSet<Vec<u8>>,
}

impl Model for Keys {
    ghost use Rattle.std.specs.Prelude.{List, ℕ, map};

    ghost Value = { List (List ℕ) };

    ghost view = { λ t. map (λ k. k.items) t.keys.keys };
}

impl Drop for Keys {
    fn drop(self) {
        let Keys { alloc: _, keys: _ } = self;
    }
}

impl Keys {
    /// No names.
    pub fn new(alloc: Global) -> Keys
        ensures { result ≡ [] }
    {
        Keys {
            alloc,
            keys: IndexSet::new(alloc),
        }
    }

    /// Adds a name that was read, unless it is there, and says whether it did.
    fn insert(&mut self, name: &[u8], bytes: &mut Reader<'_>) -> bool
        ensures keeps { Keeps bytes.old bytes.new }
        ensures said { bytes.new.fault ≡ None → result ≡ not (list_any (bytes_eq (lower name.now)) self.old) }
        ensures added { bytes.new.fault ≡ None → result ≡ true → self.new ≡ self.old ++ lower name.now ∷ [] }
    {
        match self.added(name) {
            Ok(added) => added,
            Err(_) => {
                bytes.refuse(ReadError::Memory);
                false
            }
        }
    }

    // The same, where there is memory.
    fn added(&mut self, name: &[u8]) -> Result<bool, Memory>
        ensures said { IfOk result (λ r. r ≡ not (list_any (bytes_eq (lower name.now)) self.old)) }
        ensures added { OnOk result (list_any (bytes_eq (lower name.now)) self.old ≡ false → self.new ≡ self.old ++ lower name.now ∷ []) }
    {
        let key = name.to_ascii_lowercase(self.alloc)?;
        let (_place, added) = self.keys.insert_full(key)?;
        Ok(added)
    }
}

/// The next name, one to 1,048,576 letters, digits and underscores without a digit first; `Field` at its
/// length or its first byte where it is no name or, without regard to case, one of those seen. It is seen from then on.
pub fn name_of(alloc: Global, seen: &mut Keys, bytes: &mut Reader<'_>) -> Text
    ensures is { Takes bytes.old bytes.new (name_by seen.old).read result }
    ensures seen { bytes.new.fault ≡ None → seen.new ≡ seen.old ++ lower result ∷ [] }
{
    let n = bytes.between(1, MOST_NAME_BYTES);
    let left = bytes.left.len();
    let text = bytes.take(n as usize);
    bytes.check(is_name(text), FieldFault::Field { left });
    let is_new = seen.insert(text, bytes);
    bytes.check(is_new, FieldFault::Field { left });
    bytes.copy(alloc, text)
}
