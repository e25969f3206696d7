//! The table of declared names.

ghost use Rattle.std.specs.Prelude.{◌≡◌, [], ◌∷◌, ◌++◌, is_none, cond, option_map, IfOk, OnOk, OnErr};
ghost use Rattle.st_types.specs.Scope.{find};

use st_tree::Section;
use std::alloc::Global;
use std::marker::Model;
use vcp_base::{Memory, Text, Ty, is_same_name};

/// A declared name, as it is written: its section and type; a constant's value, and a variable's slot.
pub struct Entry {
    pub name: Text,
    pub section: Section,
    pub ty: Ty,
    pub value: i64,
    pub slot: u32,
}

impl Drop for Entry {
    fn drop(self) {
        let Entry {
            name: _,
            section: _,
            ty: _,
            value: _,
            slot: _,
        } = self;
    }
}

/// The declared names, in order of declaration; none is there twice. There are some 1,024 at most, so that they are looked
/// through one by one.
pub struct Names {
    entries: Vec<Entry>,
}

impl Drop for Names {
    fn drop(self) {
        let Names { entries: _ } = self;
    }
}

impl Model for Names {
    ghost use Rattle.std.specs.Prelude.{List};
    ghost use Rattle.st_types.specs.declared.names.Entry.{Entry};

    ghost Value = { List Entry };

    ghost view = { λ t. t.entries.items };
}

impl Names {
    /// A table of no names. It takes no memory.
    pub fn new(alloc: Global) -> Names
        ensures { result ≡ [] }
    {
        Names {
            entries: Vec::new(alloc),
        }
    }

    /// What was declared by a name, without regard to case.
    pub fn find(&self, name: &[u8]) -> Option<&Entry>
        ensures { option_map (λ e. e.now) result ≡ find self.now name.now }
    {
        let entries: &[Entry] = &self.entries;
        'entries: for i in 0..entries.len() {
            let entry = &entries[i];
            if is_same_name(entry.name.bytes(), name) {
                return Some(entry);
            }
        }
        None
    }

    /// Appends a name, unless it is there, and says whether it did. After `Memory` nothing is changed.
    pub fn declare(&mut self, entry: Entry) -> Result<bool, Memory>
        ensures said { IfOk result (λ r. r ≡ is_none (find self.old entry.name)) }
        ensures declared { OnOk result (self.new ≡ cond (is_none (find self.old entry.name)) (self.old ++ entry ∷ []) self.old) }
        ensures unchanged { OnErr result (self.new ≡ self.old) }
    {
        if self.find(entry.name.bytes()).is_some() {
            return Ok(false);
        }
        match self.entries.push(entry) {
            Ok(()) => Ok(true),
            Err(_) => Err(Memory),
        }
    }
}
