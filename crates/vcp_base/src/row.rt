//! Rows of values.

ghost use Rattle.std.specs.Prelude.{◌≡◌, ◌<◌, pos, [], ◌∷◌, ◌++◌, Some, IfOk, OnOk, OnErr, length, slice_get, slice_set, replicate};

use crate::memory::Memory;
use std::alloc::Global;
use std::marker::Model;

/// One value per input or output, seen as a list of integers.
pub struct Row {
    values: Vec<i64>,
}

impl Drop for Row {
    fn drop(self) {
        let Row { values: _ } = self;
    }
}

impl Model for Row {
    ghost use Rattle.std.specs.Prelude.{List, ℤ};

    ghost Value = { List ℤ };

    ghost view = { λ r. r.values.items };
}

impl Row {
    /// A row of no values. It takes no memory.
    pub fn new(alloc: Global) -> Row
        ensures { result ≡ [] }
    {
        Row {
            values: Vec::new(alloc),
        }
    }

    /// A row of `len` zeros; `Memory` where there is no room for it.
    pub fn zeros(alloc: Global, len: u32) -> Result<Row, Memory>
        ensures { IfOk result (λ r. r ≡ replicate len (pos 0)) }
    {
        Ok(Row {
            values: vec![in alloc; 0; len as usize]?,
        })
    }

    /// The row of a vector's values. It takes no memory.
    pub fn from_vec(values: Vec<i64>) -> Row
        ensures { result ≡ values.items }
    {
        Row { values }
    }

    /// Appends a value. After `Memory` the row is unchanged.
    pub fn push(&mut self, v: i64) -> Result<(), Memory>
        ensures ok { OnOk result (self.new ≡ self.old ++ v ∷ []) }
        ensures err { OnErr result (self.new ≡ self.old) }
    {
        self.values.push(v)?;
        Ok(())
    }

    /// How many values there are.
    pub fn len(&self) -> usize
        ensures { result ≡ length self.now }
    {
        self.values.len()
    }

    /// The value at place `i`, counted from 0, where `i` is less than `len`.
    pub fn at(&self, i: usize) -> i64
        requires { i < length self.now }
        ensures { slice_get self.now i ≡ Some result }
    {
        self.values[i]
    }

    /// Sets the value at place `i`, counted from 0, where `i` is less than `len`. The others stay.
    pub fn set(&mut self, i: u32, v: i64)
        requires { i < length self.old }
        ensures { self.new ≡ slice_set self.old i v }
    {
        self.values[i as usize] = v;
    }

    /// All values, in order.
    pub fn all(&self) -> &[i64]
        ensures { result.now ≡ self.now }
    {
        &self.values
    }

    /// Sets the values to these, of which there are as many.
    pub fn copy_from(&mut self, values: &[i64])
        requires { length values.now ≡ length self.old }
        ensures { self.new ≡ values.now }
    {
        self.values.copy_from_slice(values);
    }
}
