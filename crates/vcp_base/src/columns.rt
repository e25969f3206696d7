//! Columns of a table of values.

use crate::list::List;
use crate::text::Text;
use crate::ty::Ty;

/// One input or output: its name as declared, and its type.
pub struct Column {
    /// The name as it was declared; `same_name` compares names.
    pub name: Text,
    /// The type of the values in the column.
    pub ty: Ty,
}

impl Drop for Column {
    fn drop(self) {
        let Column { name: _, ty: _ } = self;
    }
}

/// Inputs or outputs in order, seen as a list.
pub type Columns = List<Column>;
