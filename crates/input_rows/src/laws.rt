//! Laws of the definitions.

ghost use Rattle.std.specs.Prelude.{◌≡◌, ℕ, List, length, Some};
ghost use Rattle.vcp_base.specs.declared.columns.Column.{Column};
ghost use Rattle.input_rows.specs.Header.{order_of, IsOrder};

/// Where a header gives an order of columns, the order has each column's place once.
pub fn order_has_each_place()
    ensures { (columns : List Column) (header : List (List ℕ)) (places : List ℕ) → order_of columns header ≡ Some places → IsOrder (length columns) places }
{}
