//! What the rows of a run are loaded by: the columns of a program's inputs.

ghost use Rattle.std.specs.Prelude.{◌≡◌, ◌≤◌, IfOk, length};
ghost use Rattle.vcp_base.specs.Limits.{most_names};
ghost use Rattle.vcp_typed.specs.Fitting.{input_columns as input_columns_of};

use std::alloc::Global;
use vcp_base::{Columns, Memory};
use vcp_typed::Typed;

/// The columns of a program's inputs, of which there are no more than names.
pub fn input_columns(alloc: Global, program: &Typed) -> Result<Columns, Memory>
    ensures columns { IfOk result (λ columns. columns ≡ input_columns_of program.now.slots) }
    ensures few { IfOk result (λ columns. length columns ≤ most_names) }
{
    let _ = program.slots();
    program.columns(alloc)
}
