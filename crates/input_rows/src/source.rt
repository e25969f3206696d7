//! Where the rows of a run come from.

ghost use Rattle.std.specs.Prelude.{◌≡◌, ◌≢◌, ◌<◌, ◌≤◌, ◌^◌, false, All, Err, IfErr, IfOk, IfSome, Ok, length};
ghost use Rattle.vcp_base.specs.Limits.{most_cycles};
ghost use Rattle.vcp_base.specs.Types.{AreIn};
ghost use Rattle.input_rows.specs.RowsOf.{IsOfRecord, types_of};
ghost use Rattle.input_rows.specs.Opening.{HasFewCycles, source_rows};

use crate::fault::RowFault;
use crate::rows::Rows;
use std::alloc::Global;
use vcp_base::{Columns, Text};

/// The rows of a run before they are read.
#[derive(Drop)]
pub enum RowsSource {
    /// The bytes of a file.
    File(Text),
    /// So many cycles without inputs, at most 1,000,000.
    Cycles(u32),
}

/// The rows for these columns. `Form` for a file where there are no columns, and for cycles where there are some;
/// `Header` where a file's first record isn't each column's name once; `Memory` where there is no room. There are no more
/// columns than a `u32` counts. Each row has a value of each column's type, and there are at most 1,000,000; what is
/// refused behind them is a record.
pub fn open_rows<'a>(
    alloc: Global,
    source: &'a RowsSource,
    columns: &'a Columns,
) -> Result<Rows<'a>, RowFault>
    requires few { HasFewCycles source.now }
    requires narrow { length columns.now < 2 ^ 32 }
    ensures rows { IfOk result (λ left. source_rows source.now columns.now ≡ Ok left) }
    ensures refusal { IfErr result (λ f. f ≢ RowFault.Memory → source_rows source.now columns.now ≡ Err f) }
    ensures types { IfOk result (λ left. left.types ≡ types_of columns.now) }
    ensures typed { IfOk result (λ left. All (AreIn left.types) left.rows) }
    ensures few { IfOk result (λ left. length left.rows ≤ most_cycles) }
    ensures behind { IfOk result (λ left. IfSome left.refusal IsOfRecord) }
    ensures fresh { IfOk result (λ left. left.ended ≡ false) }
{
    match source {
        RowsSource::File(text) => Rows::new(alloc, text.bytes(), columns),
        RowsSource::Cycles(number) => Rows::cycles(*number, columns),
    }
}
