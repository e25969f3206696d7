//! The rows of a run, opened.

ghost use Rattle.std.specs.Prelude.{◌≡◌, ◌≢◌, ◌<◌, ◌≤◌, ◌^◌, ℕ, false, All, Err, IfErr, IfOk, IfSome, length};
ghost use Rattle.vcp_base.specs.Limits.{most_cycles};
ghost use Rattle.vcp_base.specs.Types.{AreIn};
ghost use Rattle.input_rows.specs.Opening.{HasFewCycles};
ghost use Rattle.input_rows.specs.RowsOf.{IsOfRecord, types_of};
ghost use Rattle.vcp_inputs.specs.Refusals.{IsCaused};
ghost use Rattle.vcp_inputs.specs.RowsOutcome.{Opens, source_outcome};
ghost use Rattle.vcp_inputs.specs.declared.refusal.NoInput.TheVariants as input;

use input_rows::{Rows, RowsSource, open_rows};
use std::alloc::Global;
use vcp_base::Columns;
use vcp_inputs::NoInput;

/// The rows of a source for the columns with which it was loaded. `Header` where a file's first record isn't each column's
/// name once, and `Form` for cycles where there are columns.
pub(crate) fn open<'a>(
    alloc: Global,
    source: &'a RowsSource,
    columns: &'a Columns,
) -> Result<Rows<'a>, NoInput>
    requires few { HasFewCycles source.now }
    requires narrow { length columns.now < 2 ^ 32 }
    ensures opens { (before now : ℕ) → Opens (source_outcome source.now columns.now) before now result }
    ensures read { result ≢ Err input.Unread }
    ensures caused { IfErr result IsCaused }
    ensures types { IfOk result (λ left. left.types ≡ types_of columns.now) }
    ensures typed { IfOk result (λ left. All (AreIn left.types) left.rows) }
    ensures few { IfOk result (λ left. length left.rows ≤ most_cycles) }
    ensures behind { IfOk result (λ left. IfSome left.refusal IsOfRecord) }
    ensures fresh { IfOk result (λ left. left.ended ≡ false) }
{
    match open_rows(alloc, source, columns) {
        Ok(rows) => Ok(rows),
        Err(fault) => Err(NoInput::from(fault)),
    }
}
