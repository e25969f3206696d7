//! The rows of a run, taken through their refusals.

ghost use Rattle.std.specs.Prelude.{◌≡◌, ◌≢◌, ◌<◌, ◌≤◌, ◌^◌, ℕ, false, true, All, IfErr, IfSome, IfOk, OnOk, Err, length};
ghost use Rattle.std.specs.Io.KnownBytes.{IsAtEnd};
ghost use Rattle.vcp_base.specs.Limits.{most_cycles};
ghost use Rattle.vcp_base.specs.Types.{AreIn};
ghost use Rattle.vcp_outside.specs.Counts.{Rose};
ghost use Rattle.vcp_outside.specs.Held.{Held};
ghost use Rattle.input_rows.specs.RowsOf.{IsOfRecord, types_of};
ghost use Rattle.vcp_inputs.specs.Forms.{rows_of, AreFew};
ghost use Rattle.input_rows.specs.Opening.{HasFewCycles};
ghost use Rattle.vcp_inputs.specs.Tables.{rows_name as rows_name_of};
ghost use Rattle.vcp_inputs.specs.RowsOutcome.{rows_outcome, LoadsRows, begins, HasLongFile};
ghost use Rattle.vcp_inputs.specs.Refusals.{IsCaused};
ghost use Rattle.vcp_inputs.specs.declared.refusal.NoInput.TheVariants as input;
ghost use Rattle.vcp_inputs.specs.declared.refusal.Refusal.{Refusal as RefusalOf};
ghost use Rattle.vcp_inputs.specs.declared.refusal.Refusal.TheVariants as refusal;

use crate::RowsWord;
use crate::reading::read_file;
use crate::refusal::{NoInput, Refusal};
use input_rows::{RowFault, RowsSource};
use std::alloc::Global;
use vcp_base::{Columns, MOST_ROWS_BYTES};
use vcp_outside::Files;

/// Takes ROWS through their refusals up to their header. `Form` comes for a file where there are no columns,
/// and nothing is begun then; next `Unread`, and then `Bytes`. `Unread` comes only where a file is begun and
/// the count of faults rose, which else is as it was.
pub fn load_rows<F: Files>(
    alloc: Global,
    files: &mut F,
    rows: RowsWord<'_>,
    columns: &Columns,
) -> Result<RowsSource, NoInput>
    requires few { AreFew (rows_of rows) }
    // What is answered: what comes to the same as ROWS, or why there is nothing. Where no file is begun,
    // that is so whatever files hold, and else the one refusal is that of too many bytes.
    ensures loads { IfSome (F.seen files.old).held
        (λ h. LoadsRows (rows_outcome (rows_of rows.entry) h columns.now) columns.now (F.seen files.old).broken (F.seen files.new).broken result) }
    ensures without_file { begins (rows_of rows.entry) columns.now ≡ false →
        (h : Held) → LoadsRows (rows_outcome (rows_of rows.entry) h columns.now) columns.now (F.seen files.old).broken (F.seen files.new).broken result }
    ensures few { IfOk result HasFewCycles }
    ensures unread { result ≡ Err input.Unread → Rose (F.seen files.old).faults (F.seen files.new).faults }
    // Where it is refused, that is no want of memory, whatever the files tell.
    ensures caused { IfErr result IsCaused }
    ensures begun { result ≡ Err input.Unread → begins (rows_of rows.entry) columns.now ≡ true }
    ensures refused { (r : RefusalOf) → result ≡ Err (input.Refused r) → begins (rows_of rows.entry) columns.now ≡ true → r ≡ refusal.Bytes }
    ensures long { result ≡ Err (input.Refused refusal.Bytes) → IfSome (F.seen files.old).held (HasLongFile (rows_of rows.entry) (F.seen files.new).rest) }
    // What was taken of the file: nothing where none is begun, else all, unless it has too many bytes.
    ensures unbegun { begins (rows_of rows.entry) columns.now ≡ false →
        ((F.seen files.new).rest ≡ (F.seen files.old).rest) × ((F.seen files.new).faults ≡ (F.seen files.old).faults) × ((F.seen files.new).broken ≡ (F.seen files.old).broken) }
    ensures ended { OnOk result (IsAtEnd (F.seen files.old).rest → IsAtEnd (F.seen files.new).rest) }
    ensures whole { (r : RefusalOf) → result ≡ Err (input.Refused r) → r ≢ refusal.Bytes → (F.seen files.new).rest ≡ (F.seen files.old).rest }
    // What stays.
    ensures stayed { result ≢ Err input.Unread → (F.seen files.new).faults ≡ (F.seen files.old).faults }
    ensures held { (F.seen files.new).held ≡ (F.seen files.old).held }
    ensures later { (F.seen files.old).faults ≤ (F.seen files.new).faults }
    ensures broken_later { (F.seen files.old).broken ≤ (F.seen files.new).broken }
{
    match rows {
        RowsWord::File(name) => {
            if columns.len() == 0 {
                return Err(NoInput::Refused(Refusal::Rows(RowFault::Form)));
            }
            match read_file(alloc, files, name, MOST_ROWS_BYTES) {
                Ok(text) => Ok(RowsSource::File(text)),
                Err(why) => Err(why),
            }
        }
        RowsWord::Cycles(number) => Ok(RowsSource::Cycles(number)),
    }
}

/// The name by which lines tell ROWS.
pub fn rows_name<'a>(rows: RowsWord<'a>) -> &'a [u8]
    ensures { result.now ≡ rows_name_of (rows_of rows.entry) }
{
    match rows {
        RowsWord::File(name) => name.bytes(),
        RowsWord::Cycles(_) => b"--cycles",
    }
}
