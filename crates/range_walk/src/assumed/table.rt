//! The ranges that a table tells.

ghost use Rattle.std.specs.Prelude.{◌≡◌, ◌≢◌, ◌≤◌, Ok, Err, length, IfOk, IfErr, IfSome};
ghost use Rattle.vcp_base.specs.Limits.{most_names};
ghost use Rattle.range_walk.specs.RangeTable.{at_first, ranges_from, ranges_of_records, ranges_of_table as ranges_of};

use crate::Range;
use crate::assumed::cells::is_head;
use crate::assumed::so_far::SoFar;
use csv::ByteRecord;
use input_rows::{Records, RowFault};
use std::alloc::Global;
use vcp_base::{Columns, Memory};

/// Takes the records behind the head.
fn take_ranges(
    columns: &Columns,
    records: &mut Records<'_>,
    cells: &mut ByteRecord,
    told: &mut SoFar,
) -> Result<(), RowFault>
    requires few { length columns.now ≤ most_names }
    requires first { told.old ≡ at_first columns.now }
    ensures ranges { IfOk result (λ _. IfSome records.old.left (λ left.
        ranges_from columns.now (at_first columns.now) (length columns.now) 2 left ≡ Ok told.new.ranges)) }
    ensures refusal { IfErr result (λ f. f ≢ RowFault.Memory → IfSome records.old.left (λ left.
        ranges_from columns.now (at_first columns.now) (length columns.now) 2 left ≡ Err f)) }
{
    let count = columns.len() as u32;
    let mut k = 0;
    'records: while records.next(cells)? {
        if k == count {
            return Err(RowFault::Cell {
                row: k + 2,
                column: 1,
            });
        }
        match told.take_record(columns, k + 2, cells) {
            Ok(()) => k += 1,
            Err(why) => return Err(why),
        }
    }
    Ok(())
}

/// Takes the records of a table.
fn take_records(
    columns: &Columns,
    records: &mut Records<'_>,
    cells: &mut ByteRecord,
    told: &mut SoFar,
) -> Result<(), RowFault>
    requires few { length columns.now ≤ most_names }
    requires first { told.old ≡ at_first columns.now }
    ensures ranges { IfOk result (λ _. IfSome records.old.left (λ left. ranges_of_records columns.now left ≡ Ok told.new.ranges)) }
    ensures refusal { IfErr result (λ f. f ≢ RowFault.Memory → IfSome records.old.left (λ left. ranges_of_records columns.now left ≡ Err f)) }
{
    match records.next(cells) {
        Ok(found) => {
            if found && is_head(cells) {
                take_ranges(columns, records, cells, told)
            } else {
                Err(RowFault::Header)
            }
        }
        Err(Memory) => Err(RowFault::Memory),
    }
}

/// Takes a table.
fn take_table(
    alloc: Global,
    text: &[u8],
    columns: &Columns,
    told: &mut SoFar,
) -> Result<(), RowFault>
    requires few { length columns.now ≤ most_names }
    requires first { told.old ≡ at_first columns.now }
    ensures ranges { IfOk result (λ _. ranges_of columns.now text.now ≡ Ok told.new.ranges) }
    ensures refusal { IfErr result (λ f. f ≢ RowFault.Memory → ranges_of columns.now text.now ≡ Err f) }
{
    let mut records = Records::new(alloc, text);
    let mut cells = ByteRecord::new(alloc);
    take_records(columns, &mut records, &mut cells, told)
}

/// The ranges of inputs that a table's bytes tell, one for each column, in their order: a column that no record names has all values of its
/// type. Each record has the name of a column, and the least and the greatest of its values.
///
/// `Header` where the first record isn't `input,least,greatest`. Then, at the first record that is refused: `Width` where it hasn't three
/// fields; `Cell` in column 1 where it names no column, or one that is named before; `Cell` in column 2 or 3 where that is no value of the
/// column's type, and in column 3 also where it is less than the one before it. `Memory` where there is no room.
pub fn ranges_of_table(
    alloc: Global,
    text: &[u8],
    columns: &Columns,
) -> Result<Vec<Range>, RowFault>
    requires few { length columns.now ≤ most_names }
    ensures ranges { IfOk result (λ made. ranges_of columns.now text.now ≡ Ok made.items) }
    ensures refusal { IfErr result (λ f. f ≢ RowFault.Memory → ranges_of columns.now text.now ≡ Err f) }
{
    let mut told = SoFar::new(alloc, columns)?;
    take_table(alloc, text, columns, &mut told)?;
    Ok(told.into_ranges())
}
