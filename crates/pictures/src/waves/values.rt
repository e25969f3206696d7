//! The values in the cells of a row.

ghost use Rattle.std.specs.Prelude.{◌≡◌, ◌<◌, ◌^◌, ◌+◌, drop, length, IfOk};
ghost use Rattle.csv.specs.Records.{fields_of};
ghost use Rattle.pictures.specs.WavesAnswers.{Answers};
ghost use Rattle.pictures.specs.RunOf.{row_of_values};
ghost use Rattle.pictures.specs.Values.{printed_value as printed_value_of, values_of};

use crate::waves::fault::RunTextFault;
use csv::ByteRecord;
use input_rows::field;
use itoa::Buffer;
use std::alloc::Global;
use vcp_base::{Row, Ty, number_in};

// The value that prints as this cell.
fn printed_value(cell: &[u8]) -> Option<i64>
    ensures { result ≡ printed_value_of cell.now }
{
    let Some(value) = number_in(Ty::Lint, cell) else {
        return None;
    };
    if cell == Buffer::new().format(value).as_bytes() {
        Some(value)
    } else {
        None
    }
}

/// The values of a record's cells behind the first, or a refusal of the first cell that is none.
pub(crate) fn values(alloc: Global, number: u32, cells: &ByteRecord) -> Result<Row, RunTextFault>
    requires some { 0 < length (fields_of cells.now) }
    requires few { length (fields_of cells.now) < 2 ^ 32 }
    ensures row { Answers (row_of_values number (values_of 2 (drop 1 (fields_of cells.now)))) result }
    ensures many { IfOk result (λ row. length row + 1 ≡ length (fields_of cells.now)) }
{
    let mut row = Row::new(alloc);
    'cells: for j in 1..cells.len() {
        match printed_value(field(cells, j)) {
            Some(value) => row.push(value)?,
            None => {
                return Err(RunTextFault::Cell {
                    record: number,
                    column: j as u32 + 1,
                });
            }
        }
    }
    Ok(row)
}
