//! The lines of a run behind its header.

ghost use Rattle.std.specs.Prelude.{◌≡◌, ◌<◌, ◌≤◌, ◌+◌, ◌^◌, List, ℕ, Some, drop, length, IfOk};
ghost use Rattle.csv.specs.Records.{fields_of};
ghost use Rattle.vcp_base.specs.Limits.{most_cycles, most_names};
ghost use Rattle.pictures.specs.WavesAnswers.{Answers};
ghost use Rattle.pictures.specs.RunOf.{line_of, row_line, last_line, last_of, told_from};
ghost use Rattle.pictures.specs.Told.{Tells, IfRow, HasWidth};

use crate::waves::ending::{Ending, mark_of};
use crate::waves::fault::RunTextFault;
use crate::waves::row_table::RowTable;
use crate::waves::values::values;
use csv::ByteRecord;
use input_rows::{Records, field};
use itoa::Buffer;
use std::alloc::Global;
use vcp_base::{MOST_CYCLES, Memory, Row, Text};

// A line behind the header.
#[derive(Drop)]
pub(crate) enum Line {
    // The values of a cycle.
    Row(Row),
    // The last line.
    Last(Ending),
}

// The row of a cycle. The record begins with the cycle's number.
fn row_line_of(
    alloc: Global,
    cells: &ByteRecord,
    width: u32,
    cycle: u32,
) -> Result<Line, RunTextFault>
    requires cells { 0 < length (fields_of cells.now) }
    requires names { width ≤ most_names }
    requires cycle { cycle ≤ most_cycles }
    ensures line { Answers (row_line width cycle (drop 1 (fields_of cells.now))) result }
    ensures width { IfOk result (λ line. IfRow line (λ row. length row ≡ width)) }
    ensures cycle { IfOk result (λ line. cycle < most_cycles) }
{
    if cycle >= MOST_CYCLES {
        return Err(RunTextFault::Cycles);
    }
    if cells.len() != width as usize + 1 {
        return Err(RunTextFault::Width { record: cycle + 2 });
    }
    match values(alloc, cycle + 2, cells) {
        Ok(row) => Ok(Line::Row(row)),
        Err(fault) => Err(fault),
    }
}

// The last line, which is one cell.
fn last_line_of(
    alloc: Global,
    text: &[u8],
    cells: usize,
    cycle: u32,
) -> Result<Ending, RunTextFault>
    requires cycle { cycle ≤ most_cycles }
    ensures { (more : List (List ℕ)) → cells ≡ length more + 1 → Answers (last_line cycle text.now more) result }
{
    if cells == 1 {
        if let Some(mark) = mark_of(cycle, text) {
            return match Text::copy_of(alloc, text) {
                Ok(text) => Ok(Ending { mark, text }),
                Err(Memory) => Err(RunTextFault::Memory),
            };
        }
    }
    Err(RunTextFault::Line { record: cycle + 2 })
}

// The line that stands where the row of a cycle may stand.
fn read_line(
    alloc: Global,
    cells: &ByteRecord,
    width: u32,
    cycle: u32,
) -> Result<Line, RunTextFault>
    requires names { width ≤ most_names }
    requires cycle { cycle ≤ most_cycles }
    ensures line { Answers (line_of width cycle (fields_of cells.now)) result }
    ensures width { IfOk result (λ line. IfRow line (λ row. (length row ≡ width) × (cycle < most_cycles))) }
{
    if cells.len() == 0 {
        return Err(RunTextFault::Line { record: cycle + 2 });
    }
    let first = field(cells, 0);
    if first == Buffer::new().format(cycle).as_bytes() {
        row_line_of(alloc, cells, width, cycle)
    } else {
        match last_line_of(alloc, first, cells.len(), cycle) {
            Ok(ending) => Ok(Line::Last(ending)),
            Err(fault) => Err(fault),
        }
    }
}

// The last line, where nothing stands behind it.
fn last(
    records: &mut Records<'_>,
    cells: &mut ByteRecord,
    number: u32,
    ending: Ending,
) -> Result<Ending, RunTextFault>
    requires { number < 2 ^ 31 }
    ensures { (left : List (List (List ℕ))) → records.old.left ≡ Some left → Answers (last_of number ending left) result }
{
    match records.next(cells) {
        Ok(true) => Err(RunTextFault::Rest { record: number + 1 }),
        Ok(false) => Ok(ending),
        Err(Memory) => Err(RunTextFault::Memory),
    }
}

/// The rows and the last line that records tell, under a header of so many names.
pub(crate) fn read_lines(
    alloc: Global,
    records: &mut Records<'_>,
    cells: &mut ByteRecord,
    width: u32,
) -> Result<(RowTable, Ending), RunTextFault>
    requires names { width ≤ most_names }
    ensures told { (left : List (List (List ℕ))) → records.old.left ≡ Some left → Tells (told_from width 0 left) result }
    ensures width { IfOk result (λ told. HasWidth width told.0) }
    ensures few { IfOk result (λ told. length told.0 ≤ most_cycles) }
{
    let mut rows = RowTable::new(alloc);
    let mut cycle = 0u32;
    'lines: while records.next(cells)? {
        match read_line(alloc, cells, width, cycle) {
            Ok(Line::Row(row)) => match rows.push(row) {
                Ok(()) => cycle += 1,
                Err(Memory) => return Err(RunTextFault::Memory),
            },
            Ok(Line::Last(ending)) => {
                return match last(records, cells, cycle + 2, ending) {
                    Ok(ending) => Ok((rows, ending)),
                    Err(fault) => Err(fault),
                };
            }
            Err(fault) => return Err(fault),
        }
    }
    Err(RunTextFault::End)
}
