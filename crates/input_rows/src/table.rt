//! The rows of a file's records.

ghost use Rattle.std.specs.Prelude.{◌≡◌, ◌≢◌, ◌<◌, ◌≤◌, ◌^◌, ◌+◌, ◌⊎◌, [], ◌∷◌, length, true, false, None, Some, IfOk, IfErr, OnErr};
ghost use Rattle.csv.specs.Reading.{records as records_of, default_config, strip_bom};
ghost use Rattle.vcp_base.specs.Limits.{most_cycles};
ghost use Rattle.input_rows.specs.RowsOf.{no_rows, rows_of_records};
ghost use Rattle.input_rows.specs.TableLeft.{left_from};

use crate::fault::RowFault;
use crate::layout::Layout;
use crate::records::Records;
use csv::ByteRecord;
use std::alloc::Global;
use std::marker::Model;
use std::mem;
use vcp_base::{Columns, MOST_CYCLES, Memory, Row};

/// The rows that are left of a file. The record at hand and its row are read into room that is used
/// again.
pub struct Table<'a> {
    layout: Layout<'a>,
    records: Records<'a>,
    cells: ByteRecord,
    cycle: u32,
    row: Row,
}

impl<'a> Model for Table<'a> {
    ghost use Rattle.std.specs.Prelude.{◌≡◌, ◌≤◌, length};
    ghost use Rattle.vcp_base.specs.Limits.{most_cycles};
    ghost use Rattle.input_rows.specs.RowsOf.{RowsLeft};
    ghost use Rattle.input_rows.specs.TableLeft.{left_from};

    ghost Value = { RowsLeft };

    ghost view = { λ t. left_from t.layout t.cycle t.records.left };

    ghost invariant = { λ t. (length t.row ≡ length t.layout.types) × (t.cycle ≤ most_cycles) };
}

// Written out, so that the parts of a table are given up here alone, and not wherever one goes out of scope.
impl Drop for Table<'_> {
    fn drop(self) {
        let Table {
            layout: _,
            records: _,
            cells: _,
            cycle: _,
            row: _,
        } = self;
    }
}

// Reads the row of a cycle, and answers whether there is one. It stands apart, so that the addresses of the caller's row and answer
// are not held in registers while it reads.
#[inline(never)]
fn read_row(
    layout: &Layout<'_>,
    records: &mut Records<'_>,
    cells: &mut ByteRecord,
    cycle: u32,
    row: &mut Row,
) -> Result<bool, RowFault>
    requires width { length row.old ≡ length layout.now.types }
    requires cycle { cycle ≤ most_cycles }
    ensures row { IfOk result (λ found. found ≡ true
        → left_from layout.now cycle records.old.left
        ≡ record (left_from layout.now (cycle + 1) records.new.left) { rows = row.new ∷ (left_from layout.now (cycle + 1) records.new.left).rows }) }
    ensures more { IfOk result (λ found. found ≡ true → cycle < most_cycles) }
    ensures end { IfOk result (λ found. found ≡ false
        → (left_from layout.now cycle records.old.left ≡ no_rows layout.now.types None) × (records.new.left ≡ records.old.left)) }
    ensures refusal { IfErr result (λ f. f ≢ RowFault.Memory → left_from layout.now cycle records.old.left ≡ no_rows layout.now.types (Some f)) }
    ensures width { length row.new ≡ length row.old }
{
    if !records.next(cells)? {
        return Ok(false);
    }
    if cycle >= MOST_CYCLES {
        return Err(RowFault::Cycles);
    }
    layout.read(cycle + 2, cells, row)?;
    Ok(true)
}

impl<'a> Table<'a> {
    /// The rows of a file under its header.
    pub fn new(alloc: Global, bytes: &'a [u8], columns: &'a Columns) -> Result<Table<'a>, RowFault>
        requires { length columns.now < 2 ^ 32 }
        ensures rows { IfOk result (λ t. rows_of_records columns.now (records_of default_config (strip_bom bytes.now)) ≡ Ok t) }
        ensures refusal { IfErr result (λ f. f ≢ RowFault.Memory → rows_of_records columns.now (records_of default_config (strip_bom bytes.now)) ≡ Err f) }
    {
        let mut records = Records::new(alloc, bytes);
        let mut cells = ByteRecord::new(alloc);
        match records.next(&mut cells) {
            Ok(true) => {}
            Ok(false) => return Err(RowFault::Header),
            Err(Memory) => return Err(RowFault::Memory),
        }
        let layout = match Layout::new(alloc, columns, &cells) {
            Ok(layout) => layout,
            Err(why) => return Err(why),
        };
        match Row::zeros(alloc, columns.len() as u32) {
            Ok(row) => Ok(Table {
                layout,
                records,
                cells,
                cycle: 0,
                row,
            }),
            Err(Memory) => Err(RowFault::Memory),
        }
    }

    /// How many values a row has.
    pub fn width(&self) -> u32
        ensures { result ≡ length self.now.types }
    {
        self.layout.width()
    }

    /// Sets `out` to the next row, and answers whether there was one. What a call gives after the end
    /// or a refusal isn't known.
    pub fn next(&mut self, out: &mut Row) -> Result<bool, RowFault>
        requires { length out.old ≡ length self.old.types }
        ensures row { IfOk result (λ found. found ≡ true → self.old ≡ record self.new { rows = out.new ∷ self.new.rows }) }
        ensures end { IfOk result (λ found. found ≡ false → (self.old.rows ≡ []) × (self.old.refusal ≡ None)) }
        ensures stays { IfOk result (λ found. found ≡ false → out.new ≡ out.old) }
        ensures refusal { IfErr result (λ f. f ≢ RowFault.Memory → (self.old.rows ≡ []) × (self.old.refusal ≡ Some f)) }
        ensures types { self.new.types ≡ self.old.types }
        ensures fresh { self.new.ended ≡ false }
        ensures out { OnErr result (out.new ≡ out.old) }
        ensures width { length out.new ≡ length out.old }
    {
        match read_row(
            &self.layout,
            &mut self.records,
            &mut self.cells,
            self.cycle,
            &mut self.row,
        ) {
            Ok(true) => {
                mem::swap(out, &mut self.row);
                self.cycle += 1;
                Ok(true)
            }
            Ok(false) => Ok(false),
            Err(fault) => Err(fault),
        }
    }
}
