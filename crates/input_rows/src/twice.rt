//! The rows of a file's records, read twice.

ghost use Rattle.std.specs.Prelude.{◌≡◌, ◌≢◌, ◌<◌, ◌^◌, [], ◌∷◌, length, true, false, None, IfOk, IfErr, OnErr};
ghost use Rattle.csv.specs.Reading.{records as records_of, default_config, strip_bom};
ghost use Rattle.input_rows.specs.RowsOf.{rows_of_records};

use crate::fault::RowFault;
use crate::table::Table;
use std::alloc::Global;
use std::marker::Model;
use vcp_base::{Columns, Row};

/// The rows that are left of a file, which two readers read, each from the bytes. Their answers and rows are the same, says the
/// proof; where the processor erred in one of them, they may not be, and then no row is given.
#[derive(Drop)]
pub(crate) struct Twice<'a> {
    first: Table<'a>,
    second: Table<'a>,
    // The row that the first reader gave.
    row: Row,
    // Whether neither the end nor a refusal was given.
    going: bool,
}

impl<'a> Model for Twice<'a> {
    ghost use Rattle.input_rows.specs.RowsOf.{RowsLeft};
    ghost use Rattle.input_rows.specs.TableLeft.{LeftTwice};

    ghost Value = { RowsLeft };

    ghost view = { λ t. t.first };

    ghost invariant = { λ t. LeftTwice t.first t.second t.row t.going };
}

impl<'a> Twice<'a> {
    /// The rows of a file under its header.
    pub fn new(alloc: Global, bytes: &'a [u8], columns: &'a Columns) -> Result<Twice<'a>, RowFault>
        requires { length columns.now < 2 ^ 32 }
        ensures rows { IfOk result (λ t. rows_of_records columns.now (records_of default_config (strip_bom bytes.now)) ≡ Ok t) }
        ensures refusal { IfErr result (λ f. f ≢ RowFault.Memory → rows_of_records columns.now (records_of default_config (strip_bom bytes.now)) ≡ Err f) }
    {
        let row = Row::zeros(alloc, columns.len() as u32)?;
        let first = Table::new(alloc, bytes, columns)?;
        match Table::new(alloc, bytes, columns) {
            Ok(second) => Ok(Twice {
                first,
                second,
                row,
                going: true,
            }),
            Err(why) => Err(why),
        }
    }

    /// How many values a row has.
    pub fn width(&self) -> u32
        ensures { result ≡ length self.now.types }
    {
        self.first.width()
    }

    /// Sets `out` to the next row, and answers whether there was one. What a call gives after the end
    /// or a refusal isn't known.
    pub fn next(&mut self, out: &mut Row) -> Result<bool, RowFault>
        requires { length out.old ≡ length self.old.types }
        ensures row { IfOk result (λ found. found ≡ true → self.old ≡ record self.new { rows = out.new ∷ self.new.rows }) }
        ensures end { IfOk result (λ found. found ≡ false → (self.old.rows ≡ []) × (self.old.refusal ≡ None)) }
        ensures stays { IfOk result (λ found. found ≡ false → out.new ≡ out.old) }
        ensures refusal { IfErr result (λ f. f ≢ RowFault.Memory → (self.old.rows ≡ []) × (self.old.refusal ≡ Some f)) }
        ensures types { self.new.types ≡ self.old.types }
        ensures fresh { self.new.ended ≡ false }
        ensures out { OnErr result (out.new ≡ out.old) }
        ensures width { length out.new ≡ length out.old }
    {
        if !self.going {
            return Err(RowFault::Memory);
        }
        self.going = false;
        let found = match self.first.next(&mut self.row) {
            Ok(found) => found,
            Err(why) => return Err(why),
        };
        let again = match self.second.next(out) {
            Ok(again) => again,
            Err(why) => return Err(why),
        };
        if !are_alike(found, again, &self.row, out) {
            return Err(RowFault::Memory);
        }
        self.going = found;
        Ok(found)
    }
}

// Whether two readers answered the same, and gave the same row where there is one.
#[inline(never)]
fn are_alike(found: bool, again: bool, row: &Row, other: &Row) -> bool
    requires answer { again ≡ found }
    requires row { found ≡ true → other.now ≡ row.now }
    ensures { result ≡ true }
{
    again == found && (!found || are_equal(row, other))
}

// Whether two rows have the same values.
fn are_equal(row: &Row, other: &Row) -> bool
    requires { other.now ≡ row.now }
    ensures { result ≡ true }
{
    if other.len() != row.len() {
        return false;
    }
    'values: for i in 0..row.len() {
        if other.at(i) != row.at(i) {
            return false;
        }
    }
    true
}
