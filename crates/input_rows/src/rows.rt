//! Rows, one by one.

ghost use Rattle.std.specs.Prelude.{◌≡◌, ◌≢◌, ◌<◌, ◌≤◌, ◌^◌, [], ◌∷◌, length, All, true, false, None, Some, Ok, Err, IfOk, IfErr, IfSome, IfNone, OnErr};
ghost use Rattle.vcp_base.specs.Limits.{most_cycles};
ghost use Rattle.vcp_base.specs.Types.{AreIn};
ghost use Rattle.input_rows.specs.RowsOf.{IsOfRecord, rows_of, rows_of_cycles, through as through_of, types_of, ended_with, end_answer};

use crate::all_rows::Source;
use crate::fault::RowFault;
use crate::row_reader::RowReader;
use crate::twice::Twice;
use crate::wanted::Wanted;
use std::alloc::Global;
use std::marker::Model;
use vcp_base::{Columns, Row};

/// The rows that are left, from the front, and the refusal behind them, if there is one. Contracts
/// see also the types of a row's values, in the order of the columns, and whether the end or the
/// refusal was given.
pub struct Rows<'a> {
    source: Source<'a>,
    wanted: Wanted,
}

impl<'a> Model for Rows<'a> {
    ghost use Rattle.std.specs.Prelude.{◌≡◌, false};
    ghost use Rattle.input_rows.specs.RowsOf.{RowsLeft};
    ghost use Rattle.input_rows.specs.Sources.{rows_left};
    ghost use Rattle.input_rows.specs.WantedRows.{wanted_rows};

    ghost Value = { RowsLeft };

    ghost view = { λ r. wanted_rows r.wanted (rows_left r.source) };

    ghost invariant = { λ r. (rows_left r.source).ended ≡ false };
}

// Written out, so that the parts of both readers are given up here alone, and not wherever rows go out of scope.
impl Drop for Rows<'_> {
    fn drop(self) {
        let Rows {
            source: _,
            wanted: _,
        } = self;
    }
}

impl<'a> Rows<'a> {
    /// The rows of a file's bytes, for these columns: a header, and then a record for each cycle.
    ///
    /// `Form` where there are no columns, and then `Header` where the first record isn't there or isn't each
    /// column's name once and nothing else. `Memory` where there is no room. There are no more columns than a
    /// `u32` counts. Each row has a value of each column's type, and there are at most 1,000,000.
    pub fn new(alloc: Global, bytes: &'a [u8], columns: &'a Columns) -> Result<Rows<'a>, RowFault>
        requires { length columns.now < 2 ^ 32 }
        ensures rows { IfOk result (λ left. rows_of bytes.now columns.now ≡ Ok left) }
        ensures refusal { IfErr result (λ f. f ≢ RowFault.Memory → rows_of bytes.now columns.now ≡ Err f) }
        ensures types { IfOk result (λ left. left.types ≡ types_of columns.now) }
        ensures typed { IfOk result (λ left. All (AreIn left.types) left.rows) }
        ensures few { IfOk result (λ left. length left.rows ≤ most_cycles) }
        ensures behind { IfOk result (λ left. IfSome left.refusal IsOfRecord) }
        ensures fresh { IfOk result (λ left. left.ended ≡ false) }
    {
        if columns.len() == 0 {
            return Err(RowFault::Form);
        }
        match Twice::new(alloc, bytes, columns) {
            Ok(table) => Ok(Rows {
                source: Source::File(table),
                wanted: Wanted::All,
            }),
            Err(why) => Err(why),
        }
    }

    /// So many rows of no values, at most 1,000,000. `Form` where there are columns. It takes no
    /// memory.
    pub fn cycles(number: u32, columns: &'a Columns) -> Result<Rows<'a>, RowFault>
        requires { number ≤ most_cycles }
        ensures rows { result ≡ rows_of_cycles number columns.now }
        ensures types { IfOk result (λ left. left.types ≡ types_of columns.now) }
        ensures typed { IfOk result (λ left. All (AreIn left.types) left.rows) }
        ensures few { IfOk result (λ left. length left.rows ≤ most_cycles) }
        ensures behind { IfOk result (λ left. left.refusal ≡ None) }
        ensures fresh { IfOk result (λ left. left.ended ≡ false) }
    {
        if columns.len() != 0 {
            return Err(RowFault::Form);
        }
        Ok(Rows {
            source: Source::Cycles(number),
            wanted: Wanted::All,
        })
    }

    /// The rows through a cycle and no further, where cycles count from 0. Those behind it are not read.
    /// Where the rows end before it, `Cycle` is the refusal behind them. No later record is refused then.
    pub fn through(self, cycle: u32) -> Rows<'a>
        ensures rows { result ≡ through_of cycle self.entry }
        ensures types { result.types ≡ self.entry.types }
        ensures typed { All (AreIn self.entry.types) self.entry.rows → All (AreIn result.types) result.rows }
        ensures few { length result.rows ≤ length self.entry.rows }
        ensures behind { IfSome self.entry.refusal IsOfRecord → IfSome result.refusal IsOfRecord }
        ensures fresh { result.ended ≡ self.entry.ended }
    {
        let Rows { source, wanted } = self;
        Rows {
            source,
            wanted: wanted.through(cycle),
        }
    }

    // Keeps that the end was given, with this behind the rows, and gives it.
    fn end(&mut self, behind: Option<RowFault>) -> Result<bool, RowFault>
        ensures answer { result ≡ end_answer behind }
        ensures ended { self.new ≡ ended_with self.old.types behind }
    {
        self.wanted = Wanted::Ended(behind);
        answer(behind)
    }
}

impl RowReader for Rows<'_> {
    ghost left = { λ r. r };

    fn width(&self) -> u32 {
        self.source.width()
    }

    /// At a record that is refused: `Cycles` at the record of cycle 1,000,000, then `Width` where it
    /// has another number of fields than there are columns, then `Cell` at its first cell that spells
    /// no value. `Cycle` where a row is wanted and there is none.
    fn next(&mut self, _alloc: Global, out: &mut Row) -> Result<bool, RowFault> {
        match self.wanted {
            Wanted::All => match self.source.next(out) {
                Ok(true) => Ok(true),
                Ok(false) => self.end(None),
                Err(why) => self.end(Some(why)),
            },
            Wanted::First { rows: 0, behind } => self.end(behind),
            Wanted::First { rows, behind } => match self.source.next(out) {
                Ok(true) => {
                    self.wanted = Wanted::First {
                        rows: rows - 1,
                        behind,
                    };
                    Ok(true)
                }
                Ok(false) => self.end(Some(RowFault::Cycle)),
                Err(why) => self.end(Some(why)),
            },
            Wanted::Ended(behind) => answer(behind),
        }
    }
}

// What is answered at the end, with this behind the rows.
fn answer(behind: Option<RowFault>) -> Result<bool, RowFault>
    ensures { result ≡ end_answer behind }
{
    match behind {
        None => Ok(false),
        Some(why) => Err(why),
    }
}
