//! A run as it was printed.

ghost use Rattle.std.specs.Prelude.{◌≡◌, ◌≢◌, ◌<◌, ◌≤◌, ℕ, List, length, slice_get, Ok, Err, Some, IfOk, IfErr};
ghost use Rattle.vcp_base.specs.Limits.{most_cycles, most_names};
ghost use Rattle.pictures.specs.WavesAnswers.{Answers};
ghost use Rattle.pictures.specs.WavesDrawn.{value_at};
ghost use Rattle.pictures.specs.RunOf.{run_of, run_of_records};

use crate::waves::ending::Ending;
use crate::waves::fault::RunTextFault;
use crate::waves::header::names;
use crate::waves::lines::read_lines;
use crate::waves::row_table::RowTable;
use csv::ByteRecord;
use input_rows::Records;
use std::alloc::Global;
use std::marker::Model;
use vcp_base::{Memory, Text, Words};

/// A run: the names of its outputs, at most 1,024; the values of each cycle, at most 1,000,000, in the
/// order of the names; and how it ended.
pub struct Run {
    names: Words,
    rows: RowTable,
    ending: Ending,
}

impl Model for Run {
    ghost use Rattle.std.specs.Prelude.{◌≡◌, ◌≤◌, length};
    ghost use Rattle.vcp_base.specs.Limits.{most_cycles, most_names};
    ghost use Rattle.pictures.specs.RunOf.{Recorded};
    ghost use Rattle.pictures.specs.Told.{HasWidth};

    ghost Value = { Recorded };

    ghost view = { λ r. record { names = r.names; rows = r.rows; ending = r.ending } };

    ghost invariant = { λ r. (length r.names ≤ most_names) × (length r.rows ≤ most_cycles) × HasWidth (length r.names) r.rows };
}

impl Drop for Run {
    fn drop(self) {
        let Run {
            names: _,
            rows: _,
            ending: _,
        } = self;
    }
}

/// The run that records tell, each of which is read into `cells`.
fn read_records(
    alloc: Global,
    records: &mut Records<'_>,
    cells: &mut ByteRecord,
) -> Result<Run, RunTextFault>
    ensures { (left : List (List (List ℕ))) → records.old.left ≡ Some left → Answers (run_of_records left) result }
{
    match records.next(cells) {
        Ok(true) => {}
        Ok(false) => return Err(RunTextFault::Header),
        Err(Memory) => return Err(RunTextFault::Memory),
    }
    let names = match names(alloc, cells) {
        Ok(names) => names,
        Err(fault) => return Err(fault),
    };
    match read_lines(alloc, records, cells, names.len() as u32) {
        Ok((rows, ending)) => Ok(Run {
            names,
            rows,
            ending,
        }),
        Err(fault) => Err(fault),
    }
}

/// The run that a text tells. `Memory` where there is no room for it: a value takes 8 bytes, and a row
/// some 40 more.
///
/// Records are those that `csv` gives; the first is `cycle` and at most 1,024 names, record n + 2 begins with
/// the number of cycle n and has a value of 64 bits, as it is printed, for each name, and behind the rows
/// is one last line, ended by LF. Each other text has its fault, and nothing but want of memory comes
/// besides.
pub fn read_run(alloc: Global, text: &[u8]) -> Result<Run, RunTextFault>
    ensures run { IfOk result (λ run. run_of text.now ≡ Ok run) }
    ensures fault { IfErr result (λ f. f ≢ RunTextFault.Memory → run_of text.now ≡ Err f) }
{
    let mut records = Records::new(alloc, text);
    let mut cells = ByteRecord::new(alloc);
    match read_records(alloc, &mut records, &mut cells) {
        Ok(run) => {
            if !text.is_empty() && text[text.len() - 1] == b'\n' {
                Ok(run)
            } else {
                Err(RunTextFault::Cut)
            }
        }
        Err(fault) => Err(fault),
    }
}

impl Run {
    /// How many columns there are.
    pub fn columns(&self) -> u32
        ensures count { result ≡ length self.now.names }
        ensures few { result ≤ most_names }
    {
        self.names.len() as u32
    }

    /// How many cycles there are.
    pub fn cycles(&self) -> u32
        ensures count { result ≡ length self.now.rows }
        ensures few { result ≤ most_cycles }
    {
        self.rows.len() as u32
    }

    /// The name of a column, counted from 0.
    pub fn name(&self, column: u32) -> &Text
        requires { column < length self.now.names }
        ensures { slice_get self.now.names column ≡ Some result.now }
    {
        self.names.at(column as usize)
    }

    /// The value in a column in a cycle, both counted from 0.
    pub fn value(&self, column: u32, cycle: u32) -> i64
        requires column { column < length self.now.names }
        requires cycle { cycle < length self.now.rows }
        ensures { result ≡ value_at self.now column cycle }
    {
        self.rows.at(cycle as usize).at(column as usize)
    }

    /// How it ended.
    pub fn ending(&self) -> &Ending
        ensures { result.now ≡ self.now.ending }
    {
        &self.ending
    }
}
