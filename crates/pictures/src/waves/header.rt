//! The header of a run.

ghost use Rattle.std.specs.Prelude.{◌≤◌, length, IfOk};
ghost use Rattle.csv.specs.Records.{fields_of};
ghost use Rattle.vcp_base.specs.Limits.{most_names};
ghost use Rattle.pictures.specs.WavesAnswers.{Answers};
ghost use Rattle.pictures.specs.RunOf.{names_of};

use crate::waves::fault::RunTextFault;
use csv::ByteRecord;
use input_rows::field;
use std::alloc::Global;
use vcp_base::{MOST_NAMES, Words};

/// The names in a header: what is behind `cycle`.
pub(crate) fn names(alloc: Global, cells: &ByteRecord) -> Result<Words, RunTextFault>
    ensures names { Answers (names_of (fields_of cells.now)) result }
    ensures few { IfOk result (λ names. length names ≤ most_names) }
{
    if cells.len() == 0 || field(cells, 0) != b"cycle".as_slice() {
        return Err(RunTextFault::Header);
    }
    if cells.len() > MOST_NAMES as usize + 1 {
        return Err(RunTextFault::Names);
    }
    let mut names = Words::new(alloc);
    'cells: for j in 1..cells.len() {
        names.push(field(cells, j))?;
    }
    Ok(names)
}
