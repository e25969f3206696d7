//! All rows of a source, one by one.

ghost use Rattle.std.specs.Prelude.{◌≡◌, ◌≢◌, [], ◌∷◌, length, true, false, None, Some, IfOk, IfErr, OnErr};
ghost use Rattle.input_rows.specs.Sources.{rows_left};

use crate::fault::RowFault;
use crate::twice::Twice;
use vcp_base::Row;

/// What is left of the rows of a file or of a number of cycles.
#[derive(Drop)]
pub(crate) enum Source<'a> {
    /// So many rows of no values.
    Cycles(u32),
    /// The records of a file.
    File(Twice<'a>),
}

impl<'a> Source<'a> {
    /// How many values a row has.
    pub fn width(&self) -> u32
        ensures { result ≡ length (rows_left self.now).types }
    {
        match self {
            Source::Cycles(_) => 0,
            Source::File(table) => table.width(),
        }
    }

    /// Sets `out` to the next row, and answers whether there was one. What a call gives after the end
    /// or a refusal isn't known.
    pub fn next(&mut self, out: &mut Row) -> Result<bool, RowFault>
        requires { length out.old ≡ length (rows_left self.old).types }
        ensures row { IfOk result (λ found. found ≡ true → rows_left self.old ≡ record (rows_left self.new) { rows = out.new ∷ (rows_left self.new).rows }) }
        ensures end { IfOk result (λ found. found ≡ false → ((rows_left self.old).rows ≡ []) × ((rows_left self.old).refusal ≡ None)) }
        ensures stays { IfOk result (λ found. found ≡ false → out.new ≡ out.old) }
        ensures refusal { IfErr result (λ f. f ≢ RowFault.Memory → ((rows_left self.old).rows ≡ []) × ((rows_left self.old).refusal ≡ Some f)) }
        ensures types { (rows_left self.new).types ≡ (rows_left self.old).types }
        ensures fresh { (rows_left self.new).ended ≡ false }
        ensures out { OnErr result (out.new ≡ out.old) }
        ensures width { length out.new ≡ length out.old }
    {
        match self {
            Source::Cycles(0) => Ok(false),
            Source::Cycles(left) => {
                *left -= 1;
                Ok(true)
            }
            Source::File(table) => table.next(out),
        }
    }
}
