//! Rows that come one by one.

ghost use Rattle.std.specs.Prelude.{◌≡◌, ◌≢◌, [], ◌∷◌, length, true, false, None, Some, IfOk, IfErr, OnErr};
ghost use Rattle.input_rows.specs.RowsOf.{RowsLeft, ended_with, end_answer};

use crate::fault::RowFault;
use std::alloc::Global;
use vcp_base::Row;

/// What gives rows one by one, and behind them the end or a refusal.
pub trait RowReader {
    /// What is left of it.
    ghost left: { Self → RowsLeft };

    /// How many values a row has.
    fn width(&self) -> u32
        ensures { result ≡ length (left self.now).types };

    /// Sets `out` to the next row and answers `true`, or answers `false` at the end. `out` has as many
    /// values as there are columns; it keeps its length, and stays as it is at the end and after a
    /// refusal.
    ///
    /// After the end, and after a refusal, `Memory` included, each later call gives the same again and
    /// changes nothing.
    fn next(&mut self, alloc: Global, out: &mut Row) -> Result<bool, RowFault>
        requires { length out.old ≡ length (left self.old).types }
        ensures row { IfOk result (λ found. found ≡ true → left self.old ≡ record (left self.new) { rows = out.new ∷ (left self.new).rows }) }
        ensures end { IfOk result (λ found. found ≡ false → ((left self.old).rows ≡ []) × ((left self.old).refusal ≡ None)) }
        ensures stays { IfOk result (λ found. found ≡ false → (left self.new ≡ ended_with (left self.old).types None) × (out.new ≡ out.old)) }
        ensures refusal { IfErr result (λ f. f ≢ RowFault.Memory → ((left self.old).rows ≡ []) × ((left self.old).refusal ≡ Some f)) }
        ensures refused { IfErr result (λ f. left self.new ≡ ended_with (left self.old).types (Some f)) }
        ensures again { (left self.old).ended ≡ true
            → (result ≡ end_answer (left self.old).refusal) × (left self.new ≡ left self.old) × (out.new ≡ out.old) }
        ensures out { OnErr result (out.new ≡ out.old) }
        ensures width { length out.new ≡ length out.old };
}
