//! What is done with the outputs of a released cycle.

ghost use Rattle.std.specs.Prelude.{ℕ, ℤ, List, [], ◌∷◌, ◌++◌, OnOk};
ghost use Rattle.vcp_outside.specs.Written.{WritesTo};

use vcp_base::Row;
use vcp_outside::{Failed, Sink};

/// What is done with the outputs of each released cycle of a run: a line is written, or a sum is kept.
pub trait ReleasedRows {
    /// What is written for the outputs of a cycle.
    ghost text: { ℕ → List ℤ → List ℕ };

    /// What is kept after these rows of outputs.
    ghost Keeps: { Self → List (List ℤ) → Type 0 };

    /// Takes the outputs of a cycle, which is counted from 0. After `Failed` a part of its text is written.
    /// That comes only where the sink's count rose. What is kept of released rows is what they say, in order.
    fn take<O: Sink>(&mut self, out: &mut O, cycle: u32, outputs: &Row) -> Result<(), Failed>
        ensures writes { WritesTo (O.seen out.old) (O.seen out.new) (text cycle outputs.now) result }
        ensures keeps { (rows : List (List ℤ)) → Keeps self.old rows → OnOk result (Keeps self.new (rows ++ outputs.now ∷ [])) };
}
