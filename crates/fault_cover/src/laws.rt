//! Laws of what is reported of faults. Each function does nothing: it states laws.

ghost use Rattle.std.specs.Prelude.{◌≡◌, ℕ};
ghost use Rattle.fault_cover.specs.declared.disturbance.Disturbance.{Disturbance as DisturbanceValue};
ghost use Rattle.fault_cover.specs.declared.effect.Effect.{Effect as EffectValue};
ghost use Rattle.fault_cover.specs.Certain.{AdditionsAreActs, CertainAtOperation, CertainAtRest, CertainOfSameKind};
ghost use Rattle.fault_cover.specs.Telling.{Subject as SubjectOf, Tells};
ghost use Rattle.fault_cover.specs.Touched.{FirstComesAlone, UntouchedAreSame, UntouchedDifferByNothing};

use coded_unit::words_split_in_one_way;
use op_graph::{
    cells_have_two_parts, entries_keep_their_rules, operands_are_in_their_types, operands_are_there,
};
use weight_audit::differences_are_superposed;

/// One thing is reported of what is amiss at an operation: two answers exclude each other.
pub fn one_thing_is_told()
    ensures { (s : SubjectOf) (k : ℕ) (d : DisturbanceValue) (x y : EffectValue) → Tells s k d x → Tells s k d y → x ≡ y }
{}

/// An operation that no act reaches, along data paths from the operations at which acts are, has the same value in both runs, with the acts and
/// without them, as far as both reach it; and it stops in one exactly where it does in the other.
pub fn untouched_operations_are_the_same()
    ensures values { UntouchedAreSame }
    ensures differences { UntouchedDifferByNothing }
{
    // What an operation reads is an earlier one, and a LOAD reads its cell.
    operands_are_there();
    entries_keep_their_rules();
    cells_have_two_parts();
    differences_are_superposed();
}

/// Where acts are at one operation alone, what the first of them makes arrives at what is reached first from there, times the sum over the data
/// paths, and nothing else comes in that cycle, whatever acts come later.
pub fn the_first_act_comes_alone()
    ensures { FirstComesAlone }
{
    // What an operation reads is an earlier one.
    operands_are_there();
    differences_are_superposed();
}

/// A run in which numbers are added to words that operations read, to one operand an operation and cycle, is the run under the acts that add them.
pub fn additions_are_acts()
    ensures { AdditionsAreActs }
{
    words_split_in_one_way();
}

/// What it says of every run that a fault at one operation is reported as refused: no wrong output is ever released, and no stop of the run without faults
/// is passed; where the run is refused, it is so in that cycle, at the first output at which something arrives, and it is unless it ends before. Reported as
/// `nothing`, no output ever differs. It holds for all rows whose values are in the types of their inputs, all cycles, all numbers that
/// are added, and whatever acts come later at the operation.
///
/// The same holds of a number that is added to the later readings of a word, and to nothing else.
///
/// And an operation that is done once as one of another kind that does the same changes nothing.
pub fn what_is_told_is_certain()
    ensures at_operation { CertainAtOperation }
    ensures at_rest { CertainAtRest }
    ensures same_kind { CertainOfSameKind }
{
    operands_are_in_their_types();
    operands_are_there();
    entries_keep_their_rules();
    cells_have_two_parts();
    words_split_in_one_way();
    untouched_operations_are_the_same();
    the_first_act_comes_alone();
}
