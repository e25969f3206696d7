//! Laws of cycles and of runs over rows.

ghost use Rattle.coded_machine.specs.Honest.{HonestCycles, HonestCells};
ghost use Rattle.coded_machine.specs.Laws.{ByHandLaws, RunLaws, HonestLaws};

use coded_unit::{right_answers_keep_the_step_law, words_split_in_one_way};
use op_graph::{
    cells_have_two_parts, entries_keep_their_rules, operands_are_in_their_types, operands_are_there,
};
use signature_table::expected_residues_are_residues;

/// Where all answers to the calls of a cycle are right and the cells hold honest words, the answers
/// represent the graph's cycle on plain integers; and before the first cycle the cells hold honest
/// words. It does nothing: it states a law.
pub fn right_answers_stand_for_values()
    ensures cycle { HonestCycles }
    ensures cells_at_first { HonestCells }
{
    // The laws below that these rest on.
    words_split_in_one_way();
    right_answers_keep_the_step_law();
    expected_residues_are_residues();
    operands_are_in_their_types();
    operands_are_there();
    entries_keep_their_rules();
    cells_have_two_parts();
}

/// A cycle that a caller carries by `next_call`, `put` and `end` of a machine is whole: its calls are
/// those of the cycle with the answers put, its end is the one that is read off these, and the machine
/// is as that end leaves it. Where the calls were carried through a unit, it is such a cycle as
/// `Machine::cycle` promises. It does nothing: it states a law.
pub fn cycles_by_hand_are_whole()
    ensures { ByHandLaws }
{}

/// A run over rows, one cycle of a machine after another, for every unit: its log is the calls of its
/// cycles, and its rows and its end are those that are read off their answers. It does nothing: it
/// states a law.
pub fn runs_follow_their_answers()
    ensures { RunLaws }
{}

/// A run over rows in which all answers are right has the rows and the end of the graph's run on
/// plain integers; and between two cycles it has its rows so far, and goes on as that run does. It
/// does nothing: it states a law.
pub fn honest_runs_follow_the_graph()
    ensures { HonestLaws }
{
    right_answers_stand_for_values();
}
