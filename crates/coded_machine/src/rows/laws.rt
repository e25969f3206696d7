//! A law of runs over rows.

ghost use Rattle.coded_machine.specs.FirstRows.{FirstRowsLaw};

use crate::right_answers_stand_for_values;

/// The rows that a run released before the first wrong answer are the first of the graph's run on plain integers: where all answers in the
/// first cycles are right, so are the rows that these released, whatever was answered later. It does nothing: it states a law.
pub fn rows_before_a_wrong_answer_follow_the_graph()
    ensures { FirstRowsLaw }
{
    right_answers_stand_for_values();
}
