//! Laws of reruns.

ghost use Rattle.fault_injector.specs.Laws.{TouchedLaws, ReferencesStand, PassedOverLaws, OutputLaws, RerunsAreRight, VerdictsAreRead, AsksAtTouched};
ghost use Rattle.fault_injector.specs.Laws.{GroupLaws};

use crate::{ends_under_acts_are_read_off_the_answers, runs_under_acts_keep_the_run_law};
use coded_machine::right_answers_stand_for_values;
use op_graph::operands_are_there;

/// An operation is touched exactly where it has a fault, where it reads an operation that is touched in
/// its cycle or is the LOAD of a cell whose STORE is touched in the cycle before, or where it comes after a
/// touched operation at which the run without the group stopped. It does nothing: it states a law. But for
/// where that run stopped, it has no value and no word.
pub fn touched_operations_are_told_by_what_they_read()
    ensures { TouchedLaws }
{
    operands_are_there();
}

/// A rerun asks the unit at the touched operations that it reaches, in order of cycle and operation, at no skip
/// and nowhere else, and every operation that isn't touched has the answer of the run without the group,
/// whatever the unit answers. It does nothing: it states a law.
pub fn reruns_ask_at_touched_operations()
    ensures { AsksAtTouched }
{}

/// Where the answers of the run without faults are right, they are the words of the values of the graph's
/// run on plain integers, with the expected residues, and its stop; and no cycle of it is refused. It does
/// nothing: it states a law.
pub fn right_references_stand_for_the_graphs_run()
    ensures { ReferencesStand }
{
    right_answers_stand_for_values();
}

/// In a cycle without a fault that begins with no cell touched, no call is made again, its
/// answers are those of the run without the group, and no cell is touched after it; so from such a cycle on
/// behind which no fault comes nothing differs. It does nothing: it states a law. There the verdict is
/// `same`, where the run without the group isn't refused from there on, as where its answers are right.
pub fn nothing_differs_where_nothing_is_touched()
    ensures { PassedOverLaws }
{}

/// Whatever a unit answers, an operation that isn't touched has one word in both runs of a cycle in which
/// neither stops; so an output whose OUT isn't touched has a value of its type, the expected residue and the
/// value of the run without the group, where that run released the cycle. It does nothing: it states a law.
pub fn untouched_outputs_differ_in_nothing()
    ensures { OutputLaws }
{}

/// Where the answers of the run without the group are right and those to a rerun's calls too, the answers
/// that the rerun has, cycle by cycle, are those of a whole run with the group: an operation that isn't
/// touched has there the answer of the run without. It does nothing: it states a law.
pub fn reruns_of_right_answers_are_right_runs()
    ensures { RerunsAreRight }
{
    operands_are_there();
}

/// And the verdict that is read off them is the group's. It does nothing: it states a law.
pub fn verdicts_read_off_right_answers_are_defined()
    ensures { VerdictsAreRead }
{
    operands_are_there();
    right_answers_stand_for_values();
    runs_under_acts_keep_the_run_law();
    ends_under_acts_are_read_off_the_answers();
}

/// Groups that are judged one after another, behind the run without faults, are judged by the calls of that
/// run and then by those of their reruns alone. It does nothing: it states a law.
pub fn groups_are_rerun_one_after_another()
    ensures { GroupLaws }
{}
