//! Laws of runs under faults.

ghost use Rattle.fault_injector.specs.FaultRun.{OneFaultRuns};
ghost use Rattle.fault_injector.specs.RunLaw.{RunsKept, GroupStands};
ghost use Rattle.fault_injector.specs.AcceptedRuns.{AcceptedIsReleased};
ghost use Rattle.fault_injector.specs.ScriptedRun.{ScriptedRunsAreRight};
ghost use Rattle.fault_injector.specs.Accepted.{EndsAreRead, OutputsAreRead};

use crate::runs::laws::acts_keep_the_step_law;
use coded_machine::right_answers_stand_for_values;
use coded_unit::words_split_in_one_way;
use fault_script::one_fault_makes_its_difference;
use op_graph::{
    cells_have_two_parts, entries_keep_their_rules, operands_are_in_their_types, operands_are_there,
};
use signature_table::expected_residues_are_residues;

/// Under one fault every operation but the fault's, in every cycle, gives what the graph gives on the
/// values that are there; and where its act adds a number to a word, the value of the fault's operation
/// goes by signatures and stamps alone, since there is no difference before it. It does nothing: it states
/// a law.
pub fn one_fault_runs_by_its_act()
    ensures { OneFaultRuns }
{
    // No difference stands before a fault, and so none is read by its operation.
    one_fault_makes_its_difference();
    operands_are_there();
}

/// The run law: over an honest unit the answers to the calls with the changes have, up to the first stop,
/// the values of the run under the acts and, as residues, the signature, the stamp and the difference of
/// each operation; and so have the words of the cells at each cycle's start, with the stamp of the cycle
/// before. Faults that fit a graph are where the law wants them. It does nothing: it states a law.
///
/// It holds for every graph, table, rows and acts that fit the graph.
pub fn runs_under_acts_keep_the_run_law()
    ensures runs { RunsKept }
    ensures groups { GroupStands }
{
    operands_are_there();
    operands_are_in_their_types();
    entries_keep_their_rules();
    cells_have_two_parts();
    acts_keep_the_step_law();
    words_split_in_one_way();
    expected_residues_are_residues();
    right_answers_stand_for_values();
}

/// Where the answers of a cycle keep the run law, its end as a machine reads it off them is the stop of the
/// run under the acts; or else a refusal of the first output that isn't accepted, which is one whose
/// difference isn't 0 modulo the constant of the code, with the residue that it has and the expected one;
/// or else a release, whose row of outputs has the values of that run. It does nothing: it states a law.
pub fn ends_under_acts_are_read_off_the_answers()
    ensures ends { EndsAreRead }
    ensures outputs { OutputsAreRead }
{
    operands_are_there();
    operands_are_in_their_types();
    entries_keep_their_rules();
    cells_have_two_parts();
    acts_keep_the_step_law();
    words_split_in_one_way();
    expected_residues_are_residues();
    right_answers_stand_for_values();
}

/// In a cycle that a run under a group of faults reaches and ends without a stop, a machine releases the
/// outputs exactly where each of them is accepted, by its equation over signatures and stamps, and refuses
/// exactly the first that isn't. It does nothing: it states a law.
pub fn accepted_outputs_are_released()
    ensures { AcceptedIsReleased }
{
    runs_under_acts_keep_the_run_law();
    scripted_runs_are_right_runs();
    ends_under_acts_are_read_off_the_answers();
}

/// The answers of a scripted unit around an honest one, over the calls of a run, are those that the run law
/// speaks of: the unit has kept the word that an act takes when it reaches the operation of its fault. It
/// does nothing: it states a law.
pub fn scripted_runs_are_right_runs()
    ensures { ScriptedRunsAreRight }
{
    operands_are_there();
}
