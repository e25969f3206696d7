//! Laws of whole runs under acts.

ghost use Rattle.verdict_tables.specs.Laws.{AnswersAreRight};

/// The answers whose words are compared at the end are those of a right run under the acts: of these the run law of `fault_injector` says the values
/// and the residues, and the verdict of the group is about them. It does nothing: it states a law.
pub fn answers_over_rows_are_a_right_run()
    ensures { AnswersAreRight }
{}
