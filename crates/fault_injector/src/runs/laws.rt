//! Laws of acts.

ghost use Rattle.fault_injector.specs.Stepping.{StepUnder, OutcomesAreNear};

use coded_unit::{right_answers_keep_the_step_law, words_split_in_one_way};

/// The right answer to a call under an act represents the outcome of the replaced values, and a word of
/// it has the signature, the stamp and the act's difference. Its value is near enough to the values of
/// the types that no number that an act adds brings its word to the edge of words. It does nothing: it
/// states a law.
///
/// It is so for every kind and both codes, where what an operation reads, and the word that the act takes,
/// have values and the residues of signatures, stamp and differences. A value under an act is at most 2^64 in
/// size.
pub fn acts_keep_the_step_law()
    ensures step { StepUnder }
    ensures near { OutcomesAreNear }
{
    // The laws below that these rest on.
    words_split_in_one_way();
    right_answers_keep_the_step_law();
}
