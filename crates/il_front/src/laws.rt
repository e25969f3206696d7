//! Laws of instruction lists.

ghost use Rattle.std.specs.Prelude.{◌≡◌, ◌≢◌, ◌⊎◌, ℕ, List};
ghost use Rattle.il_front.specs.Accumulator.{Il};
ghost use Rattle.il_front.specs.declared.fault.IlFault.{IlFault};
ghost use Rattle.il_front.specs.declared.fault.IlFault.TheVariants as fault;
ghost use Rattle.il_front.specs.Answers.{IsIl, NotIl};
ghost use Rattle.il_front.specs.Outcomes.{AccumulatorRuns};

use st_lexer::one_reading;
use st_parser::one_answer;
use st_types::answers_are_one;

/// The typed program of a text of instructions has the accumulator's run: for every list of rows the same rows of outputs,
/// and the same end. It does nothing: it states a law.
pub fn accumulator_runs()
    ensures { AccumulatorRuns }
{}

/// A text is one instruction list or is refused in one way, want of memory apart, and never both. It does nothing: it states
/// laws.
pub fn il_answers_are_one()
    ensures some { (text : List ℕ) → ((i : Il) × IsIl text i) ⊎ ((f : IlFault) × (f ≢ fault.Memory) × NotIl text f) }
    ensures one { (text : List ℕ) (i j : Il) → IsIl text i → IsIl text j → i ≡ j }
    ensures either { (text : List ℕ) (i : Il) (f : IlFault) → IsIl text i → NotIl text f → f ≡ fault.Memory }
    ensures refused { (text : List ℕ) (f g : IlFault) → f ≢ fault.Memory → g ≢ fault.Memory → NotIl text f → NotIl text g → f ≡ g }
{
    one_reading();
    one_answer();
    answers_are_one();
}
