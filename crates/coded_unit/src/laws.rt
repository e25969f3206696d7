//! Laws of words and of right answers.

ghost use Rattle.vcp_base.specs.declared.code.Profile.{Profile};
ghost use Rattle.coded_unit.specs.declared.call.Call.{Call};
ghost use Rattle.coded_unit.specs.Right.{Right};
ghost use Rattle.coded_unit.specs.Step.{StepLaw, ExchangedLaw};
ghost use Rattle.coded_unit.specs.WordLaws.{WordLaws, ShiftLaw};

/// In each code integers split into a value part and a residue in one way. It does nothing: it states a law.
/// Integers that differ by a multiple of `A` have one residue.
pub fn words_split_in_one_way()
    ensures { (p : Profile) → WordLaws p }
{}

/// In each code the word of a near value, to which an integer is added, is no further word at the end of
/// words: what the sum of residue and integer carries goes to the value part. It does nothing: it states a
/// law. The value is up to 2^64 in size, the integer up to 2^62.
pub fn shifted_words_keep_their_parts()
    ensures { (p : Profile) → ShiftLaw p }
{}

/// The right answer to every call keeps the step law, also where the kind that is carried out is not the one
/// for which the correction was made. It does nothing: it states a law. The difference then grows by what the
/// two kinds weigh the operands' signatures differently.
pub fn right_answers_keep_the_step_law()
    ensures step { (call : Call) → StepLaw call (Right call) }
    ensures exchanged { (call : Call) → ExchangedLaw call (Right call) }
{}
