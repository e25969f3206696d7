//! Laws of a pair's cycles and of its runs over rows.

ghost use Rattle.pair_channel.specs.PairLaws.{PairsByHand, PairRunLaws, OneChannelHonest, PairCounts};

use coded_machine::{
    cycles_by_hand_are_whole, right_answers_stand_for_values, runs_follow_their_answers,
};

/// A cycle of a pair that a caller carries by `next_call`, `put` and `end` is one that `Pair::cycle` promises. It does nothing: it states
/// a law.
pub fn pairs_by_hand_are_whole()
    ensures { PairsByHand }
{
    cycles_by_hand_are_whole();
}

/// A pair's run over rows, one cycle after another, for every two units: each log is the calls of its channel's cycles, and the rows and
/// the end are those that are read off the answers of both. It does nothing: it states a law.
pub fn pairs_follow_their_answers()
    ensures { PairRunLaws }
{
    runs_follow_their_answers();
}

/// A pair's run over rows in which all answers of one channel are right, whichever it is: the released rows
/// are the first of the graph's run on plain integers, and a stop is its stop. It does nothing: it states a
/// law. They are all of them where the rows end. Where it is the second, the graph's run may take its
/// place; where both are, the outcome is the graph's run.
pub fn one_honest_channel_holds_the_pair()
    ensures { OneChannelHonest }
{
    right_answers_stand_for_values();
}

/// A pair's run over rows by the counts of wrong answers: where one of the two stayed the same, the released rows are the first of the
/// graph's run and a stop is its stop; and the channels disagree only where one of the two rose. It does nothing: it states a law.
pub fn counts_bound_a_pair()
    ensures { PairCounts }
{
    one_honest_channel_holds_the_pair();
}
