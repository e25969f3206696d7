//! One cycle of a run under a group of faults.

ghost use Rattle.std.specs.Prelude.{◌≡◌, ◌<◌, ◌≤◌, ◌∷◌, ◌++◌, [], length, vec_capacity};
ghost use Rattle.vcp_base.specs.Limits.{most_cycles, most_operations};
ghost use Rattle.signature_table.specs.Signatures.{IsTableOf};
ghost use Rattle.verdict_tables.specs.AnswersOver.{all_words, answers_in};
ghost use Rattle.verdict_tables.specs.Begun.{setting, acts, past};

use crate::endless::answering::{Begun, next_answer};
use coded_machine::is_word;
use coded_unit::Answer;

/// Appends an answer where there is room.
fn append(own: &mut Vec<Answer>, answer: &Answer)
    requires { length own.old.items < vec_capacity own.old }
    ensures items { own.new.items ≡ own.old.items ++ answer.now ∷ [] }
    ensures capacity { vec_capacity own.old ≤ vec_capacity own.new }
{
    if own.push(*answer).is_err() {
        unreachable!()
    }
}

/// Makes `own` the answers of a cycle, up to the first that is no word, and answers whether all are words.
pub(crate) fn run_cycle(b: &Begun<'_>, own: &mut Vec<Answer>) -> bool
    requires room { length b.now.setting.graph.now.operations ≤ vec_capacity own.old }
    requires few { length b.now.setting.graph.now.operations ≤ most_operations }
    requires table { IsTableOf b.now.setting.table.now b.now.setting.graph.now }
    requires cycle { b.now.setting.cycle < most_cycles }
    ensures answers { own.new.items ≡ answers_in (setting b.now) (acts b.now) (past b.now) }
    ensures words { result ≡ all_words own.new.items }
    ensures few { length own.new.items ≤ length b.now.setting.graph.now.operations }
    ensures capacity { vec_capacity own.old ≤ vec_capacity own.new }
{
    own.clear();
    let count = b.setting.graph.len();
    'operations: for k in 0..count {
        let op = b.setting.graph.operation(k);
        let answer = next_answer(b, &op, own);
        append(own, &answer);
        if !is_word(&answer) {
            return false;
        }
    }
    true
}
