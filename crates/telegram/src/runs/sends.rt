//! The sendings of a cycle.

ghost use Rattle.std.specs.Prelude.{◌≡◌, ◌<◌, ◌≤◌, ◌+◌, IfNone, IfSome, vec_len, vec_capacity};
ghost use Rattle.vcp_base.specs.Limits.{most_cycles};
ghost use Rattle.coded_unit.specs.declared.call.Answer.TheVariants as answer;
ghost use Rattle.telegram.specs.declared.event.Event.TheVariants as event;
ghost use Rattle.telegram.specs.Sendings.{IsNoWord};
ghost use Rattle.telegram.specs.WireRun.{IsEvent, IsWire};
ghost use Rattle.telegram.specs.Sends.{SendsAll};

use crate::{Wire, send};
use coded_unit::{Answer, Unit, Word};
use vcp_base::Row;

// The word that was answered, where it was one.
#[tactic(auto, using(crate::proofs::RunSending::no_range, crate::proofs::RunSending::no_division, crate::proofs::RunSending::no_operand))]
fn word_of(given: &Answer) -> Option<Word>
    ensures some { IfSome result (λ w. given.now ≡ answer.Word w) }
    ensures none { IfNone result (IsNoWord given.now) }
{
    match *given {
        Answer::Word(word) => Some(word),
        Answer::Range | Answer::DivZero | Answer::Operand => None,
    }
}

/// Has a unit code the values that the senders of a wire send in a cycle, in order, and keeps the words
/// that it answers, for which there is room. It ends with the first answer that is no word, and answers
/// the sender's number then. It takes no memory.
pub fn send_all<U: Unit>(
    unit: &mut U,
    wire: &Wire,
    cycle: u32,
    values: &Row,
    words: &mut Vec<Word>,
) -> Option<u32>
    requires wire { IsWire wire.now }
    requires cycle { cycle < most_cycles }
    requires values { IsEvent wire.now (event.Cycle values.now) }
    requires room { vec_len words.old + wire.now.senders ≤ vec_capacity words.old }
    ensures sends { SendsAll wire.now cycle values.now words.old.items words.new.items (U.seen unit.old) (U.seen unit.new) result }
    ensures room { vec_capacity words.new ≡ vec_capacity words.old }
{
    'senders: for id in 0..wire.senders {
        let given = send(
            unit,
            id,
            wire.seed,
            wire.step,
            cycle,
            values.at(id as usize),
        );
        let Some(word) = word_of(&given) else {
            return Some(id);
        };
        words.push_reserved(word);
    }
    None
}
