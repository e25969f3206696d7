//! The word that an act takes.

ghost use Rattle.std.specs.Prelude.{◌≡◌, ◌≤◌, length};
ghost use Rattle.vcp_base.specs.Limits.{most_operations};
ghost use Rattle.op_graph.specs.Reads.{named as named_of};
ghost use Rattle.coded_machine.specs.Calls.{read_word};
ghost use Rattle.fault_injector.specs.RunLaw.{taken as taken_of};

use coded_machine::{cell_at, word_at};
use coded_unit::{Answer, Word};
use fault_script::Act;
use op_graph::{Op, named};
use vcp_base::Kind;

/// What a cycle left.
#[derive(Clone, Copy)]
pub struct Past<'c> {
    /// The words that its cells had when it began.
    pub held: &'c [Word],
    /// Its answers.
    pub answers: &'c [Answer],
}

/// The word that operand `j` of an operation read in the cycle before.
fn read_before(past: &Past<'_>, op: &Op, j: u32) -> Word
    ensures { result ≡ read_word past.now.held.now past.now.answers.now op.now.kind op.now.imm (named_of op.now j) }
{
    match op.kind {
        Kind::Load => cell_at(past.held, op.imm.unsigned_abs()),
        _ => word_at(past.answers, named(op, j)),
    }
}

/// The word that an act takes at an operation behind these answers of its cycle, where the cycle before left `past`: an earlier answer of the cycle, or
/// what the operation read or answered in the cycle before. Zero for an act that takes none.
pub fn taken(past: &Past<'_>, own: &[Answer], op: &Op, act: &Option<Act>) -> Word
    requires { length own.now ≤ most_operations }
    ensures { result ≡ taken_of (record { held = past.now.held.now; answers = past.now.answers.now }) own.now op.now act.now }
{
    match act {
        Some(Act::OperandFrom { j: _, r }) => word_at(own, *r),
        Some(Act::OperandStale { j }) => read_before(past, op, *j),
        Some(Act::Skip) => word_at(past.answers, own.len() as u32),
        Some(Act::OperandAdd { j: _, e: _ })
        | Some(Act::ResultAdd { e: _ })
        | Some(Act::Operator { kind: _ })
        | None => Word::ZERO,
    }
}
