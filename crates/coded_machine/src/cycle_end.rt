//! How a cycle ends, read off the answers to its calls.

ghost use Rattle.std.specs.Prelude.{◌≡◌, ◌≢◌, ◌<◌, ◌≤◌, true, false, length};
ghost use Rattle.vcp_base.specs.Limits.{most_operations, most_cycles};
ghost use Rattle.coded_machine.specs.Calls.{AllWords};
ghost use Rattle.coded_machine.specs.CycleEnds.{stop_of as stop_of_answer, first_stop as first_stop_of, first_outside as first_outside_of};
ghost use Rattle.coded_machine.specs.CycleEnds.{first_refused as first_refused_of, end_of};
ghost use Rattle.coded_machine.specs.declared.cycle_end.CycleEnd.TheVariants.{Released};
ghost use Rattle.op_graph.specs.Rules.{IsGraph};
ghost use Rattle.signature_table.specs.Signatures.{IsTableOf};

use crate::calling::word_at;
use coded_unit::Answer;
use op_graph::{Graph, entries_keep_their_rules};
use signature_table::Table;
use vcp_base::{Residue, StopKind, fits};

/// How a cycle ends.
#[derive(Clone, Copy, PartialEq, Eq)]
pub enum CycleEnd {
    /// Its outputs are released.
    Released,
    /// Operation `op`, counted from 0, stopped, or is the OUT of an output and its value is outside
    /// the output's type.
    Stopped {
        op: u32,
        kind: StopKind,
    },
    /// The word of an output, counted from 0, has another residue than the expected one.
    Refused {
        output: u32,
        found: Residue,
        expected: Residue,
    },
}

/// The end where the processor is seen to have erred: a refusal. No cycle ends so, says the proof.
pub(crate) const ERRED: CycleEnd = CycleEnd::Refused {
    output: 0,
    found: 0,
    expected: 0,
};

/// How a cycle with these answers ends. Where it isn't halted all are words. With `call_after`, `first_words`
/// and `store_words` a cycle can be carried without a machine.
pub fn end_of_answers(
    graph: &Graph,
    table: &Table,
    cycle: u32,
    answers: &[Answer],
    halted: bool,
) -> CycleEnd
    requires few { length answers.now ≤ most_operations }
    requires words { halted ≡ false → AllWords answers.now }
    requires graph { IsGraph graph.now }
    requires table { IsTableOf table.now graph.now }
    requires cycle { cycle < most_cycles }
    ensures { result ≡ end_of graph.now table.now cycle answers.now }
{
    if let Some(end) = first_stop(answers, halted) {
        return end;
    }
    if let Some(end) = first_outside(graph, answers) {
        return end;
    }
    if let Some(end) = first_refused(graph, table, cycle, answers) {
        return end;
    }
    CycleEnd::Released
}

/// Whether a cycle's outputs are released.
pub(crate) fn is_released(end: &CycleEnd) -> bool
    ensures yes { result ≡ true → end.now ≡ Released }
    ensures no { result ≡ false → end.now ≢ Released }
{
    matches!(end, CycleEnd::Released)
}

/// The stop that an answer is, if it is one.
fn stop_of(answer: &Answer) -> Option<StopKind>
    ensures { result ≡ stop_of_answer answer.now }
{
    match answer {
        Answer::Word(_) => None,
        Answer::Range => Some(StopKind::Range),
        Answer::DivZero => Some(StopKind::DivZero),
        Answer::Operand => Some(StopKind::Operand),
    }
}

/// The first answer that is a stop, which is looked for only in a cycle that is halted.
fn first_stop(answers: &[Answer], halted: bool) -> Option<CycleEnd>
    requires few { length answers.now ≤ most_operations }
    requires words { halted ≡ false → AllWords answers.now }
    ensures { result ≡ first_stop_of 0 answers.now }
{
    if !halted {
        return None;
    }
    'answers: for (k, answer) in answers.iter().enumerate() {
        if let Some(kind) = stop_of(answer) {
            return Some(CycleEnd::Stopped { op: k as u32, kind });
        }
    }
    None
}

/// The first output whose value is outside its type.
fn first_outside(graph: &Graph, answers: &[Answer]) -> Option<CycleEnd>
    ensures { result ≡ first_outside_of graph.now.profile answers.now graph.now.outputs }
{
    'outputs: for i in 0..graph.outputs() {
        let outlet = graph.output(i);
        let (value, _residue) = word_at(answers, outlet.op).split(graph.profile());
        if !fits(outlet.ty, value) {
            return Some(CycleEnd::Stopped {
                op: outlet.op,
                kind: StopKind::Operand,
            });
        }
    }
    None
}

/// The first output whose residue is not the expected one.
fn first_refused(graph: &Graph, table: &Table, cycle: u32, answers: &[Answer]) -> Option<CycleEnd>
    requires graph { IsGraph graph.now }
    requires table { IsTableOf table.now graph.now }
    requires cycle { cycle < most_cycles }
    ensures { result ≡ first_refused_of graph.now.profile table.now cycle answers.now 0 graph.now.outputs }
{
    // The OUT of each output is an operation.
    entries_keep_their_rules();
    'outputs: for i in 0..graph.outputs() {
        let outlet = graph.output(i);
        let found = word_at(answers, outlet.op).split(graph.profile()).1;
        let expected = table.expected(outlet.op, cycle);
        if found != expected {
            return Some(CycleEnd::Refused {
                output: i,
                found,
                expected,
            });
        }
    }
    None
}
