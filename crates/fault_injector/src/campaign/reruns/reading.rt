//! The verdict of a cycle, read off its answers.

ghost use Rattle.std.specs.Prelude.{◌≡◌, None, FitsSigned};
ghost use Rattle.std.specs.Int.{w64};
ghost use Rattle.vcp_base.specs.Differences.{first_difference};
ghost use Rattle.coded_unit.specs.Words.{value_part};
ghost use Rattle.coded_machine.specs.Calls.{word_at as word_at_of};
ghost use Rattle.coded_machine.specs.CycleEnds.{first_outside, outputs_of};
ghost use Rattle.fault_injector.specs.Verdicts.{judged, stops_alike as stops_alike_of};
ghost use Rattle.fault_injector.specs.Begun.{answers_in};
ghost use Rattle.coded_machine.specs.declared.cycle_end.CycleEnd.TheVariants.{Released};
ghost use Rattle.fault_injector.specs.Reruns.{refusal_in, stop_in};

use crate::Verdict;
use crate::campaign::reruns::reference::CycleAnswers;
use coded_machine::{CycleEnd, word_at};
use coded_unit::{Answer, Word};
use op_graph::Graph;
use vcp_base::StopKind;

/// The value part of a word, where it is one of 64 bits.
fn value_of(graph: &Graph, word: Word) -> i64
    requires { FitsSigned w64 (value_part graph.now.profile word) }
    ensures { result ≡ value_part graph.now.profile word }
{
    word.split(graph.profile()).0 as i64
}

/// The word that operation `k` answered in the run without the faults, and 0 where it answered none.
pub(crate) fn other_word(other: &CycleAnswers<'_>, k: u32) -> Word
    ensures { result ≡ word_at_of (answers_in other.now) k }
{
    match other.words.get(k as usize) {
        Some(word) => *word,
        None => Word::ZERO,
    }
}

/// The first output with another value than in the run without the faults, where neither run stopped.
fn wrong_verdict(
    graph: &Graph,
    cycle: u32,
    own: &[Answer],
    other: &CycleAnswers<'_>,
) -> Option<Verdict>
    requires inside { first_outside graph.now.profile own.now graph.now.outputs ≡ None }
    requires other_inside { first_outside graph.now.profile (answers_in other.now) graph.now.outputs ≡ None }
    ensures { result ≡ judged cycle None None None (first_difference (outputs_of graph.now own.now) (outputs_of graph.now (answers_in other.now)) 0) }
{
    'outputs: for output in 0..graph.outputs() {
        let outlet = graph.output(output);
        let got = value_of(graph, word_at(own, outlet.op));
        let want = value_of(graph, other_word(other, outlet.op));
        if got != want {
            return Some(Verdict::Wrong {
                cycle,
                output,
                got,
                want,
            });
        }
    }
    None
}

/// Whether a cycle ended by this stop.
fn stops_alike(op: u32, kind: StopKind, end: &CycleEnd) -> bool
    ensures { result ≡ stops_alike_of (record { op = op; kind = kind }) (stop_in end.now) }
{
    match *end {
        CycleEnd::Stopped {
            op: other,
            kind: why,
        } => op == other && kind == why,
        CycleEnd::Refused {
            output: _,
            found: _,
            expected: _,
        }
        | CycleEnd::Released => false,
    }
}

/// The verdict of a cycle, if it has one, where its rerun ended so, and the run without the faults.
pub(crate) fn read(
    graph: &Graph,
    cycle: u32,
    own: &[Answer],
    end: &CycleEnd,
    other: &CycleAnswers<'_>,
    other_end: &CycleEnd,
) -> Option<Verdict>
    requires inside { end.now ≡ Released → first_outside graph.now.profile own.now graph.now.outputs ≡ None }
    requires other_inside { stop_in other_end.now ≡ None → first_outside graph.now.profile (answers_in other.now) graph.now.outputs ≡ None }
    ensures { result ≡ judged cycle (stop_in end.now) (refusal_in end.now) (stop_in other_end.now)
        (first_difference (outputs_of graph.now own.now) (outputs_of graph.now (answers_in other.now)) 0) }
{
    match *end {
        CycleEnd::Stopped { op, kind } => {
            if stops_alike(op, kind, other_end) {
                Some(Verdict::Same)
            } else {
                Some(Verdict::Stopped { cycle, op, kind })
            }
        }
        CycleEnd::Refused {
            output,
            found,
            expected,
        } => Some(Verdict::Refused {
            cycle,
            output,
            found,
            expected,
        }),
        CycleEnd::Released => match *other_end {
            CycleEnd::Stopped { op: _, kind: _ } => Some(Verdict::RanOn { cycle }),
            CycleEnd::Refused {
                output: _,
                found: _,
                expected: _,
            }
            | CycleEnd::Released => wrong_verdict(graph, cycle, own, other),
        },
    }
}
