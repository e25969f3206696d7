//! The answers of a run without faults, as they are kept.

ghost use Rattle.std.specs.Prelude.{◌≡◌, ◌<◌, ◌≤◌, ◌+◌, ◌*◌, [], ◌++◌, true, false, None, All, length, vec_capacity};
ghost use Rattle.vcp_base.specs.Limits.{most_cycles};
ghost use Rattle.coded_machine.specs.State.{fresh};
ghost use Rattle.fault_injector.specs.Kept.{front_words, stop_kind as stop_kind_of};
ghost use Rattle.fault_injector.specs.References.{kept_cycles, RanOver};

use crate::campaign::reruns::room::append;
use coded_machine::{CycleEnd, Machine, runs_follow_their_answers};
use coded_unit::{Unit, Word};
use input_rows::RowList;
use vcp_base::{Row, StopKind};

/// The answers of a run, of which the words are kept, cycle by cycle, up to the end of the run or its stop.
#[derive(Drop)]
pub(crate) struct Kept {
    /// The words.
    pub words: Vec<Word>,
    /// In how many cycles every operation answered a word.
    pub whole: u32,
    /// Why the operation behind the last word stopped.
    pub stop: Option<StopKind>,
    /// The end of the run.
    pub end: CycleEnd,
}

/// Carries a fresh machine through a unit, over all rows or to its end, and keeps the words that are answered. There is room for all.
pub(crate) fn keep_run<U: Unit>(
    machine: &mut Machine<'_>,
    rows: &RowList,
    inputs: &mut Row,
    outputs: &mut Row,
    mut words: Vec<Word>,
    unit: &mut U,
) -> Kept
    requires fresh { machine.old ≡ fresh machine.old.graph machine.old.table }
    requires width { All (λ row. length row ≡ length machine.old.graph.inputs) rows.now }
    requires few { length rows.now ≤ most_cycles }
    requires inputs { length inputs.old ≡ length machine.old.graph.inputs }
    requires outputs { length outputs.old ≡ length machine.old.graph.outputs }
    requires empty { words.items ≡ [] }
    requires room { length rows.now * length machine.old.graph.operations ≤ vec_capacity words }
    ensures there { result.whole * length machine.old.graph.operations ≤ length result.words.items }
    ensures ran { RanOver machine.old.graph machine.old.table rows.now
        (kept_cycles (length machine.old.graph.operations) result.whole result.words.items result.stop) result.end
        (U.seen unit.old).log (U.seen unit.new).log (U.seen unit.old).wrong (U.seen unit.new).wrong }
{
    // A run over rows is put together from its cycles.
    runs_follow_their_answers();
    let count = rows.len() as u32;
    'cycles: for i in 0..count {
        rows.get(i, inputs);
        let end = machine.cycle(unit, inputs, outputs);
        let all = keep_words(machine, &mut words);
        match end {
            CycleEnd::Released => {}
            end => return ended(words, i, all, &end),
        }
    }
    Kept {
        words,
        whole: count,
        stop: None,
        end: CycleEnd::Released,
    }
}

/// Keeps the words of the last cycle, up to a stop, and answers whether every operation answered one.
fn keep_words(machine: &Machine<'_>, words: &mut Vec<Word>) -> bool
    requires few { length machine.now.answers ≤ length machine.now.graph.operations }
    requires room { length words.old.items + length machine.now.graph.operations ≤ vec_capacity words.old }
    ensures words { words.new.items ≡ words.old.items ++ front_words machine.now.answers }
    ensures capacity { vec_capacity words.old ≤ vec_capacity words.new }
    ensures all { result ≡ true → length (front_words machine.now.answers) ≡ length machine.now.graph.operations }
    ensures stopped { result ≡ false → length (front_words machine.now.answers) < length machine.now.graph.operations }
{
    let count = machine.graph().len();
    'operations: for k in 0..count {
        match machine.word(k) {
            Some(word) => append(words, word),
            None => return false,
        }
    }
    true
}

/// What is kept of a run that ended after so many whole cycles with this end of the next one, in which all operations answered a word, or not.
fn ended(words: Vec<Word>, cycles: u32, all: bool, end: &CycleEnd) -> Kept
    requires { cycles < most_cycles }
    ensures words { result.words.items ≡ words.items }
    ensures whole { all ≡ true → result.whole ≡ cycles + 1 }
    ensures released { all ≡ true → result.stop ≡ None }
    ensures part { all ≡ false → result.whole ≡ cycles }
    ensures stopped { all ≡ false → result.stop ≡ stop_kind_of end.now }
    ensures end { result.end ≡ end.now }
{
    if all {
        Kept {
            words,
            whole: cycles + 1,
            stop: None,
            end: *end,
        }
    } else {
        Kept {
            words,
            whole: cycles,
            stop: stop_kind(end),
            end: *end,
        }
    }
}

/// Why a cycle stopped, if it ended by a stop.
fn stop_kind(end: &CycleEnd) -> Option<StopKind>
    ensures { result ≡ stop_kind_of end.now }
{
    match end {
        CycleEnd::Stopped { op: _, kind } => Some(*kind),
        CycleEnd::Refused {
            output: _,
            found: _,
            expected: _,
        }
        | CycleEnd::Released => None,
    }
}
