//! A whole run under a group of faults.

ghost use Rattle.std.specs.Prelude.{◌≡◌, ◌≤◌, ◌<◌, ◌==◌, ◌&&◌, [], All, IfOk, length, vec_capacity};
ghost use Rattle.std.specs.List.{list_any};
ghost use Rattle.vcp_base.specs.Limits.{most_cycles};
ghost use Rattle.signature_table.specs.Signatures.{IsTableOf};
ghost use Rattle.coded_machine.specs.CycleEnds.{stored_words};
ghost use Rattle.fault_script.specs.Changes.{acts_of};
ghost use Rattle.verdict_tables.specs.AnswersOver.{run_answers, held_at_end};
ghost use Rattle.verdict_tables.specs.Endings.{comes_to as comes_to_of, is_reached};
ghost use Rattle.verdict_tables.specs.Moments.{Begins, CycleDone, Room};

use crate::endless::answering::Begun;
use crate::endless::cycle::run_cycle;
use coded_machine::{Setting, first_words, store_words};
use coded_unit::{Answer, Word};
use fault_injector::Past;
use fault_script::{Fault, Group};
use input_rows::RowList;
use op_graph::Graph;
use signature_table::Table;
use std::alloc::Global;
use std::mem::swap;
use vcp_base::{Memory, Row};

/// What a run works on.
#[derive(Drop)]
pub(crate) struct Work {
    /// The answers of the cycle.
    pub own: Vec<Answer>,
    /// Those of the cycle before.
    pub past: Vec<Answer>,
    /// The words of the cells.
    pub held: Vec<Word>,
    /// Those of the cycle before.
    pub past_held: Vec<Word>,
    /// The values of the inputs.
    pub inputs: Row,
    /// Whether the run reached a fault so far.
    pub reached: bool,
}

impl Work {
    /// What a run begins with; `Memory` where there is no room for it.
    fn new(alloc: Global, graph: &Graph, table: &Table) -> Result<Work, Memory>
        requires table { IsTableOf table.now graph.now }
        ensures room { IfOk result (λ w. Room graph.now w) }
        ensures begins { IfOk result (λ w. Begins graph.now table.now w) }
    {
        let operations = graph.len() as usize;
        let cells = graph.cells() as usize;
        Ok(Work {
            own: Vec::with_capacity(alloc, operations)?,
            past: Vec::with_capacity(alloc, operations)?,
            held: first_words(alloc, graph, table)?,
            past_held: Vec::with_capacity(alloc, cells)?,
            inputs: Row::zeros(alloc, graph.inputs())?,
            reached: false,
        })
    }
}

/// Copies words to where there is room for them.
fn copy_words(from: &[Word], to: &mut Vec<Word>)
    requires { length from.now ≤ vec_capacity to.old }
    ensures items { to.new.items ≡ from.now }
    ensures capacity { vec_capacity to.old ≤ vec_capacity to.new }
{
    to.clear();
    if to.extend_from_slice(from).is_err() {
        unreachable!()
    }
}

/// Whether a fault is in a cycle, of so many answers, at an operation that it reached.
fn comes_to(fault: &Fault, cycle: u32, answers: &[Answer]) -> bool
    ensures { result ≡ comes_to_of cycle answers.now fault.now }
{
    fault.cycle == cycle && (fault.op as usize) < answers.len()
}

/// Whether a cycle with these answers reached a fault of the group.
fn comes_to_any(group: &Group, cycle: u32, answers: &[Answer]) -> bool
    ensures { result ≡ list_any (comes_to_of cycle answers.now) group.now }
{
    'faults: for i in 0..group.len() {
        if comes_to(&group.at(i), cycle, answers) {
            return true;
        }
    }
    false
}

/// Goes on to the next cycle: the cells have the words that their STOREs answered.
fn store(graph: &Graph, work: &mut Work)
    requires room { Room graph.now work.old }
    ensures room { Room graph.now work.new }
    ensures past { work.new.past.items ≡ work.old.own.items }
    ensures past_held { work.new.past_held.items ≡ work.old.held.items }
    ensures held { work.new.held.items ≡ stored_words graph.now work.old.own.items }
    ensures reached { work.new.reached ≡ work.old.reached }
{
    copy_words(&work.held, &mut work.past_held);
    store_words(graph, &work.own, &mut work.held);
    swap(&mut work.own, &mut work.past);
}

/// Carries cycle `n` on the row that the work has, and answers whether all its answers are words; then they are stored.
fn carry<'c>(graph: &'c Graph, table: &'c Table, group: &'c Group, n: u32, work: &mut Work) -> bool
    requires table { IsTableOf table.now graph.now }
    requires cycle { n < most_cycles }
    requires room { Room graph.now work.old }
    ensures room { Room graph.now work.new }
    ensures done { CycleDone graph.now table.now group.now n work.old work.new result }
{
    // The rules of the graph are kept.
    let _rules = graph.len();
    let begun = Begun {
        setting: Setting {
            graph,
            table,
            held: &work.held,
            row: &work.inputs,
            cycle: n,
        },
        group,
        past: Past {
            held: &work.past_held,
            answers: &work.past,
        },
    };
    let words = run_cycle(&begun, &mut work.own);
    work.reached |= comes_to_any(group, n, &work.own);
    if words {
        store(graph, work);
    }
    words
}

/// Runs a graph with a group of faults over rows, up to the first cycle of which an answer is no word.
fn run(graph: &Graph, table: &Table, rows: &RowList, group: &Group, work: &mut Work)
    requires table { IsTableOf table.now graph.now }
    requires width { All (λ row. length row ≡ length graph.now.inputs) rows.now }
    requires few { length rows.now ≤ most_cycles }
    requires room { Room graph.now work.old }
    requires begins { Begins graph.now table.now work.old }
    ensures held { work.new.held.items ≡ held_at_end table.now graph.now (acts_of group.now) rows.now }
    ensures reached { work.new.reached ≡ is_reached group.now 0 (run_answers table.now graph.now (acts_of group.now) rows.now) }
{
    let count = rows.len() as u32;
    'cycles: for i in 0..count {
        rows.get(i, &mut work.inputs);
        if !carry(graph, table, group, i, work) {
            return;
        }
    }
}

/// The outcome of the run with a group of faults; `Memory` where there is no room for its work.
pub(crate) fn run_group(
    alloc: Global,
    graph: &Graph,
    table: &Table,
    rows: &RowList,
    group: &Group,
) -> Result<Work, Memory>
    requires table { IsTableOf table.now graph.now }
    requires width { All (λ row. length row ≡ length graph.now.inputs) rows.now }
    requires few { length rows.now ≤ most_cycles }
    ensures held { IfOk result (λ w. w.held.items ≡ held_at_end table.now graph.now (acts_of group.now) rows.now) }
    ensures reached { IfOk result (λ w. w.reached ≡ is_reached group.now 0 (run_answers table.now graph.now (acts_of group.now) rows.now)) }
{
    match Work::new(alloc, graph, table) {
        Ok(mut work) => {
            run(graph, table, rows, group, &mut work);
            Ok(work)
        }
        Err(Memory) => Err(Memory),
    }
}

/// The words of the cells at the end of the run over rows without faults: behind the last cycle in which no operation stops. `Memory` where there
/// is no room for its work.
pub fn words_left(
    alloc: Global,
    graph: &Graph,
    table: &Table,
    rows: &RowList,
) -> Result<Vec<Word>, Memory>
    requires table { IsTableOf table.now graph.now }
    requires width { All (λ row. length row ≡ length graph.now.inputs) rows.now }
    requires few { length rows.now ≤ most_cycles }
    ensures { IfOk result (λ words. words.items ≡ held_at_end table.now graph.now (acts_of []) rows.now) }
{
    match run_group(alloc, graph, table, rows, &Group::new(alloc)) {
        Ok(work) => {
            let Work {
                own: _,
                past: _,
                held,
                past_held: _,
                inputs: _,
                reached: _,
            } = work;
            Ok(held)
        }
        Err(Memory) => Err(Memory),
    }
}
