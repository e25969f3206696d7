//! Cycles in which nothing is touched, which a rerun passes over.

ghost use Rattle.std.specs.Prelude.{◌≡◌, ◌==◌, ◌<◌, ◌≤◌, ◌-◌, ℕ, [], true, false, None, length, slice_index_or, vec_capacity};
ghost use Rattle.coded_machine.specs.CycleEnds.{stored_words};
ghost use Rattle.fault_script.specs.Changes.{acts_of};
ghost use Rattle.fault_injector.specs.Begun.{answers_in};
ghost use Rattle.fault_injector.specs.Crossing.{Room};
ghost use Rattle.fault_injector.specs.Reruns.{refusal_in};
ghost use Rattle.fault_injector.specs.PassedOver.{Advanced, LastStands, held_at, last_answers};
ghost use Rattle.fault_injector.specs.Touched.{held_marks, mark as mark_of};

use crate::campaign::reruns::again::answer_for;
use crate::campaign::reruns::marks::mark_cells;
use crate::campaign::reruns::reading::other_word;
use crate::campaign::reruns::reference::{CycleAnswers, Reference};
use crate::campaign::reruns::rerun::Work;
use crate::campaign::reruns::room::append;
use coded_machine::{CycleEnd, store_words};
use coded_unit::{Answer, Word};
use fault_script::{Fault, Group};
use op_graph::Graph;

/// The earlier one of cycle `next` and of that of a fault, where the fault is in cycle `n` or later.
fn earlier(fault: &Fault, n: u32, next: u32) -> u32
    requires { n ≤ next }
    ensures from { n ≤ result }
    ensures within { result ≤ next }
    ensures passed { (m : ℕ) → n ≤ m → m < result → false ≡ (fault.now.cycle == m) }
{
    if n <= fault.cycle && fault.cycle < next {
        fault.cycle
    } else {
        next
    }
}

/// The first cycle from `n` on and before `last` in which the group has a fault, or `last`.
fn next_fault(group: &Group, n: u32, last: u32) -> u32
    requires { n ≤ last }
    ensures from { n ≤ result }
    ensures within { result ≤ last }
    ensures none { (m k : ℕ) → n ≤ m → m < result → acts_of group.now m k ≡ None }
{
    let mut next = last;
    'faults: for i in 0..group.len() {
        let fault = group.at(i);
        next = earlier(&fault, n, next);
    }
    next
}

/// Whether none of these marks is set.
pub(crate) fn none_marked(marks: &[bool]) -> bool
    ensures { result ≡ true → (i : ℕ) → mark_of marks.now i ≡ false }
{
    'marks: for i in 0..marks.len() {
        if marks[i] {
            return false;
        }
    }
    true
}

/// Whether a cycle ended by the refusal of an output.
fn is_refused(end: &CycleEnd) -> bool
    ensures { result ≡ false → refusal_in end.now ≡ None }
{
    match end {
        CycleEnd::Refused {
            output: _,
            found: _,
            expected: _,
        } => true,
        CycleEnd::Released | CycleEnd::Stopped { op: _, kind: _ } => false,
    }
}

/// The next cycle from `n` on in which something may be touched: cycle `n` where a cell is, or else the first one that has a fault;
/// the number of cycles where there is none.
pub(crate) fn next_touched(reference: &Reference<'_>, group: &Group, n: u32, cells: &[bool]) -> u32
    requires { n < length reference.now.answers }
    ensures from { n ≤ result }
    ensures within { result ≤ length reference.now.answers }
    ensures cells { n < result → (i : ℕ) → mark_of cells.now i ≡ false }
    ensures none { (m k : ℕ) → n ≤ m → m < result → acts_of group.now m k ≡ None }
{
    if !none_marked(cells) {
        return n;
    }
    next_fault(group, n, reference.cycles())
}

/// Whether nothing differs any more where the next cycle in which something may be touched is this one: there is none, and no output was
/// refused in the run without the faults.
pub(crate) fn ends_same(reference: &Reference<'_>, next: u32) -> bool
    requires { 0 < length reference.now.answers }
    ensures none { result ≡ true → next ≡ length reference.now.answers }
    ensures stands { result ≡ true → LastStands reference.now }
{
    let count = reference.cycles();
    next == count && !is_refused(&reference.end(count - 1))
}

/// Copies the answers of a cycle to where there is room for them.
fn copy_answers(from: &CycleAnswers<'_>, to: &mut Vec<Answer>)
    requires { length (answers_in from.now) ≤ vec_capacity to.old }
    ensures items { to.new.items ≡ answers_in from.now }
    ensures capacity { vec_capacity to.old ≤ vec_capacity to.new }
{
    to.clear();
    'words: for i in 0..from.words.len() {
        append(to, Answer::Word(from.words[i]));
    }
    if let Some(kind) = from.stop {
        append(to, answer_for(kind));
    }
}

/// The answers of the run without the faults in cycle `n`.
fn copy_cycle(reference: &Reference<'_>, n: u32, to: &mut Vec<Answer>)
    requires there { n < length reference.now.answers }
    requires room { length reference.now.graph.operations ≤ vec_capacity to.old }
    ensures items { to.new.items ≡ slice_index_or reference.now.answers n [] }
    ensures capacity { vec_capacity to.old ≤ vec_capacity to.new }
{
    let _sound = reference.cycles();
    let answers = reference.cycle(n);
    copy_answers(&answers, to);
}

/// The words that the STOREs of the cells answered in a cycle of the run without the faults, where there is room for them.
fn store_answers(graph: &Graph, from: &CycleAnswers<'_>, held: &mut Vec<Word>)
    requires { length graph.now.stores ≤ vec_capacity held.old }
    ensures items { held.new.items ≡ stored_words graph.now (answers_in from.now) }
    ensures capacity { vec_capacity held.old ≤ vec_capacity held.new }
{
    held.clear();
    let stores = graph.stores();
    'cells: for i in 0..stores.len() {
        append(held, other_word(from, stores[i]));
    }
}

/// The words of the cells behind cycle `n` of the run without the faults.
fn store_cycle(reference: &Reference<'_>, n: u32, held: &mut Vec<Word>)
    requires there { n < length reference.now.answers }
    requires room { length reference.now.graph.stores ≤ vec_capacity held.old }
    ensures items { held.new.items ≡ stored_words reference.now.graph (slice_index_or reference.now.answers n []) }
    ensures capacity { vec_capacity held.old ≤ vec_capacity held.new }
{
    let answers = reference.cycle(n);
    store_answers(reference.graph(), &answers, held);
}

/// Sets the work to what the run without the faults left before cycle `n`.
fn copy_state(reference: &Reference<'_>, n: u32, work: &mut Work)
    requires there { n < length reference.now.answers }
    requires begun { 2 ≤ n }
    requires room { Room reference.now.graph work.old }
    ensures room { Room reference.now.graph work.new }
    ensures past { work.new.past.items ≡ last_answers reference.now n }
    ensures past_held { work.new.past_held.items ≡ held_at reference.now (n - 1) }
    ensures held { work.new.held.items ≡ held_at reference.now n }
    ensures cell_marks { work.new.cell_marks.items ≡ held_marks reference.now.graph [] }
{
    let graph = reference.graph();
    store_cycle(reference, n - 2, &mut work.past_held);
    copy_cycle(reference, n - 1, &mut work.past);
    store_words(graph, &work.past, &mut work.held);
    mark_cells(graph, &[], &mut work.cell_marks);
}

/// Goes on from cycle `n` to cycle `to`, where two cycles or more are passed over.
pub(crate) fn advance(reference: &Reference<'_>, n: u32, to: u32, work: &mut Work) -> u32
    requires from { n ≤ to }
    requires there { to < length reference.now.answers }
    requires room { Room reference.now.graph work.old }
    ensures room { Room reference.now.graph work.new }
    ensures advanced { Advanced reference.now n to work.old work.new result }
{
    if to - n < 2 {
        return n;
    }
    copy_state(reference, to, work);
    to
}
