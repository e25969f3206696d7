//! The rerun of a group of faults, and its verdict.

ghost use Rattle.std.specs.Prelude.{◌≡◌, ◌<◌, ◌≤◌, true, ℕ, ℤ, List, None, Some, All, IfOk, OnErr, length, slice_get, vec_capacity};
ghost use Rattle.vcp_base.specs.Limits.{most_cycles};
ghost use Rattle.coded_unit.specs.declared.call.Answer.{Answer as AnswerGiven};
ghost use Rattle.coded_unit.specs.Seen.{StaysHonest};
ghost use Rattle.signature_table.specs.Signatures.{IsTableOf};
ghost use Rattle.coded_machine.specs.CycleEnds.{stored_words};
ghost use Rattle.fault_script.specs.Changes.{acts_of};
ghost use Rattle.fault_script.specs.Groups.{GroupFits};
ghost use Rattle.fault_injector.specs.Accepted.{EndsAreRead, OutputsAreRead};
ghost use Rattle.fault_injector.specs.FaultRun.{OneFaultRuns};
ghost use Rattle.fault_injector.specs.RunLaw.{GroupStands, RunsKept};
ghost use Rattle.fault_injector.specs.Names.{Names};
ghost use Rattle.fault_injector.specs.Verdicts.{verdict_of};
ghost use Rattle.fault_injector.specs.Begun.{answers_in};
ghost use Rattle.fault_injector.specs.Crossing.{BeginsRerun, CycleRan, Room};
ghost use Rattle.fault_injector.specs.Groups.{JudgedAlone, JudgedNot};
ghost use Rattle.fault_injector.specs.Laws.{AsksAtTouched, RerunsAreRight, TouchedLaws};
ghost use Rattle.fault_injector.specs.Reruns.{InCycles, IsReference, Reran};
ghost use Rattle.fault_injector.specs.Standing.{IsStanding};
ghost use Rattle.fault_injector.specs.Touched.{cycle_marks, held_marks};

use crate::campaign::reruns::again::{Begun, rerun_cycle};
use crate::campaign::reruns::laws::{
    groups_are_rerun_one_after_another, reruns_ask_at_touched_operations,
    reruns_of_right_answers_are_right_runs, touched_operations_are_told_by_what_they_read,
    verdicts_read_off_right_answers_are_defined,
};
use crate::campaign::reruns::marks::{mark_cells, mark_operations};
use crate::campaign::reruns::passing::{advance, ends_same, next_touched};
use crate::campaign::reruns::reading::read;
use crate::campaign::reruns::reference::{CycleAnswers, Reference};
use crate::campaign::reruns::room::{append, with_room};
use crate::campaign::reruns::standing::{Standing, gather};
use crate::{
    Verdict, ends_under_acts_are_read_off_the_answers, one_fault_runs_by_its_act,
    runs_under_acts_keep_the_run_law,
};
use coded_machine::{cycles_by_hand_are_whole, end_of_answers, first_words, store_words};
use coded_unit::{Answer, Unit, Word};
use fault_script::{Fault, Group};
use input_rows::RowList;
use op_graph::{Graph, entries_keep_their_rules};
use signature_table::Table;
use std::alloc::Global;
use std::mem::swap;
use vcp_base::{Memory, Row};

/// What a rerun works on.
pub(crate) struct Work {
    /// The answers of the cycle that is rerun.
    pub own: Vec<Answer>,
    /// Those of the cycle before.
    pub past: Vec<Answer>,
    /// The words of the cells.
    pub held: Vec<Word>,
    /// Those of the cycle before.
    pub past_held: Vec<Word>,
    /// Which operations are touched.
    pub touched: Vec<bool>,
    /// Which cells are.
    pub cell_marks: Vec<bool>,
    /// The marks of cells by which `touched` was found.
    pub marked_by: Vec<bool>,
    /// Whether `touched` stays so in a whole cycle without faults that begins with those marks of cells.
    pub steady: bool,
    /// The values of the inputs.
    pub inputs: Row,
}

impl Drop for Work {
    fn drop(self) {
        let Work {
            own: _,
            past: _,
            held: _,
            past_held: _,
            touched: _,
            cell_marks: _,
            marked_by: _,
            steady: _,
            inputs: _,
        } = self;
    }
}

impl Work {
    /// What a rerun begins with; `Memory` where there is no room for it.
    fn new(alloc: Global, reference: &Reference<'_>) -> Result<Work, Memory>
        ensures { IfOk result (BeginsRerun reference.now.graph reference.now.table.seed) }
    {
        let graph = reference.graph();
        let table = reference.table();
        let _sound = reference.cycles();
        let operations = graph.len() as usize;
        let cells = graph.cells() as usize;
        let held = first_words(alloc, graph, table)?;
        let inputs = Row::zeros(alloc, graph.inputs())?;
        let mut full = false;
        let work = Work {
            own: with_room(alloc, operations, &mut full),
            past: with_room(alloc, operations, &mut full),
            held,
            past_held: with_room(alloc, cells, &mut full),
            touched: with_room(alloc, operations, &mut full),
            cell_marks: with_room(alloc, cells, &mut full),
            marked_by: with_room(alloc, cells, &mut full),
            steady: false,
            inputs,
        };
        if full {
            return Err(Memory);
        }
        Ok(work)
    }
}

/// Copies words to where there is room for them.
fn copy_words(from: &[Word], to: &mut Vec<Word>)
    requires { length from.now ≤ vec_capacity to.old }
    ensures items { to.new.items ≡ from.now }
    ensures capacity { vec_capacity to.old ≤ vec_capacity to.new }
{
    to.clear();
    'words: for i in 0..from.len() {
        append(to, from[i]);
    }
}

/// Whether two lists of marks are the same.
fn same_marks(marks: &[bool], others: &[bool]) -> bool
    ensures { result ≡ true → marks.now ≡ others.now }
{
    marks == others
}

/// Whether a cycle has no fault of a group, and every operation answered in it in the run without the faults.
fn is_plain(graph: &Graph, standing: &Standing<'_>, other: &CycleAnswers<'_>) -> bool
    requires { IsStanding standing.now }
    ensures whole { result ≡ true → length graph.now.operations ≤ length (answers_in other.now) }
    ensures none { result ≡ true → (k : ℕ) → acts_of standing.now.group.now standing.now.cycle k ≡ None }
{
    if standing.faults.len() > 0 {
        return false;
    }
    graph.len() as usize <= other.words.len()
}

/// Whether the marks of the operations, if they are steady, are those of a cycle, which is a plain one or not.
fn still_marked(work: &Work, plain: bool) -> bool
    ensures plain { result ≡ true → plain ≡ true }
    ensures steady { result ≡ true → work.now.steady ≡ true }
    ensures same { result ≡ true → work.now.cell_marks.items ≡ work.now.marked_by.items }
{
    plain && work.steady && same_marks(&work.cell_marks, &work.marked_by)
}

/// Marks the operations that are touched in a cycle, unless they are so marked already. The marks of the cells are used up.
fn mark_again(graph: &Graph, standing: &Standing<'_>, other: &CycleAnswers<'_>, work: &mut Work)
    requires standing { IsStanding standing.now }
    requires room { Room graph.now work.old }
    ensures room { Room graph.now work.new }
    ensures marks { work.new.touched.items
        ≡ (cycle_marks graph.now (answers_in other.now) (acts_of standing.now.group.now standing.now.cycle) work.old.cell_marks.items).given }
    ensures past { work.new.past.items ≡ work.old.past.items }
    ensures held { work.new.held.items ≡ work.old.held.items }
    ensures past_held { work.new.past_held.items ≡ work.old.past_held.items }
    ensures inputs { work.new.inputs ≡ work.old.inputs }
{
    let plain = is_plain(graph, standing, other);
    if still_marked(work, plain) {
        return;
    }
    mark_operations(graph, standing, other, &work.cell_marks, &mut work.touched);
    swap(&mut work.cell_marks, &mut work.marked_by);
    work.steady = plain;
}

/// Reruns cycle `n`, and answers its verdict, if it has one.
fn rerun_one<U: Unit>(
    reference: &Reference<'_>,
    group: &Group,
    n: u32,
    unit: &mut U,
    work: &mut Work,
    faults: &mut Vec<Fault>,
) -> Option<Verdict>
    requires there { n < length reference.now.answers }
    requires room { Room reference.now.graph work.old }
    requires faults { length group.now ≤ vec_capacity faults.old }
    ensures room { Room reference.now.graph work.new }
    ensures faults { vec_capacity faults.old ≤ vec_capacity faults.new }
    ensures ran { (row : List ℤ) → slice_get reference.now.rows n ≡ Some row → (other : List AnswerGiven) → slice_get reference.now.answers n ≡ Some other →
        CycleRan reference.now group.now n row other work.old work.new result
        (U.seen unit.old).log (U.seen unit.new).log (U.seen unit.old).wrong (U.seen unit.new).wrong }
{
    let _cycles = reference.cycles();
    let graph = reference.graph();
    let table = reference.table();
    let other = reference.cycle(n);
    let other_end = reference.end(n);
    reference.rows().get(n, &mut work.inputs);
    gather(group, n, faults);
    let standing = Standing {
        group,
        cycle: n,
        faults,
    };
    mark_again(graph, &standing, &other, work);
    work.own.clear();
    let begun = Begun {
        graph,
        table,
        held: &work.held,
        row: &work.inputs,
        standing,
        past_held: &work.past_held,
        past: &work.past,
        other,
        touched: &work.touched,
    };
    let halted = rerun_cycle(&begun, unit, &mut work.own);
    let end = end_of_answers(graph, table, n, &work.own, halted);
    let verdict = read(graph, n, &work.own, &end, &other, &other_end);
    cross(graph, work);
    verdict
}

/// Goes on to the next cycle: the cells have the words that their STOREs answered, and the marks of these.
fn cross(graph: &Graph, work: &mut Work)
    requires room { Room graph.now work.old }
    ensures room { Room graph.now work.new }
    ensures past { work.new.past.items ≡ work.old.own.items }
    ensures past_held { work.new.past_held.items ≡ work.old.held.items }
    ensures held { work.new.held.items ≡ stored_words graph.now work.old.own.items }
    ensures cell_marks { work.new.cell_marks.items ≡ held_marks graph.now work.old.touched.items }
{
    copy_words(&work.held, &mut work.past_held);
    store_words(graph, &work.own, &mut work.held);
    mark_cells(graph, &work.touched, &mut work.cell_marks);
    swap(&mut work.own, &mut work.past);
}

/// Reruns a group of faults from the first cycle on, and answers its verdict. It passes over cycles in which nothing is touched, up to the
/// next one that has a fault: in them it would make no call, and give what the run without the faults gave. Where no such cycle
/// is left nothing differs any more.
fn rerun<U: Unit>(
    reference: &Reference<'_>,
    group: &Group,
    unit: &mut U,
    work: &mut Work,
    faults: &mut Vec<Fault>,
) -> Verdict
    requires begun { BeginsRerun reference.now.graph reference.now.table.seed work.old }
    requires faults { length group.now ≤ vec_capacity faults.old }
    ensures { Reran reference.now.table reference.now.graph group.now reference.now.rows reference.now.answers (U.seen unit.old) (U.seen unit.new) result }
{
    // No call is carried at first.
    cycles_by_hand_are_whole();
    let count = reference.cycles();
    let mut n = 0;
    'cycles: while n < count {
        let next = next_touched(reference, group, n, &work.cell_marks);
        if ends_same(reference, next) {
            return Verdict::Same;
        }
        let here = advance(reference, n, next.min(count - 1), work);
        if let Some(verdict) = rerun_one(reference, group, here, unit, work, faults) {
            return verdict;
        }
        n = here + 1;
    }
    Verdict::Same
}

impl<'a> Reference<'a> {
    /// How a group of faults changes the run: the unit is asked again about just the operations that the group touches, cycle by cycle
    /// through the one that has a verdict, and the verdict is read off its answers beside those of the run without the group. `Memory`
    /// where there is no room to rerun a cycle, and then no call was made.
    ///
    /// Where the group fits the graph, and the answers of the run without it are right and those of this call too, it is the defined
    /// verdict. The cycle, the output and the operation that it names are there, whatever the unit answers. Laws that are clauses too say
    /// which operations are touched, at which the unit is asked, which answers a whole run with the group has, and which words.
    ///
    /// For every unit a kept log grows by exactly the rerun's calls with the unit's answers: none at a skip,
    /// in order of cycle and operation, through the cycle that has a verdict, or through the last of the run
    /// without the group. The unit's count of wrong answers never falls; after `Memory` the unit is as it
    /// was. Beside the verdict are the laws that it rests on: the run law, the places of a group's faults,
    /// one fault's values, and the ends and outputs of a cycle.
    pub fn verdict<U: Unit>(
        &self,
        alloc: Global,
        group: &Group,
        unit: &mut U,
    ) -> Result<Verdict, Memory>
        ensures reran { IfOk result (λ v. Reran self.now.table self.now.graph group.now self.now.rows self.now.answers
            (U.seen unit.old) (U.seen unit.new) v) }
        ensures verdict { IsReference self.now.table self.now.graph self.now.rows self.now.answers → GroupFits self.now.graph group.now →
            StaysHonest (U.seen unit.old) (U.seen unit.new) → IfOk result (λ v. v ≡ verdict_of self.now.table self.now.graph group.now self.now.rows) }
        ensures names { IfOk result (Names (length self.now.graph.outputs) (length self.now.graph.operations)) }
        ensures cycle { IfOk result (InCycles (length self.now.rows)) }
        ensures never_falls { (U.seen unit.old).wrong ≤ (U.seen unit.new).wrong }
        ensures err { OnErr result (unit.new ≡ unit.old) }
        ensures touched { TouchedLaws }
        ensures asks { AsksAtTouched }
        ensures right_runs { RerunsAreRight }
        ensures run_law { RunsKept }
        ensures groups { GroupStands }
        ensures values { OneFaultRuns }
        ensures accepted { EndsAreRead }
        ensures outputs { OutputsAreRead }
    {
        // The laws that are clauses of the verdict; a verdict that is read off right answers is the defined one; and an output names an
        // operation of its graph.
        touched_operations_are_told_by_what_they_read();
        reruns_ask_at_touched_operations();
        reruns_of_right_answers_are_right_runs();
        runs_under_acts_keep_the_run_law();
        one_fault_runs_by_its_act();
        ends_under_acts_are_read_off_the_answers();
        verdicts_read_off_right_answers_are_defined();
        entries_keep_their_rules();
        let _cycles = self.cycles();
        let mut work = match Work::new(alloc, self) {
            Ok(work) => work,
            Err(Memory) => return Err(Memory),
        };
        let mut faults = match Vec::with_capacity(alloc, group.len()) {
            Ok(faults) => faults,
            Err(_) => return Err(Memory),
        };
        Ok(rerun(self, group, unit, &mut work, &mut faults))
    }
}

/// How a group of faults changes a run over these rows: the run without faults is carried through the unit once and kept, and then the unit
/// is asked again as `Reference::verdict` asks it. Who judges several groups makes one `Reference` for them. `Memory` where there is no room;
/// then no call was made, or those of the run without faults and no other.
///
/// The calls are those of the run without faults and then those of its rerun, and no other. Where no answer
/// was wrong it is the defined verdict of the group, which fits the graph; it names an output or an operation
/// of the graph, and a cycle that has a row.
pub fn verdict<U: Unit>(
    alloc: Global,
    graph: &Graph,
    table: &Table,
    rows: &RowList,
    group: &Group,
    unit: &mut U,
) -> Result<Verdict, Memory>
    requires table { IsTableOf table.now graph.now }
    requires width { All (λ row. length row ≡ length graph.now.inputs) rows.now }
    requires few { length rows.now ≤ most_cycles }
    ensures verdict { GroupFits graph.now group.now → StaysHonest (U.seen unit.old) (U.seen unit.new) →
        IfOk result (λ v. v ≡ verdict_of table.now graph.now group.now rows.now) }
    ensures judged { IfOk result (λ v. JudgedAlone table.now graph.now rows.now group.now v (U.seen unit.old) (U.seen unit.new)) }
    ensures names { IfOk result (Names (length graph.now.outputs) (length graph.now.operations)) }
    ensures cycle { IfOk result (InCycles (length rows.now)) }
    ensures never_falls { (U.seen unit.old).wrong ≤ (U.seen unit.new).wrong }
    ensures err { OnErr result (JudgedNot table.now graph.now rows.now group.now (U.seen unit.old) (U.seen unit.new)) }
{
    // The calls are put together from those of the run without faults and of the rerun.
    groups_are_rerun_one_after_another();
    match Reference::new(alloc, graph, table, rows, unit) {
        Ok(reference) => reference.verdict(alloc, group, unit),
        Err(Memory) => Err(Memory),
    }
}
