//! The machine: its registers, its coded memory and its checker.

ghost use Rattle.std.specs.Prelude.{◌≡◌, ◌≢◌, ◌<◌, ◌≤◌, ◌+◌, ◌↔◌, ◌++◌, ◌∷◌, ◌-◌, ◌^◌, [], true, false, cond, None, Some, IsNone, IsSome, IfSome, IfOk, length};
ghost use Rattle.std.specs.Prelude.{slice_get, vec_capacity};
ghost use Rattle.vcp_base.specs.Limits.{most_cycles};
ghost use Rattle.coded_unit.specs.Asked.{Asked};
ghost use Rattle.op_graph.specs.GraphRun.{initial};
ghost use Rattle.signature_table.specs.Signatures.{stamp_before, IsTableOf};
ghost use Rattle.coded_machine.specs.Calls.{call_of, CallsNextOperation, HasOwnNumber, Next, Whole};
ghost use Rattle.coded_machine.specs.Common.{IsBegun};
ghost use Rattle.coded_machine.specs.CycleEnds.{end_of, end_or, first_outside, outputs_of, Accepted, Cause};
ghost use Rattle.coded_machine.specs.Honest.{CellsHold, FollowsFromCells};
ghost use Rattle.coded_machine.specs.Runs.{CarriedCycle, Turn};
ghost use Rattle.coded_machine.specs.State.{fresh, given as given_of, setting, Awaits, Finished, with_answer, with_answers, after_end, row_after, word_in};
ghost use Rattle.coded_machine.specs.declared.cycle_end.CycleEnd.TheVariants.{Released};

use crate::calling::{
    Begun, Setting, begun_cycle, call_after, call_after_words, has_code, has_number,
    has_own_number, is_word,
};
use crate::cycle_end::{CycleEnd, ERRED, end_of_answers, is_released};
use crate::laws::right_answers_stand_for_values;
use crate::releasing::{first_words, has_outputs, set_outputs, store_words};
use coded_unit::{Answer, Call, Unit, Word};
use op_graph::{Graph, Op};
use signature_table::Table;
use std::alloc::Global;
use std::marker::Model;
use vcp_base::{Memory, Row};

/// A machine for the operations of a graph. It borrows the graph and the table of its code.
///
/// It carries cycles one after another: in each, a call for every operation in order, whose operands
/// are earlier answers, up to the first answer that is no word. A cycle that does not end with a
/// release is the last one: its end is repeated from then on, and no call is made any more.
///
/// All memory that it ever takes is taken by `new`.
pub struct Machine<'a> {
    graph: &'a Graph,
    table: &'a Table,
    held: Vec<Word>,
    answers: Vec<Answer>,
    under_way: bool,
    halted: bool,
    cycles: u32,
    ended: Option<CycleEnd>,
}

impl<'a> Model for Machine<'a> {
    ghost use Rattle.std.specs.Prelude.{vec_capacity};
    ghost use Rattle.coded_machine.specs.Sound.{Sound};
    ghost use Rattle.coded_machine.specs.State.{State};

    ghost Value = { State };

    ghost view = { λ m. record {
      graph = m.graph.now;
      table = m.table.now;
      held = m.held.items;
      answers = m.answers.items;
      under_way = m.under_way;
      cycles = m.cycles;
      ended = m.ended;
    } };

    ghost invariant = { λ m. Sound (record {
      graph = m.graph.now;
      table = m.table.now;
      held = m.held.items;
      answers = m.answers.items;
      under_way = m.under_way;
      cycles =
          m.cycles;
      ended = m.ended;
    }) m.halted (vec_capacity m.answers) };
}

impl Drop for Machine<'_> {
    fn drop(self) {
        let Machine {
            graph: _,
            table: _,
            held: _,
            answers: _,
            under_way: _,
            halted: _,
            cycles: _,
            ended: _,
        } = self;
    }
}

impl<'a> Machine<'a> {
    /// A machine before its first cycle, for a graph and the graph's table. The cells hold the words of their
    /// initial values. `Memory` where there is no room for an answer to each operation and a word for each
    /// cell. They have the signatures of their STOREs at stamp 0. No later call takes memory.
    pub fn new(alloc: Global, graph: &'a Graph, table: &'a Table) -> Result<Machine<'a>, Memory>
        requires { IsTableOf table.now graph.now }
        ensures fresh { IfOk result (λ machine. machine ≡ fresh graph.now table.now) }
        ensures cells { IfOk result (λ machine. CellsHold graph.now table.now.seed (stamp_before table.now.step 0) machine.held (initial graph.now)) }
    {
        // What these calls ensure is kept by the machine: the rules of the graph and of the table, and
        // that honest words stand for values.
        let operations = graph.len() as usize;
        let _step = table.step();
        right_answers_stand_for_values();
        let held = first_words(alloc, graph, table)?;
        Ok(Machine {
            graph,
            table,
            held,
            answers: Vec::with_capacity(alloc, operations)?,
            under_way: false,
            halted: false,
            cycles: 0,
            ended: None,
        })
    }

    /// The graph whose operations it carries.
    pub fn graph(&self) -> &'a Graph
        ensures { result.now ≡ self.now.graph }
    {
        self.graph
    }

    /// The table of the graph's code.
    pub fn table(&self) -> &'a Table
        ensures { result.now ≡ self.now.table }
    {
        self.table
    }

    /// The number of released cycles, at most 1,000,000.
    pub fn cycles(&self) -> u32
        ensures value { result ≡ self.now.cycles }
        ensures bound { result ≤ most_cycles }
    {
        self.cycles
    }

    /// The word that operation `i` answered in the last cycle that made calls; `None` where there was
    /// no such cycle or it has no word there.
    pub fn word(&self, i: u32) -> Option<Word>
        ensures { result ≡ word_in (slice_get self.now.answers i) }
    {
        match self.answers.get(i as usize) {
            Some(Answer::Word(word)) => Some(*word),
            _ => None,
        }
    }

    /// The next call of the cycle that is under way or to be begun, on this row of inputs. `None`
    /// exactly where every operation is answered in this cycle, or the last answer put is no word, or
    /// an earlier end is repeated. An input past the end of the row has the value 0, and one outside
    /// its type stops its operation.
    #[inline(always)]
    pub fn next_call(&self, row: &Row) -> Option<Call>
        requires { self.now.cycles < most_cycles }
        ensures none { IsNone result ↔ Finished self.now }
        ensures some { IsSome result ↔ Awaits self.now }
        ensures next { IfSome result (λ call. Next (setting self.now row.now) (given_of self.now) call) }
        ensures call { IfSome result (λ call. CallsNextOperation (setting self.now row.now) (given_of self.now) call) }
        ensures asked { IfSome result (λ call. Asked call) }
        ensures own { IfSome result (λ call. HasOwnNumber self.now.graph row.now call) }
    {
        match self.pending() {
            Some(op) => Some(self.call(row, &op)),
            None => None,
        }
    }

    /// The operation that is to be called next, where there is one.
    #[inline(always)]
    fn pending(&self) -> Option<Op>
        ensures none { result ≡ None → Finished self.now }
        ensures some { IfSome result (λ op. Awaits self.now × (slice_get self.now.graph.operations (length (given_of self.now)) ≡ Some op)) }
    {
        if self.halted {
            return None;
        }
        if self.ended.is_some() {
            return None;
        }
        let answered = given(self.under_way, &self.answers).len() as u32;
        if answered >= self.graph.len() {
            return None;
        }
        Some(self.graph.operation(answered))
    }

    /// The call of the operation that comes after the answers put in this cycle.
    #[inline(always)]
    fn call(&self, row: &Row, op: &Op) -> Call
        requires here { slice_get self.now.graph.operations (length (given_of self.now)) ≡ Some op.now }
        requires cycle { self.now.cycles < most_cycles }
        ensures call { result ≡ call_of (setting self.now row.now) op.now (given_of self.now) }
        ensures asked { Asked result }
    {
        let setting = Setting {
            graph: self.graph,
            table: self.table,
            held: &self.held,
            row,
            cycle: self.cycles,
        };
        call_after(&setting, op, given(self.under_way, &self.answers))
    }

    /// Takes the answer to the next call, which there must be. It is one more answer of the cycle, and
    /// nothing else changes.
    #[inline(always)]
    pub fn put(&mut self, answer: Answer)
        requires { Awaits self.old }
        ensures { self.new ≡ with_answer self.old answer }
    {
        keep_given(self.under_way, &mut self.answers);
        append(&mut self.answers, &answer);
        self.halted = !is_word(&answer);
        self.under_way = true;
    }

    /// Ends the cycle in which there is no next call, and tells its end, by the answers put in it. A
    /// cycle that is carried by these three calls is one that `cycle` carries, as
    /// `cycles_by_hand_are_whole` says.
    ///
    /// After a release `out` has the values of the outputs, the cells have the words that their STOREs
    /// answered, and one cycle more is counted. After any other end `out`, the cells and the count are
    /// unchanged, and the end is repeated from then on. The end is as `cycle` says: of outputs, of its cause
    /// and of how it is repeated.
    pub fn end(&mut self, out: &mut Row) -> CycleEnd
        requires cycle { self.old.cycles < most_cycles }
        requires finished { Finished self.old }
        requires out { length out.old ≡ length self.old.graph.outputs }
        ensures end { result ≡ end_or self.old.ended (end_of self.old.graph self.old.table self.old.cycles (given_of self.old)) }
        ensures machine { self.new ≡ after_end self.old result }
        ensures out { out.new ≡ row_after self.old result out.old }
        ensures accepted { (result ≡ Released) ↔ ((self.old.ended ≡ None) × Accepted self.old.graph self.old.table self.old.cycles (given_of self.old)) }
        ensures cause { self.old.ended ≡ None → Cause self.old.graph self.old.table self.old.cycles (given_of self.old) result }
        ensures repeats { IfSome self.old.ended (λ e. (result ≡ e) × (self.new ≡ self.old) × (out.new ≡ out.old)) }
        ensures between { self.new.under_way ≡ false }
        ensures answers { self.old.ended ≡ None → self.new.answers ≡ given_of self.old }
        ensures graph { self.new.graph ≡ self.old.graph }
        ensures table { self.new.table ≡ self.old.table }
        ensures cycles { self.new.cycles ≤ self.old.cycles + 1 }
        ensures width { length out.new ≡ length out.old }
    {
        // A field is read, so that the proof knows what holds of every machine.
        let _answers = &self.answers;
        match self.repeated() {
            Some(end) => end,
            None => self.conclude(out),
        }
    }

    /// The end that is repeated, if there is one. It is no release, says the proof; where the processor erred,
    /// one may be read here, and it is refused, since nothing was set for it.
    #[inline(always)]
    fn repeated(&self) -> Option<CycleEnd>
        ensures end { result ≡ self.now.ended }
        ensures closed { IfSome result (λ e. (e ≢ Released) × (self.now.under_way ≡ false)) }
    {
        match self.ended {
            Some(CycleEnd::Released) => Some(ERRED),
            ended => ended,
        }
    }

    /// Ends a cycle where no earlier end is repeated.
    fn conclude(&mut self, out: &mut Row) -> CycleEnd
        requires cycle { self.old.cycles < most_cycles }
        requires going { self.old.ended ≡ None }
        requires whole { Whole self.old.graph.operations (given_of self.old) }
        requires out { length out.old ≡ length self.old.graph.outputs }
        ensures end { result ≡ end_of self.old.graph self.old.table self.old.cycles (given_of self.old) }
        ensures machine { self.new ≡ after_end self.old result }
        ensures out { out.new ≡ row_after self.old result out.old }
    {
        let given = given(self.under_way, &self.answers);
        let end = end_of_answers(self.graph, self.table, self.cycles, given, self.halted);
        if !is_released(&end) {
            self.close(&end);
        } else if !self.release(out) {
            return ERRED;
        }
        end
    }

    /// Releases the outputs, stores the cells and counts the cycle. It answers whether the row has the values of the outputs'
    /// words, which are looked at once more. It has, says the proof; where the processor erred, it may not.
    fn release(&mut self, out: &mut Row) -> bool
        requires cycle { self.old.cycles < most_cycles }
        requires going { self.old.ended ≡ None }
        requires inside { first_outside self.old.graph.profile (given_of self.old) self.old.graph.outputs ≡ None }
        requires out { length out.old ≡ length self.old.graph.outputs }
        ensures sure { result ≡ true }
        ensures machine { self.new ≡ after_end self.old Released }
        ensures out { out.new ≡ row_after self.old Released out.old }
    {
        set_outputs(self.graph, given(self.under_way, &self.answers), out);
        if !self.has_set(out) {
            return false;
        }
        let stored = given(self.under_way, &self.answers);
        store_words(self.graph, stored, &mut self.held);
        self.cycles += 1;
        self.under_way = false;
        self.halted = false;
        true
    }

    /// Whether the row has the values of the outputs. Answers and words are looked for anew, in a function of its own.
    #[inline(never)]
    fn has_set(&self, out: &Row) -> bool
        requires { out.now ≡ outputs_of self.now.graph (given_of self.now) }
        ensures { result ≡ true }
    {
        has_outputs(self.graph, given(self.under_way, &self.answers), out)
    }

    /// Keeps an end that is no release, which is repeated from then on.
    fn close(&mut self, end: &CycleEnd)
        requires { end.now ≢ Released }
        ensures { self.new ≡ after_end self.old end.now }
    {
        self.ended = Some(*end);
        self.under_way = false;
        self.halted = false;
    }

    /// Carries one cycle through a unit: a call for each operation in order, up to the first answer
    /// that is no word. No cycle is under way before.
    ///
    /// It does what `next_call`, `put` and `end` do one after another. Where an earlier end is
    /// repeated, no call is made.
    ///
    /// For every unit the cycle is whole, a kept log grew by exactly its calls with the unit's answers, and
    /// its end, row and cells are those that these answers give. Outputs are released exactly where every
    /// operation was answered by a word, every output's value part is in its type, and every output's residue
    /// is the expected one. Each other end has its cause: that operation answered that stop, or is the OUT of
    /// an output and its value part is outside the output's type; or that output has the residue found, which
    /// isn't the one expected. An end that is no release is repeated from then on, without a call of the
    /// unit. For an honest unit, and cells that hold honest words, words, end and row are those of the
    /// graph's cycle on plain integers, and no output is refused.
    pub fn cycle<U: Unit>(&mut self, unit: &mut U, row: &Row, out: &mut Row) -> CycleEnd
        requires cycle { self.old.cycles < most_cycles }
        requires between { self.old.under_way ≡ false }
        requires out { length out.old ≡ length self.old.graph.outputs }
        ensures whole { self.old.ended ≡ None → Whole self.old.graph.operations self.new.answers }
        ensures carried { self.old.ended ≡ None
            → CarriedCycle self.old self.new row.now (U.seen unit.old).log (U.seen unit.new).log (U.seen unit.old).wrong (U.seen unit.new).wrong }
        ensures end { self.old.ended ≡ None → result ≡ end_of self.old.graph self.old.table self.old.cycles self.new.answers }
        ensures machine { self.old.ended ≡ None → self.new ≡ after_end (with_answers self.old self.new.answers) result }
        ensures out { self.old.ended ≡ None → out.new ≡ row_after (with_answers self.old self.new.answers) result out.old }
        ensures accepted { (result ≡ Released) ↔ ((self.old.ended ≡ None) × Accepted self.old.graph self.old.table self.old.cycles self.new.answers) }
        ensures cause { self.old.ended ≡ None → Cause self.old.graph self.old.table self.old.cycles self.new.answers result }
        ensures repeats { IfSome self.old.ended (λ e. (result ≡ e) × (self.new ≡ self.old) × (out.new ≡ out.old) × (unit.new ≡ unit.old)) }
        ensures between { self.new.under_way ≡ false }
        ensures graph { self.new.graph ≡ self.old.graph }
        ensures table { self.new.table ≡ self.old.table }
        ensures cycles { self.new.cycles ≤ self.old.cycles + 1 }
        ensures width { length out.new ≡ length out.old }
        ensures turn { self.old.ended ≡ None → Turn self.old self.new row.now result (U.seen unit.old).log (U.seen unit.new).log (U.seen unit.old).wrong (U.seen unit.new).wrong }
        ensures honest { self.old.ended ≡ None → (U.seen unit.new).wrong ≡ (U.seen unit.old).wrong → (U.seen unit.old).wrong < 2 ^ 64 - 1
            → FollowsFromCells self.old self.new row.now result out.new }
    {
        // A field is read, so that the proof knows what holds of every machine.
        let _answers = &self.answers;
        if let Some(end) = self.repeated() {
            return end;
        }
        right_answers_stand_for_values();
        if !self.carry(unit, row) {
            return ERRED;
        }
        self.end(out)
    }

    /// Carries the calls of a cycle through a unit, up to the first answer that is no word. It answers whether each
    /// call had the graph's code, and each of an INPUT or a CONST its number. Each has, says the proof; where the processor
    /// erred, it may not.
    #[inline(always)]
    fn carry<U: Unit>(&mut self, unit: &mut U, row: &Row) -> bool
        requires cycle { self.old.cycles < most_cycles }
        requires between { self.old.under_way ≡ false }
        requires going { self.old.ended ≡ None }
        ensures sure { result ≡ true }
        ensures given { given_of self.new ≡ self.new.answers }
        ensures whole { Whole self.old.graph.operations self.new.answers }
        ensures carried { CarriedCycle self.old self.new row.now (U.seen unit.old).log (U.seen unit.new).log (U.seen unit.old).wrong (U.seen unit.new).wrong }
        ensures machine { self.new ≡ record self.old { answers = self.new.answers; under_way = self.new.under_way } }
    {
        let graph = self.graph();
        let begun = self.begin();
        'calls: while let Some(call) = self.following(row, &begun) {
            let answer = unit.perform(&call);
            self.append_answer(&answer);
            if has_number(call.kind) && !has_own_number(graph, row, &call) {
                return false;
            }
        }
        has_code(graph, begun.profile)
    }

    /// Begins a cycle, and tells what its calls have in common.
    #[inline(always)]
    fn begin(&mut self) -> Begun
        requires cycle { self.old.cycles < most_cycles }
        requires going { self.old.ended ≡ None }
        ensures machine { self.new ≡ record self.old { answers = []; under_way = true } }
        ensures cycle { result.cycle ≡ self.old.cycles }
        ensures begun { IsBegun self.old.graph self.old.table result }
    {
        self.answers.clear();
        self.under_way = true;
        self.halted = false;
        begun_cycle(self.graph, self.table, self.cycles)
    }

    /// What `next_call` gives in a cycle that was begun.
    #[inline(always)]
    fn following(&self, row: &Row, begun: &Begun) -> Option<Call>
        requires cycle { self.now.cycles < most_cycles }
        requires going { self.now.ended ≡ None }
        requires way { self.now.under_way ≡ true }
        requires number { begun.now.cycle ≡ self.now.cycles }
        requires begun { IsBegun self.now.graph self.now.table begun.now }
        ensures none { result ≡ None → Finished self.now }
        ensures some { IfSome result (λ call. Awaits self.now) }
        ensures next { IfSome result (λ call. Next (setting self.now row.now) (given_of self.now) call) }
        ensures asked { IfSome result (λ call. Asked call) }
        ensures own { IfSome result (λ call. HasOwnNumber self.now.graph row.now call) }
    {
        if self.halted {
            return None;
        }
        let answered = self.answers.len() as u32;
        if answered >= self.graph.len() {
            return None;
        }
        let op = self.graph.operation(answered);
        let setting = Setting {
            graph: self.graph,
            table: self.table,
            held: &self.held,
            row,
            cycle: self.cycles,
        };
        Some(call_after_words(&setting, begun, &op, &self.answers))
    }

    /// Takes the answer to the next call of a cycle that was begun.
    #[inline(always)]
    fn append_answer(&mut self, answer: &Answer)
        requires awaits { Awaits self.old }
        requires way { self.old.under_way ≡ true }
        ensures { self.new ≡ with_answer self.old answer.now }
    {
        append(&mut self.answers, answer);
        self.halted = !is_word(answer);
    }
}

/// The answers put in this cycle, of those that are kept.
#[inline(always)]
fn given(under_way: bool, answers: &[Answer]) -> &[Answer]
    ensures { result.now ≡ cond under_way answers.now [] }
{
    if under_way { answers } else { &[] }
}

/// Drops the answers of an earlier cycle.
#[inline(always)]
fn keep_given(under_way: bool, answers: &mut Vec<Answer>)
    ensures items { answers.new.items ≡ cond under_way answers.old.items [] }
    ensures capacity { vec_capacity answers.new ≡ vec_capacity answers.old }
{
    if !under_way {
        answers.clear();
    }
}

/// Appends an answer where there is room.
#[inline(always)]
fn append(answers: &mut Vec<Answer>, given: &Answer)
    requires { length answers.old.items < vec_capacity answers.old }
    ensures items { answers.new.items ≡ answers.old.items ++ given.now ∷ [] }
    ensures capacity { vec_capacity answers.old ≤ vec_capacity answers.new }
{
    if answers.push(*given).is_err() {
        unreachable!()
    }
}
