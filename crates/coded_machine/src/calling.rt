//! The call of one operation, from the answers to the earlier ones.

ghost use Rattle.std.specs.Prelude.{◌≡◌, ◌≢◌, ◌<◌, ◌≤◌, ◌⊎◌, Some, true, length, nat_lt, slice_get, unsigned_abs};
ghost use Rattle.vcp_base.specs.Limits.{most_operations, most_cycles};
ghost use Rattle.vcp_base.specs.Kinds.{operands as operands_of};
ghost use Rattle.vcp_base.specs.Values.{at};
ghost use Rattle.coded_unit.specs.Asked.{Asked};
ghost use Rattle.signature_table.specs.Signatures.{IsTableOf};
ghost use Rattle.coded_machine.specs.Calls.{is_word as is_word_of, word_of as word_of_answer, word_at as word_at_of, operand_word, own_number as own_number_of};
ghost use Rattle.coded_machine.specs.Calls.{operation_call as call_of_operation, call_of, AllWords, HasOwnNumber};
ghost use Rattle.coded_machine.specs.Common.{IsBegun};
ghost use Rattle.op_graph.specs.Rules.{IsGraph};
ghost use Rattle.coded_machine.specs.Runs.{setting_at};

use coded_unit::{Answer, Call, Word};
use op_graph::{Graph, Op, entries_keep_their_rules, operands_are_there};
use signature_table::Table;
use vcp_base::{Kind, Profile, Row, operands};

/// What a cycle begins with.
#[derive(Clone, Copy)]
pub struct Setting<'a> {
    /// The operations, and what belongs to them.
    pub graph: &'a Graph,
    /// The numbers of the graph's code.
    pub table: &'a Table,
    /// The words of the cells.
    pub held: &'a [Word],
    /// The values of the inputs.
    pub row: &'a Row,
    /// The number of the cycle, from 0.
    pub cycle: u32,
}

/// What an operation reads.
///
/// An operand that the kind does not have is `Word::ZERO` by custom; no answer depends on it.
#[derive(Clone, Copy)]
pub struct Operands {
    /// The word of the first operand.
    pub a: Word,
    /// The word of the second operand.
    pub b: Word,
    /// The word of the third operand.
    pub c: Word,
    /// The value of the input that an INPUT reads; no other kind reads it.
    pub input: i64,
}

/// Whether an answer is a word, and so tells no stop.
#[inline(always)]
pub fn is_word(answer: &Answer) -> bool
    ensures { result ≡ is_word_of answer.now }
{
    matches!(answer, Answer::Word(_))
}

/// The word of an answer, and 0 where it is none.
#[inline(always)]
fn word_of(answer: &Answer) -> Word
    ensures { result ≡ word_of_answer answer.now }
{
    match answer {
        Answer::Word(w) => *w,
        _ => Word::ZERO,
    }
}

/// The word that operation `k` answered, and 0 where it answered none.
#[inline(always)]
pub fn word_at(answers: &[Answer], k: u32) -> Word
    ensures { result ≡ word_at_of answers.now k }
{
    match answers.get(k as usize) {
        Some(answer) => word_of(answer),
        None => Word::ZERO,
    }
}

/// The word of cell `i`, and 0 where there is no such cell.
#[inline(always)]
pub fn cell_at(held: &[Word], i: u64) -> Word
    ensures { result ≡ at held.now i }
{
    match held.get(i as usize) {
        Some(word) => *word,
        None => Word::ZERO,
    }
}

/// The value of input `i`, and 0 past the row's end.
#[inline(always)]
fn input_at(row: &Row, i: u64) -> i64
    ensures { result ≡ at row.now i }
{
    if i < row.len() as u64 {
        row.at(i as usize)
    } else {
        0
    }
}

/// The value of the input that an INPUT reads, and 0 for any other kind, which reads none.
#[inline(always)]
fn own_input(row: &Row, op: &Op) -> i64
    ensures { op.now.kind ≡ Kind.Input → result ≡ at row.now (unsigned_abs op.now.imm) }
{
    match op.kind {
        Kind::Input => input_at(row, op.imm.unsigned_abs()),
        _ => 0,
    }
}

/// The word of operand `j` of an operation, which reads operation `from`.
#[inline(always)]
fn operand(setting: &Setting<'_>, op: &Op, answers: &[Answer], j: u32, from: u32) -> Word
    ensures { result ≡ operand_word setting.now.held.now answers.now op.now j from }
{
    if operands(op.kind) <= j {
        return Word::ZERO;
    }
    match op.kind {
        Kind::Load => loaded(setting, op),
        _ => word_at(answers, from),
    }
}

/// The word of the cell that a LOAD reads.
#[inline(always)]
fn loaded(setting: &Setting<'_>, op: &Op) -> Word
    ensures { result ≡ at setting.now.held.now (unsigned_abs op.now.imm) }
{
    cell_at(setting.held, op.imm.unsigned_abs())
}

/// The word that operation `k` answered, of answers that are words.
#[inline(always)]
fn word_there(answers: &[Answer], k: u32) -> Word
    requires words { AllWords answers.now }
    requires there { k < length answers.now }
    ensures { result ≡ word_at_of answers.now k }
{
    match answers[k as usize] {
        Answer::Word(word) => word,
        _ => unreachable!(),
    }
}

/// What `operand` gives, where the answers are words and those that the operation reads are there.
#[inline(always)]
fn operand_there(setting: &Setting<'_>, op: &Op, answers: &[Answer], j: u32, from: u32) -> Word
    requires words { AllWords answers.now }
    requires there { op.now.kind ≢ Kind.Load → nat_lt j (operands_of op.now.kind) ≡ true → from < length answers.now }
    ensures { result ≡ operand_word setting.now.held.now answers.now op.now j from }
{
    if operands(op.kind) <= j {
        return Word::ZERO;
    }
    match op.kind {
        Kind::Load => loaded(setting, op),
        _ => word_there(answers, from),
    }
}

/// An operation's own number: the value of its input for INPUT, and else its `imm`.
#[inline(always)]
fn own_number(op: &Op, input: i64) -> i64
    ensures { result ≡ own_number_of op.now.kind op.now.imm input }
{
    match op.kind {
        Kind::Input => input,
        _ => op.imm,
    }
}

/// Whether a kind has a number of its own.
#[inline(always)]
pub(crate) fn has_number(kind: Kind) -> bool
    ensures { result ≡ true → (kind ≡ Kind.Input) ⊎ (kind ≡ Kind.Const) }
{
    matches!(kind, Kind::Input | Kind::Const)
}

/// Whether a call has its graph's code, and that of an INPUT or a CONST its number, which are read anew. It has, says the
/// proof; where the processor erred, it may not. It stands apart, so that it sees the call that the unit was given.
#[inline(never)]
pub(crate) fn has_own_number(graph: &Graph, row: &Row, call: &Call) -> bool
    requires { HasOwnNumber graph.now row.now call.now }
    ensures { result ≡ true }
{
    if call.profile != graph.profile() {
        return false;
    }
    let op = graph.operation(call.op);
    match op.kind {
        Kind::Input => call.imm == input_at(row, op.imm.unsigned_abs()),
        Kind::Const => call.imm == op.imm,
        _ => true,
    }
}

/// Whether a code is the graph's, which is read anew. It is, says the proof; where the processor erred, it may not be.
#[inline(never)]
pub(crate) fn has_code(graph: &Graph, profile: Profile) -> bool
    requires { profile ≡ graph.now.profile }
    ensures { result ≡ true }
{
    profile == graph.profile()
}

/// What the calls of a cycle have in common.
#[derive(Clone, Copy)]
pub(crate) struct Begun {
    /// The code of its words.
    pub profile: Profile,
    /// The number of the cycle, from 0.
    pub cycle: u32,
    /// The stamp of the cycle.
    pub stamp: u32,
}

/// What the calls of a cycle, counted from 0 and below 1,000,000, have in common.
#[inline(always)]
pub(crate) fn begun_cycle(graph: &Graph, table: &Table, cycle: u32) -> Begun
    requires table { IsTableOf table.now graph.now }
    requires cycle { cycle < most_cycles }
    ensures cycle { result.cycle ≡ cycle }
    ensures begun { IsBegun graph.now table.now result }
{
    Begun {
        profile: graph.profile(),
        cycle,
        stamp: table.step() as u32 * (cycle + 1),
    }
}

/// The call of operation `op` of a graph, its number `i`, from what the calls of its cycle have in common.
#[inline(always)]
fn call_from(
    graph: &Graph,
    table: &Table,
    begun: &Begun,
    op: &Op,
    i: u32,
    operands: &Operands,
) -> Call
    requires here { slice_get graph.now.operations i ≡ Some op.now }
    requires table { IsTableOf table.now graph.now }
    requires cycle { begun.now.cycle < most_cycles }
    requires begun { IsBegun graph.now table.now begun.now }
    ensures call { result ≡ call_of_operation graph.now table.now begun.now.cycle i op.now operands.now }
    ensures asked { Asked result }
{
    // What these ensure is of account alone: the graph has the types of its code, and a step is small.
    let _profile = graph.profile();
    let _step = table.step();
    Call {
        op: i,
        cycle: begun.cycle,
        stamp: begun.stamp,
        profile: begun.profile,
        kind: op.kind,
        from: op.from,
        ty: op.ty,
        a: operands.a,
        b: operands.b,
        c: operands.c,
        imm: own_number(op, operands.input),
        corr: table.correction(i),
    }
}

/// The call of operation `op`, which comes after these answers to the earlier ones of its cycle.
#[inline(always)]
pub fn call_after(setting: &Setting<'_>, op: &Op, answers: &[Answer]) -> Call
    requires here { slice_get setting.now.graph.now.operations (length answers.now) ≡ Some op.now }
    requires few { length answers.now ≤ most_operations }
    requires table { IsTableOf setting.now.table.now setting.now.graph.now }
    requires cycle { setting.now.cycle < most_cycles }
    ensures call { result
        ≡ call_of (setting_at setting.now.graph.now setting.now.table.now setting.now.cycle setting.now.held.now setting.now.row.now) op.now answers.now }
    ensures asked { Asked result }
{
    let operands = Operands {
        a: operand(setting, op, answers, 0, op.a),
        b: operand(setting, op, answers, 1, op.b),
        c: operand(setting, op, answers, 2, op.c),
        input: own_input(setting.row, op),
    };
    let begun = begun_cycle(setting.graph, setting.table, setting.cycle);
    call_from(
        setting.graph,
        setting.table,
        &begun,
        op,
        answers.len() as u32,
        &operands,
    )
}

/// What `call_after` gives where the answers are words, from what the calls of the cycle have in common.
#[inline(always)]
pub(crate) fn call_after_words(
    setting: &Setting<'_>,
    begun: &Begun,
    op: &Op,
    answers: &[Answer],
) -> Call
    requires here { slice_get setting.now.graph.now.operations (length answers.now) ≡ Some op.now }
    requires few { length answers.now ≤ most_operations }
    requires graph { IsGraph setting.now.graph.now }
    requires table { IsTableOf setting.now.table.now setting.now.graph.now }
    requires few_cycles { setting.now.cycle < most_cycles }
    requires cycle { begun.now.cycle ≡ setting.now.cycle }
    requires begun { IsBegun setting.now.graph.now setting.now.table.now begun.now }
    requires words { AllWords answers.now }
    ensures call { result
        ≡ call_of (setting_at setting.now.graph.now setting.now.table.now setting.now.cycle setting.now.held.now setting.now.row.now) op.now answers.now }
    ensures asked { Asked result }
{
    // What an operation reads is there.
    entries_keep_their_rules();
    operands_are_there();
    let operands = Operands {
        a: operand_there(setting, op, answers, 0, op.a),
        b: operand_there(setting, op, answers, 1, op.b),
        c: operand_there(setting, op, answers, 2, op.c),
        input: own_input(setting.row, op),
    };
    call_from(
        setting.graph,
        setting.table,
        begun,
        op,
        answers.len() as u32,
        &operands,
    )
}
