//! Where what is amiss begins to spread.

ghost use Rattle.std.specs.Prelude.{◌≡◌, ◌<◌, ◌≤◌, ◌^◌, None, pos, negsuc, neg_ℤ, ◌+ℤ◌, ◌-ℤ◌, ◌*ℤ◌, ◌≤ℤ◌, length, map};
ghost use Rattle.std.specs.Prelude.{IfOk};
ghost use Rattle.vcp_base.specs.Code.{modulus as modulus_of};
ghost use Rattle.vcp_base.specs.Kinds.{multiplier as multiplier_of};
ghost use Rattle.coded_unit.specs.Words.{Small as Moderate};
ghost use Rattle.op_graph.specs.Reads.{named as named_of};
ghost use Rattle.signature_table.specs.Signatures.{signature};
ghost use Rattle.fault_script.specs.Differences.{made, origin as origin_of, exchanged as exchanged_of};
ghost use Rattle.fault_cover.specs.Beginnings.{AreReadings, IsStart, amount_of, rest_of, start_at, starts_of};
ghost use Rattle.fault_cover.specs.Sources.{as_source};

use crate::disturbance::Disturbance;
use coded_unit::remainder;
use fault_script::Act;
use fault_sites::{Reading, WordReadings, readings as readings_of};
use op_graph::{Graph, Op, named};
use signature_table::{Table, read_signature, signature_of, store_of};
use std::alloc::Global;
use vcp_base::{CopyList, Kind, Memory, Profile, Residue, multiplier};

/// Words of an operation differ, so many cycle borders behind the fault: by this residue, or by it for each 1 of a number of which nothing is known.
#[derive(Clone, Copy)]
pub(crate) struct Start {
    pub(crate) op: u32,
    pub(crate) borders: u32,
    pub(crate) amount: Residue,
}

/// The readings of a word, in order, seen as a list.
pub(crate) type Starts = CopyList<Start>;

/// Where what is added to a word begins to spread from a reading of it.
fn start_by(profile: Profile, reading: &Reading) -> Start
    ensures { result ≡ start_at profile (as_source reading.now) }
{
    Start {
        op: reading.op,
        borders: reading.borders as u32,
        amount: remainder(profile, reading.multiplier as i128),
    }
}

/// The same of each of these readings of a word.
fn starts_by(alloc: Global, profile: Profile, readings: &[Reading]) -> Result<Starts, Memory>
    ensures { IfOk result (λ starts. starts ≡ starts_of profile readings.now) }
{
    let mut starts = Starts::new(alloc);
    'readings: for i in 0..readings.len() {
        starts.push(start_by(profile, &readings[i]))?;
    }
    Ok(starts)
}

/// The same of each word.
fn starts_by_word(
    alloc: Global,
    profile: Profile,
    by_word: &[WordReadings],
) -> Result<Vec<Starts>, Memory>
    ensures { IfOk result (λ starts. starts.items ≡ map (starts_of profile) by_word.now) }
{
    let mut starts = Vec::new(alloc);
    'words: for k in 0..by_word.len() {
        let word = &by_word[k];
        starts.push(starts_by(alloc, profile, word.all())?)?;
    }
    Ok(starts)
}

/// The readings of each operation's word.
pub(crate) fn readings(
    alloc: Global,
    graph: &Graph,
    profile: Profile,
) -> Result<Vec<Starts>, Memory>
    requires { profile ≡ graph.now.profile }
    ensures { IfOk result (λ by_word. AreReadings graph.now by_word.items) }
{
    let by_word = readings_of(alloc, graph, true)?;
    starts_by_word(alloc, profile, &by_word)
}

/// The signature that an operand of an operation has, where it names operation `n`.
fn origin(graph: &Graph, table: &Table, op: &Op, j: u32, n: u32) -> i64
    requires { named_of op.now j ≡ n }
    ensures value { result ≡ origin_of table.now graph.now op.now j }
    ensures low { negsuc 1000 ≤ℤ result }
    ensures high { result ≤ℤ pos (2 ^ 60) }
{
    let store = store_of(graph, op);
    read_signature(
        table.profile(),
        table.seed(),
        table.step(),
        store,
        op.kind,
        n,
    )
}

/// A number times a factor, which is a multiplier or the difference of two.
fn weighed(factor: i32, number: i64) -> i128
    requires low { negsuc 21 ≤ℤ factor }
    requires high { factor ≤ℤ pos 22 }
    ensures value { result ≡ factor *ℤ number }
    ensures fits { Moderate result }
{
    factor as i128 * number as i128
}

/// By how much a signature, less by so much, is more than another.
fn apart(signature: Residue, less: u16, other: i64) -> i64
    requires signature { signature < 2 ^ 60 }
    requires low { negsuc 1000 ≤ℤ other }
    requires high { other ≤ℤ pos (2 ^ 60) }
    ensures { result ≡ pos signature -ℤ pos less -ℤ other }
{
    signature as i64 - less as i64 - other
}

/// The difference that the word of operation `r`, less by `less`, makes as operand `j`.
fn exchanged(graph: &Graph, table: &Table, op: &Op, j: u32, r: u32, less: u16) -> i128
    ensures value { result ≡ multiplier_of op.now.kind j *ℤ (pos
        (signature table.now.profile table.now.seed r) -ℤ pos less -ℤ origin_of table.now graph.now op.now j) }
    ensures fits { Moderate result }
{
    let wanted = origin(graph, table, op, j, named(op, j));
    let signature = signature_of(table.profile(), table.seed(), r);
    weighed(multiplier(op.kind, j), apart(signature, less, wanted))
}

/// By how much the multiplier of another kind is more.
fn factor(op: &Op, other: Kind, j: u32) -> i32
    ensures value { result ≡ multiplier_of other j -ℤ multiplier_of op.now.kind j }
    ensures low { negsuc 21 ≤ℤ result }
    ensures high { result ≤ℤ pos 22 }
{
    multiplier(other, j) - multiplier(op.kind, j)
}

/// What another kind makes of operand `j`'s signature.
fn weighed_as(graph: &Graph, table: &Table, op: &Op, other: Kind, j: u32) -> i128
    ensures value { result ≡ exchanged_of table.now graph.now op.now other j }
    ensures fits { Moderate result }
{
    let wanted = origin(graph, table, op, j, named(op, j));
    weighed(factor(op, other, j), wanted)
}

/// The sum of three numbers.
fn sum(first: i128, second: i128, third: i128) -> i128
    requires first { Moderate first }
    requires second { Moderate second }
    requires third { Moderate third }
    ensures { result ≡ first +ℤ second +ℤ third }
{
    first + second + third
}

/// What another kind makes of the signatures of the operands.
fn operated(graph: &Graph, table: &Table, op: &Op, other: Kind) -> i128
    ensures { result ≡ exchanged_of table.now graph.now op.now other 0 +ℤ exchanged_of table.now graph.now op.now other 1
        +ℤ exchanged_of table.now graph.now op.now other 2 }
{
    let first = weighed_as(graph, table, op, other, 0);
    let second = weighed_as(graph, table, op, other, 1);
    let third = weighed_as(graph, table, op, other, 2);
    sum(first, second, third)
}

/// The step, taken away.
fn less_step(table: &Table) -> i64
    ensures { result ≡ neg_ℤ (pos table.now.step) }
{
    -(table.step() as i64)
}

/// The difference that an act makes at its operation, where nothing before it is amiss.
fn made_by(graph: &Graph, table: &Table, op: &Op, act: Act) -> i128
    ensures { result ≡ made table.now graph.now op.now act }
{
    match act {
        Act::OperandAdd { j, e } => weighed(multiplier(op.kind, j), e),
        Act::OperandFrom { j, r } => exchanged(graph, table, op, j, r, 0),
        Act::OperandStale { j } => weighed(multiplier(op.kind, j), less_step(table)),
        Act::ResultAdd { e } => e as i128,
        Act::Operator { kind } => operated(graph, table, op, kind),
        Act::Skip => less_step(table) as i128,
    }
}

/// How much what is amiss at an operation makes there, but for a word that changes between two readings.
fn amount(graph: &Graph, table: &Table, op: &Op, disturbance: Disturbance) -> i128
    ensures { result ≡ amount_of table.now graph.now op.now disturbance }
{
    match disturbance {
        Disturbance::AddToResult => 1,
        Disturbance::AddToOperand { j } => multiplier(op.kind, j) as i128,
        Disturbance::AddToRest { right: _ } => 0,
        Disturbance::Late { j, r } => exchanged(graph, table, op, j, r, table.step()),
        Disturbance::Does(act) => made_by(graph, table, op, act),
    }
}

/// Where what is amiss at operation `k` begins to spread, which is the operation itself.
pub(crate) fn start_of(graph: &Graph, table: &Table, k: u32, disturbance: &Disturbance) -> Start
    requires there { k < length graph.now.operations }
    requires one { rest_of disturbance.now ≡ None }
    ensures is { IsStart table.now graph.now k disturbance.now result }
    ensures op { result.op ≡ k }
    ensures borders { result.borders ≡ 0 }
    ensures amount { result.amount < modulus_of graph.now.profile }
{
    let op = graph.operation(k);
    Start {
        op: k,
        borders: 0,
        amount: remainder(graph.profile(), amount(graph, table, &op, *disturbance)),
    }
}
