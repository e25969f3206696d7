//! Words that change between two of their readings: the same number is added in each of the later ones.

ghost use Rattle.std.specs.Prelude.{◌≡◌, ◌<◌, ◌≤◌, ◌+◌, ◌*◌, ◌∷◌, [], ℕ, true, false, nat_le, drop, length, slice_get, Some, IfOk};
ghost use Rattle.vcp_base.specs.Limits.{most_cycles};
ghost use Rattle.vcp_outside.specs.Pens.{Goes};
ghost use Rattle.op_graph.specs.Lists.{Lists};
ghost use Rattle.op_graph.specs.Rules.{is_out as is_out_of};
ghost use Rattle.fault_sites.specs.Readings.{AreReadings};
ghost use Rattle.fault_sites.specs.Counted.{AreCounted, IsCounted};
ghost use Rattle.fault_sites.specs.Rests.{changed, groups as groups_of_run, groups_at, groups_by, groups_in, groups_of, place as place_of, rises};
ghost use Rattle.fault_sites.specs.Spending.{fed_groups, within, Spends};
ghost use Rattle.fault_sites.specs.Telling.{fed_lines};

use crate::budget::Budget;
use crate::lines::then_site;
use crate::reading::Reading;
use crate::site::Site;
use crate::values::{ADDENDS, addend};
use crate::words_read::{WordReadings, readings};
use fault_script::Act;
use op_graph::Graph;
use std::alloc::Global;
use vcp_base::{Kind, Memory};
use vcp_outside::Pen;

/// A number that is greater in a later cycle, and in a cycle at a later operation.
fn place(r: &Reading) -> u64
    ensures { result ≡ place_of r.now }
{
    r.borders as u64 * 4294967296 + r.op as u64
}

/// From which reading on each stands behind the one before it.
fn first_rising(rs: &[Reading]) -> usize
    ensures { (i : ℕ) → rises (drop i rs.now) ≡ nat_le result i }
{
    let mut first = 0;
    'readings: for i in 1..rs.len() {
        if place(&rs[i]) <= place(&rs[i - 1]) {
            first = i;
        }
    }
    first
}

/// Goes on with a number that is added in each of these readings of a word of cycle `n`.
fn then_changed<P: Pen>(mut pen: P, n: u32, rs: &[Reading], e: i64) -> P
    requires { n < most_cycles }
    ensures { Goes (P.seen pen) (P.seen result) (fed_lines (changed n e rs.now)) }
{
    'readings: for i in 0..rs.len() {
        let reading = &rs[i];
        let site = Site {
            cycle: n + reading.borders as u32,
            op: reading.op,
            act: Act::OperandAdd {
                j: reading.operand,
                e,
            },
        };
        pen = then_site(pen.text(b"\n"), &site);
    }
    pen
}

/// A pen, and the budget of the groups that are still to be written with it.
pub(crate) struct Spending<P> {
    pub(crate) pen: P,
    pub(crate) budget: Budget,
}

/// Goes on with the group, where it is within the budget.
fn then_group<P: Pen>(spent: Spending<P>, n: u32, rs: &[Reading], e: i64) -> Spending<P>
    requires { n < most_cycles }
    ensures { Spends (P.seen spent.pen) (P.seen result.pen) spent.budget result.budget (changed n e rs.now ∷ []) }
{
    let Spending { pen, budget } = spent;
    if budget.left == 0 {
        return Spending { pen, budget };
    }
    if 0 < budget.skip {
        let budget = Budget {
            skip: budget.skip - 1,
            left: budget.left,
            room: budget.room,
        };
        return Spending { pen, budget };
    }
    let count = rs.len() as u64;
    if budget.room < count {
        let budget = Budget {
            skip: 0,
            left: 0,
            room: budget.room,
        };
        return Spending { pen, budget };
    }
    let pen = then_changed(pen.text(b"\nbegin"), n, rs, e).text(b"\nend");
    let budget = Budget {
        skip: 0,
        left: budget.left - 1,
        room: budget.room - count,
    };
    Spending { pen, budget }
}

/// Goes on with each number that is added in these readings, where each of them stands behind the one before it, which is known; with none, where they
/// don't.
fn then_groups_of<P: Pen>(
    mut spent: Spending<P>,
    n: u32,
    rs: &[Reading],
    rising: bool,
) -> Spending<P>
    requires few { n < most_cycles }
    requires rises { rises rs.now ≡ rising }
    ensures { Spends (P.seen spent.pen) (P.seen result.pen) spent.budget result.budget (groups_of n rs.now) }
{
    if !rising {
        return spent;
    }
    'values: for v in 0..ADDENDS {
        spent = then_group(spent, n, rs, addend(v));
    }
    spent
}

/// Goes on with the groups of a word with these readings.
fn then_groups_by<P: Pen>(mut spent: Spending<P>, n: u32, rs: &[Reading]) -> Spending<P>
    requires { n < most_cycles }
    ensures { Spends (P.seen spent.pen) (P.seen result.pen) spent.budget result.budget (groups_by n rs.now) }
{
    let first = first_rising(rs);
    'readings: for i in 0..rs.len().saturating_sub(2) {
        spent = then_groups_of(spent, n, &rs[i + 1..], first <= i + 1);
    }
    spent
}

/// Whether an operation is an OUT.
pub fn is_out(kind: Kind) -> bool
    ensures { result ≡ is_out_of kind }
{
    match kind {
        Kind::Out => true,
        _ => false,
    }
}

/// The readings of the word of operation `k`.
fn word_at(by_word: &[WordReadings], k: u32) -> &[Reading]
    requires { k < length by_word.now }
    ensures { slice_get by_word.now k ≡ Some result.now }
{
    let word = &by_word[k as usize];
    word.all()
}

/// Goes on with the groups of the word of operation `k`; none of an OUT's.
fn then_operation<P: Pen>(
    spent: Spending<P>,
    n: u32,
    graph: &Graph,
    more: bool,
    by_word: &[WordReadings],
    k: u32,
) -> Spending<P>
    requires few { n < most_cycles }
    requires there { k < length graph.now.operations }
    requires readings { AreReadings graph.now more by_word.now }
    ensures { Spends (P.seen spent.pen) (P.seen result.pen) spent.budget result.budget
        (groups_at graph.now more n k (slice_get graph.now.operations k)) }
{
    let op = graph.operation(k);
    if is_out(op.kind) {
        return spent;
    }
    then_groups_by(spent, n, word_at(by_word, k))
}

/// How many groups the word of operation `k` has.
fn count_at(graph: &Graph, more: bool, by_word: &[WordReadings], k: u32) -> u64
    requires there { k < length graph.now.operations }
    requires readings { AreReadings graph.now more by_word.now }
    ensures count { (n : ℕ) → result ≡ length (groups_at graph.now more n k (slice_get graph.now.operations k)) }
    ensures few { result ≤ 32505856 }
{
    let _operations = graph.len();
    let op = graph.operation(k);
    if is_out(op.kind) {
        return 0;
    }
    let rs = word_at(by_word, k);
    let before = first_rising(rs).saturating_sub(1);
    let count = rs.len().saturating_sub(2);
    124 * count.saturating_sub(before) as u64
}

/// Goes on with the groups of cycle `n`, behind which there is another one or none.
fn then_cycle<P: Pen>(
    mut spent: Spending<P>,
    n: u32,
    graph: &Graph,
    more: bool,
    by_word: &[WordReadings],
) -> Spending<P>
    requires few { n < most_cycles }
    requires readings { AreReadings graph.now more by_word.now }
    ensures { Spends (P.seen spent.pen) (P.seen result.pen) spent.budget result.budget (groups_in graph.now more n) }
{
    'operations: for k in 0..graph.len() {
        spent = then_operation(spent, n, graph, more, by_word, k);
    }
    spent
}

/// How many groups there are in a cycle behind which there is another one or none.
fn count_in(graph: &Graph, more: bool, by_word: &[WordReadings]) -> u64
    requires { AreReadings graph.now more by_word.now }
    ensures count { (n : ℕ) → result ≡ length (groups_in graph.now more n) }
    ensures few { result ≤ 2130303778816 }
{
    let mut count = 0;
    'operations: for k in 0..graph.len() {
        count += count_at(graph, more, by_word, k);
    }
    count
}

/// The readings of each word in a cycle behind which there is another one or none, and how many groups they make.
#[derive(Drop)]
pub(crate) struct CycleReadings {
    pub(crate) by_word: Vec<WordReadings>,
    pub(crate) groups: u64,
}

/// The readings of such a cycle.
fn cycle_readings(alloc: Global, graph: &Graph, more: bool) -> Result<CycleReadings, Memory>
    ensures { IfOk result (λ r. IsCounted graph.now more r) }
{
    let by_word = readings(alloc, graph, more)?;
    let groups = count_in(graph, more, &by_word);
    Ok(CycleReadings { by_word, groups })
}

/// Goes on with the groups of cycle `n`, and passes over them at once where they all stand before the part.
fn then_cycle_or_pass<P: Pen>(
    spent: Spending<P>,
    n: u32,
    graph: &Graph,
    more: bool,
    readings: &CycleReadings,
) -> Spending<P>
    requires few { n < most_cycles }
    requires readings { IsCounted graph.now more readings.now }
    ensures { Spends (P.seen spent.pen) (P.seen result.pen) spent.budget result.budget (groups_in graph.now more n) }
{
    let Spending { pen, budget } = spent;
    if budget.left == 0 {
        return Spending { pen, budget };
    }
    if readings.groups <= budget.skip {
        let budget = Budget {
            skip: budget.skip - readings.groups,
            left: budget.left,
            room: budget.room,
        };
        return Spending { pen, budget };
    }
    let spent = Spending { pen, budget };
    then_cycle(spent, n, graph, more, &readings.by_word)
}

/// The readings of a cycle behind which there is another one, and of the last one.
#[derive(Drop)]
pub(crate) struct RunReadings {
    pub(crate) going: CycleReadings,
    pub(crate) last: CycleReadings,
}

/// The readings of all cycles.
pub(crate) fn run_readings(alloc: Global, graph: &Graph) -> Result<RunReadings, Memory>
    ensures { IfOk result (λ r. AreCounted graph.now r) }
{
    let going = cycle_readings(alloc, graph, true)?;
    let last = cycle_readings(alloc, graph, false)?;
    Ok(RunReadings { going, last })
}

/// The readings of a cycle behind which there is another one or none.
fn readings_of(readings: &RunReadings, more: bool) -> &CycleReadings
    ensures { (g : Lists) → AreCounted g readings.now → IsCounted g more result.now }
{
    if more {
        &readings.going
    } else {
        &readings.last
    }
}

/// Goes on with the groups of the first cycles.
pub(crate) fn then_rests<P: Pen>(
    mut spent: Spending<P>,
    graph: &Graph,
    readings: &RunReadings,
    cycles: u32,
) -> Spending<P>
    requires few { cycles ≤ most_cycles }
    requires readings { AreCounted graph.now readings.now }
    ensures { Spends (P.seen spent.pen) (P.seen result.pen) spent.budget result.budget (groups_of_run graph.now cycles) }
{
    'cycles: for n in 0..cycles {
        let more = n + 1 < cycles;
        let here = readings_of(readings, more);
        spent = then_cycle_or_pass(spent, n, graph, more, here);
    }
    spent
}

/// Goes on with those of these groups that are within a budget.
pub(crate) fn then_within<P: Pen>(
    pen: P,
    budget: Budget,
    graph: &Graph,
    readings: &RunReadings,
    cycles: u32,
) -> P
    requires few { cycles ≤ most_cycles }
    requires readings { AreCounted graph.now readings.now }
    ensures { Goes (P.seen pen) (P.seen result) (fed_groups (within budget (groups_of_run graph.now cycles))) }
{
    let spent = Spending { pen, budget };
    let Spending { pen, budget: _ } = then_rests(spent, graph, readings, cycles);
    pen
}

/// How many groups there are in the first cycles.
pub(crate) fn count_rests(graph: &Graph, readings: &RunReadings, cycles: u32) -> u64
    requires few { cycles ≤ most_cycles }
    requires readings { AreCounted graph.now readings.now }
    ensures { result ≡ length (groups_of_run graph.now cycles) }
{
    if cycles == 0 {
        return 0;
    }
    readings.going.groups * (cycles - 1) as u64 + readings.last.groups
}
