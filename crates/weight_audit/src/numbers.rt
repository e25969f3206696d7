//! The weights of all operations at one output, after one number of cycle borders.

ghost use Rattle.std.specs.Option.{is_some};
ghost use Rattle.std.specs.Prelude.{◌≡◌, ◌<◌, ◌≤◌, ℕ, ℤ, List, true, pos, negsuc, ◌+ℤ◌, ◌*ℤ◌, ◌≤ℤ◌, length, replicate, IfOk};
ghost use Rattle.vcp_base.specs.Values.{at};
ghost use Rattle.op_graph.specs.Lists.{cells};
ghost use Rattle.op_graph.specs.Reads.{named};
ghost use Rattle.op_graph.specs.Rules.{IsGraph, reads_as};
ghost use Rattle.weight_audit.specs.Weights.{share, factor as factor_of, weights_from, across};
ghost use Rattle.weight_audit.specs.Sweeping.{number, greater, AreResidues, AreWeights, WeightsBefore};

use coded_unit::{remainder, words_split_in_one_way};
use op_graph::{Cell, Graph, Op, entries_keep_their_rules, operands_are_there, reads_operation};
use std::alloc::Global;
use vcp_base::{Memory, Profile, Residue, multiplier};

/// A number, and a factor times another.
fn plus(number: Residue, factor: i32, by: Residue) -> i128
    requires low { negsuc 1 ≤ℤ factor }
    requires high { factor ≤ℤ pos 20 }
    ensures { result ≡ pos number +ℤ factor *ℤ pos by }
{
    number as i128 + factor as i128 * by as i128
}

/// Makes the number of operation `n` greater by a factor times `by`.
fn add(profile: Profile, numbers: &mut [Residue], n: u32, factor: i32, by: Residue)
    requires place { n < length numbers.old }
    requires low { negsuc 1 ≤ℤ factor }
    requires high { factor ≤ℤ pos 20 }
    ensures residues { (count : ℕ) (integers : ℕ → ℤ) → AreResidues profile count integers numbers.old
        → AreResidues profile count (greater integers n (factor *ℤ pos by)) numbers.new }
    ensures many { length numbers.new ≡ length numbers.old }
{
    // Residues of sums are those of the sums of residues.
    words_split_in_one_way();
    numbers[n as usize] = remainder(profile, plus(numbers[n as usize], factor, by));
}

/// Hands the weight of an operation on to what it reads as its operand `j`, which is operation `n`.
fn hand_on(profile: Profile, op: &Op, j: u32, n: u32, weight: Residue, numbers: &mut [Residue])
    requires names { named op.now j ≡ n }
    requires there { is_some (reads_as op.now.kind op.now.from j) ≡ true → n < length numbers.old }
    ensures residues { (count : ℕ) (integers : ℕ → ℤ) → AreResidues profile count integers numbers.old
        → AreResidues profile count (λ k. integers k +ℤ share op.now k j *ℤ pos weight) numbers.new }
    ensures many { length numbers.new ≡ length numbers.old }
{
    if reads_operation(op.kind, j) {
        add(profile, numbers, n, multiplier(op.kind, j), weight);
    }
}

/// Hands the weight of an operation on to what it reads.
fn hand_on_all(profile: Profile, op: &Op, weight: Residue, numbers: &mut [Residue])
    requires there { (j : ℕ) → is_some (reads_as op.now.kind op.now.from j) ≡ true → named op.now j < length numbers.old }
    ensures residues { (count : ℕ) (integers : ℕ → ℤ) → AreResidues profile count integers numbers.old
        → AreResidues profile count (λ k. integers k +ℤ factor_of op.now k *ℤ pos weight) numbers.new }
    ensures many { length numbers.new ≡ length numbers.old }
{
    hand_on(profile, op, 0, op.a, weight, numbers);
    hand_on(profile, op, 1, op.b, weight, numbers);
    hand_on(profile, op, 2, op.c, weight, numbers);
}

/// Goes from the last operation to the first, and hands the weight of each on to what it reads. The
/// numbers are those of the paths that end at an operation or leave it across a border, and become
/// those of all paths.
fn sweep(graph: &Graph, profile: Profile, numbers: &mut [Residue])
    requires profile { profile ≡ graph.now.profile }
    requires many { length numbers.old ≡ length graph.now.operations }
    ensures { (leaving : ℕ → ℤ) → AreResidues profile (length graph.now.operations) leaving numbers.old
        → AreResidues profile (length graph.now.operations) (at (weights_from leaving 0 graph.now.operations)) numbers.new }
{
    // What an operation reads is an earlier one.
    operands_are_there();
    words_split_in_one_way();
    let count = graph.len();
    'operations: for done in 0..count {
        let k = count - 1 - done;
        let weight = numbers[k as usize];
        hand_on_all(profile, &graph.operation(k), weight, numbers);
    }
}

/// Makes zeros the weights of the operations at the OUT `out` across no border.
fn weigh_to_out(graph: &Graph, profile: Profile, out: u32, numbers: &mut [Residue])
    requires profile { profile ≡ graph.now.profile }
    requires out { out < length graph.now.operations }
    requires zeros { numbers.old ≡ replicate (length graph.now.operations) 0 }
    ensures { AreWeights graph.now out 0 numbers.new }
{
    words_split_in_one_way();
    add(profile, numbers, out, 1, 1);
    sweep(graph, profile, numbers);
}

/// The weights of the operations at the OUT `out` across no border.
pub(crate) fn weights_at(
    alloc: Global,
    graph: &Graph,
    profile: Profile,
    out: u32,
) -> Result<Vec<Residue>, Memory>
    requires profile { profile ≡ graph.now.profile }
    requires out { out < length graph.now.operations }
    ensures { IfOk result (λ numbers. AreWeights graph.now out 0 numbers.items) }
{
    let mut numbers = vec![in alloc; 0; graph.len() as usize]?;
    weigh_to_out(graph, profile, out, &mut numbers);
    Ok(numbers)
}

/// The weight of a cell's LOAD goes to its STORE.
fn cross(profile: Profile, cell: &Cell, later: &[Residue], numbers: &mut [Residue])
    requires store { cell.now.store < length numbers.old }
    requires load { cell.now.load < length later.now }
    ensures residues { (count : ℕ) (integers : ℕ → ℤ) → AreResidues profile count integers numbers.old
        → AreResidues profile count (greater integers cell.now.store (pos (number later.now cell.now.load))) numbers.new }
    ensures many { length numbers.new ≡ length numbers.old }
{
    add(profile, numbers, cell.store, 1, later[cell.load as usize]);
}

/// Makes zeros the weights of the paths that begin with a cycle border, from those of the LOADs after
/// it.
fn weigh_stores(graph: &Graph, profile: Profile, later: &[Residue], numbers: &mut [Residue])
    requires many { length later.now ≡ length graph.now.operations }
    requires graph { IsGraph graph.now }
    requires zeros { numbers.old ≡ replicate (length graph.now.operations) 0 }
    ensures many { length numbers.new ≡ length graph.now.operations }
    ensures residues { (weights : List ℤ) → AreResidues profile (length graph.now.operations) (at weights) later.now
        → AreResidues profile (length graph.now.operations) (across (cells graph.now) weights) numbers.new }
{
    // The LOAD and the STORE of each cell are operations.
    entries_keep_their_rules();
    words_split_in_one_way();
    'cells: for i in 0..graph.cells() {
        cross(profile, &graph.cell(i), later, numbers);
    }
}

/// Makes zeros the weights of the operations at an OUT across one border more than `later` are.
fn weigh_to_border(graph: &Graph, profile: Profile, later: &[Residue], numbers: &mut [Residue])
    requires profile { profile ≡ graph.now.profile }
    requires many { length later.now ≡ length graph.now.operations }
    requires graph { IsGraph graph.now }
    requires zeros { numbers.old ≡ replicate (length graph.now.operations) 0 }
    ensures { WeightsBefore graph.now later.now numbers.new }
{
    weigh_stores(graph, profile, later, numbers);
    sweep(graph, profile, numbers);
}

/// The weights of the operations at an OUT across one border more than `later` are.
pub(crate) fn weights_before(
    alloc: Global,
    graph: &Graph,
    profile: Profile,
    later: &[Residue],
) -> Result<Vec<Residue>, Memory>
    requires profile { profile ≡ graph.now.profile }
    requires many { length later.now ≡ length graph.now.operations }
    ensures { IfOk result (λ numbers. WeightsBefore graph.now later.now numbers.items) }
{
    let mut numbers = vec![in alloc; 0; graph.len() as usize]?;
    weigh_to_border(graph, profile, later, &mut numbers);
    Ok(numbers)
}
