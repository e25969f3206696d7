//! The weights of a graph.

ghost use Rattle.std.specs.Prelude.{◌≡◌, ◌<◌, ◌≤◌, ℕ, suc, Err, IfOk, IfErr, length};
ghost use Rattle.signature_table.specs.Signatures.{IsTableOf};
ghost use Rattle.fault_script.specs.Sums.{DifferencesAddUp};
ghost use Rattle.op_graph.specs.Rules.{IsGraph};
ghost use Rattle.weight_audit.specs.ClosedForm.{ClosedForm, StaleForm};
ghost use Rattle.weight_audit.specs.Superposition.{Superposition};
ghost use Rattle.vcp_base.specs.Limits.{most_horizon};
ghost use Rattle.weight_audit.specs.Audit.{most_weights, weights_up_to as weights_of, IsAudit};
ghost use Rattle.weight_audit.specs.Sweeping.{IsDistance, AreDistances};
ghost use Rattle.weight_audit.specs.declared.kept.AuditFault.TheVariants as fault;

use crate::kept::{AuditFault, Distance, Distances, Weights};
use crate::laws::{differences_are_superposed, differences_come_as_weights};
use crate::marks::{marks_at, marks_before};
use crate::numbers::{weights_at, weights_before};
use fault_script::differences_add_up;
use op_graph::{Graph, entries_keep_their_rules};
use signature_table::Table;
use std::alloc::Global;
use vcp_base::{Memory, Profile};

/// The most weights that are kept.
const MOST_WEIGHTS: u64 = 16777216;

/// The weights of a graph's operations at each output, after each number of cycle borders up to the
/// horizon, which is at most 1000. The table is the graph's.
///
/// `TooLarge` where operations times outputs times one more than the horizon is above 16,777,216,
/// before any memory is taken. The difference that a fault of a script makes at its operation arrives at
/// each OUT, so many cycle borders later, as the weight times that difference, as `closed` says; of a
/// stale operand `stale` says where that is none. The differences of several faults that add numbers to words
/// add up, as `sums` says; and of whatever acts at whatever operations, `superposition` says what comes of them
/// together. The time is linear in the number of weights, and so is the memory: eight bytes for each, and one
/// for its mark.
///
/// `TooLarge` comes exactly there, with that number; else want of memory is the only refusal. Of a fault
/// alone the difference at an OUT is 0 before the fault's cycle; it comes as an integer over the unreduced
/// sums, and modulo `A` by the weight. Sums are of faults of one run of which no two are at one operation
/// in one cycle.
pub fn weights(
    alloc: Global,
    graph: &Graph,
    table: &Table,
    horizon: u32,
) -> Result<Weights, AuditFault>
    requires table { IsTableOf table.now graph.now }
    requires horizon { horizon ≤ most_horizon }
    ensures weights { IfOk result (λ w. IsAudit graph.now horizon w) }
    ensures closed { ClosedForm table.now graph.now }
    ensures stale { StaleForm table.now graph.now }
    ensures sums { DifferencesAddUp table.now graph.now }
    ensures superposition { Superposition table.now graph.now }
    ensures too_large { most_weights < weights_of graph.now horizon → result ≡ Err (fault.TooLarge (weights_of graph.now horizon)) }
    ensures not_too_large { weights_of graph.now horizon ≤ most_weights → IfErr result (λ why. why ≡ fault.Memory) }
{
    differences_come_as_weights();
    differences_add_up();
    differences_are_superposed();
    let cells = weights_up_to(graph, horizon);
    if cells > MOST_WEIGHTS {
        return Err(AuditFault::TooLarge { cells });
    }
    match all_weights(alloc, graph, table.profile(), horizon) {
        Ok(weights) => Ok(weights),
        Err(_) => Err(AuditFault::Memory),
    }
}

/// How many weights a graph has up to a horizon.
fn weights_up_to(graph: &Graph, horizon: u32) -> u64
    requires { horizon ≤ most_horizon }
    ensures count { result ≡ weights_of graph.now horizon }
    ensures graph { IsGraph graph.now }
{
    graph.len() as u64 * graph.outputs() as u64 * (horizon as u64 + 1)
}

/// The distance of an OUT across no border.
fn distance_at(alloc: Global, graph: &Graph, profile: Profile, out: u32) -> Result<Distance, Memory>
    requires profile { profile ≡ graph.now.profile }
    requires out { out < length graph.now.operations }
    ensures { IfOk result (λ d. IsDistance graph.now out 0 d) }
{
    let weights = weights_at(alloc, graph, profile, out)?;
    let reached = marks_at(alloc, graph, out)?;
    Ok(Distance::new(weights, reached))
}

/// The distance of an OUT across one border more than `later`.
fn distance_before(
    alloc: Global,
    graph: &Graph,
    profile: Profile,
    later: &Distance,
) -> Result<Distance, Memory>
    requires profile { profile ≡ graph.now.profile }
    requires weights { length later.now.weights ≡ length graph.now.operations }
    requires reached { length later.now.reached ≡ length graph.now.operations }
    ensures { IfOk result (λ d. (out borders : ℕ) → IsDistance graph.now out borders later.now → IsDistance graph.now out (suc borders) d) }
{
    let weights = weights_before(alloc, graph, profile, later.weights())?;
    let reached = marks_before(alloc, graph, later.reached())?;
    Ok(Distance::new(weights, reached))
}

/// The distances of an OUT, up to a horizon.
fn distances(
    alloc: Global,
    graph: &Graph,
    profile: Profile,
    out: u32,
    horizon: u32,
) -> Result<Distances, Memory>
    requires profile { profile ≡ graph.now.profile }
    requires out { out < length graph.now.operations }
    requires horizon { horizon ≤ most_horizon }
    ensures { IfOk result (λ ds. AreDistances graph.now out horizon ds) }
{
    let mut distances = Distances::new(alloc);
    let first = distance_at(alloc, graph, profile, out)?;
    distances.push(first)?;
    'borders: for after in 0..horizon {
        let next = distance_before(alloc, graph, profile, distances.at(after as usize))?;
        distances.push(next)?;
    }
    Ok(distances)
}

/// The weights of a graph, where there are not too many.
fn all_weights(
    alloc: Global,
    graph: &Graph,
    profile: Profile,
    horizon: u32,
) -> Result<Weights, Memory>
    requires profile { profile ≡ graph.now.profile }
    requires horizon { horizon ≤ most_horizon }
    ensures { IfOk result (λ w. IsAudit graph.now horizon w) }
{
    // The OUT of each output is an operation.
    entries_keep_their_rules();
    let count = graph.len();
    let mut outputs = Vec::new(alloc);
    'outputs: for i in 0..graph.outputs() {
        let outlet = graph.output(i);
        let of_output = distances(alloc, graph, profile, outlet.op, horizon)?;
        outputs.push(of_output)?;
    }
    Ok(Weights::new(count, horizon, outputs))
}
