//! How many operations are reached, and how many are blind.

ghost use Rattle.std.specs.Prelude.{◌≡◌, ◌<◌, ◌≤◌, cond, length};
ghost use Rattle.weight_audit.specs.AuditText.{is_reached, is_blind as is_blind_of, count_below};

use crate::Weights;

/// One where it holds.
fn one_if(holds: bool) -> u32
    ensures { result ≡ cond holds 1 0 }
{
    if holds { 1 } else { 0 }
}

/// Whether an operation is blind for an output, after so many cycle borders. It is exactly where it is
/// reached and its weight is 0.
pub fn is_blind(weights: &Weights, op: u32, output: u32, after: u32) -> bool
    requires operation { op < weights.now.operations }
    requires output { output < length weights.now.outputs }
    requires after { after ≤ weights.now.horizon }
    ensures { result ≡ is_blind_of weights.now output after op }
{
    weights.reached(op, output, after) && weights.weight(op, output, after) == 0
}

/// From how many of the first `count` operations a path leads to an output, after so many cycle
/// borders.
pub(crate) fn count_reached(weights: &Weights, count: u32, output: u32, after: u32) -> u32
    requires operations { count ≤ weights.now.operations }
    requires output { output < length weights.now.outputs }
    requires after { after ≤ weights.now.horizon }
    ensures { result ≡ count_below (is_reached weights.now output after) count }
{
    let mut reached = 0;
    'operations: for op in 0..count {
        reached += one_if(weights.reached(op, output, after));
    }
    reached
}

/// How many of the first `count` operations are blind for an output, after so many cycle borders.
pub(crate) fn count_blind(weights: &Weights, count: u32, output: u32, after: u32) -> u32
    requires operations { count ≤ weights.now.operations }
    requires output { output < length weights.now.outputs }
    requires after { after ≤ weights.now.horizon }
    ensures { result ≡ count_below (is_blind_of weights.now output after) count }
{
    let mut blind = 0;
    'operations: for op in 0..count {
        blind += one_if(is_blind(weights, op, output, after));
    }
    blind
}
