//! What is reached from each operation across the fewest cycle borders.
//!
//! The walk goes border by border: first to what is reached without one, and from there, as long as a STORE is found from which nothing was reached
//! so far, one border further. So it ends behind as many borders as there are cells, and says what is reached across any number.

ghost use Rattle.std.specs.Option.{is_some, is_none};
ghost use Rattle.std.specs.Prelude.{◌≡◌, ◌≢◌, ◌+◌, ◌<◌, ◌^◌, ◌&&◌, ℕ, List, Bool, true, false, Some, length, IfOk, slice_get};
ghost use Rattle.op_graph.specs.declared.op.Op.{Op as Operation};
ghost use Rattle.fault_cover.specs.declared.nearest.Nearest.{Nearest as Found};
ghost use Rattle.op_graph.specs.Reads.{named, Reads};
ghost use Rattle.op_graph.specs.Rules.{IsGraph, reads_as};
ghost use Rattle.weight_audit.specs.Sweeping.{Takes};
ghost use Rattle.fault_cover.specs.Walks.{is_nearer as is_nearer_of, nearer as nearer_of, further as further_of, kept, NotFurther, HandsOn, Swept};
ghost use Rattle.fault_cover.specs.Walks.{AreFound, AreNearest, AreWithin, CrossesBelow, IsBegun, ReadsBelow, itself as itself_of, missing, up_to};

use op_graph::{Cell, Graph, Op, entries_keep_their_rules, operands_are_there, reads_operation};
use range_walk::either_holds;
use std::alloc::Global;
use vcp_base::Memory;

/// An operation that is reached, and across how many cycle borders.
#[derive(Clone, Copy)]
pub(crate) struct Nearest {
    pub(crate) borders: u32,
    pub(crate) op: u32,
}

/// Whether the first is nearer: across fewer borders, or as many and with a lower number.
pub(crate) fn is_nearer(new: Nearest, old: Nearest) -> bool
    ensures { result ≡ is_nearer_of new old }
{
    new.borders < old.borders || new.borders == old.borders && new.op < old.op
}

/// The nearer of two that are there.
pub(crate) fn nearer(one: Option<Nearest>, other: Option<Nearest>) -> Option<Nearest>
    ensures { result ≡ nearer_of one other }
{
    match one {
        None => other,
        Some(old) => match other {
            None => one,
            Some(new) => if is_nearer(new, old) { other } else { one },
        },
    }
}

/// The nearest across this many borders more.
pub(crate) fn further(near: Option<Nearest>, borders: u32) -> Option<Nearest>
    requires { (n : Found) → near ≡ Some n → n.borders + borders < 2 ^ 32 }
    ensures { result ≡ further_of near borders }
{
    match near {
        None => None,
        Some(near) => Some(Nearest {
            borders: near.borders + borders,
            op: near.op,
        }),
    }
}

/// What is reached from operation `n` may be this.
fn offer(found: &mut [Option<Nearest>], n: u32, near: Option<Nearest>)
    requires place { n < length found.old }
    ensures many { length found.new ≡ length found.old }
    ensures here { kept found.new n ≡ nearer_of (kept found.old n) near }
    ensures other { (k : ℕ) → k ≢ n → kept found.new k ≡ kept found.old k }
{
    found[n as usize] = nearer(found[n as usize], near);
}

/// Hands what is reached from an operation on to what it reads as its operand `j`, which is operation `n`.
fn hand_on(op: &Op, j: u32, n: u32, near: Option<Nearest>, found: &mut [Option<Nearest>])
    requires names { named op.now j ≡ n }
    requires there { is_some (reads_as op.now.kind op.now.from j) ≡ true → n < length found.old }
    ensures hands { HandsOn op.now near found.old found.new }
    ensures handed { is_some (reads_as op.now.kind op.now.from j) ≡ true → NotFurther (kept found.new n) near }
{
    if !reads_operation(op.kind, j) {
        return;
    }
    offer(found, n, near);
}

/// Hands it on to what the operation reads.
fn hand_on_all(op: &Op, near: Option<Nearest>, found: &mut [Option<Nearest>])
    requires there { (k : ℕ) → Takes op.now k → k < length found.old }
    ensures hands { HandsOn op.now near found.old found.new }
    ensures handed { (k : ℕ) → Takes op.now k → NotFurther (kept found.new k) near }
{
    hand_on(op, 0, op.a, near, found);
    hand_on(op, 1, op.b, near, found);
    hand_on(op, 2, op.c, near, found);
}

/// Hands what is reached from operation `q` on to what it reads.
fn hand_on_from(graph: &Graph, q: u32, found: &mut [Option<Nearest>])
    requires graph { IsGraph graph.now }
    requires there { q < length graph.now.operations }
    requires count { length found.old ≡ length graph.now.operations }
    ensures hands { (op : Operation) → slice_get graph.now.operations q ≡ Some op → HandsOn op (kept found.old q) found.old found.new }
    ensures handed { (k j : ℕ) → Reads graph.now.operations q k j → NotFurther (kept found.new k) (kept found.old q) }
{
    // What an operation reads is an earlier one.
    operands_are_there();
    let op = graph.operation(q);
    let near = found[q as usize];
    hand_on_all(&op, near, found);
}

/// Goes from the last operation to the first, and hands on what is reached from each to what it reads.
fn sweep(graph: &Graph, found: &mut [Option<Nearest>])
    requires { length found.old ≡ length graph.now.operations }
    ensures many { length found.new ≡ length graph.now.operations }
    ensures found { (wanted : List Bool) → AreFound graph.now wanted found.old → AreFound graph.now wanted found.new }
    ensures reads { (borders : ℕ) → ReadsBelow graph.now borders found.new }
    ensures swept { (borders : ℕ) → ReadsBelow graph.now borders found.old → Swept borders found.old found.new }
    ensures within { (borders : ℕ) → AreWithin borders found.old → AreWithin borders found.new }
{
    // What an operation reads is an earlier one.
    operands_are_there();
    let count = graph.len();
    'operations: for done in 0..count {
        hand_on_from(graph, count - 1 - done, found);
    }
}

/// Hands what is reached from the LOAD of a cell on to its STORE, across one border more; whether nothing was found there before. What is reached
/// across more than so many borders was found meanwhile, and is passed over.
fn cross(cell: &Cell, borders: u32, found: &mut [Option<Nearest>]) -> bool
    requires store { cell.now.store < length found.old }
    requires load { cell.now.load < length found.old }
    requires few { borders + 1 < 2 ^ 32 }
    ensures many { length found.new ≡ length found.old }
    ensures here { kept found.new cell.now.store ≡ nearer_of (kept found.old cell.now.store) (further_of (up_to borders (kept found.old cell.now.load)) 1) }
    ensures other { (k : ℕ) → k ≢ cell.now.store → kept found.new k ≡ kept found.old k }
    ensures first { result ≡ (is_none (kept found.old cell.now.store) && is_some (up_to borders (kept found.old cell.now.load))) }
{
    let near = found[cell.load as usize];
    let load = match near {
        Some(at) if at.borders <= borders => near,
        _ => None,
    };
    let first = found[cell.store as usize].is_none() && load.is_some();
    offer(found, cell.store, further(load, 1));
    first
}

/// The same of all cells, where nothing is found across more borders than `borders`; whether nothing was found before for a STORE.
fn cross_all(graph: &Graph, borders: u32, found: &mut [Option<Nearest>]) -> bool
    requires count { length found.old ≡ length graph.now.operations }
    requires graph { IsGraph graph.now }
    requires few { borders + 1 < 2 ^ 32 }
    requires within { AreWithin borders found.old }
    requires crosses { CrossesBelow graph.now borders found.old }
    ensures many { length found.new ≡ length graph.now.operations }
    ensures found { (wanted : List Bool) → AreFound graph.now wanted found.old → AreFound graph.now wanted found.new }
    ensures within { AreWithin (borders + 1) found.new }
    ensures swept { Swept (borders + 1) found.old found.new }
    ensures crosses { CrossesBelow graph.now (borders + 1) found.new }
    ensures none { result ≡ false → (k : ℕ) → kept found.new k ≡ kept found.old k }
    ensures fewer { result ≡ true → missing graph.now found.new < missing graph.now found.old }
{
    // The LOAD and the STORE of each cell are operations.
    entries_keep_their_rules();
    let mut more = false;
    'cells: for i in 0..graph.cells() {
        let first = cross(&graph.cell(i), borders, found);
        more = either_holds(more, first);
    }
    more
}

/// The operation itself, across no border, where it is looked for.
fn itself(wanted: bool, k: u32) -> Option<Nearest>
    ensures { result ≡ itself_of wanted k }
{
    if wanted {
        Some(Nearest { borders: 0, op: k })
    } else {
        None
    }
}

/// From what is reached without a border to what is reached at all.
fn walk(graph: &Graph, found: &mut [Option<Nearest>])
    requires graph { IsGraph graph.now }
    requires many { length found.old ≡ length graph.now.operations }
    requires within { AreWithin 0 found.old }
    ensures { (wanted : List Bool) → IsBegun wanted found.old → AreNearest graph.now wanted found.new }
{
    'borders: for borders in 0..graph.cells() {
        sweep(graph, found);
        let more = cross_all(graph, borders, found);
        if !more {
            return;
        }
    }
    sweep(graph, found);
}

/// What is reached first from each operation, of those that are looked for; `None` where none of them is, across any number of borders.
pub(crate) fn find_nearest(
    alloc: Global,
    graph: &Graph,
    wanted: &[bool],
) -> Result<Vec<Option<Nearest>>, Memory>
    requires graph { IsGraph graph.now }
    requires many { length wanted.now ≡ length graph.now.operations }
    ensures { IfOk result (λ found. AreNearest graph.now wanted.now found.items) }
{
    // Each operation that is looked for is reached from itself across no border.
    let mut found = Vec::new(alloc);
    'operations: for k in 0..graph.len() {
        found.push(itself(wanted[k as usize], k))?;
    }
    walk(graph, &mut found);
    Ok(found)
}
