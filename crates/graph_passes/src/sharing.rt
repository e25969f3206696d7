//! Operations that do the same over the same operands are joined.

ghost use Rattle.std.specs.Prelude.{◌≡◌, ◌≢◌, ◌++◌, ◌∷◌, ℕ, [], Some, None, true, false, length, slice_get, IfOk, IfSome, OnOk};
ghost use Rattle.graph_passes.specs.Folding.{NoneFolds};
ghost use Rattle.graph_passes.specs.Joining.{done_by as done_by_of, IsFound, IsEntered, AreJoined};
ghost use Rattle.graph_passes.specs.SameRun.{MeansAs};
ghost use Rattle.graph_passes.specs.Sharing.{IsShared, NoneShares, joins as joins_of};

use crate::laws::what_is_shared_means_the_same;
use crate::part::{Places, all_kept, number_at, one_more, part};
use indexmap::IndexMap;
use op_graph::{Graph, Op, entries_are_found_by_one_walk, entries_keep_their_rules};
use std::alloc::Global;
use std::marker::Model;
use vcp_base::{Kind, Memory, kind_code, ty_code};

/// What an operation does, wherever it is, over operands that are numbered anew: the codes of its
/// kind and types, its operands and its own number.
#[derive(Clone, Copy, PartialEq, Eq, Hash)]
struct Work {
    kind: u8,
    from: u8,
    ty: u8,
    a: u32,
    b: u32,
    c: u32,
    imm: i64,
}

/// Joins each operation to the first before it of equal kind, types, operands and own number, which
/// keeps its place in the source; what reads it reads that one. INPUT, LOAD, STORE and OUT stay. What is
/// kept is numbered anew in the old order.
///
/// No two operations are left that would be joined. Where memory is wanting the graph is given up. The shared
/// graph means what its argument meant, as a folded one does; none is left that `fold` replaces where its
/// argument had none.
pub fn share(alloc: Global, graph: Graph) -> Result<Graph, Memory>
    ensures shared { IfOk result (λ g. IsShared graph g) }
    ensures means { IfOk result (λ g. MeansAs graph g) }
    ensures none_left { IfOk result (λ g. NoneShares g) }
    ensures folds_none { NoneFolds graph → IfOk result (λ g. NoneFolds g) }
{
    what_is_shared_means_the_same();
    // What an operation reads, and each cell's LOAD and STORE, are in the tables.
    entries_are_found_by_one_walk();
    entries_keep_their_rules();
    let _operations = graph.len();
    let operations = joined(alloc, &graph)?;
    let cells = all_kept(alloc, graph.cells())?;
    part(alloc, graph, &operations, &cells)
}

/// Whether operations of the kind are joined: all but those of inputs, cells and outputs.
fn joins(kind: Kind) -> bool
    ensures { result ≡ joins_of kind }
{
    match kind {
        Kind::Input | Kind::Load | Kind::Store | Kind::Out => false,
        _ => true,
    }
}

/// What an operation does, over operands that are numbered anew.
fn done_by(op: &Op, numbers: &[u32]) -> Work
    ensures { result ≡ done_by_of numbers.now op.now }
{
    Work {
        kind: kind_code(op.kind),
        from: ty_code(op.from),
        ty: ty_code(op.ty),
        a: number_at(numbers, op.a as usize),
        b: number_at(numbers, op.b as usize),
        c: number_at(numbers, op.c as usize),
        imm: op.imm,
    }
}

/// What the operations do that were kept and may be joined to, each with the operation's new number.
struct Firsts {
    firsts: IndexMap<Work, u32>,
}

impl Model for Firsts {
    ghost use Rattle.std.specs.Prelude.{List, ℕ};
    ghost use Rattle.graph_passes.specs.declared.sharing.Work.{Work};

    ghost Value = { List (Work × ℕ) };

    ghost view = { λ t. t.firsts.entries };
}

impl Drop for Firsts {
    fn drop(self) {
        let Firsts { firsts: _ } = self;
    }
}

impl Firsts {
    /// None so far. It takes no memory.
    fn new(alloc: Global) -> Firsts
        ensures { result ≡ [] }
    {
        Firsts {
            firsts: IndexMap::new(alloc),
        }
    }

    /// The number of the operation that does this; `None` where none does.
    fn number(&self, work: &Work) -> Option<u32>
        ensures found { IfSome result (λ n. (p : ℕ) × (slice_get self.now p ≡ Some (work.now, n))) }
        ensures none { result ≡ None → (p n : ℕ) → slice_get self.now p ≢ Some (work.now, n) }
    {
        self.firsts.get(work).copied()
    }

    /// Appends an operation that does what none before it does.
    fn enter(&mut self, work: Work, number: u32) -> Result<(), Memory>
        requires { (p n : ℕ) → slice_get self.old p ≢ Some (work, n) }
        ensures { OnOk result (self.new ≡ self.old ++ (work, number) ∷ []) }
    {
        self.firsts.insert(work, number)?;
        Ok(())
    }
}

/// The new number of an operation, and whether it is kept: it is the number of the first that does the
/// same, where there is one, and else `count`, that of those that are kept so far.
fn placed(firsts: &mut Firsts, op: &Op, numbers: &[u32], count: u32) -> Result<(u32, bool), Memory>
    ensures kept { IfOk result (λ r. r.1 ≡ true → r.0 ≡ count) }
    ensures entry { IfOk result (λ r. joins_of op.now.kind ≡ false → (r.1 ≡ true) × (firsts.new ≡ firsts.old)) }
    ensures joined { IfOk result (λ r. r.1 ≡ false → IsFound firsts.old firsts.new (done_by_of numbers.now op.now) r.0) }
    ensures first { IfOk result (λ r. r.1 ≡ true → joins_of op.now.kind ≡ true → IsEntered firsts.old firsts.new (done_by_of numbers.now op.now) count) }
{
    if !joins(op.kind) {
        return Ok((count, true));
    }
    let work = done_by(op, numbers);
    match firsts.number(&work) {
        Some(first) => return Ok((first, false)),
        None => {}
    }
    firsts.enter(work, count)?;
    Ok((count, true))
}

/// Which operations are kept, and the new number of each or of what it is joined to.
fn joined(alloc: Global, graph: &Graph) -> Result<Places, Memory>
    ensures { IfOk result (λ r. AreJoined graph.now (length graph.now.operations) r.kept.items r.numbers.items) }
{
    // What an operation reads is an earlier one.
    entries_keep_their_rules();
    let kept = Vec::new(alloc);
    let numbers = Vec::new(alloc);
    let mut places = Places { kept, numbers };
    let mut firsts = Firsts::new(alloc);
    let mut count = 0;
    'operations: for i in 0..graph.len() {
        let (number, is_kept) = placed(&mut firsts, &graph.operation(i), &places.numbers, count)?;
        places.kept.push(is_kept)?;
        places.numbers.push(number)?;
        count = one_more(is_kept, count);
    }
    Ok(places)
}
