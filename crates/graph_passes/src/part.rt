//! The part of a graph that is kept by tables, with its operations and cells numbered anew.

ghost use Rattle.std.specs.Prelude.{◌≡◌, ◌≤◌, ◌<◌, ◌++◌, ◌∷◌, ℕ, [], cond, length, map, replicate, suc, true, IfOk, OnOk};
ghost use Rattle.vcp_base.specs.Limits.{most_operations};
ghost use Rattle.op_graph.specs.Rules.{IsGraph};
ghost use Rattle.graph_passes.specs.Part.{below, chosen, moved as moved_of, moved_load, moved_output, own_number as own_number_of, part_of};
ghost use Rattle.graph_passes.specs.Tables.{AreKept, IsNumbered, by_places, by_tables, marked as marked_of, number_at as number_at_of};

use op_graph::{Graph, Loaded, Op, Outlet};
use std::alloc::Global;
use vcp_base::{Kind, Memory};

/// Which places of a list are kept, and the new number of each or of what takes its place.
pub(crate) struct Places {
    pub(crate) kept: Vec<bool>,
    pub(crate) numbers: Vec<u32>,
}

impl Drop for Places {
    fn drop(self) {
        let Places {
            kept: _,
            numbers: _,
        } = self;
    }
}

/// The part of a graph by its operations and cells that are kept, where that is a graph. What it changes
/// is made anew, and all other lists are the graph's own.
pub(crate) fn part(
    alloc: Global,
    graph: Graph,
    operations: &Places,
    cells: &Places,
) -> Result<Graph, Memory>
    requires { IsGraph (part_of (by_places operations.now cells.now) graph) }
    ensures { IfOk result (λ g. g ≡ part_of (by_places operations.now cells.now) graph) }
{
    let left = kept_lists(alloc, &graph, operations, cells)?;
    let mut lists = graph.into_lists();
    lists.outputs = left.outputs;
    lists.loads = left.loads;
    lists.stores = left.stores;
    lists.operations = left.operations;
    Ok(Graph::from_lists(lists))
}

/// The lists of a part that aren't the graph's own.
#[derive(Drop)]
struct KeptLists {
    outputs: Vec<Outlet>,
    loads: Vec<Loaded>,
    stores: Vec<u32>,
    operations: Vec<Op>,
}

/// What is kept of a graph's outputs, cells and operations, numbered anew.
fn kept_lists(
    alloc: Global,
    graph: &Graph,
    operations: &Places,
    cells: &Places,
) -> Result<KeptLists, Memory>
    ensures { IfOk result (AreKept graph.now operations.now cells.now) }
{
    let numbers: &[u32] = &operations.numbers;
    let kept_cell: &[bool] = &cells.kept;
    let outputs = moved_outputs(alloc, graph.all_outputs(), numbers)?;
    let loads = kept_loads(alloc, graph.loads(), numbers, kept_cell)?;
    let stores = kept_stores(alloc, graph.stores(), numbers, kept_cell)?;
    let operations = kept_operations(
        alloc,
        graph.operations(),
        &operations.kept,
        numbers,
        &cells.numbers,
    )?;
    Ok(KeptLists {
        outputs,
        loads,
        stores,
        operations,
    })
}

/// The mark at place `i`; none where there is no such place.
pub(crate) fn marked(marks: &[bool], i: usize) -> bool
    ensures { result ≡ marked_of marks.now i }
{
    if i < marks.len() { marks[i] } else { false }
}

/// The number at place `i`; 0 where there is none.
pub(crate) fn number_at(numbers: &[u32], i: usize) -> u32
    ensures { result ≡ number_at_of numbers.now i }
{
    if i < numbers.len() { numbers[i] } else { 0 }
}

/// So many places, all kept.
pub(crate) fn all_kept(alloc: Global, count: u32) -> Result<Places, Memory>
    requires few { count ≤ most_operations }
    ensures { IfOk result (λ places. IsNumbered (replicate count true) places) }
{
    numbered(alloc, vec![in alloc; true; count as usize]?)
}

/// The places by these marks, each that is kept with the number of those before it.
pub(crate) fn numbered(alloc: Global, kept: Vec<bool>) -> Result<Places, Memory>
    requires few { length kept.items ≤ most_operations }
    ensures { IfOk result (λ places. IsNumbered kept.items places) }
{
    match numbers_below(alloc, &kept) {
        Ok(numbers) => Ok(Places { kept, numbers }),
        Err(Memory) => Err(Memory),
    }
}

/// For each place, how many places before it are marked.
fn numbers_below(alloc: Global, marks: &[bool]) -> Result<Vec<u32>, Memory>
    requires few { length marks.now ≤ most_operations }
    ensures { IfOk result (λ numbers. (i : ℕ) → i < length marks.now → number_at_of numbers.items i ≡ below (marked_of marks.now) i) }
{
    let mut numbers = Vec::new(alloc);
    let mut count = 0u32;
    'marks: for i in 0..marks.len() {
        numbers.push(count)?;
        count = one_more(marks[i], count);
    }
    Ok(numbers)
}

/// One more than `count` where there is one more.
pub(crate) fn one_more(more: bool, count: u32) -> u32
    requires { count < most_operations }
    ensures { result ≡ cond more (suc count) count }
{
    if more { count + 1 } else { count }
}

/// Appends an entry that is kept.
fn push_kept<T: Drop>(entries: &mut Vec<T>, kept: bool, entry: T) -> Result<(), Memory>
    ensures { OnOk result (entries.new.items ≡ cond kept (entries.old.items ++ entry ∷ []) entries.old.items) }
{
    if kept {
        entries.push(entry)?;
    }
    Ok(())
}

/// The operation's own number: the cell's new number for LOAD and STORE, and else what it was.
fn own_number(kind: Kind, imm: i64, cell_numbers: &[u32]) -> i64
    ensures { result ≡ own_number_of (by_tables [] [] [] cell_numbers.now) kind imm }
{
    match kind {
        Kind::Load | Kind::Store => number_at(cell_numbers, imm.unsigned_abs() as usize) as i64,
        _ => imm,
    }
}

/// The operation with what it reads numbered anew.
pub(crate) fn moved(op: Op, numbers: &[u32], cell_numbers: &[u32]) -> Op
    ensures { result ≡ moved_of (by_tables [] numbers.now [] cell_numbers.now) op }
{
    Op {
        a: number_at(numbers, op.a as usize),
        b: number_at(numbers, op.b as usize),
        c: number_at(numbers, op.c as usize),
        imm: own_number(op.kind, op.imm, cell_numbers),
        ..op
    }
}

/// The operations that are kept.
fn kept_operations(
    alloc: Global,
    operations: &[Op],
    kept: &[bool],
    numbers: &[u32],
    cell_numbers: &[u32],
) -> Result<Vec<Op>, Memory>
    ensures { IfOk result (λ left. left.items ≡ chosen (marked_of kept.now) (moved_of (by_tables [] numbers.now [] cell_numbers.now)) 0 operations.now) }
{
    let mut left = Vec::new(alloc);
    'operations: for (i, op) in operations.iter().enumerate() {
        push_kept(
            &mut left,
            marked(kept, i),
            moved(*op, numbers, cell_numbers),
        )?;
    }
    Ok(left)
}

/// The outputs, with the new numbers of their OUTs.
fn moved_outputs(alloc: Global, outputs: &[Outlet], numbers: &[u32]) -> Result<Vec<Outlet>, Memory>
    ensures { IfOk result (λ left. left.items ≡ map (moved_output (by_tables [] numbers.now [] [])) outputs.now) }
{
    let mut left = Vec::new(alloc);
    'outputs: for output in outputs {
        left.push(Outlet {
            op: number_at(numbers, output.op as usize),
            ..*output
        })?;
    }
    Ok(left)
}

/// What a LOAD makes, with the new number of the LOAD.
fn renumbered(loaded: Loaded, numbers: &[u32]) -> Loaded
    ensures { result ≡ moved_load (by_tables [] numbers.now [] []) loaded }
{
    Loaded {
        load: number_at(numbers, loaded.load as usize),
        ..loaded
    }
}

/// What the LOADs of the kept cells make, with the new numbers of the LOADs.
fn kept_loads(
    alloc: Global,
    loads: &[Loaded],
    numbers: &[u32],
    cells: &[bool],
) -> Result<Vec<Loaded>, Memory>
    ensures { IfOk result (λ left. left.items ≡ chosen (marked_of cells.now) (moved_load (by_tables [] numbers.now [] [])) 0 loads.now) }
{
    let mut left = Vec::new(alloc);
    'loads: for (i, loaded) in loads.iter().enumerate() {
        push_kept(&mut left, marked(cells, i), renumbered(*loaded, numbers))?;
    }
    Ok(left)
}

/// The new numbers of the STOREs of the kept cells.
fn kept_stores(
    alloc: Global,
    stores: &[u32],
    numbers: &[u32],
    cells: &[bool],
) -> Result<Vec<u32>, Memory>
    ensures { IfOk result (λ left. left.items ≡ chosen (marked_of cells.now) (number_at_of numbers.now) 0 stores.now) }
{
    let mut left = Vec::new(alloc);
    'stores: for (i, store) in stores.iter().enumerate() {
        push_kept(
            &mut left,
            marked(cells, i),
            number_at(numbers, *store as usize),
        )?;
    }
    Ok(left)
}
