//! The run of a graph on plain integers.

ghost use Rattle.std.specs.Prelude.{◌≡◌, ◌<◌, ◌≤◌, ◌++◌, ◌∷◌, [], None, Ok, IfOk, length, vec_capacity};
ghost use Rattle.vcp_base.specs.Values.{at as at_of};
ghost use Rattle.op_graph.specs.GraphRun.{cycle as cycle_of, initial, operand as operand_of, outcome_of, own as own_of, stored};
ghost use Rattle.op_graph.specs.Reads.{named as named_of};
ghost use Rattle.fault_sites.specs.Run.{after, begun};
ghost use Rattle.fault_sites.specs.Running.{Room, before, moment};

use op_graph::{Graph, Op, named};
use std::alloc::Global;
use std::mem::swap;
use vcp_base::{Kind, Memory, Row, StopKind, operands, short_outcome};

/// The values of a graph's cells and operations.
#[derive(Drop)]
pub(crate) struct Values {
    /// Those that the cells hold.
    pub(crate) cells: Vec<i64>,
    /// Those of the operations in the last cycle.
    pub(crate) operations: Vec<i64>,
}

/// The run of a graph on plain integers, between two cycles. All memory that it ever takes is taken by `new`.
#[derive(Drop)]
pub(crate) struct GraphValues {
    /// Its values.
    pub(crate) values: Values,
    /// Those before the last cycle.
    pub(crate) past: Values,
    /// The values of the inputs.
    pub(crate) row: Row,
}

/// The value at place `n`; 0 where there is none.
pub(crate) fn at(values: &[i64], n: u64) -> i64
    ensures { result ≡ at_of values.now n }
{
    match values.get(n as usize) {
        Some(value) => *value,
        None => 0,
    }
}

/// Appends a value where there is room.
fn append(values: &mut Vec<i64>, value: &i64)
    requires { length values.old.items < vec_capacity values.old }
    ensures items { values.new.items ≡ values.old.items ++ value.now ∷ [] }
    ensures capacity { vec_capacity values.old ≤ vec_capacity values.new }
{
    if values.push(*value).is_err() {
        unreachable!()
    }
}

/// The operation's own number: of an INPUT its value, 0 where there is none.
fn own(row: &Row, op: &Op) -> i64
    ensures { result ≡ own_of row.now op.now.kind op.now.imm }
{
    match op.kind {
        Kind::Input => {
            let n = op.imm.unsigned_abs();
            if n < row.len() as u64 {
                row.at(n as usize)
            } else {
                0
            }
        }
        _ => op.imm,
    }
}

/// The value of operand `j`; 0 where there is no such operand.
pub(crate) fn operand(cells: &[i64], values: &[i64], op: &Op, j: u32) -> i64
    ensures { result ≡ operand_of cells.now values.now op.now j (named_of op.now j) }
{
    if operands(op.kind) <= j {
        return 0;
    }
    match op.kind {
        Kind::Load => at(cells, op.imm.unsigned_abs()),
        _ => at(values, named(op, j) as u64),
    }
}

/// What an operation gives, or why it stops.
fn outcome(cells: &[i64], row: &Row, values: &[i64], op: &Op) -> Result<i64, StopKind>
    ensures { result ≡ outcome_of cells.now row.now values.now op.now }
{
    short_outcome(
        op.kind,
        op.from,
        op.ty,
        own(row, op),
        operand(cells, values, op, 0),
        operand(cells, values, op, 1),
        operand(cells, values, op, 2),
    )
}

/// Makes `values` those of a cycle, up to the first operation that stops. Answers why that one stops.
fn run_cycle(graph: &Graph, cells: &[i64], row: &Row, values: &mut Vec<i64>) -> Option<StopKind>
    requires room { length graph.now.operations ≤ vec_capacity values.old }
    ensures stop { result ≡ (cycle_of graph.now cells.now row.now).stop }
    ensures values { values.new.items ≡ (cycle_of graph.now cells.now row.now).values }
    ensures capacity { vec_capacity values.old ≤ vec_capacity values.new }
{
    values.clear();
    let count = graph.len();
    'operations: for k in 0..count {
        let op = graph.operation(k);
        match outcome(cells, row, values, &op) {
            Ok(value) => append(values, &value),
            Err(why) => return Some(why),
        }
    }
    None
}

/// Makes `cells` the values that their STOREs gave.
fn store(graph: &Graph, values: &[i64], cells: &mut Vec<i64>)
    requires room { length graph.now.stores ≤ vec_capacity cells.old }
    ensures cells { cells.new.items ≡ stored graph.now values.now }
    ensures capacity { vec_capacity cells.old ≤ vec_capacity cells.new }
{
    cells.clear();
    let stores = graph.stores();
    'cells: for i in 0..stores.len() {
        append(cells, &at(values, stores[i] as u64));
    }
}

/// Makes `cells` the values that they hold before the first cycle.
fn begin(graph: &Graph, cells: &mut Vec<i64>)
    requires room { length graph.now.loads ≤ vec_capacity cells.old }
    ensures cells { cells.new.items ≡ initial graph.now }
    ensures capacity { vec_capacity cells.old ≤ vec_capacity cells.new }
{
    cells.clear();
    let loads = graph.loads();
    'cells: for i in 0..loads.len() {
        append(cells, &loads[i].init);
    }
}

impl Values {
    /// No values, with room for those of a graph.
    fn new(alloc: Global, graph: &Graph) -> Result<Values, Memory>
        ensures cells { IfOk result (λ v. length graph.now.stores ≤ vec_capacity v.cells) }
        ensures operations { IfOk result (λ v. length graph.now.operations ≤ vec_capacity v.operations) }
        ensures none { IfOk result (λ v. v.operations.items ≡ []) }
    {
        Ok(Values {
            cells: Vec::with_capacity(alloc, graph.stores().len())?,
            operations: Vec::with_capacity(alloc, graph.len() as usize)?,
        })
    }
}

impl GraphValues {
    /// The run of a graph before its first cycle: the cells hold their initial values.
    pub(crate) fn new(alloc: Global, graph: &Graph) -> Result<GraphValues, Memory>
        ensures room { IfOk result (Room graph.now) }
        ensures begun { IfOk result (λ r. moment graph.now r ≡ begun graph.now) }
    {
        // There are as many LOADs as STOREs.
        let _cells = graph.cells();
        let mut values = Values::new(alloc, graph)?;
        let past = Values::new(alloc, graph)?;
        let row = Row::zeros(alloc, graph.inputs())?;
        begin(graph, &mut values.cells);
        Ok(GraphValues { values, past, row })
    }

    /// Runs one cycle on the values of the inputs: the operations in order, up to the first that stops, and answers why that one stops. Then the cells
    /// hold what their STOREs gave, which means nothing behind a stop. It takes no memory.
    pub(crate) fn cycle(&mut self, graph: &Graph) -> Option<StopKind>
        requires { Room graph.now self.old }
        ensures room { Room graph.now self.new }
        ensures stop { result ≡ (cycle_of graph.now self.old.values.cells.items self.old.row).stop }
        ensures before { before graph.now self.new ≡ moment graph.now self.old }
        ensures run { result ≡ None → moment graph.now self.new
            ≡ after (moment graph.now self.old) (cycle_of graph.now self.old.values.cells.items self.old.row) }
    {
        swap(&mut self.values, &mut self.past);
        let stop = run_cycle(
            graph,
            &self.past.cells,
            &self.row,
            &mut self.values.operations,
        );
        store(graph, &self.values.operations, &mut self.values.cells);
        stop
    }
}
