//! A cycle of a run, with what stood before it.

use crate::run_class::RunClass;
use op_graph::Graph;
use signature_table::Table;

/// A cycle of a run without faults, in a code, with a class of faults in it.
#[derive(Clone, Copy)]
pub(crate) struct CycleValues<'a> {
    /// The class.
    pub(crate) class: RunClass,
    /// The graph.
    pub(crate) graph: &'a Graph,
    /// The numbers of its code.
    pub(crate) table: &'a Table,
    /// The cycle, counted from 0.
    pub(crate) cycle: u32,
    /// The values of the cells that it reads.
    pub(crate) cells: &'a [i64],
    /// The values of the operations in the cycle before; none before the first.
    pub(crate) past: &'a [i64],
    /// The values of the operations in this cycle.
    pub(crate) values: &'a [i64],
}
