//! The lines of the acts that may be at an operation, and at all operations of a cycle.

ghost use Rattle.std.specs.Prelude.{◌≡◌, ◌<◌, ℕ, List, length};
ghost use Rattle.std.specs.Option.{option_to_list};
ghost use Rattle.op_graph.specs.Lists.{Lists};
ghost use Rattle.op_graph.specs.declared.op.Op.{Op as Operation};
ghost use Rattle.fault_script.specs.declared.act.Act.{Act as ActOf};
ghost use Rattle.fault_sites.specs.Acts.{acts_in, row_at, sites_by};
ghost use Rattle.fault_sites.specs.Sites.{sited};
ghost use Rattle.fault_sites.specs.Telling.{Tells};

use crate::lines::then_site;
use crate::part::Part;
use crate::site::Site;
use fault_script::Act;
use op_graph::{Graph, Op};
use vcp_outside::Pen;

/// The acts that may be at the operations of a graph in a cycle: at each of them in rows, mostly one for each operand, and columns, one for each value.
pub(crate) trait Acts {
    /// They are acts at this graph's operations.
    ghost AreIn: { Lists → Self → Type 0 };

    /// How many rows an operation has.
    ghost rows_of: { Self → Operation → ℕ };

    /// How many columns operation `k` has.
    ghost columns_of: { Self → Lists → ℕ → ℕ };

    /// The act at operation `k` in row `j` and column `i`, or none.
    ghost act_of: { Self → Lists → ℕ → Operation → ℕ → ℕ → List ActOf };

    /// How many rows an operation has.
    fn rows(&self, op: &Op) -> u32
        ensures { result ≡ rows_of self.now op.now };

    /// How many columns operation `k` has.
    fn columns(&self, graph: &Graph, k: u32) -> u32
        requires acts { AreIn graph.now self.now }
        requires there { k < length graph.now.operations }
        ensures { result ≡ columns_of self.now graph.now k };

    /// The act at operation `k` in row `j` and column `i`, where there is one.
    fn act(&self, graph: &Graph, k: u32, op: &Op, j: u32, i: u32) -> Option<Act>
        requires acts { AreIn graph.now self.now }
        requires there { k < length graph.now.operations }
        requires column { i < columns_of self.now graph.now k }
        ensures { act_of self.now graph.now k op.now j i ≡ option_to_list result };
}

/// A pen, and the part of the sites that is still to be told with it.
pub(crate) struct Telling<P> {
    pub(crate) pen: P,
    pub(crate) part: Part,
}

/// Goes on with the line of an act at operation `k` in cycle `n`, if there is one, where it is in the part.
fn then_act<P: Pen>(told: Telling<P>, n: u32, k: u32, act: Option<Act>) -> Telling<P>
    ensures { Tells (P.seen told.pen) (P.seen result.pen) told.part result.part (sited n k (option_to_list act)) }
{
    let Some(act) = act else {
        return told;
    };
    let Telling { pen, part } = told;
    if part.left == 0 {
        return Telling { pen, part };
    }
    if 0 < part.skip {
        let part = Part {
            skip: part.skip - 1,
            left: part.left,
        };
        return Telling { pen, part };
    }
    let site = Site {
        cycle: n,
        op: k,
        act,
    };
    let pen = then_site(pen.text(b"\n"), &site);
    let part = Part {
        skip: 0,
        left: part.left - 1,
    };
    Telling { pen, part }
}

/// Goes on with the acts of row `j` at operation `k` in cycle `n`.
fn then_row<P: Pen, A: Acts>(
    mut told: Telling<P>,
    acts: &A,
    graph: &Graph,
    n: u32,
    k: u32,
    op: &Op,
    j: u32,
) -> Telling<P>
    requires acts { A.AreIn graph.now acts.now }
    requires there { k < length graph.now.operations }
    ensures { Tells (P.seen told.pen) (P.seen result.pen) told.part result.part
        (sited n k (row_at (A.act_of acts.now graph.now k op.now) (A.columns_of acts.now graph.now k) j)) }
{
    'columns: for i in 0..acts.columns(graph, k) {
        let act = acts.act(graph, k, op, j, i);
        told = then_act(told, n, k, act);
    }
    told
}

/// Goes on with the acts at operation `k` in cycle `n`.
fn then_operation<P: Pen, A: Acts>(
    mut told: Telling<P>,
    acts: &A,
    graph: &Graph,
    n: u32,
    k: u32,
) -> Telling<P>
    requires acts { A.AreIn graph.now acts.now }
    requires there { k < length graph.now.operations }
    ensures { Tells (P.seen told.pen) (P.seen result.pen) told.part result.part
        (sited n k (acts_in (A.rows_of acts.now) (A.columns_of acts.now graph.now) (A.act_of acts.now graph.now) graph.now k)) }
{
    if told.part.left == 0 {
        return told;
    }
    let op = graph.operation(k);
    'rows: for j in 0..acts.rows(&op) {
        told = then_row(told, acts, graph, n, k, &op, j);
    }
    told
}

/// Goes on with the acts at all operations in cycle `n`.
pub(crate) fn then_acts<P: Pen, A: Acts>(
    mut told: Telling<P>,
    acts: &A,
    graph: &Graph,
    n: u32,
) -> Telling<P>
    requires { A.AreIn graph.now acts.now }
    ensures { Tells (P.seen told.pen) (P.seen result.pen) told.part result.part
        (sites_by (A.rows_of acts.now) (A.columns_of acts.now graph.now) (A.act_of acts.now graph.now) graph.now n) }
{
    'operations: for k in 0..graph.len() {
        told = then_operation(told, acts, graph, n, k);
    }
    told
}
