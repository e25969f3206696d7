//! The acts that the words of a cycle decide.

ghost use Rattle.fault_sites.specs.RunActs.{IsIn, act_at, columns as columns_of_class, rows as rows_of_class};
ghost use Rattle.fault_sites.specs.RunCycle.{as_cycle};

use crate::cycle_values::CycleValues;
use crate::flips::{BITS, flipped};
use crate::late::late_of;
use crate::run_class::RunClass;
use crate::telling::Acts;
use fault_script::Act;
use op_graph::{Graph, Op};
use vcp_base::operands;

impl Acts for CycleValues<'_> {
    ghost AreIn = { IsIn };

    ghost rows_of = { λ c. rows_of_class c.class };

    ghost columns_of = { λ c. columns_of_class c.class };

    ghost act_of = { λ c _. act_at c.class (as_cycle c) };

    fn rows(&self, op: &Op) -> u32 {
        match self.class {
            RunClass::Flips => 1,
            RunClass::Late => operands(op.kind),
        }
    }

    fn columns(&self, graph: &Graph, k: u32) -> u32 {
        match self.class {
            RunClass::Flips => BITS,
            RunClass::Late => graph.len() - k,
        }
    }

    fn act(&self, _graph: &Graph, k: u32, op: &Op, j: u32, i: u32) -> Option<Act> {
        match self.class {
            RunClass::Flips => Some(flipped(self, k, i)),
            RunClass::Late => late_of(self, op, j, k, i),
        }
    }
}
