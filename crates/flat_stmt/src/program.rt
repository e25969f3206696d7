//! The graph of a program.

ghost use Rattle.std.specs.Prelude.{◌≡◌, ◌≢◌, ◌≤◌, IfOk, length};
ghost use Rattle.op_graph.specs.declared.build.Build.TheVariants as build;
ghost use Rattle.vcp_typed.specs.Size.{size};
ghost use Rattle.flat_expr.specs.Told.{Means};

use crate::stmt::add_stmts;
use flat_expr::{Flat, laws_of_states};
use op_graph::{Build, Graph};
use std::alloc::Global;
use vcp_base::Memory;
use vcp_typed::{Typed, values_fit};

/// Want of memory, where there is room for all operations.
fn memory(why: Build) -> Memory
    requires { why ≢ build.Full }
{
    match why {
        Build::Memory => Memory,
        Build::Full => unreachable!(),
    }
}

/// The graph that means the program, of at most as many operations as its Size; `Memory` where there
/// is no room for it.
///
/// Every branch becomes a path condition and every loop its turns. Over all rows of inputs that fit, the run
/// of the graph and the run of the program report the same: the rows of outputs, and the stop with its
/// kind, its place and its turns. Want of memory is the only refusal.
pub fn flatten(alloc: Global, program: &Typed) -> Result<Graph, Memory>
    ensures means { IfOk result (λ g. Means g program.now) }
    ensures few { IfOk result (λ g. length g.operations ≤ size program.now) }
{
    laws_of_states();
    values_fit();
    let mut flat = Flat::new(alloc, program)?;
    if let Err(why) = add_stmts(&mut flat, &program.body().items) {
        return Err(memory(why));
    }
    match flat.finish() {
        Ok(graph) => Ok(graph),
        Err(why) => Err(memory(why)),
    }
}
