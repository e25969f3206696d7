//! Which operation a name names.

ghost use Rattle.std.specs.Prelude.{◌≡◌, ◌<◌, IfOk, length};
ghost use Rattle.fault_sites.specs.NamedOperations.{is_at as is_at_of, is_named as is_named_of, found_next};
ghost use Rattle.fault_sites.specs.NamedOperations.{operation_named as operation_named_of};
ghost use Rattle.fault_sites.specs.NamedWords.{spot_of};

use crate::named::cutting::spot;
use crate::named::refused::Why;
use op_graph::{Graph, Op};
use run_report::variable_name;
use vcp_base::{Kind, Spot, is_same_name, kind_code};

/// Whether an operation stands for a place, where that is one.
fn is_at(place: Option<Spot>, spot: Spot) -> bool
    ensures { result ≡ is_at_of place spot }
{
    match place {
        None => false,
        Some(said) => said.line == spot.line && said.col == spot.col,
    }
}

/// Whether an operation has a name, which is this place where it is one, and is of this kind where one is said. A variable alone names no LOAD.
fn is_named(graph: &Graph, kind: Option<Kind>, name: &[u8], place: Option<Spot>, op: &Op) -> bool
    requires { place ≡ spot_of name.now }
    ensures { result ≡ is_named_of graph.now kind name.now op.now }
{
    let is_there = is_at(place, op.spot);
    let is_its = is_same_name(name, variable_name(graph, op.kind, op.imm.unsigned_abs()));
    match kind {
        Some(said) => kind_code(said) == kind_code(op.kind) && (is_its || is_there),
        None => match op.kind {
            Kind::Load => is_there,
            _ => is_its || is_there,
        },
    }
}

/// The one of some operations that has a name, with operation `i` behind them, which has the name or hasn't.
fn with_next(found: Result<u32, Why>, i: u32, is: bool) -> Result<u32, Why>
    ensures { result ≡ found_next found i is }
{
    if !is {
        return found;
    }
    match found {
        Err(Why::Unknown) => Ok(i),
        _ => Err(Why::Several),
    }
}

/// The operation that has a name, of this kind where one is said. A name is a variable or a place in the
/// source; one that no operation has, or more than one, is refused.
pub fn operation_named(graph: &Graph, kind: Option<Kind>, name: &[u8]) -> Result<u32, Why>
    ensures value { result ≡ operation_named_of graph.now kind name.now }
    ensures there { IfOk result (λ k. k < length graph.now.operations) }
{
    let place = spot(name);
    let mut found = Err(Why::Unknown);
    'operations: for i in 0..graph.len() {
        let op = graph.operation(i);
        found = with_next(found, i, is_named(graph, kind, name, place, &op));
    }
    found
}
