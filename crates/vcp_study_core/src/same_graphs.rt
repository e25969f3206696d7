//! Whether two graphs differ in places of the source alone.

ghost use Rattle.std.specs.Prelude.{◌≡◌, IsTrue, map};
ghost use Rattle.vcp_study_core.specs.SameGraphs.{AreSameButForPlaces, unplaced};

use op_graph::{Graph, Op};
use vcp_base::Text;

/// Whether two operations are the same but for their places.
fn same_operation(a: &Op, b: &Op) -> bool
    ensures { IsTrue result → unplaced a.now ≡ unplaced b.now }
{
    if a.kind != b.kind {
        return false;
    }
    if a.from != b.from {
        return false;
    }
    if a.ty != b.ty {
        return false;
    }
    if a.a != b.a {
        return false;
    }
    if a.b != b.b {
        return false;
    }
    if a.c != b.c {
        return false;
    }
    if a.imm != b.imm {
        return false;
    }
    if a.turn != b.turn {
        return false;
    }
    true
}

/// Whether the operations of two lists are the same but for their places, in order.
fn same_operations(a: &[Op], b: &[Op]) -> bool
    ensures { IsTrue result → map unplaced a.now ≡ map unplaced b.now }
{
    if a.len() != b.len() {
        return false;
    }
    for i in 0..a.len() {
        if !same_operation(&a[i], &b[i]) {
            return false;
        }
    }
    true
}

/// Whether two lists of names are the same.
fn same_names(a: &[Text], b: &[Text]) -> bool
    ensures { IsTrue result → a.now ≡ b.now }
{
    if a.len() != b.len() {
        return false;
    }
    for i in 0..a.len() {
        if a[i].bytes() != b[i].bytes() {
            return false;
        }
    }
    true
}

/// Whether two graphs are the same but for the places of their operations in a source.
pub(crate) fn same_but_for_places(a: &Graph, b: &Graph) -> bool
    ensures { IsTrue result → AreSameButForPlaces a.now b.now }
{
    if a.profile() != b.profile() {
        return false;
    }
    if !same_names(a.all_names(), b.all_names()) {
        return false;
    }
    if a.all_inputs() != b.all_inputs() {
        return false;
    }
    if a.all_outputs() != b.all_outputs() {
        return false;
    }
    if a.loads() != b.loads() {
        return false;
    }
    if a.stores() != b.stores() {
        return false;
    }
    if a.all_turn_nodes() != b.all_turn_nodes() {
        return false;
    }
    same_operations(a.operations(), b.operations())
}
